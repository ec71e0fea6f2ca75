//! Calls on a text in the marked notation, `of`:
//!
//! - `marked`: `text` is what the words print that it reads as, or `fault` is the fault with the place of the first part that isn't read.
//! - `renamed`: `text` is the same with other names in the place of those that `names` has as its keys, each with the name for it.
//! - `spread`: `text` is the same with words in the place of the local names that `spreads` has as its keys, each with a text in the marked
//!   notation.
use glue_inputs::printed;
use glue_marked::{MarkFault, marked, renamed_words, spread_words};
use glue_words::Word;
use rows::{RowFault, opt_text_at, text_at, text_difference, text_of};
use serde_json::Value;
use std::alloc::Global;
use values::{Seq, Text};

/// The first difference of a row with one of these calls.
pub fn difference(alloc: Global, row: &Value) -> Result<Option<String>, RowFault> {
    let of = text_at(row, "of")?;
    match text_at(row, "call")? {
        "marked" => marked_difference(alloc, of, row),
        "renamed" => compared(alloc, renamed(alloc, of, row)?, text_at(row, "text")?),
        "spread" => compared(alloc, spread(alloc, of, row)?, text_at(row, "text")?),
        _ => Err(RowFault::Row),
    }
}

// The first difference of the words' text.
fn compared(alloc: Global, words: Seq<Word>, want: &str) -> Result<Option<String>, RowFault> {
    let text = printed(alloc, words)?;
    Ok(text_difference(alloc, "text", text.as_str(), want)?)
}

// Of a text that is read, where `fault` is a fault that is wanted.
fn read_difference(
    alloc: Global,
    words: Seq<Word>,
    fault: Option<&str>,
    row: &Value,
) -> Result<Option<String>, RowFault> {
    match fault {
        Some(fault) => Ok(Some(format!(in alloc; "it is read, for {fault}")?)),
        None => compared(alloc, words, text_at(row, "text")?),
    }
}

// Of one that isn't.
fn fault_difference(
    alloc: Global,
    place: usize,
    fault: Option<&str>,
) -> Result<Option<String>, RowFault> {
    let told = format!(in alloc; "BadMark {place}")?;
    let want = fault.unwrap_or("none");
    Ok(text_difference(alloc, "fault", told.as_str(), want)?)
}

fn marked_difference(alloc: Global, of: &str, row: &Value) -> Result<Option<String>, RowFault> {
    let fault = opt_text_at(row, "fault")?;
    match marked(alloc, of) {
        Ok(words) => read_difference(alloc, Seq::from_vec(words), fault, row),
        Err(MarkFault::BadMark { place }) => fault_difference(alloc, place, fault),
        Err(MarkFault::OutOfMemory) => Err(RowFault::OutOfMemory),
    }
}

// The words of a text that is to be read.
fn words_of(alloc: Global, of: &str) -> Result<Seq<Word>, RowFault> {
    match marked(alloc, of) {
        Ok(words) => Ok(Seq::from_vec(words)),
        Err(MarkFault::BadMark { .. }) => Err(RowFault::Row),
        Err(MarkFault::OutOfMemory) => Err(RowFault::OutOfMemory),
    }
}

// A key with the name for it.
fn pair_of(alloc: Global, key: &str, value: &Value) -> Result<(Text, Text), RowFault> {
    let name = Text::from_str(alloc, text_of(value)?)?;
    Ok((Text::from_str(alloc, key)?, name))
}

fn pairs_of(alloc: Global, row: &Value) -> Result<Vec<(Text, Text)>, RowFault> {
    let Some(Value::Object(members)) = row.get("names") else {
        return Err(RowFault::Row);
    };
    let mut pairs = Vec::new(alloc);
    for (key, value) in members.iter() {
        pairs.push(pair_of(alloc, key.as_str(), value)?)?;
    }
    Ok(pairs)
}

fn renamed(alloc: Global, of: &str, row: &Value) -> Result<Seq<Word>, RowFault> {
    let names = pairs_of(alloc, row)?;
    let words = words_of(alloc, of)?;
    Ok(renamed_words(alloc, names.as_slice(), &[], words.as_slice())?)
}

// A key with the words for it.
fn spread_of(alloc: Global, key: &str, value: &Value) -> Result<(Text, Seq<Word>), RowFault> {
    let words = words_of(alloc, text_of(value)?)?;
    Ok((Text::from_str(alloc, key)?, words))
}

fn spreads_of(alloc: Global, row: &Value) -> Result<Vec<(Text, Seq<Word>)>, RowFault> {
    let Some(Value::Object(members)) = row.get("spreads") else {
        return Err(RowFault::Row);
    };
    let mut spreads = Vec::new(alloc);
    for (key, value) in members.iter() {
        spreads.push(spread_of(alloc, key.as_str(), value)?)?;
    }
    Ok(spreads)
}

fn spread(alloc: Global, of: &str, row: &Value) -> Result<Seq<Word>, RowFault> {
    let spreads = spreads_of(alloc, row)?;
    let words = words_of(alloc, of)?;
    Ok(spread_words(alloc, spreads.as_slice(), words.as_slice())?)
}
