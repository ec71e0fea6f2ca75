//! The call `word`: `text` is how a word is printed. A copy of the word is equal to it, and the text of one that goes by a place is also what its
//! table has there. `kind` says what the word is:
//!
//! - `punct`, `key`, `regex`: what stands at `place` of the table of punctuation, keywords or regular expressions.
//! - `num`: the number `number`.
//! - `note`: a note of the form `form` (`open`, `line`, `close`, `slash` or `block`) with the text `of`.
//! - `gap`, `text`, `tpl`, `bind`, `refer`, `host`, `local_bind`, `local`, `prop`, `wasm`, `outer`, `splice`: such a word with the text `of`.
use glue_inputs::printed;
use glue_words::{NoteKind, Word, key_text, punct_text, regex_text};
use rows::{RowFault, number_at, text_at, text_difference, truth_difference};
use serde_json::Value;
use std::alloc::{AllocError, Global};
use values::{Duplicate, Seq, Text};

/// The first difference of a row with this call.
pub fn difference(alloc: Global, row: &Value) -> Result<Option<String>, RowFault> {
    let want = text_at(row, "text")?;
    let word = word_of(alloc, row)?;
    Ok(word_difference(alloc, word, want)?)
}

// The row's word.
fn word_of(alloc: Global, row: &Value) -> Result<Word, RowFault> {
    match text_at(row, "kind")? {
        "punct" => Ok(Word::Punct(place_of(row)?)),
        "key" => Ok(Word::Key(place_of(row)?)),
        "regex" => Ok(Word::Regex(place_of(row)?)),
        "num" => Ok(Word::Num(number_of(row)?)),
        "note" => note_of(alloc, row),
        kind => text_word(kind, Text::from_str(alloc, text_at(row, "of")?)?),
    }
}

// The place in a table.
fn place_of(row: &Value) -> Result<u8, RowFault> {
    match u8::try_from(number_at(row, "place")?) {
        Ok(place) => Ok(place),
        Err(_) => Err(RowFault::Row),
    }
}

// The number, which may be negative.
fn number_of(row: &Value) -> Result<i64, RowFault> {
    let Some(Value::Number(number)) = row.get("number") else {
        return Err(RowFault::Row);
    };
    match number.as_i64() {
        Some(number) => Ok(number),
        None => Err(RowFault::Row),
    }
}

// A note's form by its name.
fn form_of(name: &str) -> Option<NoteKind> {
    match name {
        "open" => Some(NoteKind::Open),
        "line" => Some(NoteKind::Line),
        "close" => Some(NoteKind::Close),
        "slash" => Some(NoteKind::Slash),
        "block" => Some(NoteKind::Block),
        _ => None,
    }
}

fn note_of(alloc: Global, row: &Value) -> Result<Word, RowFault> {
    let Some(form) = form_of(text_at(row, "form")?) else {
        return Err(RowFault::Row);
    };
    Ok(Word::Note(form, Text::from_str(alloc, text_at(row, "of")?)?))
}

// A word that holds a text alone, by the name of its kind.
fn text_word(kind: &str, text: Text) -> Result<Word, RowFault> {
    match kind {
        "gap" => Ok(Word::Gap(text)),
        "text" => Ok(Word::Text(text)),
        "tpl" => Ok(Word::Tpl(text)),
        "bind" => Ok(Word::Bind(text)),
        "refer" => Ok(Word::Refer(text, true)),
        "host" => Ok(Word::Host(text, false)),
        "local_bind" => Ok(Word::LocalBind(text)),
        "local" => Ok(Word::Local(text)),
        "prop" => Ok(Word::Prop(text)),
        "wasm" => Ok(Word::Wasm(text)),
        "outer" => Ok(Word::Outer(text)),
        "splice" => Ok(Word::Splice(text)),
        _ => Err(RowFault::Row),
    }
}

// What the table of a word's kind has at its place; for a word that goes by no place what is wanted.
fn listed_text<'a>(word: &Word, want: &'a str) -> &'a str {
    match word {
        Word::Punct(place) => punct_text(*place),
        Word::Key(place) => key_text(*place),
        Word::Regex(place) => regex_text(*place),
        _ => want,
    }
}

// The text of the word alone.
fn word_printed(alloc: Global, word: Word) -> Result<String, AllocError> {
    let mut words = Seq::new(alloc);
    words.push(word)?;
    printed(alloc, words)
}

fn word_difference(alloc: Global, word: Word, want: &str) -> Result<Option<String>, AllocError> {
    let again = word.copy(alloc)?;
    let is_same = again == word;
    drop(again);
    let listed = listed_text(&word, want);
    let text = word_printed(alloc, word)?;
    let told = text_difference(alloc, "text", text.as_str(), want)?;
    if told.is_some() {
        return Ok(told);
    }
    let told = text_difference(alloc, "listed", listed, want)?;
    if told.is_some() {
        return Ok(told);
    }
    truth_difference(alloc, "a copy is equal", is_same, true)
}
