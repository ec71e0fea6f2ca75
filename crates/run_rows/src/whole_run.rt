//! A row of a whole run.
use crate::input;
use crate::known::only_known;
use cli_support::{MemSink, MemSource};
use glue_run::{Ran, run};
use rows::{
    RowFault, flag_at, number_at, number_difference, opt_array_at, opt_number_at, opt_text_at,
    text_difference, texts_at,
};
use serde_json::Value;
use std::alloc::{AllocError, Global};

// The further keys of such a row.
const KEYS: &[&str] = &[
    "words",
    "pieces",
    "read_fails",
    "write_fails",
    "each_front",
    "other_fronts",
];

// What is wanted of a run.
const WANTED: &[&str] = &["status", "wanted", "wanted_start"];

// The memory that is run over: how many bytes a read gives, and the numbers of the read and of the write that fail, 0 for none.
#[derive(Clone, Copy)]
struct Ends {
    piece: usize,
    read_fails: u64,
    write_fails: u64,
}

// What is wanted of a run: its status, and what is written, or how that begins.
#[derive(Clone, Copy)]
struct Wanted<'a> {
    status: u64,
    text: &'a str,
    is_start: bool,
}

fn ends_of(row: &Value) -> Result<Ends, RowFault> {
    let piece = opt_number_at(row, "pieces")?.unwrap_or(65_536);
    Ok(Ends {
        piece: usize::try_from(piece).unwrap_or(65_536),
        read_fails: opt_number_at(row, "read_fails")?.unwrap_or(0),
        write_fails: opt_number_at(row, "write_fails")?.unwrap_or(0),
    })
}

fn wanted_of(object: &Value) -> Result<Wanted<'_>, RowFault> {
    let status = number_at(object, "status")?;
    match (
        opt_text_at(object, "wanted")?,
        opt_text_at(object, "wanted_start")?,
    ) {
        (Some(text), None) => Ok(Wanted {
            status,
            text,
            is_start: false,
        }),
        (None, Some(text)) => Ok(Wanted {
            status,
            text,
            is_start: true,
        }),
        _ => Err(RowFault::Row),
    }
}

// What was written, beside what is wanted.
fn text_told(alloc: Global, taken: &[u8], wanted: Wanted) -> Result<Option<String>, RowFault> {
    let taken = if wanted.is_start {
        taken.get(..wanted.text.len()).unwrap_or(taken)
    } else {
        taken
    };
    match std::str::from_utf8(taken) {
        Ok(text) => Ok(text_difference(alloc, "what is written", text, wanted.text)?),
        Err(_) => Ok(Some(String::from_str(alloc, "what is written: no UTF-8")?)),
    }
}

// The status of a run.
fn status_of(
    alloc: Global,
    words: &[String],
    bytes: &[u8],
    ends: Ends,
    sink: &mut MemSink,
) -> Result<u8, AllocError> {
    let fails = [ends.read_fails].to_vec(alloc)?;
    let mut source = MemSource::new(bytes.to_vec(alloc)?, ends.piece.max(1), fails);
    let Ran { status, output } = run(alloc, words, &mut source, sink);
    drop(output);
    Ok(status)
}

// A run on these bytes.
fn run_difference(
    alloc: Global,
    words: &[String],
    bytes: &[u8],
    ends: Ends,
    wanted: Wanted,
) -> Result<Option<String>, RowFault> {
    let mut sink = MemSink::new(alloc, [ends.write_fails].to_vec(alloc)?);
    let status = status_of(alloc, words, bytes, ends, &mut sink)?;
    let told = number_difference(alloc, "the status", u64::from(status), wanted.status)?;
    if told.is_some() {
        return Ok(told);
    }
    text_told(alloc, sink.taken(), wanted)
}

// What is wanted of the prefix with this length.
fn wanted_of_front<'a>(row: &'a Value, length: usize) -> Result<Wanted<'a>, RowFault> {
    for other in opt_array_at(row, "other_fronts")?.unwrap_or(&[]) {
        if number_at(other, "length")? == length as u64 {
            only_known(other, &[WANTED, &["length"]])?;
            return wanted_of(other);
        }
    }
    wanted_of(row)
}

// A run on each proper prefix.
fn fronts_difference(
    alloc: Global,
    row: &Value,
    words: &[String],
    bytes: &[u8],
) -> Result<Option<String>, RowFault> {
    let ends = ends_of(row)?;
    for length in 0..bytes.len() {
        let (front, _) = bytes.split_at(length);
        let wanted = wanted_of_front(row, length)?;
        if let Some(told) = run_difference(alloc, words, front, ends, wanted)? {
            let told = told.as_str();
            return Ok(Some(format!(in alloc; "the first {length} bytes: {told}")?));
        }
    }
    Ok(None)
}

/// What a run comes to, beside what is wanted.
pub fn difference(alloc: Global, row: &Value) -> Result<Option<String>, RowFault> {
    only_known(row, &[input::KEYS, KEYS, WANTED])?;
    let words = texts_at(alloc, row, "words")?;
    let bytes = input::module_of(alloc, row)?;
    if flag_at(row, "each_front")? {
        return fronts_difference(alloc, row, words.as_slice(), bytes.as_slice());
    }
    let (ends, wanted) = (ends_of(row)?, wanted_of(row)?);
    run_difference(alloc, words.as_slice(), bytes.as_slice(), ends, wanted)
}
