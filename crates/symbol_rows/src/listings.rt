//! The call that reads a listing back.
use file_listing::read_listing;
use glue_ends::PlannedFile;
use rows::{RowFault, opt_bytes_at, text_at, text_difference, texts_at};
use serde_json::Value;
use std::alloc::{AllocError, Global};

// The lines that are wanted.
fn wanted(alloc: Global, row: &Value) -> Result<String, RowFault> {
    let mut want = String::new(alloc);
    for line in texts_at(alloc, row, "lines")?.as_slice() {
        want.push_str(line.as_str())?;
        want.push_str("\n")?;
    }
    Ok(want)
}

// The line of a file.
fn line_of(alloc: Global, file: &PlannedFile) -> Result<String, AllocError> {
    let form = if file.is_text { "text" } else { "hex" };
    let digits = hex::encode(alloc, file.bytes.as_slice())?;
    let path = file.path.as_str();
    let digits = digits.as_str();
    format!(in alloc; "{path} {form} {digits}\n")
}

// The lines of files.
fn lines_of(alloc: Global, files: &[PlannedFile]) -> Result<String, AllocError> {
    let mut lines = String::new(alloc);
    for file in files {
        let line = line_of(alloc, file)?;
        lines.push_str(line.as_str())?;
    }
    Ok(lines)
}

// What a text comes to.
fn told(alloc: Global, text: &[u8]) -> Result<String, AllocError> {
    match read_listing(alloc, text)? {
        Ok(files) => lines_of(alloc, files.as_slice()),
        Err(fault) => {
            let place = fault.place;
            format!(in alloc; "fault {place}\n")
        }
    }
}

// What a text comes to, beside what is wanted.
fn told_difference(alloc: Global, text: &[u8], want: &str) -> Result<Option<String>, RowFault> {
    let made = told(alloc, text)?;
    Ok(text_difference(alloc, "lines", made.as_str(), want)?)
}

/// The first difference of a row of this call.
pub fn difference(alloc: Global, row: &Value) -> Result<Option<String>, RowFault> {
    let want = wanted(alloc, row)?;
    match opt_bytes_at(alloc, row, "bytes")? {
        Some(bytes) => told_difference(alloc, bytes.as_slice(), want.as_str()),
        None => told_difference(alloc, text_at(row, "text")?.as_bytes(), want.as_str()),
    }
}
