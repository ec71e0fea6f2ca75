//! A row of a description that doesn't read.
use crate::inputs::counts;
use crate::known::only_known;
use lower_fault::explain_lower;
use rows::{RowFault, opt_bytes_at, text_at, text_difference};
use serde_json::Value;
use std::alloc::Global;

// The keys of a row.
const KEYS: &[&str] = &["name", "want", "text", "hex", "module"];

// The bytes of the description.
fn text_of(alloc: Global, row: &Value) -> Result<Vec<u8>, RowFault> {
    match opt_bytes_at(alloc, row, "hex")? {
        Some(bytes) => Ok(bytes),
        None => Ok(Vec::from_slice(alloc, text_at(row, "text")?.as_bytes())?),
    }
}

/// What is said of the row's description beside what is wanted.
pub fn difference(alloc: Global, row: &Value) -> Result<Option<String>, RowFault> {
    only_known(row, KEYS)?;
    let text = text_of(alloc, row)?;
    let module = opt_bytes_at(alloc, row, "module")?;
    let counts = counts(alloc, module.as_ref().map(|bytes| bytes.as_slice()))?;
    let got = explain_lower(alloc, counts.as_ref(), text.as_slice())?;
    let want = text_at(row, "want")?;
    Ok(text_difference(alloc, "words", got.as_str(), want)?)
}
