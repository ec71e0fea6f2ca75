//! Rows of files whose custom sections are replaced.
use crate::arguments::only;
use crate::compare::fault_difference;
use rows::{RowFault, bytes_at, bytes_difference, flag_at, text_at, truth_difference};
use serde_json::Value;
use std::alloc::Global;
use wasm_core::ParseFault;
use wasm_sections::{describe, has_description, split_debug_info};

/// The row of a file that is split from its debugging information.
pub fn split_difference(alloc: Global, row: &Value) -> Result<Option<String>, RowFault> {
    only(row, &["name", "call", "file", "url", "fault", "bytes"])?;
    let file = bytes_at(alloc, row, "file")?;
    let left = split_debug_info(alloc, &file, text_at(row, "url")?);
    left_difference(alloc, row, left)
}

/// The row of a file that gets a description.
pub fn described_difference(alloc: Global, row: &Value) -> Result<Option<String>, RowFault> {
    only(
        row,
        &["name", "call", "file", "description", "fault", "bytes"],
    )?;
    let file = bytes_at(alloc, row, "file")?;
    let description = bytes_at(alloc, row, "description")?;
    let left = describe(alloc, &file, &description);
    left_difference(alloc, row, left)
}

fn left_difference(
    alloc: Global,
    row: &Value,
    left: Result<Vec<u8>, ParseFault>,
) -> Result<Option<String>, RowFault> {
    match left {
        Ok(found) => bytes_left_difference(alloc, row, &found),
        Err(ParseFault::Parse { place }) => fault_difference(alloc, row, Some(place)),
        Err(ParseFault::OutOfMemory) => Err(RowFault::OutOfMemory),
    }
}

fn bytes_left_difference(
    alloc: Global,
    row: &Value,
    found: &[u8],
) -> Result<Option<String>, RowFault> {
    if let Some(difference) = fault_difference(alloc, row, None)? {
        return Ok(Some(difference));
    }
    let wanted = bytes_at(alloc, row, "bytes")?;
    Ok(bytes_difference(alloc, "bytes", found, &wanted)?)
}

/// The row of whether a file has a description.
pub fn has_difference(alloc: Global, row: &Value) -> Result<Option<String>, RowFault> {
    only(row, &["name", "call", "file", "fault", "described"])?;
    let file = bytes_at(alloc, row, "file")?;
    match has_description(alloc, &file) {
        Ok(found) => described_truth_difference(alloc, row, found),
        Err(ParseFault::Parse { place }) => fault_difference(alloc, row, Some(place)),
        Err(ParseFault::OutOfMemory) => Err(RowFault::OutOfMemory),
    }
}

fn described_truth_difference(
    alloc: Global,
    row: &Value,
    found: bool,
) -> Result<Option<String>, RowFault> {
    if let Some(difference) = fault_difference(alloc, row, None)? {
        return Ok(Some(difference));
    }
    Ok(truth_difference(alloc, "described", found, flag_at(row, "described")?)?)
}
