//! Rows of files and of the content of custom sections.
use crate::arguments::only;
use crate::compare::{fault_difference, printed_difference};
use rows::{
    RowFault, bytes_at, flag_at, number_at, number_difference, opt_number_at, text_at,
    truth_difference,
};
use serde_json::Value;
use std::alloc::Global;
use wasm_bytes::ReadFault;
use wasm_core::{ParseFault, Section, sections};
use wasm_file::{Parts, lists_feature, read_names, read_parts, read_producers};

/// The row of the frames of a file.
pub fn sections_difference(alloc: Global, row: &Value) -> Result<Option<String>, RowFault> {
    only(row, &["name", "call", "file", "fault", "sections", "count"])?;
    let bytes = bytes_at(alloc, row, "file")?;
    match sections(alloc, &bytes) {
        Ok(found) => frames_difference(alloc, row, &found),
        Err(ParseFault::Parse { place }) => fault_difference(alloc, row, Some(place)),
        Err(ParseFault::OutOfMemory) => Err(RowFault::OutOfMemory),
    }
}

fn frames_difference(
    alloc: Global,
    row: &Value,
    frames: &[Section],
) -> Result<Option<String>, RowFault> {
    if let Some(found) = fault_difference(alloc, row, None)? {
        return Ok(Some(found));
    }
    if let Some(found) = printed_difference(alloc, row, "sections", &frames)? {
        return Ok(Some(found));
    }
    match opt_number_at(row, "count")? {
        Some(count) => Ok(number_difference(alloc, "count", frames.len() as u64, count)?),
        None => Ok(None),
    }
}

/// The row of the lists of a file.
pub fn lists_difference(alloc: Global, row: &Value) -> Result<Option<String>, RowFault> {
    only(row, &["name", "call", "file", "fault", "lists"])?;
    let bytes = bytes_at(alloc, row, "file")?;
    match read_parts(alloc, &bytes) {
        Ok(parts) => parts_difference(alloc, row, parts),
        Err(ReadFault::Parse { place }) => fault_difference(alloc, row, Some(place)),
        Err(ReadFault::OutOfMemory) => Err(RowFault::OutOfMemory),
    }
}

fn parts_difference(alloc: Global, row: &Value, parts: Parts) -> Result<Option<String>, RowFault> {
    let printed = printed_difference(alloc, row, "lists", &parts);
    drop(parts);
    if let Some(found) = fault_difference(alloc, row, None)? {
        return Ok(Some(found));
    }
    printed
}

/// The row of the content of a name section.
pub fn names_difference(alloc: Global, row: &Value) -> Result<Option<String>, RowFault> {
    only(row, &["name", "call", "bytes", "funcs", "answer"])?;
    let Ok(funcs) = u32::try_from(number_at(row, "funcs")?) else {
        return Err(RowFault::Row);
    };
    let bytes = bytes_at(alloc, row, "bytes")?;
    let names = read_names(alloc, &bytes, funcs)?;
    printed_difference(alloc, row, "answer", &names)
}

/// The row of the content of a producers section.
pub fn producers_difference(alloc: Global, row: &Value) -> Result<Option<String>, RowFault> {
    only(row, &["name", "call", "bytes", "answer"])?;
    let bytes = bytes_at(alloc, row, "bytes")?;
    let fields = read_producers(alloc, &bytes)?;
    printed_difference(alloc, row, "answer", &fields)
}

/// The row of the content of a section of target features.
pub fn feature_difference(alloc: Global, row: &Value) -> Result<Option<String>, RowFault> {
    only(row, &["name", "call", "bytes", "feature", "listed"])?;
    let bytes = bytes_at(alloc, row, "bytes")?;
    let listed = lists_feature(&bytes, text_at(row, "feature")?);
    Ok(truth_difference(alloc, "listed", listed, flag_at(row, "listed")?)?)
}
