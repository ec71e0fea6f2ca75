//! Rows of function bodies.
use crate::arguments::only;
use crate::compare::{fault_difference, printed_difference};
use crate::numbers::{numbering_at, same_numbers};
use crate::types::runs_of;
use rows::{
    RowFault, array_at, bytes_at, bytes_difference, flag_at, number_difference, opt_bytes_at,
    opt_number_at,
};
use serde_json::Value;
use std::alloc::{AllocError, Global};
use values::Seq;
use wasm_bytes::{Counts, ReadFault, Reader, push_number};
use wasm_code::{Body, read_code_entry, write_code, write_expression};
use wasm_core::Ops;
use wasm_ops::Numbering;

const KEYS: &[&str] = &[
    "name",
    "call",
    "entry",
    "operators",
    "nested",
    "params",
    "memories",
    "fault",
    "body",
    "ops",
    "op_count",
    "same",
    "numbers",
    "expression",
];

/// What a body or an initial expression can name: three types and functions, and two entries of each other kind.
pub const COUNTS: Counts = Counts {
    types: 3,
    funcs: 3,
    tables: 2,
    memories: 2,
    globals: 2,
    tags: 2,
    elems: 2,
    segments: 2,
    locals: 0,
};

// What the body of a row can name.
fn counts_of(row: &Value) -> Result<Counts, RowFault> {
    match u32::try_from(opt_number_at(row, "memories")?.unwrap_or(2)) {
        Ok(memories) => Ok(Counts { memories, ..COUNTS }),
        Err(_) => Err(RowFault::Row),
    }
}

// Appends these bytes so many times.
fn repeat(out: &mut Vec<u8>, count: u64, bytes: &[u8]) -> Result<(), AllocError> {
    for _ in 0..count {
        out.extend_from_slice(bytes)?;
    }
    Ok(())
}

// A body without locals behind its length, of so many blocks in one another and these operators behind them.
fn entry_of(alloc: Global, nested: u64, operators: &[u8]) -> Result<Vec<u8>, AllocError> {
    let mut body = Vec::new(alloc);
    body.push(0)?;
    repeat(&mut body, nested, b"\x02\x40")?;
    repeat(&mut body, nested, b"\x0b")?;
    body.extend_from_slice(operators)?;
    let mut entry = Vec::new(alloc);
    push_number(&mut entry, body.len() as u64)?;
    entry.extend_from_slice(&body).and(Ok(entry))
}

// The body behind its length.
fn entry_at(alloc: Global, row: &Value) -> Result<Vec<u8>, RowFault> {
    if let Some(entry) = opt_bytes_at(alloc, row, "entry")? {
        return Ok(entry);
    }
    let operators = bytes_at(alloc, row, "operators")?;
    let nested = opt_number_at(row, "nested")?.unwrap_or(0);
    Ok(entry_of(alloc, nested, &operators)?)
}

/// The row of a body.
pub fn difference(alloc: Global, row: &Value) -> Result<Option<String>, RowFault> {
    only(row, KEYS)?;
    let counts = counts_of(row)?;
    let params = opt_number_at(row, "params")?.unwrap_or(1);
    let entry = entry_at(alloc, row)?;
    match read_code_entry(&mut Reader::new(&entry), alloc, &counts, params) {
        Ok(body) => read_difference(alloc, row, &entry, body),
        Err(ReadFault::Parse { place }) => fault_difference(alloc, row, Some(place)),
        Err(ReadFault::OutOfMemory) => Err(RowFault::OutOfMemory),
    }
}

// The body was read of these bytes.
fn read_difference(
    alloc: Global,
    row: &Value,
    entry: &[u8],
    body: Body,
) -> Result<Option<String>, RowFault> {
    let found = body_difference(alloc, row, entry, &body);
    drop(body);
    found
}

fn body_difference(
    alloc: Global,
    row: &Value,
    entry: &[u8],
    body: &Body,
) -> Result<Option<String>, RowFault> {
    if let Some(found) = fault_difference(alloc, row, None)? {
        return Ok(Some(found));
    }
    if let Some(found) = printed_difference(alloc, row, "body", body)? {
        return Ok(Some(found));
    }
    if let Some(found) = printed_difference(alloc, row, "ops", &body.ops)? {
        return Ok(Some(found));
    }
    if let Some(found) = op_count_difference(alloc, row, &body.ops)? {
        return Ok(Some(found));
    }
    if flag_at(row, "same")?
        && let Some(found) = bytes_difference(alloc, "same", &written(alloc, body)?, entry)?
    {
        return Ok(Some(found));
    }
    expression_difference(alloc, row, &body.ops)
}

fn op_count_difference(alloc: Global, row: &Value, ops: &Ops) -> Result<Option<String>, RowFault> {
    let Some(wanted) = opt_number_at(row, "op_count")? else {
        return Ok(None);
    };
    let count = ops.unpack(alloc)?.len() as u64;
    Ok(number_difference(alloc, "op_count", count, wanted)?)
}

// The bytes of a body, where each place has itself as its number.
fn written(alloc: Global, body: &Body) -> Result<Vec<u8>, AllocError> {
    let numbers = same_numbers(alloc)?;
    let mut out = Vec::new(alloc);
    let done = write_code(&mut out, alloc, &numbers, body);
    drop(numbers);
    done.and(Ok(out))
}

fn expression_difference(
    alloc: Global,
    row: &Value,
    ops: &Ops,
) -> Result<Option<String>, RowFault> {
    let Some(wanted) = opt_bytes_at(alloc, row, "expression")? else {
        return Ok(None);
    };
    let numbers = numbering_at(alloc, row, "numbers")?;
    let found = expression(alloc, &numbers, ops);
    drop(numbers);
    Ok(bytes_difference(alloc, "expression", &found?, &wanted)?)
}

// The bytes of operators, where places have these numbers.
fn expression(alloc: Global, numbers: &Numbering, ops: &Ops) -> Result<Vec<u8>, AllocError> {
    let mut out = Vec::new(alloc);
    write_expression(&mut out, numbers, ops).and(Ok(out))
}

/// The row of a body with runs of locals and no operators.
pub fn locals_difference(alloc: Global, row: &Value) -> Result<Option<String>, RowFault> {
    only(row, &["name", "call", "runs", "bytes"])?;
    let wanted = bytes_at(alloc, row, "bytes")?;
    let body = Body {
        locals: runs_of(alloc, array_at(row, "runs")?)?,
        ops: Ops::new(alloc),
    };
    let found = written(alloc, &body);
    drop(body);
    Ok(bytes_difference(alloc, "bytes", &found?, &wanted)?)
}
