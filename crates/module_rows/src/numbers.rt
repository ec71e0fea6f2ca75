//! The numbers that places have in the file that is written.
use crate::arguments::{number32_of, only};
use rows::{RowFault, array_at, number_at, number_difference};
use serde_json::Value;
use std::alloc::{AllocError, Global};
use values::Seq;
use wasm_ops::{Numbering, number_at as number_of_place};

// The keys of the lists in a row.
const KEYS: &[&str] = &[
    "types", "funcs", "tables", "memories", "globals", "tags", "elems", "segments",
];

// Nothing has a number.
fn no_numbers(alloc: Global) -> Numbering {
    Numbering {
        types: Seq::new(alloc),
        funcs: Seq::new(alloc),
        tables: Seq::new(alloc),
        memories: Seq::new(alloc),
        globals: Seq::new(alloc),
        tags: Seq::new(alloc),
        elems: Seq::new(alloc),
        segments: Seq::new(alloc),
    }
}

// Appends the list under a key.
fn fill(out: &mut Seq<u32>, lists: &Value, key: &str) -> Result<(), RowFault> {
    for value in array_at(lists, key)? {
        out.push(number32_of(value)?)?;
    }
    Ok(())
}

fn fill_first(out: &mut Numbering, lists: &Value) -> Result<(), RowFault> {
    fill(&mut out.types, lists, "types")?;
    fill(&mut out.funcs, lists, "funcs")?;
    fill(&mut out.tables, lists, "tables")?;
    fill(&mut out.memories, lists, "memories")
}

fn fill_others(out: &mut Numbering, lists: &Value) -> Result<(), RowFault> {
    fill(&mut out.globals, lists, "globals")?;
    fill(&mut out.tags, lists, "tags")?;
    fill(&mut out.elems, lists, "elems")?;
    fill(&mut out.segments, lists, "segments")
}

fn fill_all(out: &mut Numbering, lists: &Value) -> Result<(), RowFault> {
    fill_first(out, lists)?;
    fill_others(out, lists)
}

/// The numbers that places have by the object of lists under a key.
pub fn numbering_at(alloc: Global, row: &Value, key: &str) -> Result<Numbering, RowFault> {
    let Some(lists) = row.get(key) else {
        return Err(RowFault::Row);
    };
    only(lists, KEYS)?;
    let mut numbers = no_numbers(alloc);
    fill_all(&mut numbers, lists).and(Ok(numbers))
}

// Appends the first numbers, so many.
fn count_up(out: &mut Seq<u32>, count: u32) -> Result<(), AllocError> {
    for number in 0..count {
        out.push(number)?;
    }
    Ok(())
}

fn count_all(out: &mut Numbering) -> Result<(), AllocError> {
    count_up(&mut out.types, 3)?;
    count_up(&mut out.funcs, 3)?;
    count_up(&mut out.tables, 2)?;
    count_up(&mut out.memories, 2)?;
    count_up(&mut out.globals, 2)?;
    count_up(&mut out.tags, 2)?;
    count_up(&mut out.elems, 2)?;
    count_up(&mut out.segments, 2)
}

/// Each place has itself as its number, of three types and functions and of two entries of each other kind.
pub fn same_numbers(alloc: Global) -> Result<Numbering, AllocError> {
    let mut numbers = no_numbers(alloc);
    count_all(&mut numbers).and(Ok(numbers))
}

/// The row of a place's number.
pub fn difference(alloc: Global, row: &Value) -> Result<Option<String>, RowFault> {
    only(row, &["name", "call", "numbers", "place", "number"])?;
    let Ok(place) = u32::try_from(number_at(row, "place")?) else {
        return Err(RowFault::Row);
    };
    let wanted = number_at(row, "number")?;
    let mut numbers = Seq::new(alloc);
    fill(&mut numbers, row, "numbers")?;
    let found = number_of_place(&numbers, place);
    Ok(number_difference(alloc, "number", u64::from(found), wanted)?)
}
