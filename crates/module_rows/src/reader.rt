//! Rows of bytes that are read from left to right.
use crate::arguments::{byte, list, list_of, number, number32, only, text};
use crate::bodies::COUNTS;
use crate::compare::{answers_difference, printed};
use rows::{RowFault, array_at, bytes_at};
use serde_json::Value;
use std::alloc::Global;
use wasm_bytes::{Reader, read_exactly, read_index, read_name, read_text};
use wasm_code::{read_initial, read_initials};

/// The row of bytes that are read by steps. A step is one of
///
/// - `["number32"]`, `["number64"]`, `["signed32"]`, `["signed33"]`, `["signed64"]`: a number,
/// - `["peek"]`, `["raw", count]`, `["exactly", byte]`, `["remaining"]`: bytes, and `["index", count]`: a number below this one,
/// - `["name"]`, `["text"]`: a name, kept or not,
/// - `["initial"]`, `["initials", count]`: initial expressions, in a module as rows of bodies have it,
/// - `["finish"]`, `["len"]`, `["place"]`: whether something is left, how many bytes, and where,
/// - `["frame", count, steps]`, `["part", count, steps]`: the steps inside, which are none of these two. A frame that isn't there answers its
///   fault.
pub fn difference(alloc: Global, row: &Value) -> Result<Option<String>, RowFault> {
    only(row, &["name", "call", "bytes", "steps", "answers"])?;
    let bytes = bytes_at(alloc, row, "bytes")?;
    let answers = answers_of(alloc, &bytes, array_at(row, "steps")?)?;
    answers_difference(alloc, &answers, array_at(row, "answers")?)
}

fn answers_of(alloc: Global, bytes: &[u8], steps: &[Value]) -> Result<Vec<String>, RowFault> {
    let mut reader = Reader::new(bytes);
    let mut answers = Vec::new(alloc);
    for step in steps {
        outer_step(alloc, &mut reader, list_of(step)?, &mut answers)?;
    }
    Ok(answers)
}

fn outer_step(
    alloc: Global,
    reader: &mut Reader<'_>,
    step: &[Value],
    answers: &mut Vec<String>,
) -> Result<(), RowFault> {
    match text(step, 0)? {
        "part" => {
            let inside = reader.part(number(step, 1)? as usize);
            inner_steps(alloc, inside, list(step, 2)?, answers)
        }
        "frame" => match reader.frame(number(step, 1)? as usize) {
            Ok(inside) => inner_steps(alloc, inside, list(step, 2)?, answers),
            Err(fault) => Ok(answers.push(printed(alloc, fault)?)?),
        },
        _ => Ok(answers.push(inner_step(alloc, reader, step)?)?),
    }
}

fn inner_steps(
    alloc: Global,
    inside: Reader<'_>,
    steps: &[Value],
    answers: &mut Vec<String>,
) -> Result<(), RowFault> {
    let mut reader = inside;
    for step in steps {
        answers.push(inner_step(alloc, &mut reader, list_of(step)?)?)?;
    }
    Ok(())
}

// What a step answers that has no steps inside.
fn inner_step(alloc: Global, reader: &mut Reader<'_>, step: &[Value]) -> Result<String, RowFault> {
    if step.len() > 1 {
        return counted_step(alloc, reader, step);
    }
    let answer = match text(step, 0)? {
        "number32" => printed(alloc, reader.number32()),
        "number64" => printed(alloc, reader.number64()),
        "signed32" => printed(alloc, reader.signed32()),
        "signed33" => printed(alloc, reader.signed33()),
        "signed64" => printed(alloc, reader.signed64()),
        "peek" => printed(alloc, reader.peek()),
        "remaining" => printed(alloc, reader.remaining()),
        "name" => printed(alloc, read_name(reader, alloc)),
        "text" => printed(alloc, read_text(reader)),
        "initial" => printed(alloc, read_initial(reader, alloc, &COUNTS)),
        "finish" => printed(alloc, reader.finish()),
        "len" => printed(alloc, reader.len()),
        "place" => printed(alloc, reader.place()),
        _ => return Err(RowFault::Row),
    };
    Ok(answer?)
}

// What a step answers that has a number.
fn counted_step(
    alloc: Global,
    reader: &mut Reader<'_>,
    step: &[Value],
) -> Result<String, RowFault> {
    let count = number32(step, 1)?;
    let answer = match text(step, 0)? {
        "raw" => printed(alloc, reader.raw(count as usize)),
        "index" => printed(alloc, read_index(reader, u64::from(count))),
        "initials" => printed(alloc, read_initials(count, reader, alloc, &COUNTS)),
        "exactly" => printed(alloc, read_exactly(reader, byte(step, 1)?)),
        _ => return Err(RowFault::Row),
    };
    Ok(answer?)
}
