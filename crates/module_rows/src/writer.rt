//! Rows of what is written.
use crate::arguments::{byte, bytes, list_of, number, number32, only, signed, text};
use crate::compare::printed_difference;
use rows::{RowFault, array_at, bytes_at, bytes_difference, number_at};
use serde_json::Value;
use std::alloc::Global;
use values::{Seq, Text};
use wasm_bytes::{push_i32, push_i64, push_number, push_u32, write_framed, write_name};
use wasm_emission::{EmitFault, SectionContent, emit_sections};
use wasm_file::{Custom, write_custom, write_section};

/// The row of what steps write, one behind another. A step is one of
///
/// - `["push_u32", number]`, `["push_number", number]`, `["push_i32", number]`, `["push_i64", number]`,
/// - `["write_name", text]`, `["write_framed", bytes]`,
/// - `["custom_section", name, bytes]`.
pub fn difference(alloc: Global, row: &Value) -> Result<Option<String>, RowFault> {
    only(row, &["name", "call", "steps", "bytes"])?;
    let wanted = bytes_at(alloc, row, "bytes")?;
    let written = written(alloc, array_at(row, "steps")?)?;
    Ok(bytes_difference(alloc, "bytes", &written, &wanted)?)
}

fn written(alloc: Global, steps: &[Value]) -> Result<Vec<u8>, RowFault> {
    let mut out = Vec::new(alloc);
    for step in steps {
        write(alloc, &mut out, list_of(step)?)?;
    }
    Ok(out)
}

fn signed32(step: &[Value], place: usize) -> Result<i32, RowFault> {
    match i32::try_from(signed(step, place)?) {
        Ok(number) => Ok(number),
        Err(_) => Err(RowFault::Row),
    }
}

fn write(alloc: Global, out: &mut Vec<u8>, step: &[Value]) -> Result<(), RowFault> {
    let done = match text(step, 0)? {
        "push_u32" => push_u32(out, number32(step, 1)?),
        "push_number" => push_number(out, number(step, 1)?),
        "push_i32" => push_i32(out, signed32(step, 1)?),
        "push_i64" => push_i64(out, signed(step, 1)?),
        "write_name" => write_name(out, text(step, 1)?),
        "write_framed" => write_framed(out, &bytes(alloc, step, 1)?),
        "custom_section" => return write_custom_section(alloc, out, step),
        _ => return Err(RowFault::Row),
    };
    Ok(done?)
}

fn custom_of(alloc: Global, step: &[Value]) -> Result<Custom, RowFault> {
    let bytes = Seq::from_vec(bytes(alloc, step, 2)?);
    let name = Text::from_str(alloc, text(step, 1)?)?;
    Ok(Custom { name, bytes })
}

fn write_custom_section(alloc: Global, out: &mut Vec<u8>, step: &[Value]) -> Result<(), RowFault> {
    let mut content = Vec::new(alloc);
    write_custom(&mut content, &custom_of(alloc, step)?)?;
    Ok(write_section(out, 0, &content)?)
}

// The ids and contents of sections.
fn contents_of(alloc: Global, sections: &[Value]) -> Result<Seq<SectionContent>, RowFault> {
    let mut contents = Seq::new(alloc);
    for section in sections {
        let section = list_of(section)?;
        let id = byte(section, 0)?;
        contents.push(SectionContent::new(alloc, id, bytes(alloc, section, 1)?))?;
    }
    Ok(contents)
}

// These sections, whose content may have so many bytes.
fn emitted(
    alloc: Global,
    longest: usize,
    contents: Seq<SectionContent>,
) -> Result<Vec<u8>, EmitFault> {
    let mut out = Vec::new(alloc);
    emit_sections(&mut out, longest, contents)?;
    Ok(out)
}

/// The row of sections that are written unless one is too long.
pub fn sections_difference(alloc: Global, row: &Value) -> Result<Option<String>, RowFault> {
    only(row, &["name", "call", "longest", "sections", "answer"])?;
    let longest = number_at(row, "longest")? as usize;
    let contents = contents_of(alloc, array_at(row, "sections")?)?;
    let answer = emitted(alloc, longest, contents);
    printed_difference(alloc, row, "answer", &answer)
}
