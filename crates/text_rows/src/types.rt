//! Calls that tell types, which a row has in the form of a description. `classes` and `enums` are the names that are given to classes and
//! enums, by their qualified names.
//!
//! - `type`: `text` is the TypeScript text of `type`, and that of arrays with their buffers' type where `buffers` is true.
//! - `signature`: `lines` tell the types of `export` with the adapter `adapter`, whose parameters go by `params`.
use crate::compared::list_difference;
use crate::described::part_at;
use glue_shared::{Adapter, AdapterId, AdapterType, AuxExport, NameMap};
use rows::{RowFault, flag_at, text_at, text_difference};
use serde_json::Value;
use std::alloc::Global;
use type_texts::{signature_lines, type_text};
use values::{Map, Seq, Text};

/// The first difference of a row with one of these calls.
pub fn difference(alloc: Global, row: &Value) -> Result<Option<String>, RowFault> {
    let names = names_of(alloc, row)?;
    match text_at(row, "call")? {
        "type" => type_difference(alloc, &names, row),
        "signature" => signature_difference(alloc, &names, row),
        _ => Err(RowFault::Row),
    }
}

// The names under a key; none where it is absent.
fn given_at(alloc: Global, row: &Value, key: &str) -> Result<Map<Text, Text>, RowFault> {
    match row.get(key) {
        None => Ok(Map::new(alloc)),
        Some(_) => part_at(alloc, row, key),
    }
}

fn set_names(alloc: Global, row: &Value, names: &mut NameMap) -> Result<(), RowFault> {
    names.classes = given_at(alloc, row, "classes")?;
    names.enums = given_at(alloc, row, "enums")?;
    Ok(())
}

// The names that are given.
fn names_of(alloc: Global, row: &Value) -> Result<NameMap, RowFault> {
    let mut names = NameMap::new(alloc);
    set_names(alloc, row, &mut names)?;
    Ok(names)
}

fn type_difference(
    alloc: Global,
    names: &NameMap,
    row: &Value,
) -> Result<Option<String>, RowFault> {
    let want = text_at(row, "text")?;
    let buffers = flag_at(row, "buffers")?;
    let ty: AdapterType = part_at(alloc, row, "type")?;
    let text = type_text(alloc, buffers, names, &ty)?;
    Ok(text_difference(alloc, "text", text.as_str(), want)?)
}

// The lines that tell the types of an export.
fn lines_of(
    alloc: Global,
    names: &NameMap,
    export: &AuxExport,
    row: &Value,
) -> Result<Seq<Text>, RowFault> {
    let adapter: (AdapterId, Adapter) = part_at(alloc, row, "adapter")?;
    let params: Seq<Text> = part_at(alloc, row, "params")?;
    let buffers = flag_at(row, "buffers")?;
    let params = params.as_slice();
    Ok(signature_lines(alloc, buffers, names, export, &adapter.1, params)?)
}

fn signature_difference(
    alloc: Global,
    names: &NameMap,
    row: &Value,
) -> Result<Option<String>, RowFault> {
    let export: AuxExport = part_at(alloc, row, "export")?;
    let lines = lines_of(alloc, names, &export, row)?;
    list_difference(alloc, row, "lines", lines.as_slice())
}
