//! What is changed of a lowered description before a call that is asked for by itself: what a generator does before it, and what no
//! description can say.
use crate::known::only_known;
use cli_support::{AdapterId, Lowered};
use glue_shared::AuxExportKind;
use rows::{RowFault, flag_at, number_at, text_at};
use serde_json::Value;
use std::alloc::{AllocError, Global};
use wasm_collect::collect;
use wasm_core::{ExportId, ImportId};

/// The keys of a row that say what is changed.
pub const KEYS: &[&str] = &["collected", "changed"];

// A number of 32 bits.
fn place_at(object: &Value, key: &str) -> Result<u32, RowFault> {
    match u32::try_from(number_at(object, key)?) {
        Ok(place) => Ok(place),
        Err(_) => Err(RowFault::Row),
    }
}

// An adapter stands for an import too.
fn add_pair(lowered: &mut Lowered, pair: &Value) -> Result<(), RowFault> {
    only_known(pair, &[&["import", "adapter"]])?;
    let import = ImportId(place_at(pair, "import")?);
    let adapter = AdapterId(place_at(pair, "adapter")?);
    Ok(lowered.wit.implements.push((import, adapter))?)
}

// The export at this place is dropped.
fn delete_export(lowered: &mut Lowered, place: u32) {
    if let Some(Some(_)) = lowered.module.exports().get(place as usize) {
        lowered.module.delete_export(ExportId(place));
    }
}

// The last export is a constructor, of whatever class it is.
fn make_constructor(lowered: &mut Lowered) -> Result<(), AllocError> {
    match lowered.aux.exports.pop() {
        None => Ok(()),
        Some(export) => {
            let mut export = export;
            export.kind = AuxExportKind::Constructor;
            lowered.aux.exports.push(export)
        }
    }
}

// The change that an object says.
fn apply(lowered: &mut Lowered, changed: &Value) -> Result<(), RowFault> {
    only_known(changed, &[&["pair", "deleted_export", "last_export"]])?;
    if let Some(pair) = changed.get("pair") {
        return add_pair(lowered, pair);
    }
    if changed.get("deleted_export").is_some() {
        delete_export(lowered, place_at(changed, "deleted_export")?);
        return Ok(());
    }
    match text_at(changed, "last_export")? {
        "constructor" => Ok(make_constructor(lowered)?),
        _ => Err(RowFault::Row),
    }
}

/// Changes the lowered description as the row says.
pub fn change(alloc: Global, row: &Value, lowered: &mut Lowered) -> Result<(), RowFault> {
    if flag_at(row, "collected")? {
        collect(alloc, &mut lowered.module, &[])?;
    }
    match row.get("changed") {
        None => Ok(()),
        Some(changed) => apply(lowered, changed),
    }
}
