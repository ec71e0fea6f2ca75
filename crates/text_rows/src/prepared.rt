//! The call `prepared`: what is done to settings and a module before the module is lowered.
//!
//! `target` is one of the words of `described`, `on` lists what is asked for beside it (`keep_lld_exports`,
//! `externref`, `reset_state`), and `module` is the module. What is wanted is one of
//!
//! - `fault`: the name of the fault;
//! - `holds`: which of `emscripten` (the target is Emscripten), `externref`, `multi_value` and `features_missing` hold then, with `exports`, the names
//!   of the module's exports, and `-` for each empty place;
//! - `written`: the bytes that the module is written as.
use crate::compared::{held_difference, list_difference};
use crate::described::{module_of, target_of};
use glue_faults::Fault;
use glue_inputs::settings;
use glue_prepare::{Prepared, prepare};
use glue_shared::{EncodeInto, Settings, Target};
use rows::{
    RowFault, bytes_at, bytes_difference, opt_bytes_at, opt_text_at, text_at, text_difference,
    texts_at,
};
use serde_json::Value;
use std::alloc::{AllocError, Global};
use values::{Seq, Text};
use wasm_core::{Export, Module};
use wasm_emission::{EmitFault, emit};

/// The first difference of a row with this call.
pub fn difference(alloc: Global, row: &Value) -> Result<Option<String>, RowFault> {
    let fault = opt_text_at(row, "fault")?;
    match prepared_of(alloc, row)? {
        Ok(prepared) => match fault {
            None => prepared_difference(alloc, &prepared, row),
            Some(fault) => Ok(Some(format!(in alloc; "it is prepared, for {fault}")?)),
        },
        Err(refusal) => {
            let told = format!(in alloc; "{refusal:?}")?;
            let want = fault.unwrap_or("none");
            Ok(text_difference(alloc, "fault", told.as_str(), want)?)
        }
    }
}

fn is_listed(names: &[String], name: &str) -> bool {
    names.iter().any(|listed| listed.as_str() == name)
}

fn settings_of(alloc: Global, row: &Value, on: &[String]) -> Result<Settings, RowFault> {
    let target = target_of(alloc, text_at(row, "target")?)?;
    let mut settings = settings(alloc, target, EncodeInto::Test)?;
    settings.externref = is_listed(on, "externref");
    settings.reset_state = is_listed(on, "reset_state");
    Ok(settings)
}

// What is made of the row's settings and module.
fn prepared_of(alloc: Global, row: &Value) -> Result<Result<Prepared, Fault>, RowFault> {
    let on = texts_at(alloc, row, "on")?;
    let settings = settings_of(alloc, row, on.as_slice())?;
    let module = module_of(alloc, bytes_at(alloc, row, "module")?.as_slice())?;
    let is_kept = is_listed(on.as_slice(), "keep_lld_exports");
    Ok(prepare(alloc, is_kept, settings, module))
}

fn exported(alloc: Global, exports: &[Option<Export>]) -> Result<Seq<Text>, AllocError> {
    let mut names = Seq::new(alloc);
    for export in exports {
        let name = match export {
            Some(export) => export.name.as_str(),
            None => "-",
        };
        names.push(Text::from_str(alloc, name)?)?;
    }
    Ok(names)
}

fn told_difference(
    alloc: Global,
    prepared: &Prepared,
    row: &Value,
) -> Result<Option<String>, RowFault> {
    let settings = &prepared.settings;
    let tests = [
        ("emscripten", matches!(settings.target, Target::Emscripten)),
        ("externref", settings.externref),
        ("multi_value", settings.multi_value),
        ("features_missing", prepared.features_missing),
    ];
    let told = held_difference(alloc, row, &tests)?;
    if told.is_some() {
        return Ok(told);
    }
    let names = exported(alloc, prepared.module.exports())?;
    list_difference(alloc, row, "exports", names.as_slice())
}

fn written_difference(
    alloc: Global,
    module: &Module,
    want: &[u8],
) -> Result<Option<String>, RowFault> {
    match emit(alloc, module) {
        Ok(bytes) => Ok(bytes_difference(alloc, "written", bytes.as_slice(), want)?),
        Err(EmitFault::OutOfMemory) => Err(RowFault::OutOfMemory),
        Err(EmitFault::TooLarge { .. }) => Err(RowFault::Row),
    }
}

fn prepared_difference(
    alloc: Global,
    prepared: &Prepared,
    row: &Value,
) -> Result<Option<String>, RowFault> {
    match opt_bytes_at(alloc, row, "written")? {
        Some(want) => written_difference(alloc, &prepared.module, want.as_slice()),
        None => told_difference(alloc, prepared, row),
    }
}
