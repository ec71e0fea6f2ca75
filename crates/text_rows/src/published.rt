//! Calls that ask a condition on what `description` publishes, with the settings of a row.
//!
//! - `thing_clash`, `bad_reexport`: `named` is what the fault names, null without one.
//! - `bad_export_name`, `bad_declared_name`: `named` is the name that can't stand, null without one.
//! - `fixed_thing`: `fixed` says whether there is a fault, where the glue file defines imports of the names `own`.
//! - `root_names`: `names` are the namespaces whose object is made.
use crate::compared::{list_difference, optional_difference};
use crate::described::{lowered_at, name_or_none, settings_at, texts_of};
use glue_faults::Fault;
use glue_published::{
    bad_declared_name, bad_export_name, bad_reexport, fixed_thing, root_names, thing_clash,
};
use glue_shared::{Settings, WasmBindgenAux};
use rows::{RowFault, array_at, flag_at, text_at, truth_difference};
use serde_json::Value;
use std::alloc::{AllocError, Global};

/// The first difference of a row with one of these calls.
pub fn difference(alloc: Global, row: &Value) -> Result<Option<String>, RowFault> {
    let lowered = lowered_at(alloc, row)?;
    aux_difference(alloc, row, &lowered.aux)
}

// What a fault of these conditions names.
fn named(fault: &Option<Fault>) -> Option<&str> {
    match fault {
        Some(
            Fault::ExportClash { name } | Fault::FixedExport { name } | Fault::BadReexport { name },
        ) => Some(name.as_str()),
        _ => None,
    }
}

fn fault_of(
    alloc: Global,
    call: &str,
    settings: &Settings,
    aux: &WasmBindgenAux,
) -> Result<Option<Fault>, AllocError> {
    match call {
        "thing_clash" => thing_clash(alloc, settings, aux),
        _ => bad_reexport(alloc, settings, aux),
    }
}

fn fault_difference(
    alloc: Global,
    row: &Value,
    settings: &Settings,
    aux: &WasmBindgenAux,
) -> Result<Option<String>, RowFault> {
    let (call, want) = (text_at(row, "call")?, name_or_none(row, "named")?);
    let fault = fault_of(alloc, call, settings, aux)?;
    let told = optional_difference(alloc, "named", named(&fault), want);
    drop(fault);
    Ok(told?)
}

fn is_fixed(
    alloc: Global,
    own: &[Value],
    settings: &Settings,
    aux: &WasmBindgenAux,
) -> Result<bool, RowFault> {
    let own = texts_of(alloc, own)?;
    let fault = fixed_thing(alloc, settings, own.as_slice(), aux)?;
    Ok(named(&fault).is_some())
}

fn fixed_difference(
    alloc: Global,
    row: &Value,
    settings: &Settings,
    aux: &WasmBindgenAux,
) -> Result<Option<String>, RowFault> {
    let (own, want) = (array_at(row, "own")?, flag_at(row, "fixed")?);
    let fixed = is_fixed(alloc, own, settings, aux)?;
    Ok(truth_difference(alloc, "fixed", fixed, want)?)
}

fn bad_difference(
    alloc: Global,
    row: &Value,
    aux: &WasmBindgenAux,
) -> Result<Option<String>, RowFault> {
    let name = match text_at(row, "call")? {
        "bad_export_name" => bad_export_name(aux.exports.as_slice()),
        _ => bad_declared_name(aux),
    };
    let name = name.map(|name| name.as_str());
    Ok(optional_difference(alloc, "named", name, name_or_none(row, "named")?)?)
}

fn roots_difference(
    alloc: Global,
    row: &Value,
    settings: &Settings,
    aux: &WasmBindgenAux,
) -> Result<Option<String>, RowFault> {
    let names = root_names(alloc, settings, aux)?;
    list_difference(alloc, row, "names", names.as_slice())
}

fn settings_difference(
    alloc: Global,
    row: &Value,
    call: &str,
    aux: &WasmBindgenAux,
) -> Result<Option<String>, RowFault> {
    let settings = settings_at(alloc, row)?;
    match call {
        "thing_clash" | "bad_reexport" => fault_difference(alloc, row, &settings, aux),
        "fixed_thing" => fixed_difference(alloc, row, &settings, aux),
        "root_names" => roots_difference(alloc, row, &settings, aux),
        _ => Err(RowFault::Row),
    }
}

fn aux_difference(
    alloc: Global,
    row: &Value,
    aux: &WasmBindgenAux,
) -> Result<Option<String>, RowFault> {
    match text_at(row, "call")? {
        "bad_export_name" | "bad_declared_name" => bad_difference(alloc, row, aux),
        call => settings_difference(alloc, row, call, aux),
    }
}
