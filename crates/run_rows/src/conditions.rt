//! A row of a call of `check`, or of one of its conditions.
use crate::asked::asked_settings;
use crate::known::only_known;
use crate::lowering::lowered_of;
use crate::named::fault_text;
use crate::{changes, input};
use cli_support::{Fault, Lowered, Settings};
use glue_adapters::{bad_adapter, unbound_import};
use glue_check::{
    FileFlags, bad_name, bad_reexport, check, fixed_export, global_twice, intrinsic_target,
    module_clash, name_clash, thing_clash,
};
use rows::{RowFault, array_at, opt_text_at, text_at, text_difference};
use serde_json::Value;
use std::alloc::{AllocError, Global};

// The further keys of such a row.
const KEYS: &[&str] = &["asked", "condition", "fault"];

// What a generator asks for of the files at the start.
const FILES: FileFlags = FileFlags {
    split_debug_info: false,
    demangle: true,
};

// A condition on names that is called by itself.
fn name_fault(
    alloc: Global,
    name: &str,
    settings: &Settings,
    lowered: &Lowered,
) -> Result<Option<Fault>, RowFault> {
    let fault = match name {
        "bad_name" => bad_name(alloc, settings, lowered),
        "global_twice" => global_twice(alloc, settings, lowered),
        "name_clash" => name_clash(alloc, settings, lowered),
        "module_clash" => module_clash(alloc, settings, lowered),
        "thing_clash" => thing_clash(alloc, settings, &lowered.aux),
        _ => return Err(RowFault::Row),
    };
    Ok(fault?)
}

// A condition that is called by itself.
fn condition_fault(
    alloc: Global,
    name: &str,
    settings: &Settings,
    lowered: &Lowered,
) -> Result<Option<Fault>, RowFault> {
    let fault: Result<Option<Fault>, AllocError> = match name {
        "bad_adapter" => bad_adapter(alloc, lowered),
        "unbound_import" => unbound_import(alloc, settings, lowered),
        "fixed_export" => fixed_export(alloc, settings, lowered),
        "bad_reexport" => bad_reexport(alloc, settings, &lowered.aux),
        "intrinsic_target" => return Ok(intrinsic_target(settings, lowered)),
        _ => return name_fault(alloc, name, settings, lowered),
    };
    Ok(fault?)
}

// What the row's call answers for these settings.
fn answer(
    alloc: Global,
    row: &Value,
    settings: &Settings,
    lowered: Lowered,
) -> Result<Option<Fault>, RowFault> {
    match opt_text_at(row, "condition")? {
        None => Ok(check(alloc, FILES, settings, lowered).err()),
        Some(name) => condition_fault(alloc, name, settings, &lowered),
    }
}

// The same with the settings that the row asks for.
fn asked_answer(alloc: Global, row: &Value, lowered: Lowered) -> Result<Option<Fault>, RowFault> {
    let settings = asked_settings(alloc, array_at(row, "asked")?)?;
    answer(alloc, row, &settings, lowered)
}

// The same of what is lowered, changed as the row says.
fn changed_answer(alloc: Global, row: &Value, lowered: Lowered) -> Result<Option<Fault>, RowFault> {
    let mut lowered = lowered;
    match changes::change(alloc, row, &mut lowered) {
        Ok(()) => asked_answer(alloc, row, lowered),
        Err(fault) => Err(fault),
    }
}

// The answer of the row's call, or that nothing is lowered.
fn row_answer(alloc: Global, row: &Value) -> Result<Option<Fault>, RowFault> {
    match lowered_of(alloc, row)? {
        None => Ok(Some(Fault::Lower)),
        Some(lowered) => changed_answer(alloc, row, lowered),
    }
}

// A fault in words, nothing without one.
fn told(alloc: Global, fault: Option<&Fault>) -> Result<String, AllocError> {
    match fault {
        None => Ok(String::new(alloc)),
        Some(fault) => fault_text(alloc, fault),
    }
}

/// What the call answers, beside what is wanted.
pub fn difference(alloc: Global, row: &Value) -> Result<Option<String>, RowFault> {
    only_known(row, &[input::KEYS, changes::KEYS, KEYS])?;
    let want = text_at(row, "fault")?;
    let fault = row_answer(alloc, row)?;
    let got = told(alloc, fault.as_ref())?;
    Ok(text_difference(alloc, "the fault", got.as_str(), want)?)
}
