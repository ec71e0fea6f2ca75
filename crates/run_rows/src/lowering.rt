//! A row of what is read of a module's description.
use crate::asked::asked_settings;
use crate::input;
use crate::known::only_known;
use crate::steps::CONFIG;
use cli_support::{JsonLowering, LowerFault, Lowered, Lowering, Module};
use glue_shared::{AuxExport, AuxStruct};
use rows::{RowFault, number_difference, opt_number_at, opt_text_at, text_difference};
use serde_json::Value;
use std::alloc::{AllocError, Global};

// What can be wanted of a description that is read.
const WANTED: &[&str] = &[
    "customs",
    "adapters",
    "implements",
    "exports",
    "imports",
    "first_export",
    "first_class",
];

// Counts beside those that are wanted.
fn counts_difference(
    alloc: Global,
    wanted: &Value,
    counts: &[(&str, usize)],
) -> Result<Option<String>, RowFault> {
    for (key, count) in counts {
        if let Some(want) = opt_number_at(wanted, key)? {
            let told = number_difference(alloc, key, *count as u64, want)?;
            if told.is_some() {
                return Ok(told);
            }
        }
    }
    Ok(None)
}

// An export's adapter and debug name, how many namespaces and parameters it has, and its truths.
fn export_told(alloc: Global, export: &AuxExport) -> Result<String, AllocError> {
    let adapter = export.adapter.0;
    let debug = export.debug.as_str();
    let namespace = export.namespace.len();
    let args = export.args.len();
    let typescript = export.typescript;
    let jsdoc = export.jsdoc;
    let variadic = export.variadic;
    let asyncness = export.asyncness;
    format!(in alloc;
        "{adapter} {debug} {namespace} {args} {typescript} {jsdoc} {variadic} {asyncness}"
    )
}

// Whether a class has a parent's name, and a parent's namespace.
fn class_told(alloc: Global, class: &AuxStruct) -> Result<String, AllocError> {
    let name = class.extends.is_some();
    let namespace = class.extends_js_namespace.is_some();
    format!(in alloc; "{name} {namespace}")
}

// The first export in words, nothing without one.
fn first_export_told(alloc: Global, lowered: &Lowered) -> Result<String, AllocError> {
    match lowered.aux.exports.get(0) {
        Some(export) => export_told(alloc, export),
        None => Ok(String::new(alloc)),
    }
}

// The first class in words, nothing without one.
fn first_class_told(alloc: Global, lowered: &Lowered) -> Result<String, AllocError> {
    match lowered.aux.structs.get(0) {
        Some(class) => class_told(alloc, class),
        None => Ok(String::new(alloc)),
    }
}

// A text beside the one that is wanted.
fn told_difference(
    alloc: Global,
    wanted: &Value,
    key: &str,
    told: &str,
) -> Result<Option<String>, RowFault> {
    match opt_text_at(wanted, key)? {
        None => Ok(None),
        Some(want) => Ok(text_difference(alloc, key, told, want)?),
    }
}

// What is counted and told of a description that is read, beside what is wanted.
fn lowered_difference(
    alloc: Global,
    wanted: &Value,
    lowered: &Lowered,
) -> Result<Option<String>, RowFault> {
    let counts = [
        ("customs", lowered.module.customs().len()),
        ("adapters", lowered.wit.adapters.len()),
        ("implements", lowered.wit.implements.len()),
        ("exports", lowered.aux.exports.len()),
        ("imports", lowered.aux.imports.len()),
    ];
    if let Some(told) = counts_difference(alloc, wanted, &counts)? {
        return Ok(Some(told));
    }
    let export = first_export_told(alloc, lowered)?;
    if let Some(told) = told_difference(alloc, wanted, "first_export", export.as_str())? {
        return Ok(Some(told));
    }
    let class = first_class_told(alloc, lowered)?;
    told_difference(alloc, wanted, "first_class", class.as_str())
}

/// What is lowered of the row's module, for Deno; none where nothing is.
pub fn lowered_of(alloc: Global, row: &Value) -> Result<Option<Lowered>, RowFault> {
    let settings = asked_settings(alloc, &[])?;
    let bytes = input::module_of(alloc, row)?;
    let Ok(module) = Module::parse(alloc, bytes.as_slice(), &CONFIG) else {
        return Err(RowFault::Row);
    };
    match JsonLowering::new().lower(alloc, &settings, module) {
        Ok(lowered) => Ok(Some(lowered)),
        Err(LowerFault::Failed) => Ok(None),
        Err(LowerFault::OutOfMemory) => Err(RowFault::OutOfMemory),
    }
}

/// What is read, beside what is wanted.
pub fn difference(alloc: Global, row: &Value) -> Result<Option<String>, RowFault> {
    only_known(row, &[input::KEYS, &["lowered"]])?;
    let Some(wanted) = row.get("lowered") else {
        return Err(RowFault::Row);
    };
    only_known(wanted, &[WANTED])?;
    match lowered_of(alloc, row)? {
        Some(lowered) => lowered_difference(alloc, wanted, &lowered),
        None => Ok(Some(String::from_str(alloc, "nothing is read")?)),
    }
}
