//! Rows of modules.
use crate::arguments::{list_of, members, number_of, only};
use crate::compare::{answers_difference, fault_difference};
use crate::edits::edit;
use crate::told::{count, kept, shown};
use rows::{
    RowFault, bytes_at, bytes_difference, flag_at, number_difference, opt_array_at, opt_bytes_at,
    opt_number_at, opt_text_at, text_difference, text_of,
};
use serde_json::Value;
use std::alloc::Global;
use wasm_core::{Module, ParseConfig, ParseFault};
use wasm_emission::{EmitFault, emit};

const KEYS: &[&str] = &[
    "name", "module", "config", "edits", "fault", "answers", "kept", "shows", "counts", "features",
    "bytes", "same", "length",
];

fn config_of(row: &Value) -> Result<ParseConfig, RowFault> {
    let Some(config) = row.get("config") else {
        return Ok(ParseConfig {
            keep_debug: false,
            names: true,
            producers: true,
        });
    };
    only(config, &["keep_debug", "names", "producers"])?;
    Ok(ParseConfig {
        keep_debug: flag_at(config, "keep_debug")?,
        names: flag_at(config, "names")?,
        producers: flag_at(config, "producers")?,
    })
}

/// The row of a module.
pub fn difference(alloc: Global, row: &Value) -> Result<Option<String>, RowFault> {
    only(row, KEYS)?;
    let config = config_of(row)?;
    let bytes = bytes_at(alloc, row, "module")?;
    match Module::parse(alloc, &bytes, &config) {
        Ok(module) => read_difference(alloc, row, &bytes, module),
        Err(ParseFault::Parse { place }) => fault_difference(alloc, row, Some(place)),
        Err(ParseFault::OutOfMemory) => Err(RowFault::OutOfMemory),
    }
}

// The module was read of these bytes.
fn read_difference(
    alloc: Global,
    row: &Value,
    bytes: &[u8],
    module: Module,
) -> Result<Option<String>, RowFault> {
    let mut module = module;
    let found = edited_difference(alloc, row, bytes, &mut module);
    drop(module);
    found
}

// What the module comes to that was read of these bytes.
fn edited_difference(
    alloc: Global,
    row: &Value,
    bytes: &[u8],
    module: &mut Module,
) -> Result<Option<String>, RowFault> {
    if let Some(found) = fault_difference(alloc, row, None)? {
        return Ok(Some(found));
    }
    if let Some(found) = edits_difference(alloc, row, module)? {
        return Ok(Some(found));
    }
    if let Some(found) = lists_difference(alloc, row, module)? {
        return Ok(Some(found));
    }
    if let Some(found) = features_difference(alloc, row, module)? {
        return Ok(Some(found));
    }
    written_difference(alloc, row, bytes, module)
}

// Makes the edits.
fn edits_difference(
    alloc: Global,
    row: &Value,
    module: &mut Module,
) -> Result<Option<String>, RowFault> {
    let mut answers = Vec::new(alloc);
    if let Some(edits) = opt_array_at(row, "edits")? {
        for call in edits {
            answers.push(edit(alloc, module, list_of(call)?)?)?;
        }
    }
    match opt_array_at(row, "answers")? {
        Some(wanted) => answers_difference(alloc, &answers, wanted),
        None => Ok(None),
    }
}

fn lists_difference(
    alloc: Global,
    row: &Value,
    module: &Module,
) -> Result<Option<String>, RowFault> {
    if let Some(wanted) = opt_text_at(row, "kept")?
        && let Some(found) = text_difference(
            alloc,
            "kept",
            kept(alloc, module)?.as_str(),
            wanted,
        )?
    {
        return Ok(Some(found));
    }
    if let Some(found) = shows_difference(alloc, row, module)? {
        return Ok(Some(found));
    }
    counts_difference(alloc, row, module)
}

fn shows_difference(
    alloc: Global,
    row: &Value,
    module: &Module,
) -> Result<Option<String>, RowFault> {
    let Some(shows) = members(row, "shows")? else {
        return Ok(None);
    };
    for (what, wanted) in shows {
        let text = shown(alloc, module, what.as_str())?;
        let wanted = text_of(wanted)?;
        if let Some(found) = text_difference(alloc, what.as_str(), text.as_str(), wanted)? {
            return Ok(Some(found));
        }
    }
    Ok(None)
}

fn counts_difference(
    alloc: Global,
    row: &Value,
    module: &Module,
) -> Result<Option<String>, RowFault> {
    let Some(counts) = members(row, "counts")? else {
        return Ok(None);
    };
    for (list, wanted) in counts {
        let number = count(module, list.as_str())?;
        let wanted = number_of(wanted)?;
        if let Some(found) = number_difference(alloc, list.as_str(), number, wanted)? {
            return Ok(Some(found));
        }
    }
    Ok(None)
}

// Whether a feature is to be listed with a plus, none where there is to be no list.
fn listed_of(value: &Value) -> Result<Option<bool>, RowFault> {
    match value {
        Value::Null => Ok(None),
        Value::Bool(listed) => Ok(Some(*listed)),
        _ => Err(RowFault::Row),
    }
}

fn features_difference(
    alloc: Global,
    row: &Value,
    module: &Module,
) -> Result<Option<String>, RowFault> {
    let Some(features) = members(row, "features")? else {
        return Ok(None);
    };
    for (feature, wanted) in features {
        let listed = module.target_feature(feature.as_str());
        let wanted = listed_of(wanted)?;
        if listed != wanted {
            return Ok(Some(format!(in alloc; "{feature}: {listed:?} for {wanted:?}")?));
        }
    }
    Ok(None)
}

fn written_difference(
    alloc: Global,
    row: &Value,
    given: &[u8],
    module: &Module,
) -> Result<Option<String>, RowFault> {
    match emit(alloc, module) {
        Ok(written) => bytes_written_difference(alloc, row, given, &written),
        Err(EmitFault::TooLarge { section }) => {
            Ok(Some(format!(in alloc; "section {section} is too large")?))
        }
        Err(EmitFault::OutOfMemory) => Err(RowFault::OutOfMemory),
    }
}

fn bytes_written_difference(
    alloc: Global,
    row: &Value,
    given: &[u8],
    written: &[u8],
) -> Result<Option<String>, RowFault> {
    if let Some(length) = opt_number_at(row, "length")?
        && let Some(found) = number_difference(alloc, "length", written.len() as u64, length)?
    {
        return Ok(Some(found));
    }
    if flag_at(row, "same")?
        && let Some(found) = bytes_difference(alloc, "same", written, given)?
    {
        return Ok(Some(found));
    }
    match opt_bytes_at(alloc, row, "bytes")? {
        Some(wanted) => Ok(bytes_difference(alloc, "bytes", written, &wanted)?),
        None => Ok(None),
    }
}
