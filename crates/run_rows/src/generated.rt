//! A row of what a generator makes of an input.
use crate::known::only_known;
use crate::setters::set;
use crate::{input, made};
use cli_support::{Bindgen, SetFault};
use rows::{RowFault, flag_at, opt_text_at};
use serde_json::Value;
use std::alloc::Global;

// The further keys of such a row.
const KEYS: &[&str] = &["set", "stem"];

// That a setter refuses.
fn refusal(alloc: Global, name: &str, fault: &SetFault) -> Result<Option<String>, RowFault> {
    Ok(Some(format!(in alloc; "{name} is refused: {fault:?}")?))
}

// Sets a member of the row's settings. What is given to the constructor is set by it.
fn set_member(
    alloc: Global,
    generator: &mut Bindgen,
    name: &str,
    value: &Value,
) -> Result<Option<String>, RowFault> {
    if name == "multi_value" {
        return Ok(None);
    }
    match set(alloc, generator, name, value)? {
        None => Ok(None),
        Some(fault) => refusal(alloc, name, &fault),
    }
}

// Sets what the row asks for.
fn set_all(
    alloc: Global,
    generator: &mut Bindgen,
    row: &Value,
) -> Result<Option<String>, RowFault> {
    let Some(settings) = row.get("set") else {
        return set_member(alloc, generator, "deno", &Value::Bool(true));
    };
    let Value::Object(members) = settings else {
        return Err(RowFault::Row);
    };
    for (name, value) in members.iter() {
        let told = set_member(alloc, generator, name.as_str(), value)?;
        if told.is_some() {
            return Ok(told);
        }
    }
    Ok(None)
}

// Hands the input in, and compares what is made of it.
fn by_generator(
    alloc: Global,
    generator: &mut Bindgen,
    row: &Value,
) -> Result<Option<String>, RowFault> {
    let told = set_all(alloc, generator, row)?;
    if told.is_some() {
        return Ok(told);
    }
    let stem = opt_text_at(row, "stem")?.unwrap_or("out");
    let _ = generator.input_bytes(alloc, stem, input::module_of(alloc, row)?)?;
    made::made_difference(alloc, row, row, generator)
}

// Whether several results are taken to be there.
fn takes_several(row: &Value) -> Result<bool, RowFault> {
    match row.get("set") {
        None => Ok(false),
        Some(settings) => flag_at(settings, "multi_value"),
    }
}

/// What is made, beside what is wanted.
pub fn difference(alloc: Global, row: &Value) -> Result<Option<String>, RowFault> {
    only_known(row, &[input::KEYS, made::KEYS, KEYS])?;
    let mut generator = Bindgen::new(false, takes_several(row)?);
    by_generator(alloc, &mut generator, row)
}
