//! A row of calls of one generator.
use crate::known::only_known;
use crate::setters::set;
use crate::{input, made};
use cli_support::{Bindgen, Module, SetFault};
use rows::{RowFault, array_at, opt_text_at, text_at, text_difference};
use serde_json::Value;
use std::alloc::Global;
use wasm_core::ParseConfig;

/// Names and producers are read, debug information is left out.
pub const CONFIG: ParseConfig = ParseConfig {
    keep_debug: false,
    names: true,
    producers: true,
};

// A setter's fault beside the one that is wanted.
fn answer_difference(
    alloc: Global,
    name: &str,
    fault: Option<&SetFault>,
    want: &str,
) -> Result<Option<String>, RowFault> {
    let got = match fault {
        None => String::new(alloc),
        Some(fault) => format!(in alloc; "{fault:?}")?,
    };
    Ok(text_difference(alloc, name, got.as_str(), want)?)
}

// Calls a setter.
fn set_step(
    alloc: Global,
    generator: &mut Bindgen,
    step: &Value,
) -> Result<Option<String>, RowFault> {
    only_known(step, &[&["set", "to", "answer"]])?;
    let name = text_at(step, "set")?;
    let Some(value) = step.get("to") else {
        return Err(RowFault::Row);
    };
    let want = opt_text_at(step, "answer")?.unwrap_or("");
    let fault = set(alloc, generator, name, value)?;
    answer_difference(alloc, name, fault.as_ref(), want)
}

// Hands the row's module in, as bytes or as the module that they are.
fn input_step(
    alloc: Global,
    generator: &mut Bindgen,
    row: &Value,
    step: &Value,
) -> Result<Option<String>, RowFault> {
    only_known(step, &[&["input", "stem"]])?;
    let stem = text_at(step, "stem")?;
    let bytes = input::module_of(alloc, row)?;
    match text_at(step, "input")? {
        "bytes" => {
            let _ = generator.input_bytes(alloc, stem, bytes)?;
        }
        "module" => match Module::parse(alloc, bytes.as_slice(), &CONFIG) {
            Ok(module) => {
                let _ = generator.input_module(alloc, stem, module)?;
            }
            Err(_) => return Err(RowFault::Row),
        },
        _ => return Err(RowFault::Row),
    }
    Ok(None)
}

// The name that the generator tells.
fn stem_step(alloc: Global, generator: &Bindgen, step: &Value) -> Result<Option<String>, RowFault> {
    only_known(step, &[&["stem_is"]])?;
    match (generator.stem(), opt_text_at(step, "stem_is")?) {
        (Ok(got), Some(want)) => Ok(text_difference(alloc, "the stem", got, want)?),
        (Err(_), None) => Ok(None),
        (Ok(_), None) => Ok(Some(String::from_str(alloc, "a stem for none")?)),
        (Err(_), Some(_)) => Ok(Some(String::from_str(alloc, "no stem")?)),
    }
}

fn step_difference(
    alloc: Global,
    generator: &mut Bindgen,
    row: &Value,
    step: &Value,
) -> Result<Option<String>, RowFault> {
    if step.get("set").is_some() {
        return set_step(alloc, generator, step);
    }
    if step.get("input").is_some() {
        return input_step(alloc, generator, row, step);
    }
    if step.get("stem_is").is_some() {
        return stem_step(alloc, generator, step);
    }
    only_known(step, &[made::KEYS])?;
    made::made_difference(alloc, row, step, generator)
}

// The first step that comes to something else than it wants, with its number, counted from 1.
fn by_generator(
    alloc: Global,
    generator: &mut Bindgen,
    row: &Value,
) -> Result<Option<String>, RowFault> {
    for (index, step) in array_at(row, "steps")?.iter().enumerate() {
        let number = index.saturating_add(1);
        if let Some(told) = step_difference(alloc, generator, row, step)? {
            let told = told.as_str();
            return Ok(Some(format!(in alloc; "step {number}: {told}")?));
        }
    }
    Ok(None)
}

/// What the calls come to, beside what is wanted.
pub fn difference(alloc: Global, row: &Value) -> Result<Option<String>, RowFault> {
    only_known(row, &[input::KEYS, &["steps"]])?;
    let mut generator = Bindgen::new(false, false);
    by_generator(alloc, &mut generator, row)
}
