//! What stands somewhere, in words.
use crate::misfit::{Told, said_of};
use serde_json::Value;
use shown_names::shown;
use std::alloc::{AllocError, Global};

fn number_found(alloc: Global, value: &Value) -> Result<String, AllocError> {
    let text = value.to_string(alloc)?;
    let text = text.as_str();
    format!(in alloc; "the number {text}")
}

fn list_found(alloc: Global, count: usize) -> Result<String, AllocError> {
    if count == 1 {
        return String::from_str(alloc, "a list of 1 entry");
    }
    format!(in alloc; "a list of {count} entries")
}

fn truth(value: bool) -> &'static str {
    if value { "`true`" } else { "`false`" }
}

// What a value is.
fn found(alloc: Global, value: &Value) -> Result<String, AllocError> {
    match value {
        Value::Null => String::from_str(alloc, "`null`"),
        Value::Bool(value) => String::from_str(alloc, truth(*value)),
        Value::Number(_) => number_found(alloc, value),
        Value::String(text) => shown(alloc, text.as_str()),
        Value::Array(values) => list_found(alloc, values.len()),
        Value::Object(_) => String::from_str(alloc, "an object"),
    }
}

fn misfit_words(alloc: Global, value: &Value, wanted: &str) -> Result<String, AllocError> {
    let found = found(alloc, value)?;
    let found = found.as_str();
    format!(in alloc; " is {found}, and has to be {wanted}.")
}

/// That a value stands where another one has to: `wanted` says which.
pub(crate) fn unfit(alloc: Global, value: &Value, wanted: &str) -> Told {
    match misfit_words(alloc, value, wanted) {
        Ok(words) => said_of(alloc, words),
        Err(_) => Told::OutOfMemory,
    }
}

/// Words between commas.
pub(crate) fn listed(alloc: Global, words: &[&str]) -> Result<String, AllocError> {
    let mut out = String::new(alloc);
    for (place, word) in words.iter().enumerate() {
        if place > 0 {
            out.push_str(", ")?;
        }
        out.push_str("`")?;
        out.push_str(word)?;
        out.push_str("`")?;
    }
    Ok(out)
}

fn unknown_words(alloc: Global, key: &str, keys: &[&str]) -> Result<String, AllocError> {
    let key = shown(alloc, key)?;
    let key = key.as_str();
    let keys = listed(alloc, keys)?;
    let keys = keys.as_str();
    format!(in alloc; " has the key {key}, and may have only {keys}.")
}

/// That an object has a key that nothing reads.
pub(crate) fn unknown_key(alloc: Global, key: &str, keys: &[&str]) -> Told {
    match unknown_words(alloc, key, keys) {
        Ok(words) => said_of(alloc, words),
        Err(_) => Told::OutOfMemory,
    }
}

/// That something is wrong that needs no other words than these.
pub(crate) fn plainly(alloc: Global, words: &str) -> Told {
    match String::from_str(alloc, words) {
        Ok(words) => said_of(alloc, words),
        Err(_) => Told::OutOfMemory,
    }
}

/// That an object lacks a key.
pub(crate) fn lacking(alloc: Global, key: &str) -> Told {
    match format!(in alloc; " lacks the key `{key}`.") {
        Ok(words) => said_of(alloc, words),
        Err(_) => Told::OutOfMemory,
    }
}
