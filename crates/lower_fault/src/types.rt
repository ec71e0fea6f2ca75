//! Types of arguments and results.
use crate::misfit::{Told, at_key};
use crate::words::{listed, unfit};
use serde_json::Value;
use std::alloc::{AllocError, Global};

/// The elements of a vector.
pub(crate) const VECTORS: &[&str] = &[
    "I8", "U8", "I16", "U16", "I32", "U32", "I64", "U64", "Value",
];

// The types that are a word.
const PLAIN: &[&str] = &[
    "i32",
    "s32",
    "u32",
    "i64",
    "s64",
    "u64",
    "bool",
    "string",
    "externref",
];

fn one_of(alloc: Global, words: &[&str]) -> Result<String, AllocError> {
    let words = listed(alloc, words)?;
    let words = words.as_str();
    format!(in alloc; "one of {words}")
}

/// That the value is one of these words.
pub(crate) fn word_fits(alloc: Global, words: &[&str], value: &Value) -> Result<(), Told> {
    if let Value::String(text) = value
        && (&*words).contains(&text.as_str())
    {
        return Ok(());
    }
    let wanted = one_of(alloc, words)?;
    Err(unfit(alloc, value, wanted.as_str()))
}

/// That the value is a text.
pub(crate) fn text_fits(alloc: Global, value: &Value) -> Result<(), Told> {
    match value {
        Value::String(_) => Ok(()),
        _ => Err(unfit(alloc, value, "a text")),
    }
}

fn no_type(alloc: Global, value: &Value) -> Told {
    match one_of(alloc, PLAIN) {
        Ok(words) => no_type_but(alloc, value, words.as_str()),
        Err(_) => Told::OutOfMemory,
    }
}

fn no_type_but(alloc: Global, value: &Value, words: &str) -> Told {
    match format!(in alloc;
        "a type: {words}, or an object with one of the keys `class`, `enum`, `string_enum`, `union`, `vec`, `option` alone"
    ) {
        Ok(wanted) => unfit(alloc, value, wanted.as_str()),
        Err(_) => Told::OutOfMemory,
    }
}

// That the value of an object's only key fits, other than that of an option.
fn keyed_fits(alloc: Global, whole: &Value, key: &str, value: &Value) -> Result<(), Told> {
    match key {
        "class" | "enum" | "string_enum" | "union" => {
            at_key(alloc, key, text_fits(alloc, value))
        }
        "vec" => at_key(alloc, key, word_fits(alloc, VECTORS, value)),
        _ => Err(no_type(alloc, whole)),
    }
}

/// That the value is a type.
pub(crate) fn type_fits(alloc: Global, value: &Value) -> Result<(), Told> {
    match value {
        Value::String(text) => {
            if PLAIN.contains(&text.as_str()) {
                return Ok(());
            }
            Err(no_type(alloc, value))
        }
        Value::Object(members) => {
            if members.len() != 1 {
                return Err(no_type(alloc, value));
            }
            match members.iter().next() {
                Some((key, member)) => {
                    if key.as_str() == "option" {
                        let inner = type_fits(alloc, member);
                        return at_key(alloc, "option", inner);
                    }
                    keyed_fits(alloc, value, key.as_str(), member)
                }
                None => Err(no_type(alloc, value)),
            }
        }
        _ => Err(no_type(alloc, value)),
    }
}
