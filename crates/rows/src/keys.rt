//! What a row has under its keys.
use crate::fault::RowFault;
use serde_json::Value;
use std::alloc::Global;

/// What the row is called.
pub fn name_of(row: &Value) -> &str {
    match row.get("name") {
        Some(Value::String(text)) => text.as_str(),
        _ => "without a name",
    }
}

/// The text that a value is.
pub fn text_of(value: &Value) -> Result<&str, RowFault> {
    match value {
        Value::String(text) => Ok(text.as_str()),
        _ => Err(RowFault::Row),
    }
}

/// The text under a key.
pub fn text_at<'a>(row: &'a Value, key: &str) -> Result<&'a str, RowFault> {
    match row.get(key) {
        Some(Value::String(text)) => Ok(text.as_str()),
        _ => Err(RowFault::Row),
    }
}

/// The text under a key; none where the key is absent or has `null`.
pub fn opt_text_at<'a>(row: &'a Value, key: &str) -> Result<Option<&'a str>, RowFault> {
    match row.get(key) {
        None | Some(Value::Null) => Ok(None),
        Some(Value::String(text)) => Ok(Some(text.as_str())),
        _ => Err(RowFault::Row),
    }
}

/// Whether the key has `true`; an absent key has `false`.
pub fn flag_at(row: &Value, key: &str) -> Result<bool, RowFault> {
    match row.get(key) {
        None => Ok(false),
        Some(Value::Bool(flag)) => Ok(*flag),
        _ => Err(RowFault::Row),
    }
}

// The number that a value is, where it is one from 0 to 2^64 - 1.
fn number_of(value: &Value) -> Result<u64, RowFault> {
    let Value::Number(number) = value else {
        return Err(RowFault::Row);
    };
    match number.as_u64() {
        Some(number) => Ok(number),
        None => Err(RowFault::Row),
    }
}

/// The number under a key, from 0 to 2^64 - 1.
pub fn number_at(row: &Value, key: &str) -> Result<u64, RowFault> {
    match row.get(key) {
        Some(value) => number_of(value),
        None => Err(RowFault::Row),
    }
}

/// The number under a key; none where the key is absent or has `null`.
pub fn opt_number_at(row: &Value, key: &str) -> Result<Option<u64>, RowFault> {
    match row.get(key) {
        None | Some(Value::Null) => Ok(None),
        Some(value) => Ok(Some(number_of(value)?)),
    }
}

/// The list under a key.
pub fn array_at<'a>(row: &'a Value, key: &str) -> Result<&'a [Value], RowFault> {
    match row.get(key) {
        Some(Value::Array(values)) => Ok(values.as_slice()),
        _ => Err(RowFault::Row),
    }
}

/// The list under a key; none where the key is absent or has `null`.
pub fn opt_array_at<'a>(row: &'a Value, key: &str) -> Result<Option<&'a [Value]>, RowFault> {
    match row.get(key) {
        None | Some(Value::Null) => Ok(None),
        Some(Value::Array(values)) => Ok(Some(values.as_slice())),
        _ => Err(RowFault::Row),
    }
}

// These texts.
fn texts_of(alloc: Global, values: &[Value]) -> Result<Vec<String>, RowFault> {
    let mut texts = Vec::new(alloc);
    for value in values {
        texts.push(String::from_str(alloc, text_of(value)?)?)?;
    }
    Ok(texts)
}

/// The texts under a key.
pub fn texts_at(alloc: Global, row: &Value, key: &str) -> Result<Vec<String>, RowFault> {
    texts_of(alloc, array_at(row, key)?)
}

/// The texts under a key; none where the key is absent or has `null`.
pub fn opt_texts_at(
    alloc: Global,
    row: &Value,
    key: &str,
) -> Result<Option<Vec<String>>, RowFault> {
    match opt_array_at(row, key)? {
        None => Ok(None),
        Some(values) => Ok(Some(texts_of(alloc, values)?)),
    }
}

/// The bytes that a value has as a text of hexadecimal digits.
pub fn bytes_of(alloc: Global, value: &Value) -> Result<Vec<u8>, RowFault> {
    Ok(hex::decode(alloc, text_of(value)?)?)
}

/// The bytes under a key, as a text of hexadecimal digits.
pub fn bytes_at(alloc: Global, row: &Value, key: &str) -> Result<Vec<u8>, RowFault> {
    Ok(hex::decode(alloc, text_at(row, key)?)?)
}

/// The bytes under a key; none where the key is absent or has `null`.
pub fn opt_bytes_at(alloc: Global, row: &Value, key: &str) -> Result<Option<Vec<u8>>, RowFault> {
    match opt_text_at(row, key)? {
        None => Ok(None),
        Some(text) => Ok(Some(hex::decode(alloc, text)?)),
    }
}
