//! What stands at the places of a list in a row, and which keys a row has.
use rows::{RowFault, bytes_of, text_of};
use serde_json::{Map, Value};
use std::alloc::Global;

// The value at a place.
fn value(values: &[Value], place: usize) -> Result<&Value, RowFault> {
    match values.get(place) {
        Some(value) => Ok(value),
        None => Err(RowFault::Row),
    }
}

/// The list that a value is.
pub fn list_of(value: &Value) -> Result<&[Value], RowFault> {
    match value {
        Value::Array(values) => Ok(values.as_slice()),
        _ => Err(RowFault::Row),
    }
}

/// The number that a value is, from 0 to 2^64 - 1.
pub fn number_of(value: &Value) -> Result<u64, RowFault> {
    let Value::Number(number) = value else {
        return Err(RowFault::Row);
    };
    match number.as_u64() {
        Some(number) => Ok(number),
        None => Err(RowFault::Row),
    }
}

/// The number that a value is, from -2^63 to 2^63 - 1.
pub fn signed_of(value: &Value) -> Result<i64, RowFault> {
    let Value::Number(number) = value else {
        return Err(RowFault::Row);
    };
    match number.as_i64() {
        Some(number) => Ok(number),
        None => Err(RowFault::Row),
    }
}

/// The number that a value is, from 0 to 2^32 - 1.
pub fn number32_of(value: &Value) -> Result<u32, RowFault> {
    match u32::try_from(number_of(value)?) {
        Ok(number) => Ok(number),
        Err(_) => Err(RowFault::Row),
    }
}

/// The text at a place.
pub fn text(values: &[Value], place: usize) -> Result<&str, RowFault> {
    text_of(value(values, place)?)
}

/// The bytes at a place, as a text of hexadecimal digits.
pub fn bytes(alloc: Global, values: &[Value], place: usize) -> Result<Vec<u8>, RowFault> {
    bytes_of(alloc, value(values, place)?)
}

/// The list at a place.
pub fn list(values: &[Value], place: usize) -> Result<&[Value], RowFault> {
    list_of(value(values, place)?)
}

/// The number at a place, from 0 to 2^64 - 1.
pub fn number(values: &[Value], place: usize) -> Result<u64, RowFault> {
    number_of(value(values, place)?)
}

/// The number at a place, from -2^63 to 2^63 - 1.
pub fn signed(values: &[Value], place: usize) -> Result<i64, RowFault> {
    signed_of(value(values, place)?)
}

/// The number at a place, from 0 to 2^32 - 1.
pub fn number32(values: &[Value], place: usize) -> Result<u32, RowFault> {
    number32_of(value(values, place)?)
}

/// The number at a place, from 0 to 255.
pub fn byte(values: &[Value], place: usize) -> Result<u8, RowFault> {
    match u8::try_from(number(values, place)?) {
        Ok(number) => Ok(number),
        Err(_) => Err(RowFault::Row),
    }
}

/// The members of the object under a key; none where the key is absent.
pub fn members<'a>(row: &'a Value, key: &str) -> Result<Option<&'a Map<String, Value>>, RowFault> {
    match row.get(key) {
        None => Ok(None),
        Some(Value::Object(members)) => Ok(Some(members)),
        Some(_) => Err(RowFault::Row),
    }
}

/// The object has no other keys than these.
pub fn only(object: &Value, keys: &[&str]) -> Result<(), RowFault> {
    let Value::Object(members) = object else {
        return Err(RowFault::Row);
    };
    for found in members.keys() {
        if !keys.iter().any(|key| *key == found.as_str()) {
            return Err(RowFault::Row);
        }
    }
    Ok(())
}
