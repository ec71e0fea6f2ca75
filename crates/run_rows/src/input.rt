//! The module of a row, with its description.
use rows::{RowFault, bytes_at, opt_array_at, text_of};
use serde_json::Value;
use std::alloc::{AllocError, Global};
use wasm_bytes::{write_framed, write_name};

/// The keys of a row that say what its module is.
pub const KEYS: &[&str] = &["name", "module", "description", "edits", "repeated"];

// The section of a description.
const SECTION: &str = "__wbg_glue";

// Appends a custom section.
fn push_section(
    alloc: Global,
    bytes: &mut Vec<u8>,
    name: &str,
    content: &[u8],
) -> Result<(), AllocError> {
    let mut named = Vec::new(alloc);
    write_name(&mut named, name)?;
    named.extend_from_slice(content)?;
    bytes.push(0)?;
    write_framed(bytes, named.as_slice())
}

// The description as it stands in the row; none where there is none.
fn described(alloc: Global, row: &Value) -> Result<Option<String>, AllocError> {
    match row.get("description") {
        None | Some(Value::Null) => Ok(None),
        Some(Value::String(text)) => Ok(Some(String::from_str(alloc, text.as_str())?)),
        Some(value) => Ok(Some(value.to_string(alloc)?)),
    }
}

// The text with another part in the place of this one, which has to stand in it once.
fn replaced(alloc: Global, text: &str, part: &str, other: &str) -> Result<String, RowFault> {
    match text.split_once(part) {
        Some((front, behind)) if behind.split_once(part).is_none() => {
            Ok(format!(in alloc; "{front}{other}{behind}")?)
        }
        _ => Err(RowFault::Row),
    }
}

// The text with an edit, which is a pair of texts.
fn with_edit(alloc: Global, text: &str, edit: &Value) -> Result<String, RowFault> {
    let Value::Array(pair) = edit else {
        return Err(RowFault::Row);
    };
    match pair.as_slice() {
        [part, other] => replaced(alloc, text, text_of(part)?, text_of(other)?),
        _ => Err(RowFault::Row),
    }
}

// The text with the row's edits, one behind the other.
fn edited(alloc: Global, row: &Value, text: String) -> Result<String, RowFault> {
    let Some(edits) = opt_array_at(row, "edits")? else {
        return Ok(text);
    };
    let mut text = text;
    for edit in edits {
        text = with_edit(alloc, text.as_str(), edit)?;
    }
    Ok(text)
}

// The text that stands so many times.
fn times(alloc: Global, text: &str, count: &Value) -> Result<String, RowFault> {
    let Value::Number(number) = count else {
        return Err(RowFault::Row);
    };
    match number.as_u64() {
        Some(count) if count <= 1_000_000 => repeat(alloc, text, count),
        _ => Err(RowFault::Row),
    }
}

fn repeat(alloc: Global, text: &str, count: u64) -> Result<String, RowFault> {
    let mut out = String::new(alloc);
    for _ in 0..count {
        out.push_str(text)?;
    }
    Ok(out)
}

/// The text with what the row says is repeated.
pub fn unfolded(alloc: Global, row: &Value, text: &str) -> Result<String, RowFault> {
    match opt_array_at(row, "repeated")? {
        None => Ok(String::from_str(alloc, text)?),
        Some([part, other, count]) => {
            let long = times(alloc, text_of(other)?, count)?;
            Ok(text.replace(alloc, text_of(part)?, long.as_str())?)
        }
        Some(_) => Err(RowFault::Row),
    }
}

/// The row's module, with its description behind it.
pub fn module_of(alloc: Global, row: &Value) -> Result<Vec<u8>, RowFault> {
    let mut bytes = bytes_at(alloc, row, "module")?;
    if let Some(text) = described(alloc, row)? {
        let text = edited(alloc, row, text)?;
        let text = unfolded(alloc, row, text.as_str())?;
        push_section(alloc, &mut bytes, SECTION, text.as_bytes())?;
    }
    Ok(bytes)
}
