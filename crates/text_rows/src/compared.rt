//! What several calls compare.
use rows::{RowFault, text_difference, texts_at};
use serde_json::Value;
use std::alloc::{AllocError, Global};
use values::{Seq, Text};

/// The text that is wanted; none where that is null.
pub fn wanted_text(row: &Value) -> Result<Option<&str>, RowFault> {
    match row.get("text") {
        Some(Value::Null) => Ok(None),
        Some(Value::String(text)) => Ok(Some(text.as_str())),
        _ => Err(RowFault::Row),
    }
}

/// The first difference of a text, or of none, from the one that is wanted, or from none.
pub fn optional_difference(
    alloc: Global,
    what: &str,
    got: Option<&str>,
    want: Option<&str>,
) -> Result<Option<String>, AllocError> {
    match (got, want) {
        (None, None) => Ok(None),
        (Some(got), Some(want)) => text_difference(alloc, what, got, want),
        (Some(got), None) => Ok(Some(format!(in alloc; "{what}: {got:?} for none")?)),
        (None, Some(want)) => Ok(Some(format!(in alloc; "{what}: none for {want:?}")?)),
    }
}

// The first place of a list, from 1, at which another text stands than is wanted, or a text alone.
fn text_in_list(
    alloc: Global,
    what: &str,
    got: &[Text],
    want: &[String],
) -> Result<Option<String>, AllocError> {
    let mut pairs = got.iter().zip(want);
    let differing = pairs.position(|(text, other)| text.as_str() != other.as_str());
    let index = differing.unwrap_or(got.len().min(want.len()));
    let place = index.saturating_add(1);
    match (got.get(index), want.get(index)) {
        (None, None) => Ok(None),
        (Some(text), None) => {
            let text = text.as_str();
            Ok(Some(format!(in alloc; "{what} {place}: {text:?} for none")?))
        }
        (None, Some(other)) => {
            let other = other.as_str();
            Ok(Some(format!(in alloc; "{what} {place}: none for {other:?}")?))
        }
        (Some(text), Some(other)) => {
            let (text, other) = (text.as_str(), other.as_str());
            Ok(Some(format!(in alloc; "{what} {place}: {text:?} for {other:?}")?))
        }
    }
}

// The names of those that hold.
fn held(alloc: Global, tests: &[(&str, bool)]) -> Result<Seq<Text>, AllocError> {
    let mut held = Seq::new(alloc);
    for (name, holds) in tests {
        if *holds {
            held.push(Text::from_str(alloc, name)?)?;
        }
    }
    Ok(held)
}

/// The first difference of those of these tests that hold from those under `holds`.
pub fn held_difference(
    alloc: Global,
    row: &Value,
    tests: &[(&str, bool)],
) -> Result<Option<String>, RowFault> {
    let held = held(alloc, tests)?;
    list_difference(alloc, row, "holds", held.as_slice())
}

/// The first difference of a list of texts from the one under a key.
pub fn list_difference(
    alloc: Global,
    row: &Value,
    key: &str,
    got: &[Text],
) -> Result<Option<String>, RowFault> {
    let want = texts_at(alloc, row, key)?;
    Ok(text_in_list(alloc, key, got, want.as_slice())?)
}
