//! Calls on a text, `of`:
//!
//! - `literal`: `text` is its string literal.
//! - `identifier`: `text` is the identifier that is made of it. A text is told to be an identifier exactly where this is itself.
//! - `property`: `text` is how a property of this name is accessed, and `computed` says whether the name is a computed key.
//! - `indented`: `text` is how it is laid out. What is laid out stays as it is.
//! - `view`: `text` is the name with `number`, as a helper's name is displayed.
use glue_inputs::printed;
use glue_layout::reset_indentation;
use glue_scope::{
    MemView, is_computed_key, is_valid_ident, js_string_literal, property_words, to_valid_ident,
};
use rows::{RowFault, flag_at, number_at, text_at, text_difference, truth_difference};
use serde_json::Value;
use std::alloc::{AllocError, Global};
use values::{Seq, Text};

/// The first difference of a row with one of these calls.
pub fn difference(alloc: Global, row: &Value) -> Result<Option<String>, RowFault> {
    let of = text_at(row, "of")?;
    let want = text_at(row, "text")?;
    match text_at(row, "call")? {
        "literal" => Ok(literal(alloc, of, want)?),
        "identifier" => Ok(identifier(alloc, of, want)?),
        "property" => Ok(property(alloc, of, want, flag_at(row, "computed")?)?),
        "indented" => Ok(indented(alloc, of, want)?),
        "view" => view(alloc, of, number_at(row, "number")?, want),
        _ => Err(RowFault::Row),
    }
}

fn literal(alloc: Global, of: &str, want: &str) -> Result<Option<String>, AllocError> {
    let made = js_string_literal(alloc, of)?;
    text_difference(alloc, "text", made.as_str(), want)
}

fn identifier(alloc: Global, of: &str, want: &str) -> Result<Option<String>, AllocError> {
    let made = to_valid_ident(alloc, of)?;
    let told = text_difference(alloc, "text", made.as_str(), want)?;
    if told.is_some() {
        return Ok(told);
    }
    truth_difference(alloc, "it is an identifier", is_valid_ident(of), of == want)
}

fn property(
    alloc: Global,
    of: &str,
    want: &str,
    is_computed: bool,
) -> Result<Option<String>, AllocError> {
    let made = printed(alloc, Seq::from_vec(property_words(alloc, of)?))?;
    let told = text_difference(alloc, "text", made.as_str(), want)?;
    if told.is_some() {
        return Ok(told);
    }
    truth_difference(alloc, "it is computed", is_computed_key(of), is_computed)
}

fn indented(alloc: Global, of: &str, want: &str) -> Result<Option<String>, AllocError> {
    let made = reset_indentation(alloc, of)?;
    let told = text_difference(alloc, "text", made.as_str(), want)?;
    if told.is_some() {
        return Ok(told);
    }
    let again = reset_indentation(alloc, want)?;
    text_difference(alloc, "laid out again", again.as_str(), want)
}

fn view(alloc: Global, of: &str, number: u64, want: &str) -> Result<Option<String>, RowFault> {
    let Ok(num) = u32::try_from(number) else {
        return Err(RowFault::Row);
    };
    let view = MemView {
        name: Text::from_str(alloc, of)?,
        num,
    };
    let made = format!(in alloc; "{view}")?;
    Ok(text_difference(alloc, "text", made.as_str(), want)?)
}
