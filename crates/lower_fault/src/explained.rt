//! The whole answer.
ghost use Rattle.std.specs.Prelude.{IfOk};
ghost use Rattle.std.specs.String.{string_bytes};
ghost use Rattle.lower_fault.specs.Headed.{IsHeaded};

use crate::described::description_fits;
use crate::misfit::{Misfit, Told};
use glue_json::Counts;
use serde_json::{Error, Value};
use std::alloc::{AllocError, Global};

// Where a text isn't JSON.
fn syntax_words(alloc: Global, error: &Error) -> Result<String, AllocError> {
    let (line, column) = (error.line(), error.column());
    if error.is_eof() {
        return format!(in alloc;
            "the description isn't JSON: it ends too early, at line {line}, column {column}."
        );
    }
    format!(in alloc;
        "the description isn't JSON that is read: what stands at line {line}, column {column} can't stand there, or it is nested more than 127 deep."
    )
}

// What doesn't read, behind the name of what it stands in.
fn misfit_words(alloc: Global, misfit: &Misfit) -> Result<String, AllocError> {
    let (path, words) = (misfit.path.as_str(), misfit.words.as_str());
    format!(in alloc; "description{path}{words}")
}

// What is wrong with a value.
fn value_words(
    alloc: Global,
    counts: Option<&Counts>,
    value: &Value,
) -> Result<String, AllocError> {
    match description_fits(alloc, counts, value) {
        Ok(()) => String::from_str(
            alloc,
            "each key of the description reads by itself. The section `__wbg_glue` stands twice, or a place in the description is one that the module doesn't have.",
        ),
        Err(Told::Misfit(misfit)) => misfit_words(alloc, &misfit),
        Err(Told::OutOfMemory) => Err(AllocError),
    }
}

// What is wrong with a text.
fn text_words(alloc: Global, counts: Option<&Counts>, text: &str) -> Result<String, AllocError> {
    match Value::from_str(alloc, text) {
        Ok(value) => value_words(alloc, counts, &value),
        Err(error) => {
            if error.is_memory() {
                return Err(AllocError);
            }
            syntax_words(alloc, &error)
        }
    }
}

// What is wrong with the bytes.
fn words(alloc: Global, counts: Option<&Counts>, text: &[u8]) -> Result<String, AllocError> {
    match std::str::from_utf8(text) {
        Ok(text) => text_words(alloc, counts, text),
        Err(error) => {
            let place = error.valid_up_to();
            format!(in alloc;
                "the description isn't UTF-8: no character begins at its byte {place}."
            )
        }
    }
}

/// What is wrong with a description that doesn't read, the content of the section `__wbg_glue`: the line and the column, both counted from
/// 1, where it isn't JSON; else the first key that doesn't read, by its path, with what stands there and what may. In one line, without a
/// line feed at its end.
///
/// `counts` are the numbers of the entries of the module that the section stands in; where they aren't known, places of its entries may be
/// any numbers. Want of memory is the only error.
pub fn explain_lower(
    alloc: Global,
    counts: Option<&Counts>,
    text: &[u8],
) -> Result<String, AllocError>
    // It begins with the fault's name and a colon.
    ensures headed { IfOk result (λ s. IsHeaded (string_bytes s)) }
{
    let words = words(alloc, counts, text)?;
    let mut out = String::from_str(alloc, "Lower: ")?;
    out.push_str(words.as_str())?;
    Ok(out)
}
