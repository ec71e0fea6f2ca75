//! The first difference between what was found and what a row wants.
use rows::{RowFault, opt_number_at, opt_text_at, text_difference, text_of};
use serde_json::Value;
use std::alloc::{AllocError, Global};
use std::fmt::Debug;

/// A value as `{:?}` prints it.
pub fn printed<T: Debug + Drop>(alloc: Global, value: T) -> Result<String, AllocError> {
    format!(in alloc; "{value:?}")
}

/// That the place of the first fault, none where there is none, is another one than `fault` wants.
pub fn fault_difference(
    alloc: Global,
    row: &Value,
    place: Option<u64>,
) -> Result<Option<String>, RowFault> {
    let wanted = opt_number_at(row, "fault")?;
    if place == wanted {
        return Ok(None);
    }
    Ok(Some(format!(in alloc; "fault: {place:?} for {wanted:?}")?))
}

/// That a printed value is another one than the row wants under a key, where the key is there.
pub fn printed_difference<T: Debug>(
    alloc: Global,
    row: &Value,
    key: &str,
    value: &T,
) -> Result<Option<String>, RowFault> {
    let Some(wanted) = opt_text_at(row, key)? else {
        return Ok(None);
    };
    let found = format!(in alloc; "{value:?}")?;
    Ok(text_difference(alloc, key, found.as_str(), wanted)?)
}

/// That one of the answers is another one than is wanted.
pub fn answers_difference(
    alloc: Global,
    answers: &[String],
    wanted: &[Value],
) -> Result<Option<String>, RowFault> {
    let (count, want) = (answers.len(), wanted.len());
    if count != want {
        return Ok(Some(format!(in alloc; "answers: {count} for {want}")?));
    }
    for (place, (answer, value)) in answers.iter().zip(wanted).enumerate() {
        let want = text_of(value)?;
        if answer.as_str() != want {
            return Ok(Some(format!(in alloc; "answer {place}: {answer} for {want}")?));
        }
    }
    Ok(None)
}
