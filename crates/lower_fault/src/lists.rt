//! Lists that have exactly so many parts.
use crate::leaves::{Leaf, leaf_fits};
use crate::misfit::{Told, at_place, said_of};
use crate::words::unfit;
use glue_json::Counts;
use serde_json::Value;
use std::alloc::{AllocError, Global};

fn count_words(alloc: Global, found: usize, wanted: usize) -> Result<String, AllocError> {
    let noun = if found == 1 { "entry" } else { "entries" };
    format!(in alloc; " has {found} {noun}, and has to have {wanted}.")
}

/// That a list has another number of entries than it has to.
pub(crate) fn miscounted(alloc: Global, found: usize, wanted: usize) -> Told {
    match count_words(alloc, found, wanted) {
        Ok(words) => said_of(alloc, words),
        Err(_) => Told::OutOfMemory,
    }
}

/// That the entries from a place on read as these leaves.
pub(crate) fn leaves_fit(
    alloc: Global,
    counts: Option<&Counts>,
    leaves: &[Leaf],
    first: usize,
    values: &[Value],
) -> Result<(), Told> {
    if values.len() != leaves.len() {
        let found = values.len().saturating_add(first);
        let wanted = leaves.len().saturating_add(first);
        return Err(miscounted(alloc, found, wanted));
    }
    let mut place = first;
    for (leaf, value) in leaves.iter().zip(values) {
        at_place(alloc, place, leaf_fits(alloc, counts, *leaf, value))?;
        place = place.saturating_add(1);
    }
    Ok(())
}

/// That the value is a list of these leaves.
pub(crate) fn tuple_fits(
    alloc: Global,
    counts: Option<&Counts>,
    leaves: &[Leaf],
    value: &Value,
) -> Result<(), Told> {
    match value {
        Value::Array(values) => leaves_fit(alloc, counts, leaves, 0, values.as_slice()),
        _ => Err(unfit(alloc, value, "a list")),
    }
}

/// That the value is a list, each entry of which reads as this leaf.
pub(crate) fn each_fits(
    alloc: Global,
    counts: Option<&Counts>,
    leaf: Leaf,
    value: &Value,
) -> Result<(), Told> {
    let Value::Array(values) = value else {
        return Err(unfit(alloc, value, "a list"));
    };
    for (place, value) in values.iter().enumerate() {
        at_place(alloc, place, leaf_fits(alloc, counts, leaf, value))?;
    }
    Ok(())
}
