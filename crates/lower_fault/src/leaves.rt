//! Values that have no parts, and types.
use crate::misfit::Told;
use crate::types::{text_fits, type_fits, word_fits};
use crate::words::unfit;
use glue_json::Counts;
use serde_json::Value;
use std::alloc::{AllocError, Global};

/// What a place counts.
#[derive(Clone, Copy)]
pub(crate) enum Kind {
    Import,
    Export,
    Func,
    Table,
    Memory,
    Global,
    Tag,
}

/// A value that has no parts, or a type.
#[derive(Clone, Copy)]
pub(crate) enum Leaf {
    Number,
    Signed,
    Truth,
    Text,
    TextOrNull,
    Word(&'static [&'static str]),
    Place(Kind),
    PlaceOrNull(Kind),
    Type,
    Version,
}

fn kind_name(kind: Kind) -> &'static str {
    match kind {
        Kind::Import => "an import",
        Kind::Export => "an export",
        Kind::Func => "a function",
        Kind::Table => "a table",
        Kind::Memory => "a memory",
        Kind::Global => "a global",
        Kind::Tag => "a tag",
    }
}

// How many entries of a kind the module has.
fn count_of(counts: &Counts, kind: Kind) -> usize {
    match kind {
        Kind::Import => counts.imports,
        Kind::Export => counts.exports,
        Kind::Func => counts.funcs,
        Kind::Table => counts.tables,
        Kind::Memory => counts.memories,
        Kind::Global => counts.globals,
        Kind::Tag => counts.tags,
    }
}

// A number from 0 to 2^32 - 1 that is written as an integer.
fn number_of(value: &Value) -> Option<u64> {
    match value.as_u64() {
        Some(number) if number < 4_294_967_296 => Some(number),
        _ => None,
    }
}

fn place_wanted(alloc: Global, counts: Option<&Counts>, kind: Kind) -> Result<String, AllocError> {
    let name = kind_name(kind);
    match counts {
        None => format!(in alloc; "the place of {name} of the module, a number"),
        Some(counts) => {
            let count = count_of(counts, kind);
            format!(in alloc; "the place of {name} of the module, a number below {count}")
        }
    }
}

// Whether a number is below the number of the module's entries, where that is known.
fn is_below(counts: Option<&Counts>, kind: Kind, number: u64) -> bool {
    match counts {
        None => true,
        Some(counts) => number < count_of(counts, kind) as u64,
    }
}

fn place_fits(
    alloc: Global,
    counts: Option<&Counts>,
    kind: Kind,
    value: &Value,
) -> Result<(), Told> {
    if let Some(number) = number_of(value)
        && is_below(counts, kind, number)
    {
        return Ok(());
    }
    let wanted = place_wanted(alloc, counts, kind)?;
    Err(unfit(alloc, value, wanted.as_str()))
}

// That a test holds of the value.
fn holds(alloc: Global, value: &Value, test: bool, wanted: &str) -> Result<(), Told> {
    if test {
        Ok(())
    } else {
        Err(unfit(alloc, value, wanted))
    }
}

/// That a value reads as such a leaf. Where the module's entries aren't counted, places may be any numbers.
pub(crate) fn leaf_fits(
    alloc: Global,
    counts: Option<&Counts>,
    leaf: Leaf,
    value: &Value,
) -> Result<(), Told> {
    match leaf {
        Leaf::Number => {
            let test = number_of(value).is_some();
            holds(
                alloc,
                value,
                test,
                "a number from 0 to 4294967295, written as an integer",
            )
        }
        Leaf::Signed => {
            let test = value.as_i64().is_some();
            holds(
                alloc,
                value,
                test,
                "a number with a sign and 64 bits, written as an integer",
            )
        }
        Leaf::Truth => holds(alloc, value, value.is_boolean(), "`true` or `false`"),
        Leaf::Text => text_fits(alloc, value),
        Leaf::TextOrNull => {
            let test = value.is_null() || value.is_string();
            holds(alloc, value, test, "a text or `null`")
        }
        Leaf::Word(words) => word_fits(alloc, words, value),
        Leaf::Place(kind) => place_fits(alloc, counts, kind, value),
        Leaf::PlaceOrNull(kind) => {
            if value.is_null() {
                return Ok(());
            }
            place_fits(alloc, counts, kind, value)
        }
        Leaf::Type => type_fits(alloc, value),
        Leaf::Version => {
            let test = number_of(value) == Some(1);
            holds(alloc, value, test, "the number 1, written as an integer")
        }
    }
}
