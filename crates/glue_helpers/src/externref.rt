//! The texts of helpers that reach values by the table of references.
//!
//! Stand-ins: `$name` for the helper's own name, which ends with the table's place; `$table` for the table's export,
//! `$alloc` for the export that gives a free place, `$drop` for the one that frees a place.

ghost use Rattle.std.specs.Prelude.{◌≡◌, IfOk};
ghost use Rattle.glue_helpers.specs.References as spec;

use crate::naming::{named_item, numbered_text};
use glue_words::Item;
use std::alloc::{AllocError, Global};
use values::{Duplicate, Text};

/// `addToExternrefTable0(obj)` puts a value at a free place, and gives the place.
pub const ADD_TO_TABLE: &str = r#"function b@$name(l@obj) {
const l@idx = u@wasm.w@$alloc();
u@wasm.w@$table.set(idx, obj);
return idx;
}
"#;

/// `getFromExternrefTable0(idx)`: the value at a place.
pub const GET_FROM_TABLE: &str = r#"function b@$name(l@idx) { return u@wasm.w@$table.get(idx); }
"#;

/// `takeFromExternrefTable0(idx)`: the value at a place, which is freed.
pub const TAKE_FROM_TABLE: &str = r#"function b@$name(l@idx) {
const l@value = u@wasm.w@$table.get(idx);
u@wasm.w@$drop(idx);
return value;
}
"#;

/// The item of `ADD_TO_TABLE` for the table at a place, with its export and the export that gives a free place. The only
/// error is want of memory, as of the calls below.
#[tactic(auto, using(crate::proofs::ReferenceTexts::add_to_table_reads))]
pub fn add_to_table(
    alloc: Global,
    table: u32,
    export: &str,
    allocate: &str,
) -> Result<Item, AllocError>
    ensures item { IfOk result (λ item. item ≡ spec.add_to_table table export.now allocate.now) }
{
    let name = numbered_text(alloc, "addToExternrefTable", table)?;
    let own = (Text::from_str(alloc, "$name")?, name.copy(alloc)?);
    let export = (
        Text::from_str(alloc, "$table")?,
        Text::from_str(alloc, export)?,
    );
    let allocate = (
        Text::from_str(alloc, "$alloc")?,
        Text::from_str(alloc, allocate)?,
    );
    named_item(alloc, name, &[own], &[export, allocate], ADD_TO_TABLE)
}

/// The item of `GET_FROM_TABLE` for the table at a place, with its export.
#[tactic(auto, using(crate::proofs::ReferenceTexts::get_from_table_reads))]
pub fn get_from_table(alloc: Global, table: u32, export: &str) -> Result<Item, AllocError>
    ensures item { IfOk result (λ item. item ≡ spec.get_from_table table export.now) }
{
    let name = numbered_text(alloc, "getFromExternrefTable", table)?;
    let own = (Text::from_str(alloc, "$name")?, name.copy(alloc)?);
    let export = (
        Text::from_str(alloc, "$table")?,
        Text::from_str(alloc, export)?,
    );
    named_item(alloc, name, &[own], &[export], GET_FROM_TABLE)
}

/// The item of `TAKE_FROM_TABLE` for the table at a place, with its export and the export that frees a place.
#[tactic(auto, using(crate::proofs::ReferenceTexts::take_from_table_reads))]
pub fn take_from_table(
    alloc: Global,
    table: u32,
    export: &str,
    free: &str,
) -> Result<Item, AllocError>
    ensures item { IfOk result (λ item. item ≡ spec.take_from_table table export.now free.now) }
{
    let name = numbered_text(alloc, "takeFromExternrefTable", table)?;
    let own = (Text::from_str(alloc, "$name")?, name.copy(alloc)?);
    let export = (
        Text::from_str(alloc, "$table")?,
        Text::from_str(alloc, export)?,
    );
    let free = (
        Text::from_str(alloc, "$drop")?,
        Text::from_str(alloc, free)?,
    );
    named_item(alloc, name, &[own], &[export, free], TAKE_FROM_TABLE)
}
