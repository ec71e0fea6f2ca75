//! The texts of helpers that give a view of a memory, which is kept until the memory grows.
//!
//! Stand-ins: `$view` for the helper's own name and `$cache` for the variable that keeps the view, which end with the
//! memory's place; `$kind` for the host's class of the view; `$memory` for the memory's export.

ghost use Rattle.std.specs.Prelude.{◌≡◌, IfOk};
ghost use Rattle.glue_helpers.specs.Views as spec;

use crate::element::{ElementKind, class_of};
use crate::naming::{array_cache_name, array_view_name, named_item, numbered_text};
use glue_words::Item;
use std::alloc::{AllocError, Global};
use values::{Duplicate, Text};

/// `getUint8ArrayMemory0()`: the memory as an array of a kind. The view of a memory that has grown has no bytes.
pub const ARRAY_VIEW: &str = r#"let b@$cache = null;
function b@$view() {
if (u@$cache === null || u@$cache.byteLength === 0) {
u@$cache = new h@$kind(u@wasm.w@$memory.buffer);
}
return u@$cache;
}
"#;

/// `getDataViewMemory0()`: the memory as a view of numbers. Where the host doesn't tell whether a buffer is detached,
/// it is compared with the memory's.
pub const DATA_VIEW: &str = r#"let b@$cache = null;
function b@$view() {
if (u@$cache === null || u@$cache.buffer.detached === true || (u@$cache.buffer.detached === h@undefined && u@$cache.buffer !== u@wasm.w@$memory.buffer)) {
u@$cache = new h@DataView(u@wasm.w@$memory.buffer);
}
return u@$cache;
}
"#;

/// The item of `ARRAY_VIEW` for the memory at a place, which is exported under this name. The only error is want of
/// memory, as of the call below.
#[tactic(auto, using(crate::proofs::ViewTexts::array_view_reads))]
pub fn array_view(
    alloc: Global,
    element: ElementKind,
    memory: u32,
    export: &str,
) -> Result<Item, AllocError>
    ensures item { IfOk result (λ item. item ≡ spec.array_view element memory export.now) }
{
    let name = array_view_name(alloc, element, memory)?;
    let own = (Text::from_str(alloc, "$view")?, name.copy(alloc)?);
    let cache = (
        Text::from_str(alloc, "$cache")?,
        array_cache_name(alloc, element, memory)?,
    );
    let kind = (
        Text::from_str(alloc, "$kind")?,
        Text::from_str(alloc, class_of(element))?,
    );
    let export = (
        Text::from_str(alloc, "$memory")?,
        Text::from_str(alloc, export)?,
    );
    named_item(alloc, name, &[own, cache, kind], &[export], ARRAY_VIEW)
}

/// The item of `DATA_VIEW` for such a memory.
#[tactic(auto, using(crate::proofs::ViewTexts::data_view_reads))]
pub fn data_view(alloc: Global, memory: u32, export: &str) -> Result<Item, AllocError>
    ensures item { IfOk result (λ item. item ≡ spec.data_view memory export.now) }
{
    let name = numbered_text(alloc, "getDataViewMemory", memory)?;
    let own = (Text::from_str(alloc, "$view")?, name.copy(alloc)?);
    let cache = (
        Text::from_str(alloc, "$cache")?,
        numbered_text(alloc, "cachedDataViewMemory", memory)?,
    );
    let export = (
        Text::from_str(alloc, "$memory")?,
        Text::from_str(alloc, export)?,
    );
    named_item(alloc, name, &[own, cache], &[export], DATA_VIEW)
}
