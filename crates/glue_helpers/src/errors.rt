//! The texts of helpers that catch what an import throws, and of the class of errors that a panic is thrown as.
//!
//! Stand-ins: `$store` for the export that keeps what was thrown; `$add` for the helper that adds a value to the table
//! of references.

ghost use Rattle.std.specs.Prelude.{◌≡◌, IfOk};
ghost use Rattle.glue_helpers.specs.Errors as spec;

use crate::naming::{named_item, numbered_text};
use glue_words::Item;
use std::alloc::{AllocError, Global};
use values::Text;

/// `handleError(f, args)` calls `f`, and hands what it throws to the export, as a reference of the table.
pub const HANDLE_ERROR_BY_TABLE: &str = r#"function b@handleError(l@f, l@args) {
try {
return f.apply(this, args);
} catch (l@e) {
const l@idx = u@$add(e);
u@wasm.w@$store(idx);
}
}
"#;

/// The same, with a place of the heap of objects.
pub const HANDLE_ERROR_BY_HEAP: &str = r#"function b@handleError(l@f, l@args) {
try {
return f.apply(this, args);
} catch (l@e) {
u@wasm.w@$store(u@addHeapObject(e));
}
}
"#;

/// `logError(f, args)` calls `f`; what it throws is written to the console, and thrown again.
pub const LOG_ERROR: &str = r#"function b@logError(l@f, l@args) {
try {
return f.apply(this, args);
} catch (l@e) {
let l@error = (function () {
try {
return e instanceof h@Error ? `${e.message}\n\nStack:\n${e.stack}` : e.toString();
} catch(l@_) {
return "<failed to stringify thrown value>";
}
}());
h@console.error("wasm-bindgen: imported JS function that was not marked as `catch` threw an error:", error);
throw e;
}
}
"#;

/// `PanicError`, the class of what a panic throws.
pub const PANIC_ERROR: &str = r#"class b@PanicError extends g@Error {}
g@Object.defineProperty(n@PanicError.prototype, "name", {
p@value: "PanicError",
});
"#;

/// The item of `HANDLE_ERROR_BY_TABLE`, for the table of references at a place, and the export that keeps what was thrown.
/// The only error is want of memory, as of the call below.
#[tactic(auto, using(crate::proofs::ErrorTexts::by_table_reads))]
pub fn handle_error_by_table(alloc: Global, table: u32, store: &str) -> Result<Item, AllocError>
    ensures item { IfOk result (λ item. item ≡ spec.handle_error_by_table table store.now) }
{
    let key = Text::from_str(alloc, "handle_error")?;
    let add = (
        Text::from_str(alloc, "$add")?,
        numbered_text(alloc, "addToExternrefTable", table)?,
    );
    let store = (
        Text::from_str(alloc, "$store")?,
        Text::from_str(alloc, store)?,
    );
    named_item(alloc, key, &[add], &[store], HANDLE_ERROR_BY_TABLE)
}

/// The item of `HANDLE_ERROR_BY_HEAP`, for that export.
#[tactic(auto, using(crate::proofs::ErrorTexts::by_heap_reads))]
pub fn handle_error_by_heap(alloc: Global, store: &str) -> Result<Item, AllocError>
    ensures item { IfOk result (λ item. item ≡ spec.handle_error_by_heap store.now) }
{
    let key = Text::from_str(alloc, "handle_error")?;
    let store = (
        Text::from_str(alloc, "$store")?,
        Text::from_str(alloc, store)?,
    );
    named_item(alloc, key, &[], &[store], HANDLE_ERROR_BY_HEAP)
}
