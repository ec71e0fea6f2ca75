//! The call `demangle`.
use demangle_core::demangle;
use rows::{RowFault, opt_text_at, text_at, text_difference};
use serde_json::Value;
use std::alloc::Global;

// What stands for no path. No path has a line feed in it that a row names.
const NONE: &str = "no symbol\n";

/// The first difference of a row of this call.
pub fn difference(alloc: Global, row: &Value) -> Result<Option<String>, RowFault> {
    let want = opt_text_at(row, "text")?.unwrap_or(NONE);
    match demangle(alloc, text_at(row, "of")?)? {
        None => Ok(text_difference(alloc, "text", NONE, want)?),
        Some(path) => Ok(text_difference(alloc, "text", path.as_str(), want)?),
    }
}
