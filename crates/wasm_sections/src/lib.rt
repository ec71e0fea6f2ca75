//! Custom sections of a file replaced: some go, one is put at the end, and all else stays byte for byte.
//!
//! `split_debug_info` gives exactly what `split_debug_info` of `specs/` gives, `describe` exactly what `described` gives,
//! both by the one definition `replaced` over the file's frames, and `has_description` exactly `has_description`; each has
//! the place of the first fault, unless memory runs out. It stands on `wasm_core`, `wasm_file`, `wasm_bytes` and `values`.
#![tactic(auto)]

mod going;
mod replaced;

pub use replaced::{describe, has_description, split_debug_info};
