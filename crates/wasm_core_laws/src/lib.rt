//! Modules that are written are read again (WebAssembly core specification, 5.5).
//!
//! Each law is the contract of a function without a body: a module whose entries fit the grammar and name what is there, once
//! it is written, is read as the same live entries, renumbered in the order of emission; what is read is such a module, and
//! what is left of one by collecting or editing is one again. It stands on `wasm_core`, `wasm_emission`, `wasm_collect`,
//! `wasm_file_laws`, `wasm_reach`, `wasm_file`, `wasm_code`, `packed_ops`, `wasm_ops`, `wasm_types`, `wasm_bytes` and `values`.
#![tactic(auto)]

mod assembled;
mod collected;
mod customs;
mod edited;
mod filed;
mod laws;
mod parsed;
mod renumbering;

pub use assembled::assembled_again;
pub use collected::collected_module_stays_one;
pub use customs::customs_again;
pub use edited::edited_module_is_one;
pub use filed::filed_module_fits;
pub use laws::module_is_read_again;
pub use parsed::{parsed_module_is_one, parsed_module_is_read_as_itself};
pub use renumbering::entries_are_renumbered;
