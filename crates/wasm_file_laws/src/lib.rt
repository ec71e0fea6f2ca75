//! Files that are written are read again (WebAssembly core specification, 5.5).
//!
//! Each law is the contract of a function without a body: the lists of a file that fit the grammar, once they are written,
//! are read as the same lists, and what is read fits. It stands on `wasm_ops_laws`, `wasm_file`, `wasm_code`,
//! `packed_ops`, `wasm_ops`, `wasm_types`, `wasm_bytes` and `values`.
#![tactic(auto)]

mod customs;
mod entries;
mod file;
mod found;

pub use customs::customs_are_read_again;
pub use entries::entries_are_read_again;
pub use file::file_is_read_again;
pub use found::{customs_that_are_read_fit, file_that_is_read_fits};
