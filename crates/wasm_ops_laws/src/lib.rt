//! Operators that are written are read again (WebAssembly core specification, 5.4).
//!
//! Each law is the contract of a function without a body: an operator, an initial expression and a body that fit the counts of
//! what they name, once they are written, are read as these, wherever they stand; and what is read fits. It stands on
//! `wasm_code`, `packed_ops`, `wasm_ops`, `wasm_types`, `wasm_bytes` and `values`.
#![tactic(auto)]

mod laws;

pub use laws::{code_is_read_again, what_is_read_fits};
