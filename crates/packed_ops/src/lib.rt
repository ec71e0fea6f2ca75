//! Operators that are kept packed (`Ops`): as the bytes of each variant and of what it holds, in a form of our own.
//!
//! A contract sees their list: what is pushed stands behind the others (`push`), and a walk gives one after another
//! (`Walk::next`). Operators other than blocks that name no entry and have no list are kept as they are written, so that whoever writes them copies them
//! (`Walk::next_spelled`) and who looks for names passes over them (`Walk::next_other`).
//!
//! It stands on `wasm_ops`, `wasm_types`, `wasm_bytes` and `values`.
#![tactic(auto)]

mod kinds;
mod lists;
mod packed;
mod packing;
mod unpacking;

pub use packed::{Ops, Walk};
