//! A module that is written can be split from its debugging information.
//!
//! The laws are the contract of `written_module_is_split`, a function without a body: the bytes of a module frame, and what
//! is left of them without debugging information is the file of the module's other sections and the address.
//! `split_module` splits such bytes, and fails only where memory runs out. It stands on `wasm_sections`, `wasm_emission`,
//! `wasm_core`, `wasm_file`, `wasm_types` and `wasm_bytes`.
#![tactic(auto)]

mod laws;
mod split;

pub use laws::written_module_is_split;
pub use split::split_module;
