//! What a module's entries refer to, and keeping what can be reached.
//!
//! `collect` leaves exactly what can be reached (`IsCollected` in `Reach`), which is one module (`collected`), unless
//! memory runs out: then nothing is changed. It stands on `wasm_core`, `least_set`, `wasm_reach`, `wasm_file`,
//! `wasm_code`, `packed_ops`, `wasm_ops`, `wasm_types` and `values`.
#![tactic(auto)]

mod collecting;
mod declarers;
mod edges;
mod naming;
mod roots;
mod rows;

pub use collecting::{collect, collected_module_is_one};
