//! Lowering: a module and its description from a module with a custom section `__wbg_glue`.
//!
//! A description is JSON. `JsonLowering` gives exactly what the definition `lowered_of` says of the module, and fails
//! exactly where that is nothing, unless memory runs out. Any other implementation of `Lowering` may tell what it gives
//! or not.
//!
//! Stands on `glue_json` for what a value reads as, on `serde_json` for the value of a text, on `glue_shared` for the
//! description, and on `wasm_core` for the module.
#![tactic(auto)]

mod document;
mod lowering;

pub use glue_json::LowerFault;
pub use lowering::{JsonLowering, Lowering};
