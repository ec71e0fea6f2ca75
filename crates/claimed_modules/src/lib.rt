//! Modules whose names the glue file needs for itself, and the condition on modules that are described and on those of foreign imports.
//!
//! Promised: `module_clash` answers exactly its definition (`specs/Modules.antt`): the first module that is described although nothing can be
//! described to come from it, or else the first foreign import's module whose name the glue file needs. `glue_module_name` is the name of the
//! module that the glue file is to the written one. Nothing but want of memory fails.
//!
//! Stands on `printed_adapters`, `glue_faults`, `glue_shared` and `wasm_core`.
#![tactic(auto)]

mod modules;

pub use modules::{glue_module_name, module_clash};
