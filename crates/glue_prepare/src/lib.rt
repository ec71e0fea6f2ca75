//! What is done to the settings and the module of a call between parsing and lowering.
//!
//! `prepare` takes the marker of Emscripten, turns on what the module uses, refuses what the target can't have, and then changes the
//! module: exports that a linker makes for itself go, the tag of C++ exceptions becomes the module's own, and this program is named
//! among the module's producers. Promised: it gives exactly what `prepared` of `specs/Prepared.antt` gives, or its fault, unless memory
//! runs out.
//!
//! Stands on `glue_faults`, `glue_shared` and `wasm_core`. It knows nothing of descriptions.
#![tactic(auto)]

mod exception;
mod exports;
mod features;
mod linker;
mod marker;
mod places;
mod prepared;
mod targets;

pub use prepared::{Prepared, prepare};
