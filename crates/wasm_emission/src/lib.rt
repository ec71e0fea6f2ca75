//! Writing a module.
//!
//! `emit` gives exactly the bytes that `bytes_of` gives, or the first section that is too long, unless memory runs out:
//! the entries are numbered anew (`Renumbering`), and each section is the one that `Emission` says. It stands on
//! `wasm_core`, `wasm_file`, `wasm_code`, `packed_ops`, `wasm_ops`, `wasm_types`, `wasm_bytes` and `values`.
#![tactic(auto)]

mod content;
mod faults;
mod lists;
mod names;
mod numbering;
mod segments;
mod writing;

pub use content::SectionContent;
pub use faults::EmitFault;
pub use writing::{emit, emit_sections};
