//! The generator: a module's bytes and what is set go in, the glue file and the module that goes with it come out.
//!
//! `Bindgen::generate_output` parses the module, has its description read, and makes the items of the glue file; `Output::files`
//! plans the files. Promised: each fault has its cause in one order; the items are linked with the module that is written, define
//! each own import once by its adapter's function, and publish exactly the described tree; the names of the outside and the computed
//! keys of the description are listed in order of bytes, each once; the module is the one that was read, made fit for the call's
//! settings, with nothing kept but what can be reached, its own imports moved and its start function exported.
//!
//! Stands on `wasm_core`, `wasm_emission`, `wasm_collect`, `glue_prepare`, `glue_lower`, `glue_check`, `glue_names`, `glue_faults`,
//! `glue_naming`, `glue_context`, `glue_targets`, `glue_steps`, `glue_scope`, `glue_words`, `glue_shared`, `glue_layout` and `glue_ends`.
#![tactic(auto)]

mod bindgen;
mod fault;
mod flags;
mod generating;
mod global_name;
mod held;
mod hosts;
mod inputs;
mod keys;
mod output;
mod sorted;
mod targets;

pub use bindgen::{Bindgen, NoInput};
pub use fault::SetFault;
pub use glue_context::glue_items;
pub use glue_ends::{
    MemSink, MemSource, PlannedFile, ReadEnd, ReadFailed, Sink, Source, Stop, WriteEnd, WriteFault,
    read_whole, write_files,
};
pub use glue_faults::Fault;
pub use glue_layout::reset_indentation;
pub use glue_lower::{JsonLowering, LowerFault, Lowering};
pub use glue_scope::{IdentScope, Names};
pub use glue_shared::{AdapterId, EncodeInto, Lowered, Settings, Target};
pub use glue_steps::{Indexed, Step, adapter_steps};
pub use glue_targets::{frame_end, frame_start, loading_item};
pub use glue_words::Item;
pub use output::Output;
pub use values::{Seq, Text};
pub use wasm_core::Module;
pub use wasm_emission::EmitFault;
