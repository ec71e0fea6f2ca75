//! Steps: the instructions of an adapter with what their ids name, and what they mean.
//!
//! `adapter_steps` looks up what an adapter's instructions name in the module and the description, of which `Indexed` has an index that is
//! made once; the expressions of imports go by the settings and by names that are drawn (`Basis` of `glue_imports`). Promised: it answers
//! exactly what `specs/Resolving.antt` says, and nothing but want of memory fails. Whether an adapter has steps doesn't depend on the names
//! (`proofs/Named.antt`). `specs/AdapterMeaning.antt` says what steps mean: a run over a stack of operands, with a trace of all that it does
//! to the outside. `specs/Exported.antt` has the names under which a module exports, of which a call names one. `callback_name` is the name of
//! the function of a closure's adapter. `needed_items` tells which items of the module an instruction takes, by its ids and by the parts of
//! the description that it goes by, and `store_item` gives the one that takes what imports throw (`specs/Needed.antt`); `makes_room` tells whether code takes room for results on the stack of the module
//! (`specs/Room.antt`).
//!
//! Stands on `wasm_core`, `glue_shared`, `glue_imports` and `values`. It draws no names, and of an import's text it knows nothing.
#![tactic(auto)]

mod callbacks;
mod indexed;
mod memory;
mod needed;
mod resolving;
mod room;
mod step;

pub use callbacks::Callbacks;
pub use indexed::Indexed;
pub use needed::{
    REFERENCE_PARTS, ReferencePart, destroyer_item, goes_by, makes_closure, needed_items,
    part_item, store_item,
};
pub use resolving::{adapter_steps, callback_name, function_type};
pub use room::{has_stack, is_room, makes_room};
pub use step::Step;
