//! What the adapters of a description have to be, and which of its imports have to be defined.
//!
//! `unsupported`, `bad_adapter` and `unbound_import` each answer the first fault of one kind, or none. Promised: exactly what
//! `specs/Adapters.antt`, `specs/Called.antt` and `specs/Pairs.antt` say, and nothing but want of memory fails. The kinds of values on an adapter's stack
//! are tested by a table of what each instruction pops and pushes (`effect` in `specs/Stack.antt`); a further instruction is a line of
//! the table and an arm of `instruction_effect`. Room for results is taken at most once, and read only behind that (`uses_room` there); what
//! instructions refer to, string enums and adapters that closures call, has to be described (`Environment`). Lists are compared by sets of numbers
//! and of names, so that the time is that of the lists' lengths.
//!
//! Stands on `glue_faults`, `glue_steps`, `glue_shared`, `name_set`, `wasm_core` and `values`.
#![tactic(auto)]

mod adapters;
mod called;
mod environment;
mod exports;
mod kind;
mod pairs;
mod stack;
mod unbound;

pub use adapters::unsupported;
pub use called::bad_entry;
pub use environment::{Environment, environment_of};
pub use exports::bad_export;
pub use kind::Kind;
pub use pairs::bad_pair;
pub use unbound::{bad_adapter, is_placeholder, unbound_import};
