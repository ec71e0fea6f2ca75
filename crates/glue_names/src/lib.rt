//! Names that a description claims: which are given and which are taken, and the conditions on them.
//!
//! Some names are given, and none is drawn for what has them (`specs/Given.antt`): those of exports that closures call, those of string enums'
//! values, and where imports are left out those from modules. Each stands for nothing else. `taken_names` are those that no given one may be.
//! `each_once` gives names that imports begin with once each. Promised: each call answers exactly its definition; a condition (`bad_name`,
//! `global_twice`, `name_clash`, `fixed_export`) is the first fault of its kind, with what it names (`specs/Naming.antt`,
//! `specs/Publishing.antt`). Of each condition, what it says of members of classes and of names that Node and a bundler give is missing: no
//! description that is built can meet it. Nothing but want of memory fails.
//!
//! Stands on `printed_adapters`, `glue_published`, `glue_exports`, `glue_steps`, `glue_faults`, `glue_scope`, `glue_words`,
//! `glue_shared` and `wasm_core`. It knows no stack of operands, and not what is built.
#![tactic(auto)]

mod brought;
mod clash;
mod closures;
mod given;
mod naming;
mod omitted;
mod once;
mod publishing;
mod taken;

pub use given::values_name;
pub use naming::{START, bad_name, global_twice, has_start, name_clash};
pub use once::{each_new, each_once};
pub use publishing::{fixed_export, qualified};
pub use taken::{taken_names, with_name};
