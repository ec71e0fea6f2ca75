//! What a description asks to publish, and the conditions on it.
//!
//! `published_things` lists functions, classes, enums, re-exports and the function that starts the module anew, each with its path and
//! its qualified name, in the description's order (`specs/Things.antt`). Each condition is a call that answers its first fault, or none:
//! two things that can't stand beside one another (`thing_clash`, `specs/Clash.antt`), a thing under a name that the glue file publishes
//! itself (`fixed_thing`, `specs/Fixed.antt`), and a re-export of what can't be exported again (`bad_reexport`, `specs/Reexports.antt`).
//! Names that can't stand where they are published are answered as they are (`bad_export_name` of exports, `bad_declared_name` of classes
//! and enums, `specs/Named.antt`), since other names are looked at between these. Whether a bundler's glue file publishes an
//! import is asked of the names that the caller hands in as those of the imports that it defines. `root_names` lists the names at which the
//! glue file makes a namespace's object itself (`specs/Roots.antt`).
//!
//! Promised, for each description: the list is exactly that of its definition (`things`), and each answer exactly that of its own
//! (`fault`), with what the fault names; the names of namespaces are exactly those that pass their test, each once, in the order of their
//! bytes (`roots`). Nothing but want of memory fails besides. No call compares things one by one: it keeps sets of what it has passed.
//!
//! Stands on `glue_exports` for paths and the fronts of paths, on `glue_faults`, `glue_targets`, `glue_words`, `glue_shared` and
//! `values`. It knows no text that is printed, and doesn't say which of the conditions comes first.
#![tactic(auto)]

mod clash;
mod fixed;
mod imports;
mod name_set;
mod named;
mod reexports;
mod roots;
mod things;

pub use clash::thing_clash;
pub use fixed::fixed_thing;
pub use imports::copied_import;
pub use named::{bad_declared_name, bad_export_name, is_proto_name};
pub use reexports::{bad_reexport, is_outside};
pub use roots::root_names;
pub use things::{PublishedThing, published_things, stands_alone};
