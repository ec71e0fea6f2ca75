//! The first fault of a description, and descriptions that have none.
//!
//! `check` goes through what isn't built yet and then through the conditions that a description has to meet, each of which is one
//! definition (`specs/Unbuilt.antt`, `specs/Classes.antt`, `specs/TargetValues.antt`, `specs/Links.antt`, `specs/Missing.antt`, and those of
//! `glue_adapters`, `glue_names`, `claimed_modules` and `glue_published`). Promised (`fault`): it answers exactly the first of these that
//! comes to a fault, with what it names; `unbuilt` and `verdict` in `specs/Verdict.antt` are the two lists. Where there is none it gives a
//! `Checked`, whose type says so: a crate above draws its facts from that, by the lemmas of `proofs/Passed.antt` (no fault),
//! `proofs/BuiltForm.antt` (all is built), `proofs/Embedded.antt`, `proofs/NoClass.antt` and `proofs/Callbacks.antt`, `proofs/Complete.antt`
//! (what instructions go by is there, the string enums that they name are described, closures are made of adapters that they can call, and
//! where room is taken on the stack of the module, the global that tells where it ends) and `proofs/Steps.antt` (each adapter that becomes a
//! function has steps). Nothing but want of memory fails besides.
//!
//! The generator calls it before it makes anything, and makes files of a `Checked` alone. Each condition on names and on what is published
//! is a call by itself too, here or in the crate that it comes from, since some can't be met where all is built. Of each condition, what it
//! says of members of classes, kinds of described imports, targets and other parts is missing: no description that is built can meet it.
//! Where all is built, each own import brings in a function or a memory (`memory_of`), and `proofs/OwnPairs.antt` says what it is defined by.
//!
//! Stands on `claimed_modules`, `printed_adapters`, `glue_names`, `glue_published`, `glue_exports`, `glue_adapters`, `glue_steps`,
//! `glue_imports`, `glue_faults`, `glue_words`, `glue_shared` and `wasm_core`.
#![tactic(auto)]

mod classes;
mod files;
mod links;
mod missing;
mod target_values;
mod unbuilt;
mod verdict;

pub use claimed_modules::{glue_module_name, module_clash};
pub use files::FileFlags;
pub use glue_exports::qualified_name;
pub use glue_faults::Fault;
pub use glue_names::{
    bad_name, each_new, each_once, fixed_export, global_twice, has_start, name_clash, qualified,
    taken_names, values_name,
};
pub use glue_published::{bad_reexport, thing_clash};
pub use printed_adapters::{own_ids, own_places};
pub use target_values::intrinsic_target;
pub use unbuilt::memory_of;
pub use verdict::{Checked, check};
