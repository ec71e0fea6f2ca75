//! The adapters that become functions, and what their code asks of the module that is written.
//!
//! `own_ids` gives the imports that the glue file defines, `own_names` their names. The adapters of these imports and those of exports become
//! functions, and so do the adapters of closures that their code makes, of those that the code of such closures makes, and so on:
//! `used_closures` gives these. `uses_shim` tells whether such an adapter takes room on the stack of the module, and `named_enums` gives the
//! string enums that such adapters name. `is_caught` tells whether what an import throws is caught and handed to the module, and `catches` whether
//! that is so of an import which the glue file defines (`specs/Caught.antt`). Promised: each call answers exactly its definition (`specs/Printed.antt`), and nothing but want of
//! memory fails. The closures are those of the least set that has the ones that the other code makes and what each of its members makes
//! (`proofs/Used.antt`).
//!
//! Stands on `glue_steps`, `glue_faults`, `glue_shared`, `least_set`, `name_set` and `wasm_core`. It knows no condition and no name that is drawn.
#![tactic(auto)]

mod caught;
mod closures;
mod enums;
mod own;
mod places;
mod room;

pub use caught::{catches, is_caught};
pub use closures::used_closures;
pub use enums::named_enums;
pub use name_set::NameSet;
pub use own::{import_at, own_ids, own_names, own_places, paired_places};
pub use room::{SHIM, uses_shim};
