//! The items of the glue file, what is changed in its module, and the theorem that both are linked.
//!
//! `glue_items` puts the groups together: the lines that import what own imports call and re-exports name of described modules, a line for
//! each import that the glue file doesn't define, which takes the import's module whole, the constants of vendors' names, the items of the
//! description's export tree, by path, the frame with a definition for each own import, by the import's name, which hands foreign modules on,
//! the function of each closure that a function of an adapter makes, by its adapter's id, the list of each string enum that an adapter with a
//! printed function names, by name, the helpers for which the other items ask, and loading (`all_items` of `specs/Items.antt`). Promised: the
//! items are those of the definition `IsGlue`, and want of memory is the only error, where the check has found steps for each adapter and a
//! name for the function of each closure (`proofs/Facts.antt`), and the function of each export was given a name (`named` of `draw_names` in
//! `glue_naming`). The proofs show the theorem `sound` (`proofs/Made.antt`): the items that a built description asks for are linked with the
//! module that is written (`specs/Linked.antt`), define each own import once by its adapter's function, which `handleError` calls
//! where what the import throws is caught (`specs/Handing.antt`), and declare the function of each closure that is made
//! (`specs/Defined.antt`), and publish exactly the described tree. `edits_of` tells what is changed in the collected
//! module, as one value: own imports move to the glue file's module, an import for which an adapter stands and which is no own one becomes
//! the described name that the adapter calls, what adapters ask for, or what throws are handed on by, is exported where it isn't, the shim is added and exported, and a start
//! function becomes an export, which loading calls. The shim is a function that adds its argument to the global that holds the stack pointer
//! of the module, and answers the sum: an adapter's function that takes room for results calls it, and where none does there is no shim
//! (`shim_global` of `specs/Rewritten.antt`). `apply_edits` changes exactly that (`edited` of `specs/Edits.antt`); the module that is written
//! is that one (`rewritten` of `specs/Rewritten.antt`). The theorem rests on facts of a description, however it was checked
//! (`sound_by_facts`, `proofs/Facts.antt`): items of which each belongs into the file are linked, where their names are declared once and are
//! no host's (`proofs/Declared.antt`). An item may refer to a helper that needs nothing of the module: since it asks for it, the helper is
//! there. What the frame goes by is read off the written module (`specs/FrameIn.antt`, `proofs/FrameRead.antt`). The names that proofs here
//! cite come from `proofs/Common.antt`.
//!
//! Stands on `glue_check`, `claimed_modules`, `printed_adapters`, `glue_names`, `glue_adapters`, `glue_naming`, `taken_items`, `glue_public`,
//! `glue_published`, `glue_exports`, `glue_targets`, `glue_lines`, `helper_table`, `glue_helpers`, `glue_binding`, `glue_operands`, `glue_imports`,
//! `glue_steps`, `glue_tree`, `type_texts`, `glue_faults`, `glue_shared`, `glue_scope`, `glue_words` and `wasm_core`. It knows no setter and no file.
#![tactic(auto)]

mod closures;
mod defined;
mod edits;
mod exported;
mod foreign;
mod frame;
mod function;
mod handing;
mod imported;
mod items;
mod listed;
mod noted;
mod parts;

pub use edits::{Edits, apply_edits, edits_of};
pub use items::glue_items;
