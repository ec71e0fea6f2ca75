//! The helpers of a glue file, for its settings and its module, but for those of a module that is made anew (`reinit_scheduled`, and its
//! forms of closures) and of legacy exceptions (`wrapError`).
//!
//! `HelperParts` is what their texts depend on. A helper whose parts are absent isn't there: no name of an export is made up.
//!
//! - `close` gives the items of the least set of helpers that has the needed keys and each helper that binds a name that a held one uses,
//!   in order of the keys' bytes (clause `closed`: `AreClosed` in `specs/Closed.antt`).
//! - `close_over` gives those that items ask for by the names to which their words refer (clause `asked`: `AreAsked`).
//! - `HelperTable` is the table of `helper_set` with these helpers: each has a number, a key, and the words of its item (`specs/Made.antt`).
//!   A helper that goes by a memory or a table has the place of it behind its key and its names.
//! - Keys and names are read back: a name has one binder, a key one helper, and what is printed is read. `specs/Laws.antt` shows it, with
//!   the pages that it stands on: laws that the table hands to `helper_set`, and no promise of `close`.
//!
//! Stands on `helper_set`, on the items of `glue_heap` and `glue_helpers`, on `glue_scope`, `glue_words` and `values`. It knows no description
//! and no target.
#![tactic(auto)]

mod asked;
mod closing;
mod items;
mod kinds;
mod parts;
mod reading;
mod table;

pub use asked::close_over;
pub use closing::close;
pub use parts::{EncoderForm, HelperParts, TableExport};
pub use table::HelperTable;
