//! The entries of an export tree, each level by sweep and then by name, so that a class stands behind its parent.
//!
//! - `ExportEntry` and `ExportedNamespace` are what stands at a name of a level: a definition, or a namespace with a
//!   level of its own.
//! - `topo_sort_class_entries` answers the entries of a level, and of each level inside it: the same entries, by sweep,
//!   then by name, and then as they stood (clause `levels`, `AreSorted` of `specs/Order.antt`, on each level by
//!   `IsArranged` and `entry_order`). An entry stands behind its parent, where its parents end and its name isn't the
//!   parent's (`AreBehindParents`). Both hold of any level: also where names are equal, where a class stands twice, and
//!   where parents come back to an entry.
//!
//! The time on a level is that of a sort, and of two passes over the entries for each doubling of their number, however
//! long the chains of parents are.
//!
//! Stands on the definitions of `glue_exports`, on the things of `glue_words`, and on `values`. It knows no words and
//! no target.
#![tactic(auto)]

mod entry;
mod order;
mod places;
mod ranks;
mod walks;

pub use entry::{ExportEntry, ExportedNamespace};
pub use order::topo_sort_class_entries;
