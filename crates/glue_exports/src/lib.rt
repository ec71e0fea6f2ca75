//! The export tree: what a glue file publishes, by path, and the items that declare and publish it.
//!
//! - `define_export` puts a definition at its path. A re-export and a namespace may have one path; any other overlap of paths
//!   is a clash, which names what was handed in and changes nothing.
//! - `tree_items` answers the items of a tree, root by root, in the paths' order: declarations, the objects of namespaces, and
//!   what publishes each definition at its path.
//! - `enum_definition` answers what is published for an enum; `qualified_name` the name that stands for a path.
//! - `lines_of` answers the lines of a comment, and `push_note_of` adds the note of lines to the words before an item.
//! - `fronts` and `add_paths` are for sets of the paths that others run through.
//!
//! Promised, for every input: a definition is put into a tree exactly where it can stand there (clauses `ok` and `cause` of
//! `define_export`, by `clashes` in `specs/Tree.antt`); the items are those of `specs/Printed.antt` (`items` of `tree_items`),
//! and they publish exactly what is defined but private ones at the top level, each pair of path and thing once, with the
//! objects of the namespaces between (`published`, by `ArePublished` in `specs/Sound.antt`, where the definitions declare what they say); an enum's item is that
//! of `specs/Enums.antt` (`definition` of `enum_definition`).
//!
//! The proofs show besides that the items of a tree belong into a file that declares what they use, declare each name once,
//! have the words that their roles ask for, and publish each thing under a name that stands for it (`proofs/Linkage.antt`), and
//! what an enum's item declares and uses (`proofs/EnumFacts.antt`).
//!
//! Stands on `glue_words`, on `glue_targets` for the words of roles and for what items publish, on `glue_shared` for the
//! descriptions of enums, and on `values`. It knows no adapter and no module, and draws no name. The words are those of ES
//! modules.
#![tactic(auto)]

mod definition;
mod entry;
mod enums;
mod exported;
mod hosts;
mod notes;
mod paths;
mod places;
mod printed;
mod qualified;
mod runs;
mod statements;
mod top;
mod tree;

pub use definition::ExportDefinition;
pub use enums::enum_definition;
pub use notes::{lines_of, push_note_of};
pub use paths::{MAX_SEGMENTS, add_paths, fronts};
pub use printed::tree_items;
pub use qualified::qualified_name;
pub use tree::{ExportFault, ExportTree, define_export};
