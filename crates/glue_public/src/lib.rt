//! The public tree of a description as items.
//!
//! `described_tree` puts what a description asks for into an export tree, one behind another: its functions, whose items the
//! caller hands in, its enums and its re-exports (`specs/Described.antt`). `described_items` answers the items of that tree, and so
//! does `unclashed_items`, for callers that know that no definition clashes.
//!
//! Promised, for every input: a tree is exactly what these definitions make, and a clash names the first of them that can't stand
//! beside those before it (`tree` and `cause` of `described_tree`); the items are those of that tree (`items` of `described_items`).
//! For a description without classes, settings that don't ask for the function that resets the module's state, and functions that
//! their items declare, the items publish exactly the public tree of the description, each pair of path and thing once (`public` of
//! `described_items`).
//!
//! The proofs show besides what a caller needs of the tree (`proofs/TreeFacts.antt`): what each entry is of; that a namespace is
//! printed at a root of the description alone; and where no two things of the description clash, that no definition does, and that
//! no two entries have one qualified name.
//!
//! Not in the tree are classes and the function that resets the state.
//!
//! Stands on `glue_exports` for the tree and its items, on `glue_published` for which exports stand by themselves, and on
//! `glue_targets`, `glue_words`, `glue_shared` and `values`. It draws no name and makes no function.
#![tactic(auto)]

mod definitions;
mod items;
mod tree;

pub use definitions::{PublicDefinition, described, lone_functions};
pub use items::{described_items, unclashed_items};
pub use tree::described_tree;
