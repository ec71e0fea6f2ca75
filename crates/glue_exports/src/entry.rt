//! Definitions at their paths, as they stand in a tree.
ghost use Rattle.std.specs.Prelude.{◌≡◌};

use crate::definition::ExportDefinition;
use std::marker::Model;
use values::{Seq, Text};

/// A definition at its path. A contract sees the two.
#[derive(Drop)]
pub(crate) struct TreeEntry<'a> {
    path: &'a Seq<Text>,
    definition: &'a ExportDefinition,
}

impl<'a> Model for TreeEntry<'a> {
    ghost use Rattle.glue_exports.specs.Tree.{Entry};

    ghost Value = { Entry };

    ghost view = { λ e. (e.path.now, e.definition.now) };
}

impl<'a> TreeEntry<'a> {
    /// This definition at this path.
    pub(crate) fn new(path: &'a Seq<Text>, definition: &'a ExportDefinition) -> TreeEntry<'a>
        ensures entry { result ≡ (path.now, definition.now) }
    {
        TreeEntry { path, definition }
    }

    /// The path.
    pub(crate) fn path(&self) -> &'a Seq<Text>
        ensures path { result.now ≡ self.now.0 }
    {
        self.path
    }

    /// What stands there.
    pub(crate) fn definition(&self) -> &'a ExportDefinition
        ensures definition { result.now ≡ self.now.1 }
    {
        self.definition
    }
}
