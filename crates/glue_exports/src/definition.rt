//! What is published at a path.
ghost use Rattle.std.specs.Prelude.{◌≡◌};
ghost use Rattle.glue_exports.specs.Tree as spec;

use glue_words::{Item, Thing};
use values::{Seq, Text};

/// What is published at a path of the export tree: a function, an enum, a class, the function that resets the module's state,
/// or a re-export.
#[derive(Debug, Drop)]
pub struct ExportDefinition {
    /// The thing.
    pub thing: Thing,
    /// The name that the thing is bound to in the glue file.
    pub identifier: Text,
    /// The items that declare it, none of them exported. A re-export has none: what it names is declared elsewhere.
    pub items: Seq<Item>,
    /// Whether it isn't published where its path is one name.
    pub private: bool,
    /// The qualified name of a class's parent, by which the entries of a level are ordered; the items of a tree stand by path.
    pub parent: Option<Text>,
}

impl ExportDefinition {
    /// Whether it is a re-export.
    pub fn is_reexport(&self) -> bool
        ensures test { result ≡ spec.is_reexport self.now }
    {
        self.items.is_empty()
    }
}
