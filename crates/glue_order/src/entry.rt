//! What stands at a name of a level of an export tree.
use glue_exports::ExportDefinition;
use glue_words::Thing;
use values::{Seq, Text};

/// What stands at a name of a level of an export tree.
#[cycle(entries)]
#[derive(Debug, Drop)]
pub enum ExportEntry {
    /// What is published there.
    Definition(ExportDefinition),
    /// A namespace.
    Namespace(ExportedNamespace),
}

/// A namespace of an export tree, with the level below it.
#[cycle(entries)]
#[derive(Debug, Drop)]
pub struct ExportedNamespace {
    /// The name that it is bound to in the glue file, where a re-export names it.
    pub id: Option<Text>,
    /// The thing that the re-export names.
    pub thing: Option<Thing>,
    /// The entries of the level below it, each with its name there.
    pub ns: Seq<(Text, ExportEntry)>,
}
