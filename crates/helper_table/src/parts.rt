//! What the texts of helpers depend on.
use values::{Seq, Text};

/// How the text encoder writes into memory.
#[derive(Clone, Copy, Debug, PartialEq, Eq)]
pub enum EncoderForm {
    /// By the `encodeInto` that it has.
    Own,
    /// By that, or by the helper's where it has none.
    Tested,
    /// By the helper's `encodeInto`.
    Copying,
}

/// A table of references that the module exports.
#[derive(Debug, PartialEq, Eq, Drop)]
pub struct TableExport {
    /// The table's place in the module's list, from 0.
    pub place: u32,
    /// The name of its export.
    pub name: Text,
}

/// What the texts of helpers depend on: settings, and names of exports of the WebAssembly module.
#[derive(Debug, Drop)]
pub struct HelperParts {
    /// Whether arguments are tested.
    pub debug: bool,
    /// Whether values go through the table of references, and not through the heap of objects.
    pub externref: bool,
    /// Whether the target is bundler or web.
    pub browser: bool,
    /// How strings are encoded.
    pub encoder: EncoderForm,
    /// The export of each memory, by the memory's place. A memory that isn't exported has none.
    pub memories: Seq<Option<Text>>,
    /// The table of references.
    pub table: Option<TableExport>,
    /// The function that keeps what an import threw.
    pub exn_store: Option<Text>,
    /// The function that gives a free place of the table of references.
    pub externref_alloc: Option<Text>,
    /// The function that frees a place of it.
    pub externref_drop: Option<Text>,
    /// The function that frees a run of places of it.
    pub externref_drop_slice: Option<Text>,
    /// The function that destroys a closure.
    pub destroy_closure: Option<Text>,
}
