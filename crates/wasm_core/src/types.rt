//! What a module holds, by ids (WebAssembly core specification, 2.5).
use packed_ops::Ops;
use values::{Seq, Text};
use wasm_code::Body;
use wasm_types::{FuncId, GlobalId, ImportId, Limits, MemoryId, TableId, TagId, TypeId, ValType};

/// A function. It has an import or a body.
#[derive(Debug, Drop)]
pub struct Func {
    pub ty: TypeId,
    /// Its name in the name section.
    pub name: Option<Text>,
    pub import: Option<ImportId>,
    pub body: Option<Body>,
}

/// A table.
#[derive(Debug, Drop)]
pub struct Table {
    pub elem: ValType,
    pub limits: Limits,
    pub import: Option<ImportId>,
}

/// A memory.
#[derive(Debug, Drop)]
pub struct Memory {
    pub limits: Limits,
    pub import: Option<ImportId>,
}

/// A global variable. One that is imported has no initial expression.
#[derive(Debug, Drop)]
pub struct GlobalVar {
    pub ty: ValType,
    pub mutable: bool,
    pub import: Option<ImportId>,
    pub init: Ops,
}

/// A tag of exceptions.
#[derive(Debug, Drop)]
pub struct Tag {
    pub ty: TypeId,
    pub import: Option<ImportId>,
}

/// What an import brings in.
#[derive(Clone, Copy, Debug)]
pub enum ImportKind {
    Func(FuncId),
    Table(TableId),
    Memory(MemoryId),
    Global(GlobalId),
    Tag(TagId),
}

/// An import: the module and the name that it asks for, and what it brings in.
#[derive(Debug, Drop)]
pub struct Import {
    pub module: Text,
    pub name: Text,
    pub kind: ImportKind,
}

/// How a module is read and written.
#[derive(Clone, Copy, Debug)]
pub struct ParseConfig {
    /// Keeps the custom sections `.debug_*`.
    pub keep_debug: bool,
    /// Writes the name section.
    pub names: bool,
    /// Writes the producers section.
    pub producers: bool,
}
