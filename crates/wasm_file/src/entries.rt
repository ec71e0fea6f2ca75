//! Entries as a file has them, and the lists of its sections (WebAssembly core specification, 5.5).
use packed_ops::Ops;
use values::{Seq, Text};
use wasm_code::Body;
use wasm_types::{FuncId, FuncType, GlobalId, Limits, MemoryId, TableId, TagId, TypeId, ValType};

/// What an import asks for.
#[derive(Clone, Copy, Debug)]
pub enum ImportType {
    Func(TypeId),
    Table(ValType, Limits),
    Memory(Limits),
    /// A value type, and whether it can be set.
    Global(ValType, bool),
    Tag(TypeId),
}

/// An import as a file has it: its type stands in it.
#[derive(Debug, Drop)]
pub struct FileImport {
    pub module: Text,
    pub name: Text,
    pub ty: ImportType,
}

/// What an export gives out.
#[derive(Clone, Copy, Debug, PartialEq, Eq, PartialOrd, Ord, Hash)]
pub enum ExportItem {
    Func(FuncId),
    Table(TableId),
    Memory(MemoryId),
    Global(GlobalId),
    Tag(TagId),
}

/// An export: its name and what it gives out.
#[derive(Debug, PartialEq, Eq, Drop)]
pub struct Export {
    pub name: Text,
    pub item: ExportItem,
}

/// A custom section: its name and the bytes after it.
#[derive(Debug, PartialEq, Eq, Drop)]
pub struct Custom {
    pub name: Text,
    pub bytes: Seq<u8>,
}

/// A table as a file has it: a reference type and limits.
#[derive(Clone, Copy, Debug)]
pub struct TableType {
    pub elem: ValType,
    pub limits: Limits,
}

/// A global as a file has it: its value type, whether it can be set, and the expression of its first value.
#[derive(Debug, Drop)]
pub struct FileGlobal {
    pub ty: ValType,
    pub mutable: bool,
    pub init: Ops,
}

/// Where an element segment goes.
#[derive(Debug, Drop)]
pub enum ElemPlace {
    Passive,
    Declared,
    /// Into a table, from the place that an expression gives.
    Active(TableId, Ops),
}

/// An element segment: functions, or an expression for each entry.
#[derive(Debug, Drop)]
pub struct Elem {
    pub place: ElemPlace,
    pub ty: ValType,
    pub funcs: Seq<FuncId>,
    pub exprs: Seq<Ops>,
}

/// A data segment. One that is active has a memory and an expression for its place.
#[derive(Debug, Drop)]
pub struct Segment {
    pub place: Option<(MemoryId, Ops)>,
    pub bytes: Seq<u8>,
}

/// The lists of a file's sections, in the file's order. An index names a place: of functions, tables, memories, globals and
/// tags the imported ones come first.
#[derive(Debug, Drop)]
pub struct Parts {
    pub types: Seq<FuncType>,
    pub imports: Seq<FileImport>,
    /// The types of the functions that aren't imported.
    pub functions: Seq<TypeId>,
    pub tables: Seq<TableType>,
    pub memories: Seq<Limits>,
    /// The types of the tags that aren't imported.
    pub tags: Seq<TypeId>,
    pub globals: Seq<FileGlobal>,
    pub exports: Seq<Export>,
    pub start: Option<FuncId>,
    pub elems: Seq<Elem>,
    /// The number of segments that is told before the bodies.
    pub data_count: Option<u32>,
    /// A body for each function that isn't imported.
    pub bodies: Seq<Body>,
    pub segments: Seq<Segment>,
    pub customs: Seq<Custom>,
}

/// The names that a name section gives: the module's and those of functions.
#[derive(Debug, Drop)]
pub struct Names {
    pub module: Option<Text>,
    pub funcs: Seq<(FuncId, Text)>,
}

/// A tool or language of the producers section, with its version.
#[derive(Debug, Drop)]
pub struct ProducerValue {
    pub name: Text,
    pub version: Text,
}

/// A field of the producers section.
#[derive(Debug, Drop)]
pub struct ProducerField {
    pub name: Text,
    pub values: Seq<ProducerValue>,
}

/// Where a section stands in a file, in bytes.
#[derive(Debug, PartialEq, Eq, Drop)]
pub struct Section {
    pub id: u8,
    /// The name of a custom section, none of another.
    pub name: Option<Text>,
    /// The place of its id.
    pub begin: usize,
    /// The place after its last byte.
    pub end: usize,
}
