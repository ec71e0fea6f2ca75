//! Adapters: how a call passes its values between JavaScript and WebAssembly.
use std::marker::Model;
use values::{Boxed, Map, Seq, Text};
use wasm_core::{ExportId, FuncId, ImportId, MemoryId, ValType};

/// The number of an adapter. A contract sees the number.
#[derive(Clone, Copy, Debug, PartialEq, Eq, PartialOrd, Ord, Hash)]
pub struct AdapterId(pub u32);

impl Model for AdapterId {
    ghost use Rattle.std.specs.Prelude.{ℕ};

    ghost Value = { ℕ };

    ghost view = { λ id. id.0 };

    ghost inverse = { λ number. record { 0 = number } };
}

/// The element of a vector that passes through memory.
#[derive(Clone, Copy)]
pub enum VectorKind {
    I8,
    U8,
    I16,
    U16,
    I32,
    U32,
    I64,
    U64,
    Value,
}

/// The type of an argument or a result on the side of the caller.
#[derive(Drop)]
pub enum AdapterType {
    I32,
    S32,
    U32,
    I64,
    S64,
    U64,
    Bool,
    String,
    Externref,
    /// An object of the class with this qualified name.
    Class(Text),
    Enum(Text),
    StringEnum(Text),
    Union(Text),
    Vector(VectorKind),
    Option(Boxed<AdapterType>),
}

/// One step of an adapter's code, over a stack of values.
#[derive(Drop)]
pub enum Instruction {
    ArgGet(u32),
    Int32ToWasm,
    Int64ToWasm,
    I32FromBool,
    /// Whether the number is unsigned.
    WasmToInt32(bool),
    /// Whether the number is unsigned.
    WasmToInt64(bool),
    BoolFromI32,
    CallExport(ExportId),
    CallAdapter(AdapterId),
    StringToMemory(FuncId, Option<FuncId>, MemoryId),
    OptionStringToMemory(FuncId, Option<FuncId>, MemoryId),
    MemoryToString(MemoryId),
    DeferFree(FuncId, u32),
    Retptr(u32),
    LoadRetptr(u32, ValType, MemoryId),
    StoreRetptr(u32, ValType, MemoryId),
    IndexFromOwned,
    IndexFromBorrow,
    TakeIndex,
    GetIndex,
    ClassIntoPtr(Text),
    ClassPtr(Text),
    ClassFromPtr(Text),
    EnumIndex(Text),
    EnumText(Text),
    Closure(AdapterId, bool),
    VecFromWasm(VectorKind, MemoryId),
    VecToWasm(VectorKind, FuncId, MemoryId),
    UnwrapResult,
    /// An instruction of another name, which nothing here carries out.
    Other(Text),
}

/// How an imported function is called.
#[derive(Clone, Copy)]
pub enum AdapterJsImportKind {
    Normal,
    Method,
    Constructor,
}

/// What an adapter does: code, or a call of an import.
#[derive(Drop)]
pub enum AdapterKind {
    Local(Seq<Instruction>),
    Import(AdapterJsImportKind),
}

/// A function between the two sides.
#[derive(Drop)]
pub struct Adapter {
    pub args: Seq<AdapterType>,
    pub results: Seq<AdapterType>,
    pub kind: AdapterKind,
}

/// The adapters of a module, and which imports and exports they stand for.
#[derive(Drop)]
pub struct NonstandardWitSection {
    pub adapters: Map<AdapterId, Adapter>,
    /// Each import with the adapter that defines it.
    pub implements: Seq<(ImportId, AdapterId)>,
    /// Each wasm export with the adapter that a closure calls it by.
    pub exports: Seq<(ExportId, AdapterId)>,
}
