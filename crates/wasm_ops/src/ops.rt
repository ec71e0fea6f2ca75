//! Operators (WebAssembly core specification, 5.4): a variant for each shape of what follows the opcode.
//! A number that stands first is the opcode, for the prefixes `FC` and `FD` the number after the prefix.

use values::Seq;
use wasm_types::{DataId, ElemId, FuncId, GlobalId, MemoryId, TableId, TagId, TypeId, ValType};

/// What a block takes and gives.
#[derive(Clone, Copy, Debug, PartialEq, Eq)]
pub enum BlockType {
    /// Nothing.
    Empty,
    /// One value is given.
    Value(ValType),
    /// A function type.
    Index(TypeId),
}

/// A clause of `try_table`: the number of its form, a tag where the form has one, and a label.
#[derive(Clone, Copy, Debug, PartialEq, Eq)]
pub enum Catch {
    Tag(u8, TagId, u32),
    All(u8, u32),
}

/// Where an operator reads or writes memory.
#[derive(Clone, Copy, Debug, PartialEq, Eq)]
pub struct MemArg {
    /// The power of two of the alignment.
    pub align: u32,
    pub memory: MemoryId,
    /// Bytes beyond the operand's address.
    pub offset: u64,
}

/// An operator.
#[derive(Debug, Drop)]
pub enum Op {
    Plain(u8),
    Block(u8, BlockType),
    Tag(u8, TagId),
    Label(u8, u32),
    BrTable(Seq<u32>, u32),
    Func(u8, FuncId),
    Indirect(u8, TypeId, TableId),
    Select(Seq<ValType>),
    TryTable(BlockType, Seq<Catch>),
    Local(u8, u32),
    Global(u8, GlobalId),
    Table(u8, TableId),
    Mem(u8, MemArg),
    Memory(u8, MemoryId),
    Const32(i32),
    Const64(i64),
    Raw4([u8; 4]),
    Raw8([u8; 8]),
    RefNull(ValType),
    FcPlain(u32),
    MemoryInit(DataId, MemoryId),
    DataDrop(DataId),
    MemoryCopy(MemoryId, MemoryId),
    MemoryFill(MemoryId),
    TableInit(ElemId, TableId),
    ElemDrop(ElemId),
    TableCopy(TableId, TableId),
    FcTable(u32, TableId),
    Simd(u32),
    SimdMem(u32, MemArg),
    SimdMemLane(u32, MemArg, u8),
    SimdBytes(u32, [u8; 16]),
    SimdLane(u32, u8),
}

/// The number that each place of a module's lists has in the file that is written.
#[derive(Debug, Drop)]
pub struct Numbering {
    pub types: Seq<u32>,
    pub funcs: Seq<u32>,
    pub tables: Seq<u32>,
    pub memories: Seq<u32>,
    pub globals: Seq<u32>,
    pub tags: Seq<u32>,
    pub elems: Seq<u32>,
    pub segments: Seq<u32>,
}
