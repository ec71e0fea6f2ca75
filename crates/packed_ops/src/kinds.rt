//! The variants of what is kept packed, by number.

ghost use Rattle.std.specs.Prelude.{◌≡◌};
ghost use Rattle.packed_ops.specs.Packed.{kind_of, block_kind_of};

/// A variant of `Op`.
#[derive(Clone, Copy)]
pub(crate) enum Kind {
    Plain,
    Label,
    Local,
    Const32,
    Const64,
    Raw4,
    Raw8,
    RefNull,
    FcPlain,
    Simd,
    SimdBytes,
    SimdLane,
    Block,
    Tag,
    BrTable,
    Func,
    Indirect,
    Select,
    TryTable,
    Global,
    Table,
    Mem,
    Memory,
    MemoryInit,
    DataDrop,
    MemoryCopy,
    MemoryFill,
    TableInit,
    ElemDrop,
    TableCopy,
    FcTable,
    SimdMem,
    SimdMemLane,
}

/// A variant of `BlockType`.
#[derive(Clone, Copy)]
pub(crate) enum BlockKind {
    Empty,
    Value,
    Index,
}

/// The variant of a number, where there is one.
pub(crate) fn kind_of(number: u8) -> Option<Kind>
    ensures { result ≡ kind_of number }
{
    match number {
        0 => Some(Kind::Plain),
        1 => Some(Kind::Label),
        2 => Some(Kind::Local),
        3 => Some(Kind::Const32),
        4 => Some(Kind::Const64),
        5 => Some(Kind::Raw4),
        6 => Some(Kind::Raw8),
        7 => Some(Kind::RefNull),
        8 => Some(Kind::FcPlain),
        9 => Some(Kind::Simd),
        10 => Some(Kind::SimdBytes),
        11 => Some(Kind::SimdLane),
        12 => Some(Kind::Block),
        13 => Some(Kind::Tag),
        14 => Some(Kind::BrTable),
        15 => Some(Kind::Func),
        16 => Some(Kind::Indirect),
        17 => Some(Kind::Select),
        18 => Some(Kind::TryTable),
        19 => Some(Kind::Global),
        20 => Some(Kind::Table),
        21 => Some(Kind::Mem),
        22 => Some(Kind::Memory),
        23 => Some(Kind::MemoryInit),
        24 => Some(Kind::DataDrop),
        25 => Some(Kind::MemoryCopy),
        26 => Some(Kind::MemoryFill),
        27 => Some(Kind::TableInit),
        28 => Some(Kind::ElemDrop),
        29 => Some(Kind::TableCopy),
        30 => Some(Kind::FcTable),
        31 => Some(Kind::SimdMem),
        32 => Some(Kind::SimdMemLane),
        _ => None,
    }
}

/// The variant of a block type of a number, where there is one.
pub(crate) fn block_kind_of(number: u8) -> Option<BlockKind>
    ensures { result ≡ block_kind_of number }
{
    match number {
        0 => Some(BlockKind::Empty),
        1 => Some(BlockKind::Value),
        2 => Some(BlockKind::Index),
        _ => None,
    }
}
