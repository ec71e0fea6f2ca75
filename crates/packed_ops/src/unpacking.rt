//! Reading what is kept packed.

ghost use Rattle.std.specs.Prelude.{◌≡◌};
ghost use Rattle.wasm_bytes.specs.Gives.{Gives};
ghost use Rattle.wasm_bytes.specs.Reading.{byte, raw};
ghost use Rattle.wasm_bytes.specs.Numbers.{number32, number64};
ghost use Rattle.packed_ops.specs.Packed.{both, one_byte, two_bytes, block_as, unpacked_block, unpacked_catch_as, unpacked_catch, unpacked_arg, unpacked_list, held_as, unpacked_op};

use crate::kinds::{BlockKind, Kind, block_kind_of, kind_of};
use crate::lists::read_list;
use std::alloc::Global;
use values::Seq;
use wasm_bytes::{ReadFault, Reader};
use wasm_ops::{BlockType, Catch, MemArg, Op, read_array};
use wasm_types::{
    DataId, ElemId, FuncId, GlobalId, MemoryId, TableId, TagId, TypeId, read_val_type,
};

/// A byte and a number.
fn read_coded(reader: &mut Reader<'_>) -> Result<(u8, u32), ReadFault>
    ensures { Gives result reader.new (both byte number32 reader.old) }
{
    let code = reader.byte()?;
    let number = reader.number32()?;
    Ok((code, number))
}

/// Two numbers.
fn read_two(reader: &mut Reader<'_>) -> Result<(u32, u32), ReadFault>
    ensures { Gives result reader.new (both number32 number32 reader.old) }
{
    let first = reader.number32()?;
    let second = reader.number32()?;
    Ok((first, second))
}

/// A byte and two numbers.
fn read_coded_two(reader: &mut Reader<'_>) -> Result<(u8, (u32, u32)), ReadFault>
    ensures { Gives result reader.new (both byte (both number32 number32) reader.old) }
{
    let code = reader.byte()?;
    let two = read_two(reader)?;
    Ok((code, two))
}

/// Passes over a byte.
fn skip_byte(reader: &mut Reader<'_>) -> Result<(), ReadFault>
    ensures { Gives result reader.new (one_byte reader.old) }
{
    reader.byte()?;
    Ok(())
}

/// Passes over two bytes.
fn skip_two(reader: &mut Reader<'_>) -> Result<(), ReadFault>
    ensures { Gives result reader.new (two_bytes reader.old) }
{
    reader.byte()?;
    reader.byte()?;
    Ok(())
}

/// What a variant of block types holds.
#[tactic(auto, unfolding(crate::specs::Packed::block_as))]
fn read_block_as(reader: &mut Reader<'_>, kind: BlockKind) -> Result<BlockType, ReadFault>
    ensures { Gives result reader.new (block_as kind reader.old) }
{
    match kind {
        BlockKind::Empty => Ok(BlockType::Empty),
        BlockKind::Value => Ok(BlockType::Value(read_val_type(reader)?)),
        BlockKind::Index => Ok(BlockType::Index(TypeId(reader.number32()?))),
    }
}

#[tactic(auto, unfolding(crate::specs::Packed::unpacked_block))]
fn read_block(reader: &mut Reader<'_>) -> Result<BlockType, ReadFault>
    ensures { Gives result reader.new (unpacked_block reader.old) }
{
    let place = reader.place();
    match block_kind_of(reader.byte()?) {
        Some(kind) => read_block_as(reader, kind),
        None => Err(ReadFault::Parse { place }),
    }
}

/// A byte and a block type.
fn read_coded_block(reader: &mut Reader<'_>) -> Result<(u8, BlockType), ReadFault>
    ensures { Gives result reader.new (both byte unpacked_block reader.old) }
{
    let code = reader.byte()?;
    let ty = read_block(reader)?;
    Ok((code, ty))
}

#[tactic(auto, unfolding(crate::specs::Packed::unpacked_catch_as))]
fn read_catch_as(reader: &mut Reader<'_>, number: u8) -> Result<Catch, ReadFault>
    ensures { Gives result reader.new (unpacked_catch_as number reader.old) }
{
    let code = reader.byte()?;
    if number == 0 {
        let p = read_two(reader)?;
        Ok(Catch::Tag(code, TagId(p.0), p.1))
    } else {
        let label = reader.number32()?;
        Ok(Catch::All(code, label))
    }
}

#[tactic(auto, unfolding(crate::specs::Packed::unpacked_catch))]
pub(crate) fn read_catch(reader: &mut Reader<'_>) -> Result<Catch, ReadFault>
    ensures { Gives result reader.new (unpacked_catch reader.old) }
{
    let number = reader.byte()?;
    read_catch_as(reader, number)
}

#[tactic(auto, unfolding(crate::specs::Packed::unpacked_arg))]
fn read_arg(reader: &mut Reader<'_>) -> Result<MemArg, ReadFault>
    ensures { Gives result reader.new (unpacked_arg reader.old) }
{
    let align = reader.number32()?;
    let memory = reader.number32()?;
    let offset = reader.number64()?;
    Ok(MemArg {
        align,
        memory: MemoryId(memory),
        offset,
    })
}

/// A byte and a memory argument.
fn read_coded_arg(reader: &mut Reader<'_>) -> Result<(u8, MemArg), ReadFault>
    ensures { Gives result reader.new (both byte unpacked_arg reader.old) }
{
    let code = reader.byte()?;
    let arg = read_arg(reader)?;
    Ok((code, arg))
}

/// A number and a memory argument.
fn read_numbered_arg(reader: &mut Reader<'_>) -> Result<(u32, MemArg), ReadFault>
    ensures { Gives result reader.new (both number32 unpacked_arg reader.old) }
{
    let code = reader.number32()?;
    let arg = read_arg(reader)?;
    Ok((code, arg))
}

/// A memory argument and a byte.
fn read_arg_lane(reader: &mut Reader<'_>) -> Result<(MemArg, u8), ReadFault>
    ensures { Gives result reader.new (both unpacked_arg byte reader.old) }
{
    let arg = read_arg(reader)?;
    let lane = reader.byte()?;
    Ok((arg, lane))
}

/// A number, a memory argument and a byte.
fn read_numbered_arg_lane(reader: &mut Reader<'_>) -> Result<(u32, (MemArg, u8)), ReadFault>
    ensures { Gives result reader.new (both number32 (both unpacked_arg byte) reader.old) }
{
    let code = reader.number32()?;
    let rest = read_arg_lane(reader)?;
    Ok((code, rest))
}

/// A number and 16 bytes.
fn read_numbered_bytes(reader: &mut Reader<'_>) -> Result<(u32, [u8; 16]), ReadFault>
    ensures { Gives result reader.new (both number32 (raw 16) reader.old) }
{
    let code = reader.number32()?;
    let bytes = read_array(reader)?;
    Ok((code, bytes))
}

/// A number and a byte.
fn read_numbered_lane(reader: &mut Reader<'_>) -> Result<(u32, u8), ReadFault>
    ensures { Gives result reader.new (both number32 byte reader.old) }
{
    let code = reader.number32()?;
    let lane = reader.byte()?;
    Ok((code, lane))
}

/// A list of labels and the one beside them.
fn read_br_table(reader: &mut Reader<'_>, alloc: Global) -> Result<(Seq<u32>, u32), ReadFault>
    ensures { Gives result reader.new (both (unpacked_list number32) number32 reader.old) }
{
    let labels = read_list(reader, alloc)?;
    match reader.number32() {
        Ok(label) => Ok((labels, label)),
        Err(fault) => Err(fault),
    }
}

/// A block type and a list of catch clauses.
fn read_try_table(
    reader: &mut Reader<'_>,
    alloc: Global,
) -> Result<(BlockType, Seq<Catch>), ReadFault>
    ensures { Gives result reader.new (both unpacked_block (unpacked_list unpacked_catch) reader.old) }
{
    let ty = read_block(reader)?;
    let clauses = read_list(reader, alloc)?;
    Ok((ty, clauses))
}

/// What a variant holds.
#[tactic(auto, unfolding(crate::specs::Packed::held_as))]
fn read_as(reader: &mut Reader<'_>, alloc: Global, kind: Kind) -> Result<Op, ReadFault>
    ensures { Gives result reader.new (held_as kind reader.old) }
{
    match kind {
        Kind::Plain => {
            skip_byte(reader)?;
            reader.byte().map(Op::Plain)
        }
        Kind::Label => {
            skip_byte(reader)?;
            read_coded(reader).map(|p| Op::Label(p.0, p.1))
        }
        Kind::Local => {
            skip_byte(reader)?;
            read_coded(reader).map(|p| Op::Local(p.0, p.1))
        }
        Kind::Const32 => {
            skip_two(reader)?;
            reader.signed32().map(Op::Const32)
        }
        Kind::Const64 => {
            skip_two(reader)?;
            reader.signed64().map(Op::Const64)
        }
        Kind::Raw4 => {
            skip_two(reader)?;
            read_array(reader).map(Op::Raw4)
        }
        Kind::Raw8 => {
            skip_two(reader)?;
            read_array(reader).map(Op::Raw8)
        }
        Kind::RefNull => {
            skip_two(reader)?;
            read_val_type(reader).map(Op::RefNull)
        }
        Kind::FcPlain => {
            skip_two(reader)?;
            reader.number32().map(Op::FcPlain)
        }
        Kind::Simd => {
            skip_two(reader)?;
            reader.number32().map(Op::Simd)
        }
        Kind::SimdBytes => {
            skip_two(reader)?;
            read_numbered_bytes(reader).map(|p| Op::SimdBytes(p.0, p.1))
        }
        Kind::SimdLane => {
            skip_two(reader)?;
            read_numbered_lane(reader).map(|p| Op::SimdLane(p.0, p.1))
        }
        Kind::Block => read_coded_block(reader).map(|p| Op::Block(p.0, p.1)),
        Kind::Tag => read_coded(reader).map(|p| Op::Tag(p.0, TagId(p.1))),
        Kind::BrTable => {
            let p = read_br_table(reader, alloc)?;
            Ok(Op::BrTable(p.0, p.1))
        }
        Kind::Func => read_coded(reader).map(|p| Op::Func(p.0, FuncId(p.1))),
        Kind::Indirect => {
            read_coded_two(reader).map(|p| Op::Indirect(p.0, TypeId(p.1.0), TableId(p.1.1)))
        }
        Kind::Select => read_list(reader, alloc).map(Op::Select),
        Kind::TryTable => {
            let p = read_try_table(reader, alloc)?;
            Ok(Op::TryTable(p.0, p.1))
        }
        Kind::Global => read_coded(reader).map(|p| Op::Global(p.0, GlobalId(p.1))),
        Kind::Table => read_coded(reader).map(|p| Op::Table(p.0, TableId(p.1))),
        Kind::Mem => read_coded_arg(reader).map(|p| Op::Mem(p.0, p.1)),
        Kind::Memory => read_coded(reader).map(|p| Op::Memory(p.0, MemoryId(p.1))),
        Kind::MemoryInit => { read_two(reader).map(|p| Op::MemoryInit(DataId(p.0), MemoryId(p.1))) }
        Kind::DataDrop => reader.number32().map(|n| Op::DataDrop(DataId(n))),
        Kind::MemoryCopy => {
            read_two(reader).map(|p| Op::MemoryCopy(MemoryId(p.0), MemoryId(p.1)))
        }
        Kind::MemoryFill => reader.number32().map(|n| Op::MemoryFill(MemoryId(n))),
        Kind::TableInit => read_two(reader).map(|p| Op::TableInit(ElemId(p.0), TableId(p.1))),
        Kind::ElemDrop => reader.number32().map(|n| Op::ElemDrop(ElemId(n))),
        Kind::TableCopy => read_two(reader).map(|p| Op::TableCopy(TableId(p.0), TableId(p.1))),
        Kind::FcTable => read_two(reader).map(|p| Op::FcTable(p.0, TableId(p.1))),
        Kind::SimdMem => read_numbered_arg(reader).map(|p| Op::SimdMem(p.0, p.1)),
        Kind::SimdMemLane => {
            read_numbered_arg_lane(reader).map(|p| Op::SimdMemLane(p.0, p.1.0, p.1.1))
        }
    }
}

/// An operator.
#[tactic(auto, unfolding(crate::specs::Packed::unpacked_op))]
pub(crate) fn read_packed(reader: &mut Reader<'_>, alloc: Global) -> Result<Op, ReadFault>
    ensures { Gives result reader.new (unpacked_op reader.old) }
{
    let place = reader.place();
    match kind_of(reader.byte()?) {
        Some(kind) => read_as(reader, alloc, kind),
        None => Err(ReadFault::Parse { place }),
    }
}
