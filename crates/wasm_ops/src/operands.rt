//! Reading what follows an opcode (WebAssembly core specification, 5.4).

ghost use Rattle.std.specs.Prelude.{◌≡◌};
ghost use Rattle.wasm_bytes.specs.Gives.{Gives};
ghost use Rattle.wasm_bytes.specs.Reading.{followed, pure, entries, raw};
ghost use Rattle.wasm_bytes.specs.Numbers.{number32};
ghost use Rattle.wasm_bytes.specs.Items.{index};
ghost use Rattle.wasm_types.specs.Entries.{val_type};
ghost use Rattle.wasm_ops.specs.Operands.{short_block_type, numbered_type, block_type, block_type_from, labels, catch_after, catch_clause, names_memory, align_field, mem_arg, bulk, bulk_after, simd, simd_after, const128, br_table, indirect, select, try_table, operands};
ghost use Rattle.wasm_ops.specs.declared.ops.Op.TheVariants as ops;

use crate::ops::{BlockType, Catch, MemArg, Op};
use crate::shapes::{Shape, SimdShape, simd_shape};
use std::alloc::Global;
use values::Seq;
use wasm_bytes::{Counts, Entry, ReadFault, Reader, read_entries, read_index};
use wasm_types::{
    DataId, ElemId, FuncId, GlobalId, MemoryId, TableId, TagId, TypeId, ValType, read_ref_type,
};

/// The block type of one byte, where it stands for one.
fn short_block_type(code: u8) -> Option<BlockType>
    ensures { result ≡ short_block_type code }
{
    if code == 0x40 {
        return Some(BlockType::Empty);
    }
    match ValType::from_code(code) {
        Some(ty) => Some(BlockType::Value(ty)),
        None => None,
    }
}

/// The type of this number, of so many types.
fn numbered_type(count: u32, number: i64) -> Option<BlockType>
    ensures { result ≡ numbered_type count number }
{
    if 0 <= number && number < count as i64 {
        Some(BlockType::Index(TypeId(number as u32)))
    } else {
        None
    }
}

#[tactic(auto, unfolding(crate::specs::Operands::block_type_from))]
fn read_block_type_from(
    reader: &mut Reader<'_>,
    counts: &Counts,
    short: Option<BlockType>,
) -> Result<BlockType, ReadFault>
    ensures { Gives result reader.new (block_type_from counts.now short reader.old) }
{
    match short {
        Some(ty) => {
            reader.byte()?;
            Ok(ty)
        }
        None => {
            let place = reader.place();
            match numbered_type(counts.types, reader.signed33()?) {
                Some(ty) => Ok(ty),
                None => Err(ReadFault::Parse { place }),
            }
        }
    }
}

/// A block type (WebAssembly core specification, 5.4.2).
#[tactic(auto, unfolding(crate::specs::Operands::block_type))]
fn read_block_type(reader: &mut Reader<'_>, counts: &Counts) -> Result<BlockType, ReadFault>
    ensures { Gives result reader.new (block_type counts.now reader.old) }
{
    let first = reader.peek()?;
    read_block_type_from(reader, counts, short_block_type(first))
}

/// Labels among so many open blocks, one after another.
fn read_each_label(
    count: u32,
    reader: &mut Reader<'_>,
    alloc: Global,
    blocks: u64,
) -> Result<Seq<u32>, ReadFault>
    ensures { Gives result reader.new (entries count (index blocks) reader.old) }
{
    let mut labels = Seq::new(alloc);
    for _ in 0..count {
        labels.push(read_index(reader, blocks)?)?;
    }
    Ok(labels)
}

/// A list of labels among so many open blocks.
#[tactic(auto, unfolding(crate::specs::Operands::labels))]
fn read_labels(reader: &mut Reader<'_>, alloc: Global, blocks: u64) -> Result<Seq<u32>, ReadFault>
    ensures { Gives result reader.new (labels blocks reader.old) }
{
    let count = reader.number32()?;
    read_each_label(count, reader, alloc, blocks)
}

#[tactic(auto, unfolding(crate::specs::Operands::catch_after))]
fn read_catch_after(
    reader: &mut Reader<'_>,
    alloc: Global,
    counts: &Counts,
    blocks: u64,
    code: u8,
) -> Result<Catch, ReadFault>
    ensures { Gives result reader.new (catch_after counts.now blocks code reader.old) }
{
    if code < 2 {
        let tag = TagId::read(reader, alloc, counts)?;
        let label = read_index(reader, blocks)?;
        Ok(Catch::Tag(code, tag, label))
    } else {
        let label = read_index(reader, blocks)?;
        Ok(Catch::All(code, label))
    }
}

/// A catch clause (WebAssembly core specification, 5.4.2).
#[tactic(auto, unfolding(crate::specs::Operands::catch_clause))]
fn read_catch(
    reader: &mut Reader<'_>,
    alloc: Global,
    counts: &Counts,
    blocks: u64,
) -> Result<Catch, ReadFault>
    ensures { Gives result reader.new (catch_clause counts.now blocks reader.old) }
{
    let place = reader.place();
    let code = reader.byte()?;
    if code < 4 {
        read_catch_after(reader, alloc, counts, blocks, code)
    } else {
        Err(ReadFault::Parse { place })
    }
}

/// Catch clauses, one after another.
fn read_each_catch(
    count: u32,
    reader: &mut Reader<'_>,
    alloc: Global,
    counts: &Counts,
    blocks: u64,
) -> Result<Seq<Catch>, ReadFault>
    ensures { Gives result reader.new (entries count (catch_clause counts.now blocks) reader.old) }
{
    let mut clauses = Seq::new(alloc);
    for _ in 0..count {
        clauses.push(read_catch(reader, alloc, counts, blocks)?)?;
    }
    Ok(clauses)
}

/// Whether an alignment field has bit 6, so that the index of a memory follows.
fn names_memory(field: u32) -> bool
    ensures { result ≡ names_memory field }
{
    field / 64 % 2 == 1
}

#[tactic(auto, unfolding(crate::specs::Operands::align_field))]
fn read_align_field(reader: &mut Reader<'_>, counts: &Counts) -> Result<u32, ReadFault>
    ensures { Gives result reader.new (align_field counts.now reader.old) }
{
    let place = reader.place();
    let field = reader.number32()?;
    if names_memory(field) || 0 < counts.memories {
        Ok(field)
    } else {
        Err(ReadFault::Parse { place })
    }
}

/// A memory argument (WebAssembly core specification, 5.4.6).
#[tactic(auto, unfolding(crate::specs::Operands::mem_arg))]
fn read_mem_arg(
    reader: &mut Reader<'_>,
    alloc: Global,
    counts: &Counts,
) -> Result<MemArg, ReadFault>
    ensures { Gives result reader.new (mem_arg counts.now reader.old) }
{
    let field = read_align_field(reader, counts)?;
    if names_memory(field) {
        let memory = MemoryId::read(reader, alloc, counts)?;
        let offset = reader.number64()?;
        return Ok(MemArg {
            align: field - 64,
            memory,
            offset,
        });
    }
    let offset = reader.number64()?;
    Ok(MemArg {
        align: field,
        memory: MemoryId(0),
        offset,
    })
}

/// Raw bytes, as many as the array holds. An error is the place of the first fault, or want of memory.
pub fn read_array<const N: usize>(reader: &mut Reader<'_>) -> Result<[u8; N], ReadFault>
    ensures { Gives result reader.new (raw N reader.old) }
{
    let bytes = reader.raw(N)?;
    Ok(*bytes.as_array().unwrap())
}

/// An entry and another one behind it.
fn read_pair<A: Entry, B: Entry>(
    reader: &mut Reader<'_>,
    alloc: Global,
    counts: &Counts,
) -> Result<(A, B), ReadFault>
    ensures { Gives result reader.new (followed (A.grammar counts.now reader.old) (λ first rest. followed (B.grammar counts.now rest) (λ second. pure (first, second)))) }
{
    let first = A::read(reader, alloc, counts)?;
    let second = B::read(reader, alloc, counts)?;
    Ok((first, second))
}

/// What a number after the prefix FC asks for (WebAssembly core specification, 5.4.5 to 5.4.7).
#[tactic(auto, unfolding(crate::specs::Operands::bulk_after))]
fn read_bulk_after(
    reader: &mut Reader<'_>,
    alloc: Global,
    counts: &Counts,
    code: u32,
) -> Result<Op, ReadFault>
    ensures { Gives result reader.new (bulk_after counts.now code reader.old) }
{
    match code {
        0..=7 => Ok(Op::FcPlain(code)),
        8 => {
            let (segment, memory) = read_pair(reader, alloc, counts)?;
            Ok(Op::MemoryInit(segment, memory))
        }
        9 => Ok(Op::DataDrop(DataId::read(reader, alloc, counts)?)),
        10 => {
            let (to, from) = read_pair(reader, alloc, counts)?;
            Ok(Op::MemoryCopy(to, from))
        }
        11 => Ok(Op::MemoryFill(MemoryId::read(reader, alloc, counts)?)),
        12 => {
            let (elem, table) = read_pair(reader, alloc, counts)?;
            Ok(Op::TableInit(elem, table))
        }
        13 => Ok(Op::ElemDrop(ElemId::read(reader, alloc, counts)?)),
        14 => {
            let (to, from) = read_pair(reader, alloc, counts)?;
            Ok(Op::TableCopy(to, from))
        }
        _ => Ok(Op::FcTable(code, TableId::read(reader, alloc, counts)?)),
    }
}

#[tactic(auto, unfolding(crate::specs::Operands::bulk))]
fn read_bulk(reader: &mut Reader<'_>, alloc: Global, counts: &Counts) -> Result<Op, ReadFault>
    ensures { Gives result reader.new (bulk counts.now reader.old) }
{
    let place = reader.place();
    let code = reader.number32()?;
    if code < 18 {
        read_bulk_after(reader, alloc, counts, code)
    } else {
        Err(ReadFault::Parse { place })
    }
}

/// What a number after the prefix FD asks for (WebAssembly core specification, 5.4.8).
#[tactic(auto, unfolding(crate::specs::Operands::simd_after))]
fn read_simd_after(
    reader: &mut Reader<'_>,
    alloc: Global,
    counts: &Counts,
    code: u32,
    shape: SimdShape,
) -> Result<Op, ReadFault>
    ensures { Gives result reader.new (simd_after counts.now code shape reader.old) }
{
    match shape {
        SimdShape::Plain => Ok(Op::Simd(code)),
        SimdShape::Mem => Ok(Op::SimdMem(code, read_mem_arg(reader, alloc, counts)?)),
        SimdShape::MemLane => {
            let arg = read_mem_arg(reader, alloc, counts)?;
            Ok(Op::SimdMemLane(code, arg, reader.byte()?))
        }
        SimdShape::Bytes => Ok(Op::SimdBytes(code, read_array(reader)?)),
        SimdShape::Lane => Ok(Op::SimdLane(code, reader.byte()?)),
    }
}

#[tactic(auto, unfolding(crate::specs::Operands::simd))]
fn read_simd(reader: &mut Reader<'_>, alloc: Global, counts: &Counts) -> Result<Op, ReadFault>
    ensures { Gives result reader.new (simd counts.now reader.old) }
{
    let place = reader.place();
    let code = reader.number32()?;
    if code < 256 {
        read_simd_after(reader, alloc, counts, code, simd_shape(code))
    } else {
        Err(ReadFault::Parse { place })
    }
}

/// The number of the constant vector after the prefix FD, and its bytes.
#[tactic(auto, unfolding(crate::specs::Operands::const128))]
fn read_const128(reader: &mut Reader<'_>) -> Result<Op, ReadFault>
    ensures { Gives result reader.new (const128 reader.old) }
{
    let place = reader.place();
    let code = reader.number32()?;
    if code == 12 {
        Ok(Op::SimdBytes(code, read_array(reader)?))
    } else {
        Err(ReadFault::Parse { place })
    }
}

/// The labels of a branch table and the one that it has beside them.
#[tactic(auto, unfolding(crate::specs::Operands::br_table))]
fn read_br_table(reader: &mut Reader<'_>, alloc: Global, blocks: u64) -> Result<Op, ReadFault>
    ensures { Gives result reader.new (br_table blocks reader.old) }
{
    let labels = read_labels(reader, alloc, blocks)?;
    match read_index(reader, blocks) {
        Ok(label) => Ok(Op::BrTable(labels, label)),
        Err(fault) => Err(fault),
    }
}

/// The type and the table of an indirect call.
#[tactic(auto, unfolding(crate::specs::Operands::indirect))]
fn read_indirect(
    reader: &mut Reader<'_>,
    alloc: Global,
    counts: &Counts,
    code: u8,
) -> Result<Op, ReadFault>
    ensures { Gives result reader.new (indirect counts.now code reader.old) }
{
    let ty = TypeId::read(reader, alloc, counts)?;
    Ok(Op::Indirect(code, ty, TableId::read(reader, alloc, counts)?))
}

/// The types of a selection.
#[tactic(auto, unfolding(crate::specs::Operands::select))]
fn read_select(reader: &mut Reader<'_>, alloc: Global, counts: &Counts) -> Result<Op, ReadFault>
    ensures { Gives result reader.new (select reader.old) }
{
    let count = reader.number32()?;
    Ok(Op::Select(read_entries(count, reader, alloc, counts)?))
}

/// The type of a block and its catch clauses.
#[tactic(auto, unfolding(crate::specs::Operands::try_table))]
fn read_try_table(
    reader: &mut Reader<'_>,
    alloc: Global,
    counts: &Counts,
    blocks: u64,
) -> Result<Op, ReadFault>
    ensures { Gives result reader.new (try_table counts.now blocks reader.old) }
{
    let ty = read_block_type(reader, counts)?;
    let count = reader.number32()?;
    Ok(Op::TryTable(ty, read_each_catch(count, reader, alloc, counts, blocks)?))
}

/// What follows an opcode of this shape, where labels can name so many open blocks. An error is the place of the first
/// fault, or want of memory.
#[tactic(auto, unfolding(crate::specs::Operands::operands))]
pub fn read_operands(
    reader: &mut Reader<'_>,
    alloc: Global,
    counts: &Counts,
    blocks: u64,
    code: u8,
    shape: Shape,
) -> Result<Op, ReadFault>
    ensures { Gives result reader.new (operands counts.now blocks code shape reader.old) }
{
    match shape {
        Shape::Plain => Ok(Op::Plain(code)),
        Shape::Block => Ok(Op::Block(code, read_block_type(reader, counts)?)),
        Shape::Tag => Ok(Op::Tag(code, TagId::read(reader, alloc, counts)?)),
        Shape::Label => Ok(Op::Label(code, read_index(reader, blocks)?)),
        Shape::BrTable => read_br_table(reader, alloc, blocks),
        Shape::Func => Ok(Op::Func(code, FuncId::read(reader, alloc, counts)?)),
        Shape::Indirect => read_indirect(reader, alloc, counts, code),
        Shape::Select => read_select(reader, alloc, counts),
        Shape::TryTable => read_try_table(reader, alloc, counts, blocks),
        Shape::Local => Ok(Op::Local(code, read_index(reader, counts.locals)?)),
        Shape::Global => Ok(Op::Global(code, GlobalId::read(reader, alloc, counts)?)),
        Shape::Table => Ok(Op::Table(code, TableId::read(reader, alloc, counts)?)),
        Shape::Mem => Ok(Op::Mem(code, read_mem_arg(reader, alloc, counts)?)),
        Shape::Memory => Ok(Op::Memory(code, MemoryId::read(reader, alloc, counts)?)),
        Shape::Const32 => reader.signed32().map(Op::Const32),
        Shape::Const64 => reader.signed64().map(Op::Const64),
        Shape::Raw4 => read_array(reader).map(Op::Raw4),
        Shape::Raw8 => read_array(reader).map(Op::Raw8),
        Shape::RefNull => read_ref_type(reader, alloc, counts).map(Op::RefNull),
        Shape::Bulk => read_bulk(reader, alloc, counts),
        Shape::Simd => read_simd(reader, alloc, counts),
        Shape::Const128 => read_const128(reader),
    }
}
