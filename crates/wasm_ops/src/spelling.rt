//! Writing operators (WebAssembly core specification, 5.4).

ghost use Rattle.std.specs.Prelude.{◌≡◌, ◌∷◌, ◌++◌, map, OnOk};
ghost use Rattle.std.specs.List.{flat_map};
ghost use Rattle.wasm_bytes.specs.Numbers.{number_bytes};
ghost use Rattle.wasm_bytes.specs.Signed.{signed_bytes};
ghost use Rattle.wasm_bytes.specs.Spelling.{list_bytes};
ghost use Rattle.wasm_types.specs.Spelling.{val_type_bytes};
ghost use Rattle.wasm_ops.specs.Numbers.{renumbered_block_type, renumbered_catch, renumbered_arg, renumbered_op, number_at};
ghost use Rattle.wasm_ops.specs.Spelling.{block_type_bytes, catch_bytes, mem_arg_bytes, coded, op_bytes};

use crate::ops::{BlockType, Catch, MemArg, Numbering, Op};
use std::alloc::AllocError;
use values::Seq;
use wasm_bytes::{push_i64, push_number, push_u32, write_list};
use wasm_types::{TableId, TypeId, ValType};

/// The number of a place, 0 where there is none.
pub fn number_at(numbers: &Seq<u32>, place: u32) -> u32
    ensures { result ≡ number_at numbers.now place }
{
    match numbers.get(place as usize) {
        Some(number) => *number,
        None => 0,
    }
}

/// Appends a byte and a number. The only error is want of memory.
pub fn push_coded(out: &mut Vec<u8>, code: u8, number: u32) -> Result<(), AllocError>
    ensures { OnOk result (out.new.items ≡ out.old.items ++ coded code number) }
{
    out.push(code)?;
    push_u32(out, number)
}

/// Appends a byte and two numbers. The only error is want of memory.
pub fn push_coded_pair(
    out: &mut Vec<u8>,
    code: u8,
    first: u32,
    second: u32,
) -> Result<(), AllocError>
    ensures { OnOk result (out.new.items ≡ out.old.items ++ (coded code first ++ number_bytes second)) }
{
    push_coded(out, code, first)?;
    push_u32(out, second)
}

/// Appends a byte and the number of a place.
fn push_place(out: &mut Vec<u8>, code: u8, numbers: &Seq<u32>, place: u32) -> Result<(), AllocError>
    ensures { OnOk result (out.new.items ≡ out.old.items ++ coded code (number_at numbers.now place)) }
{
    push_coded(out, code, number_at(numbers, place))
}

/// Appends the prefix of operators in bulk, the number of one, and the number of a place.
fn push_bulk(out: &mut Vec<u8>, code: u32, numbers: &Seq<u32>, place: u32) -> Result<(), AllocError>
    ensures { OnOk result (out.new.items ≡ out.old.items ++ (coded 0xFC code ++ number_bytes (number_at numbers.now place))) }
{
    push_coded_pair(out, 0xFC, code, number_at(numbers, place))
}

/// The same with the numbers of two places, each in its list.
fn push_bulk_pair(
    out: &mut Vec<u8>,
    code: u32,
    firsts: &Seq<u32>,
    first: u32,
    seconds: &Seq<u32>,
    second: u32,
) -> Result<(), AllocError>
    ensures { OnOk result (out.new.items ≡ out.old.items ++ (coded 0xFC code ++ (number_bytes (number_at firsts.now first) ++ number_bytes (number_at seconds.now second)))) }
{
    push_bulk(out, code, firsts, first)?;
    push_u32(out, number_at(seconds, second))
}

#[tactic(auto, unfolding(crate::specs::Spelling::block_type_bytes))]
fn write_block_type(out: &mut Vec<u8>, numbers: &Numbering, ty: BlockType) -> Result<(), AllocError>
    ensures { OnOk result (out.new.items ≡ out.old.items ++ block_type_bytes (renumbered_block_type numbers.now ty)) }
{
    match ty {
        BlockType::Empty => {
            out.push(0x40)?;
            Ok(())
        }
        BlockType::Value(ty) => {
            out.push(ty.code())?;
            Ok(())
        }
        BlockType::Index(ty) => push_i64(out, number_at(&numbers.types, ty.0) as i64),
    }
}

#[tactic(auto, unfolding(crate::specs::Spelling::catch_bytes))]
fn write_catch(out: &mut Vec<u8>, numbers: &Numbering, clause: Catch) -> Result<(), AllocError>
    ensures { OnOk result (out.new.items ≡ out.old.items ++ catch_bytes (renumbered_catch numbers.now clause)) }
{
    match clause {
        Catch::Tag(code, tag, label) => {
            push_coded_pair(out, code, number_at(&numbers.tags, tag.0), label)
        }
        Catch::All(code, label) => push_coded(out, code, label),
    }
}

fn write_each_catch(
    out: &mut Vec<u8>,
    numbers: &Numbering,
    clauses: &[Catch],
) -> Result<(), AllocError>
    ensures { OnOk result (out.new.items ≡ out.old.items ++ flat_map catch_bytes (map (renumbered_catch numbers.now) clauses.now)) }
{
    for clause in clauses {
        write_catch(out, numbers, *clause)?;
    }
    Ok(())
}

#[tactic(auto, unfolding(crate::specs::Spelling::mem_arg_bytes))]
fn write_mem_arg(out: &mut Vec<u8>, numbers: &Numbering, arg: MemArg) -> Result<(), AllocError>
    ensures { OnOk result (out.new.items ≡ out.old.items ++ mem_arg_bytes (renumbered_arg numbers.now arg)) }
{
    let memory = number_at(&numbers.memories, arg.memory.0);
    if memory == 0 {
        push_u32(out, arg.align)?;
        return push_number(out, arg.offset);
    }
    push_number(out, arg.align as u64 + 64)?;
    push_u32(out, memory)?;
    push_number(out, arg.offset)
}

/// Appends a list of catch clauses.
#[tactic(auto, unfolding(wasm_bytes::specs::Spelling::list_bytes))]
fn write_catches(
    out: &mut Vec<u8>,
    numbers: &Numbering,
    clauses: &[Catch],
) -> Result<(), AllocError>
    ensures { OnOk result (out.new.items ≡ out.old.items ++ list_bytes catch_bytes (map (renumbered_catch numbers.now) clauses.now)) }
{
    push_number(out, clauses.len() as u64)?;
    write_each_catch(out, numbers, clauses)
}

/// Appends the prefix of vector operators, the number of one, a memory argument and what follows it.
fn write_simd_mem(
    out: &mut Vec<u8>,
    numbers: &Numbering,
    code: u32,
    arg: MemArg,
    lane: &[u8],
) -> Result<(), AllocError>
    ensures { OnOk result (out.new.items ≡ out.old.items ++ (coded 0xFD code ++ (mem_arg_bytes (renumbered_arg numbers.now arg) ++ lane.now))) }
{
    push_coded(out, 0xFD, code)?;
    write_mem_arg(out, numbers, arg)?;
    out.extend_from_slice(lane)
}

/// Appends a byte, a number and raw bytes. The only error is want of memory.
pub fn push_coded_bytes(
    out: &mut Vec<u8>,
    code: u8,
    number: u32,
    bytes: &[u8],
) -> Result<(), AllocError>
    ensures { OnOk result (out.new.items ≡ out.old.items ++ (coded code number ++ bytes.now)) }
{
    push_coded(out, code, number)?;
    out.extend_from_slice(bytes)
}

/// Appends a byte and raw bytes. The only error is want of memory.
pub fn push_bytes(out: &mut Vec<u8>, code: u8, bytes: &[u8]) -> Result<(), AllocError>
    ensures { OnOk result (out.new.items ≡ out.old.items ++ code ∷ bytes.now) }
{
    out.push(code)?;
    out.extend_from_slice(bytes)
}

/// Appends an opcode and the type of a block.
fn write_block(
    out: &mut Vec<u8>,
    code: u8,
    numbers: &Numbering,
    ty: BlockType,
) -> Result<(), AllocError>
    ensures { OnOk result (out.new.items ≡ out.old.items ++ code ∷ block_type_bytes (renumbered_block_type numbers.now ty)) }
{
    out.push(code)?;
    write_block_type(out, numbers, ty)
}

/// Appends a branch by a table of labels and the one that it has beside them.
fn write_br_table(out: &mut Vec<u8>, labels: &[u32], label: u32) -> Result<(), AllocError>
    ensures { OnOk result (out.new.items ≡ out.old.items ++ 0x0E ∷ (list_bytes number_bytes labels.now ++ number_bytes label)) }
{
    out.push(0x0E)?;
    write_list(labels, out)?;
    push_u32(out, label)
}

/// Appends a selection among values of these types.
fn write_select(out: &mut Vec<u8>, types: &[ValType]) -> Result<(), AllocError>
    ensures { OnOk result (out.new.items ≡ out.old.items ++ 0x1C ∷ list_bytes val_type_bytes types.now) }
{
    out.push(0x1C)?;
    write_list(types, out)
}

/// Appends a block that catches exceptions: its type, and its catch clauses.
fn write_try_table(
    out: &mut Vec<u8>,
    numbers: &Numbering,
    ty: BlockType,
    clauses: &[Catch],
) -> Result<(), AllocError>
    ensures { OnOk result (out.new.items ≡ out.old.items ++ 0x1F ∷ (block_type_bytes (renumbered_block_type numbers.now ty) ++ list_bytes catch_bytes (map (renumbered_catch numbers.now) clauses.now))) }
{
    write_block(out, 0x1F, numbers, ty)?;
    write_catches(out, numbers, clauses)
}

/// Appends the opcode of an indirect call, and the numbers of its type and table.
fn write_indirect(
    out: &mut Vec<u8>,
    code: u8,
    numbers: &Numbering,
    ty: TypeId,
    table: TableId,
) -> Result<(), AllocError>
    ensures { OnOk result (out.new.items ≡ out.old.items ++ (coded code (number_at numbers.now.types ty.0) ++ number_bytes (number_at numbers.now.tables table.0))) }
{
    push_place(out, code, &numbers.types, ty.0)?;
    push_u32(out, number_at(&numbers.tables, table.0))
}

/// Appends an opcode and a memory argument.
fn write_mem(
    out: &mut Vec<u8>,
    code: u8,
    numbers: &Numbering,
    arg: MemArg,
) -> Result<(), AllocError>
    ensures { OnOk result (out.new.items ≡ out.old.items ++ code ∷ mem_arg_bytes (renumbered_arg numbers.now arg)) }
{
    out.push(code)?;
    write_mem_arg(out, numbers, arg)
}

/// Appends an opcode and a number with a sign. The only error is want of memory.
pub fn push_coded_signed(out: &mut Vec<u8>, code: u8, value: i64) -> Result<(), AllocError>
    ensures { OnOk result (out.new.items ≡ out.old.items ++ code ∷ signed_bytes value) }
{
    out.push(code)?;
    push_i64(out, value)
}

/// Appends an operator with the numbers of what it names. The only error is want of memory.
#[tactic(auto, unfolding(crate::specs::Spelling::op_bytes, wasm_types::specs::Spelling::val_type_bytes, crate::specs::Numbers::renumbered_op))]
pub fn write_op(out: &mut Vec<u8>, numbers: &Numbering, op: &Op) -> Result<(), AllocError>
    ensures { OnOk result (out.new.items ≡ out.old.items ++ op_bytes (renumbered_op numbers.now op.now)) }
{
    match *op {
        Op::Plain(code) => push_bytes(out, code, &[]),
        Op::Block(code, ty) => write_block(out, code, numbers, ty),
        Op::Tag(code, tag) => push_place(out, code, &numbers.tags, tag.0),
        Op::Label(code, label) => push_coded(out, code, label),
        Op::BrTable(ref labels, label) => write_br_table(out, labels.as_slice(), label),
        Op::Func(code, func) => push_place(out, code, &numbers.funcs, func.0),
        Op::Indirect(code, ty, table) => write_indirect(out, code, numbers, ty, table),
        Op::Select(ref types) => write_select(out, types.as_slice()),
        Op::TryTable(ty, ref clauses) => write_try_table(out, numbers, ty, clauses.as_slice()),
        Op::Local(code, local) => push_coded(out, code, local),
        Op::Global(code, global) => push_place(out, code, &numbers.globals, global.0),
        Op::Table(code, table) => push_place(out, code, &numbers.tables, table.0),
        Op::Mem(code, arg) => write_mem(out, code, numbers, arg),
        Op::Memory(code, memory) => push_place(out, code, &numbers.memories, memory.0),
        Op::Const32(value) => push_coded_signed(out, 0x41, value as i64),
        Op::Const64(value) => push_coded_signed(out, 0x42, value),
        Op::Raw4(ref bytes) => push_bytes(out, 0x43, bytes),
        Op::Raw8(ref bytes) => push_bytes(out, 0x44, bytes),
        Op::RefNull(ty) => push_bytes(out, 0xD0, &[ty.code()]),
        Op::FcPlain(code) => push_coded(out, 0xFC, code),
        Op::MemoryInit(segment, memory) => {
            push_bulk_pair(
                out,
                8,
                &numbers.segments,
                segment.0,
                &numbers.memories,
                memory.0,
            )
        }
        Op::DataDrop(segment) => push_bulk(out, 9, &numbers.segments, segment.0),
        Op::MemoryCopy(to, from) => {
            push_bulk_pair(out, 10, &numbers.memories, to.0, &numbers.memories, from.0)
        }
        Op::MemoryFill(memory) => push_bulk(out, 11, &numbers.memories, memory.0),
        Op::TableInit(elem, table) => {
            push_bulk_pair(out, 12, &numbers.elems, elem.0, &numbers.tables, table.0)
        }
        Op::ElemDrop(elem) => push_bulk(out, 13, &numbers.elems, elem.0),
        Op::TableCopy(to, from) => {
            push_bulk_pair(out, 14, &numbers.tables, to.0, &numbers.tables, from.0)
        }
        Op::FcTable(code, table) => push_bulk(out, code, &numbers.tables, table.0),
        Op::Simd(code) => push_coded(out, 0xFD, code),
        Op::SimdMem(code, arg) => write_simd_mem(out, numbers, code, arg, &[]),
        Op::SimdMemLane(code, arg, lane) => write_simd_mem(out, numbers, code, arg, &[lane]),
        Op::SimdBytes(code, ref bytes) => push_coded_bytes(out, 0xFD, code, bytes),
        Op::SimdLane(code, lane) => push_coded_bytes(out, 0xFD, code, &[lane]),
    }
}
