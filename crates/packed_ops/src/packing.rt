//! Writing what is kept packed.

ghost use Rattle.std.specs.Prelude.{◌≡◌, ◌≤◌, ◌∷◌, ◌++◌, [], true, length, if◌then◌else◌, IfOk, OnOk, OnErr};
ghost use Rattle.wasm_bytes.specs.Numbers.{number_bytes};
ghost use Rattle.wasm_bytes.specs.Signed.{signed_bytes};
ghost use Rattle.wasm_ops.specs.declared.ops.Op.TheVariants as ops;
ghost use Rattle.wasm_ops.specs.Spelling.{coded};
ghost use Rattle.packed_ops.specs.Packed.{behind_length, packed_block, packed_catch, packed_arg, packed_two, packed_bytes, HasWidthsBlock, HasWidthsCatch, HasWidthsArg, HasWidths, FitsU32};

use crate::lists::pack_list;
use std::alloc::AllocError;
use wasm_bytes::{number_len, push_number, push_u32, signed_len};
use wasm_ops::{
    BlockType, Catch, MemArg, Op, push_bytes, push_coded, push_coded_bytes, push_coded_pair,
    push_coded_signed,
};
use wasm_types::ValType;

#[tactic(auto, unfolding(crate::specs::Packed::packed_block, wasm_types::specs::Spelling::val_type_bytes))]
fn pack_block(out: &mut Vec<u8>, ty: BlockType) -> Result<(), AllocError>
    ensures bytes { OnOk result (out.new.items ≡ out.old.items ++ packed_block ty) }
    ensures fits { HasWidthsBlock ty }
{
    match ty {
        BlockType::Empty => push_bytes(out, 0, &[]),
        BlockType::Value(ty) => push_bytes(out, 1, &[ty.code()]),
        BlockType::Index(ty) => push_coded(out, 2, ty.0),
    }
}

#[tactic(auto, unfolding(crate::specs::Packed::packed_catch))]
pub(crate) fn pack_catch(out: &mut Vec<u8>, clause: Catch) -> Result<(), AllocError>
    ensures bytes { OnOk result (out.new.items ≡ out.old.items ++ packed_catch clause) }
    ensures fits { OnOk result (HasWidthsCatch clause) }
{
    match clause {
        Catch::Tag(code, tag, label) => {
            out.push(0)?;
            push_coded_pair(out, code, tag.0, label)
        }
        Catch::All(code, label) => {
            out.push(1)?;
            push_coded(out, code, label)
        }
    }
}

#[tactic(auto, unfolding(crate::specs::Packed::packed_arg))]
fn pack_arg(out: &mut Vec<u8>, arg: MemArg) -> Result<(), AllocError>
    ensures bytes { OnOk result (out.new.items ≡ out.old.items ++ packed_arg arg) }
    ensures fits { HasWidthsArg arg }
{
    push_u32(out, arg.align)?;
    push_u32(out, arg.memory.0)?;
    push_number(out, arg.offset)
}

/// Appends a byte and a number.
fn pack_number(out: &mut Vec<u8>, number: u8, n: u32) -> Result<(), AllocError>
    ensures fits { FitsU32 n }
    ensures bytes { OnOk result (out.new.items ≡ out.old.items ++ coded number n) }
{
    push_coded(out, number, n)
}

/// Appends a byte, another one and a number.
fn pack_coded(out: &mut Vec<u8>, number: u8, code: u8, n: u32) -> Result<(), AllocError>
    ensures fits { FitsU32 n }
    ensures bytes { OnOk result (out.new.items ≡ out.old.items ++ number ∷ coded code n) }
{
    out.push(number)?;
    push_coded(out, code, n)
}

/// Appends a byte and two numbers.
fn pack_two(out: &mut Vec<u8>, number: u8, n: u32, m: u32) -> Result<(), AllocError>
    ensures fits { FitsU32 n × FitsU32 m }
    ensures bytes { OnOk result (out.new.items ≡ out.old.items ++ number ∷ packed_two n m) }
{
    push_coded_pair(out, number, n, m)
}

/// Appends two bytes and two numbers.
fn pack_coded_two(out: &mut Vec<u8>, number: u8, code: u8, n: u32, m: u32) -> Result<(), AllocError>
    ensures fits { FitsU32 n × FitsU32 m }
    ensures bytes { OnOk result (out.new.items ≡ out.old.items ++ number ∷ code ∷ packed_two n m) }
{
    out.push(number)?;
    push_coded_pair(out, code, n, m)
}

/// Appends two bytes and a block type.
fn pack_coded_block(
    out: &mut Vec<u8>,
    number: u8,
    code: u8,
    ty: BlockType,
) -> Result<(), AllocError>
    ensures bytes { OnOk result (out.new.items ≡ out.old.items ++ number ∷ code ∷ packed_block ty) }
    ensures fits { HasWidthsBlock ty }
{
    push_bytes(out, number, &[code])?;
    pack_block(out, ty)
}

/// Appends two bytes and a memory argument.
fn pack_coded_arg(out: &mut Vec<u8>, number: u8, code: u8, arg: MemArg) -> Result<(), AllocError>
    ensures bytes { OnOk result (out.new.items ≡ out.old.items ++ number ∷ code ∷ packed_arg arg) }
    ensures fits { HasWidthsArg arg }
{
    push_bytes(out, number, &[code])?;
    pack_arg(out, arg)
}

/// Appends a byte, a number, a memory argument and what follows it.
fn pack_numbered_arg(
    out: &mut Vec<u8>,
    number: u8,
    code: u32,
    arg: MemArg,
    lane: &[u8],
) -> Result<(), AllocError>
    ensures bytes { OnOk result (out.new.items ≡ out.old.items ++ number ∷ (number_bytes code ++ (packed_arg arg ++ lane.now))) }
    ensures fits { HasWidthsArg arg }
{
    push_coded(out, number, code)?;
    pack_arg(out, arg)?;
    out.extend_from_slice(lane)
}

/// Appends a byte, and a byte and a number behind their length.
fn pack_spelled(out: &mut Vec<u8>, number: u8, code: u8, n: u32) -> Result<(), AllocError>
    ensures fits { FitsU32 n }
    ensures bytes { OnOk result (out.new.items ≡ out.old.items ++ number ∷ behind_length (coded code n)) }
{
    out.push(number)?;
    out.push(1 + number_len(n as u64))?;
    push_coded(out, code, n)
}

/// Appends a byte, and a byte and a number with a sign behind their length.
fn pack_signed(out: &mut Vec<u8>, number: u8, code: u8, value: i64) -> Result<(), AllocError>
    ensures { OnOk result (out.new.items ≡ out.old.items ++ number ∷ behind_length (code ∷ signed_bytes value)) }
{
    out.push(number)?;
    out.push(1 + signed_len(value))?;
    push_coded_signed(out, code, value)
}

/// Appends a byte, and a byte and raw bytes behind their length.
fn pack_raw(out: &mut Vec<u8>, number: u8, code: u8, bytes: &[u8]) -> Result<(), AllocError>
    requires few { length bytes.now ≤ 8 }
    ensures bytes { OnOk result (out.new.items ≡ out.old.items ++ number ∷ behind_length (code ∷ bytes.now)) }
{
    out.push(number)?;
    out.push(1 + bytes.len() as u8)?;
    push_bytes(out, code, bytes)
}

/// Appends a byte, and the prefix of vector operators, a number and raw bytes behind their length.
fn pack_vector(out: &mut Vec<u8>, number: u8, code: u32, bytes: &[u8]) -> Result<(), AllocError>
    requires few { length bytes.now ≤ 16 }
    ensures fits { FitsU32 code }
    ensures bytes { OnOk result (out.new.items ≡ out.old.items ++ number ∷ behind_length (coded 0xFD code ++ bytes.now)) }
{
    out.push(number)?;
    out.push(1 + number_len(code as u64) + bytes.len() as u8)?;
    push_coded_bytes(out, 0xFD, code, bytes)
}

/// Appends a branch by a table of labels.
#[tactic(auto, unfolding(crate::specs::Packed::held_bytes))]
fn pack_br_table(out: &mut Vec<u8>, labels: &[u32], label: u32) -> Result<(), AllocError>
    ensures bytes { OnOk result (out.new.items ≡ out.old.items ++ packed_bytes (ops.BrTable labels.now label)) }
    ensures fits { OnOk result (HasWidths (ops.BrTable labels.now label)) }
{
    out.push(14)?;
    pack_list(labels, out)?;
    push_u32(out, label)
}

/// Appends a selection among values of these types.
#[tactic(auto, unfolding(crate::specs::Packed::held_bytes))]
fn pack_select(out: &mut Vec<u8>, types: &[ValType]) -> Result<(), AllocError>
    ensures bytes { OnOk result (out.new.items ≡ out.old.items ++ packed_bytes (ops.Select types.now)) }
    ensures fits { OnOk result (HasWidths (ops.Select types.now)) }
{
    out.push(17)?;
    pack_list(types, out)
}

/// Appends a block that catches exceptions.
#[tactic(auto, unfolding(crate::specs::Packed::held_bytes))]
fn pack_try_table(out: &mut Vec<u8>, ty: BlockType, clauses: &[Catch]) -> Result<(), AllocError>
    ensures bytes { OnOk result (out.new.items ≡ out.old.items ++ packed_bytes (ops.TryTable ty clauses.now)) }
    ensures fits { OnOk result (HasWidths (ops.TryTable ty clauses.now)) }
{
    out.push(18)?;
    pack_block(out, ty)?;
    pack_list(clauses, out)
}

/// Appends an operator of three or four bytes in one piece: one without operands, or with a label or a local below 128. Answers whether it
/// did; nothing is appended where it didn't, or where memory is wanting.
#[tactic(auto, unfolding(crate::specs::Packed::held_bytes, crate::specs::Packed::spelled_bytes), using(crate::proofs::Short::short_number))]
pub(crate) fn pack_short(out: &mut Vec<u8>, op: &Op) -> Result<bool, AllocError>
    ensures bytes { IfOk result (λ short. out.new.items ≡ out.old.items ++ (if short then packed_bytes op.now else [])) }
    ensures fits { IfOk result (λ short. short ≡ true → HasWidths op.now) }
    ensures err { OnErr result (out.new.items ≡ out.old.items) }
{
    match *op {
        Op::Plain(code) => out.extend_from_slice(&[0, 1, code])?,
        Op::Label(code, label) if label < 128 => out.extend_from_slice(&[1, 2, code, label as u8])?,
        Op::Local(code, local) if local < 128 => out.extend_from_slice(&[2, 2, code, local as u8])?,
        _ => return Ok(false),
    }
    Ok(true)
}

/// Appends an operator.
#[tactic(auto, unfolding(crate::specs::Packed::held_bytes, crate::specs::Packed::spelled_bytes, wasm_types::specs::Spelling::val_type_bytes))]
pub(crate) fn pack_op(out: &mut Vec<u8>, op: &Op) -> Result<(), AllocError>
    ensures bytes { OnOk result (out.new.items ≡ out.old.items ++ packed_bytes op.now) }
    ensures fits { OnOk result (HasWidths op.now) }
{
    match *op {
        Op::Plain(code) => push_bytes(out, 0, &[1, code]),
        Op::Label(code, label) => pack_spelled(out, 1, code, label),
        Op::Local(code, local) => pack_spelled(out, 2, code, local),
        Op::Const32(value) => pack_signed(out, 3, 0x41, value as i64),
        Op::Const64(value) => pack_signed(out, 4, 0x42, value),
        Op::Raw4(ref bytes) => pack_raw(out, 5, 0x43, bytes),
        Op::Raw8(ref bytes) => pack_raw(out, 6, 0x44, bytes),
        Op::RefNull(ty) => push_bytes(out, 7, &[2, 0xD0, ty.code()]),
        Op::FcPlain(code) => pack_spelled(out, 8, 0xFC, code),
        Op::Simd(code) => pack_spelled(out, 9, 0xFD, code),
        Op::SimdBytes(code, ref bytes) => pack_vector(out, 10, code, bytes),
        Op::SimdLane(code, lane) => pack_vector(out, 11, code, &[lane]),
        Op::Block(code, ty) => pack_coded_block(out, 12, code, ty),
        Op::Tag(code, tag) => pack_coded(out, 13, code, tag.0),
        Op::BrTable(ref labels, label) => pack_br_table(out, labels.as_slice(), label),
        Op::Func(code, func) => pack_coded(out, 15, code, func.0),
        Op::Indirect(code, ty, table) => pack_coded_two(out, 16, code, ty.0, table.0),
        Op::Select(ref types) => pack_select(out, types.as_slice()),
        Op::TryTable(ty, ref clauses) => pack_try_table(out, ty, clauses.as_slice()),
        Op::Global(code, global) => pack_coded(out, 19, code, global.0),
        Op::Table(code, table) => pack_coded(out, 20, code, table.0),
        Op::Mem(code, arg) => pack_coded_arg(out, 21, code, arg),
        Op::Memory(code, memory) => pack_coded(out, 22, code, memory.0),
        Op::MemoryInit(segment, memory) => pack_two(out, 23, segment.0, memory.0),
        Op::DataDrop(segment) => pack_number(out, 24, segment.0),
        Op::MemoryCopy(to, from) => pack_two(out, 25, to.0, from.0),
        Op::MemoryFill(memory) => pack_number(out, 26, memory.0),
        Op::TableInit(elem, table) => pack_two(out, 27, elem.0, table.0),
        Op::ElemDrop(elem) => pack_number(out, 28, elem.0),
        Op::TableCopy(to, from) => pack_two(out, 29, to.0, from.0),
        Op::FcTable(code, table) => pack_two(out, 30, code, table.0),
        Op::SimdMem(code, arg) => pack_numbered_arg(out, 31, code, arg, &[]),
        Op::SimdMemLane(code, arg, lane) => pack_numbered_arg(out, 32, code, arg, &[lane]),
    }
}
