//! Operators that are kept packed are given back as they were.
use crate::compare::{assert_told, debugged};
use packed_ops::Ops;
use std::alloc::{AllocError, Global};
use std::process::Abort;
use values::Seq;
use wasm_ops::{BlockType, Catch, MemArg, Op};
use wasm_types::{DataId, ElemId, FuncId, GlobalId, MemoryId, TableId, TagId, TypeId, ValType};

const MAX: u32 = u32::MAX;

const FAR: MemArg = MemArg {
    align: MAX,
    memory: MemoryId(MAX - 1),
    offset: u64::MAX,
};

/// Operators that hold the greatest numbers of their types, and bytes that no file has there.
fn greatest() -> [Op; 18] {
    [
        Op::Plain(255),
        Op::Block(255, BlockType::Index(TypeId(MAX))),
        Op::Tag(255, TagId(MAX)),
        Op::Label(255, MAX),
        Op::Func(255, FuncId(MAX)),
        Op::Indirect(255, TypeId(MAX), TableId(MAX - 1)),
        Op::Local(255, MAX),
        Op::Global(255, GlobalId(MAX)),
        Op::Table(255, TableId(MAX)),
        Op::Mem(255, FAR),
        Op::Memory(255, MemoryId(MAX)),
        Op::Const32(i32::MAX),
        Op::Const64(i64::MAX),
        Op::Raw4([252, 253, 254, 255]),
        Op::Raw8([0, 1, 2, 3, 4, 5, 6, 7]),
        Op::RefNull(ValType::V128),
        Op::FcPlain(MAX),
        Op::MemoryInit(DataId(MAX), MemoryId(MAX - 1)),
    ]
}

/// Other values and other variants, and numbers on both sides of what one byte holds.
fn others() -> [Op; 20] {
    [
        Op::Label(12, 127),
        Op::Label(12, 128),
        Op::Local(32, 127),
        Op::Local(32, 128),
        Op::Block(0, BlockType::Empty),
        Op::Block(0, BlockType::Value(ValType::ExnRef)),
        Op::Const32(i32::MIN),
        Op::Const64(i64::MIN),
        Op::DataDrop(DataId(MAX)),
        Op::MemoryCopy(MemoryId(MAX), MemoryId(0)),
        Op::MemoryFill(MemoryId(MAX)),
        Op::TableInit(ElemId(MAX), TableId(0)),
        Op::ElemDrop(ElemId(MAX)),
        Op::TableCopy(TableId(0), TableId(MAX)),
        Op::FcTable(MAX, TableId(MAX - 1)),
        Op::Simd(MAX),
        Op::SimdMem(MAX, FAR),
        Op::SimdMemLane(MAX, FAR, 255),
        Op::SimdBytes(MAX, [0, 1, 2, 3, 4, 5, 6, 7, 8, 9, 10, 11, 12, 13, 14, 15]),
        Op::SimdLane(MAX, 255),
    ]
}

/// Operators with lists inside, empty ones and others.
fn listed(alloc: Global) -> Result<Seq<Op>, AllocError> {
    let mut labels = Seq::new(alloc);
    let mut types = Seq::new(alloc);
    let mut clauses = Seq::new(alloc);
    for label in [0, 127, 128, MAX] {
        labels.push(label)?;
        types.push(ValType::F64)?;
        clauses.push(Catch::Tag(254, TagId(MAX - 1), label))?;
        clauses.push(Catch::All(255, label))?;
    }
    let mut ops = Seq::new(alloc);
    ops.push(Op::BrTable(Seq::new(alloc), 0))?;
    ops.push(Op::BrTable(labels, MAX))?;
    ops.push(Op::Select(Seq::new(alloc)))?;
    ops.push(Op::Select(types))?;
    ops.push(Op::TryTable(BlockType::Empty, Seq::new(alloc)))?;
    ops.push(Op::TryTable(BlockType::Index(TypeId(MAX)), clauses))?;
    Ok(ops)
}

/// The operators as they are printed after they were packed, and the list of them.
fn assert_given_back<H: Abort>(rt: &H, alloc: Global, ops: &[Op]) -> Result<(), AllocError> {
    let want = format!(in alloc; "{ops:?}")?;
    let packed = Ops::pack(alloc, ops)?;
    let list = packed.unpack(alloc)?;
    assert_told(rt, format!(in alloc; "{:?}", list.as_slice()), &want)?;
    assert_told(rt, debugged(alloc, packed), &want)
}

#[test]
fn what_is_packed_is_given_back(rt: HostRuntime) -> Result<(), AllocError> {
    let alloc = rt.alloc();
    assert_given_back(&rt, alloc, &[])?;
    assert_given_back(&rt, alloc, &greatest())?;
    assert_given_back(&rt, alloc, &others())?;
    let listed = listed(alloc)?;
    assert_given_back(&rt, alloc, listed.as_slice())
}

/// The operators that a walk gives, and what it gives behind the last.
fn walked(alloc: Global, ops: &Ops) -> Result<String, AllocError> {
    let mut walk = ops.walk();
    let first = walk.next()?;
    let second = walk.next()?;
    let third = walk.next()?;
    let fourth = walk.next()?;
    format!(in alloc; "{first:?} {second:?} {third:?} {fourth:?}")
}

/// The bytes of the first operator, where it is kept as it is written, and the operator behind it, or else the first one.
fn spelled(alloc: Global, ops: &[Op]) -> Result<String, AllocError> {
    let ops = Ops::pack(alloc, ops)?;
    let mut walk = ops.walk();
    let bytes = walk.next_spelled();
    let next = walk.next()?;
    format!(in alloc; "{bytes:?} {next:?}")
}

/// The same of each list of operators.
fn assert_spelled<H: Abort>(
    rt: &H,
    alloc: Global,
    cases: &[(&[Op], &str)],
) -> Result<(), AllocError> {
    for (ops, want) in cases {
        assert_told(rt, spelled(alloc, ops), want)?;
    }
    Ok(())
}

#[test]
fn what_names_no_entry_is_kept_as_it_is_written(rt: HostRuntime) -> Result<(), AllocError> {
    assert_spelled(
        &rt,
        rt.alloc(),
        &[
            (&[Op::Plain(0x6A)], "Some([106]) None"),
            (&[Op::Label(0x0C, 300)], "Some([12, 172, 2]) None"),
            (&[Op::Local(0x20, 0)], "Some([32, 0]) None"),
            (&[Op::Const32(-1)], "Some([65, 127]) None"),
            (&[Op::Const64(64)], "Some([66, 192, 0]) None"),
            (&[Op::Raw4([1, 2, 3, 4])], "Some([67, 1, 2, 3, 4]) None"),
            (
                &[Op::Raw8([1, 2, 3, 4, 5, 6, 7, 8])],
                "Some([68, 1, 2, 3, 4, 5, 6, 7, 8]) None",
            ),
            (&[Op::RefNull(ValType::FuncRef)], "Some([208, 112]) None"),
            (&[Op::FcPlain(7)], "Some([252, 7]) None"),
            (&[Op::Simd(300)], "Some([253, 172, 2]) None"),
            (&[Op::SimdLane(21, 3)], "Some([253, 21, 3]) None"),
            (
                &[Op::SimdBytes(12, [9; 16])],
                "Some([253, 12, 9, 9, 9, 9, 9, 9, 9, 9, 9, 9, 9, 9, 9, 9, 9, 9]) None",
            ),
            (
                &[Op::Func(0x10, FuncId(1))],
                "None Some(Func(16, FuncId(1)))",
            ),
            (
                &[Op::Block(0x02, BlockType::Empty)],
                "None Some(Block(2, Empty))",
            ),
            (&[], "None None"),
        ],
    )
}

/// The first three operators that aren't kept as they are written.
fn others_of(alloc: Global, ops: &Ops) -> Result<String, AllocError> {
    let mut walk = ops.walk();
    let first = walk.next_other()?;
    let second = walk.next_other()?;
    let third = walk.next_other()?;
    format!(in alloc; "{first:?} {second:?} {third:?}")
}

/// Two operators, pushed where something is left of an earlier one.
fn pushed(alloc: Global) -> Result<Ops, AllocError> {
    let mut scratch = Vec::new(alloc);
    scratch.push(99)?;
    let mut ops = Ops::new(alloc);
    ops.push(&mut scratch, &Op::Local(32, 300))?;
    ops.push(&mut scratch, &Op::Plain(26))?;
    ops.shrink_to_fit();
    Ok(ops)
}

/// Two operators that name an entry, among others.
fn mixed(alloc: Global) -> Result<Ops, AllocError> {
    let ops = [
        Op::Local(0x20, 1),
        Op::Func(0x10, FuncId(2)),
        Op::Plain(0x1A),
        Op::Global(0x23, GlobalId(3)),
        Op::Plain(0x0B),
    ];
    Ops::pack(alloc, &ops)
}

#[test]
fn a_walk_ends_behind_the_last(rt: HostRuntime) -> Result<(), AllocError> {
    let alloc = rt.alloc();
    let ops = pushed(alloc)?;
    assert_told(
        &rt,
        walked(alloc, &ops),
        "Some(Local(32, 300)) Some(Plain(26)) None None",
    )?;
    let mixed = mixed(alloc)?;
    assert_told(
        &rt,
        others_of(alloc, &mixed),
        "Some(Func(16, FuncId(2))) Some(Global(35, GlobalId(3))) None",
    )
}
