//! What operators and entries name.

ghost use Rattle.std.specs.Prelude.{◌≡◌, ◌++◌, ◌∷◌, [], map, OnOk};
ghost use Rattle.std.specs.List.{flat_map};
ghost use Rattle.wasm_collect.specs.Reach.{block_names, catch_names, op_names, ops_names, func_thing, content_names, elem_place_names, segment_place_names};

use packed_ops::Ops;
use std::alloc::AllocError;
use wasm_file::{Elem, ElemPlace, Segment};
use wasm_ops::{BlockType, Catch, Op};
use wasm_reach::Thing;
use wasm_types::FuncId;

/// Appends one thing.
pub(crate) fn push_thing(out: &mut Vec<Thing>, thing: Thing) -> Result<(), AllocError>
    ensures { OnOk result (out.new.items ≡ out.old.items ++ thing ∷ []) }
{
    out.push(thing)?;
    Ok(())
}

/// Appends two things.
fn push_both(out: &mut Vec<Thing>, first: Thing, second: Thing) -> Result<(), AllocError>
    ensures { OnOk result (out.new.items ≡ out.old.items ++ first ∷ second ∷ []) }
{
    out.push(first)?;
    out.push(second)?;
    Ok(())
}

/// Appends what a block type names.
fn push_block(out: &mut Vec<Thing>, ty: BlockType) -> Result<(), AllocError>
    ensures { OnOk result (out.new.items ≡ out.old.items ++ block_names ty) }
{
    match ty {
        BlockType::Empty | BlockType::Value(_) => Ok(()),
        BlockType::Index(id) => push_thing(out, Thing::Type(id.0)),
    }
}

/// Appends what a clause of `try_table` names.
fn push_catch(out: &mut Vec<Thing>, clause: Catch) -> Result<(), AllocError>
    ensures { OnOk result (out.new.items ≡ out.old.items ++ catch_names clause) }
{
    match clause {
        Catch::Tag(_, id, _) => push_thing(out, Thing::Tag(id.0)),
        Catch::All(_, _) => Ok(()),
    }
}

/// Appends what clauses of `try_table` name.
fn push_catches(out: &mut Vec<Thing>, clauses: &[Catch]) -> Result<(), AllocError>
    ensures { OnOk result (out.new.items ≡ out.old.items ++ flat_map catch_names clauses.now) }
{
    for clause in clauses {
        push_catch(out, *clause)?;
    }
    Ok(())
}

/// Appends what `try_table` names.
fn push_try_table(out: &mut Vec<Thing>, ty: BlockType, clauses: &[Catch]) -> Result<(), AllocError>
    ensures { OnOk result (out.new.items ≡ out.old.items ++ (block_names ty ++ flat_map catch_names clauses.now)) }
{
    push_block(out, ty)?;
    push_catches(out, clauses)
}

/// Appends what an operator names.
pub(crate) fn push_op(out: &mut Vec<Thing>, op: &Op) -> Result<(), AllocError>
    ensures { OnOk result (out.new.items ≡ out.old.items ++ op_names op.now) }
{
    match op {
        Op::Block(_, ty) => push_block(out, *ty),
        Op::Tag(_, id) => push_thing(out, Thing::Tag(id.0)),
        Op::Func(_, id) => push_thing(out, Thing::Func(id.0)),
        Op::Indirect(_, ty, table) => push_both(out, Thing::Type(ty.0), Thing::Table(table.0)),
        Op::TryTable(ty, clauses) => push_try_table(out, *ty, clauses.as_slice()),
        Op::Global(_, id) => push_thing(out, Thing::Global(id.0)),
        Op::Table(_, id) | Op::FcTable(_, id) => push_thing(out, Thing::Table(id.0)),
        Op::Mem(_, arg) | Op::SimdMem(_, arg) | Op::SimdMemLane(_, arg, _) => {
            push_thing(out, Thing::Memory(arg.memory.0))
        }
        Op::Memory(_, id) | Op::MemoryFill(id) => push_thing(out, Thing::Memory(id.0)),
        Op::MemoryInit(segment, memory) => {
            push_both(out, Thing::Segment(segment.0), Thing::Memory(memory.0))
        }
        Op::DataDrop(id) => push_thing(out, Thing::Segment(id.0)),
        Op::MemoryCopy(to, from) => push_both(out, Thing::Memory(to.0), Thing::Memory(from.0)),
        Op::TableInit(elem, table) => push_both(out, Thing::Elem(elem.0), Thing::Table(table.0)),
        Op::ElemDrop(id) => push_thing(out, Thing::Elem(id.0)),
        Op::TableCopy(to, from) => push_both(out, Thing::Table(to.0), Thing::Table(from.0)),
        Op::Plain(_)
        | Op::Label(_, _)
        | Op::BrTable(_, _)
        | Op::Select(_)
        | Op::Local(_, _)
        | Op::Const32(_)
        | Op::Const64(_)
        | Op::Raw4(_)
        | Op::Raw8(_)
        | Op::RefNull(_)
        | Op::FcPlain(_)
        | Op::Simd(_)
        | Op::SimdBytes(_, _)
        | Op::SimdLane(_, _) => Ok(()),
    }
}

/// Appends what operators name.
pub(crate) fn push_ops(out: &mut Vec<Thing>, ops: &Ops) -> Result<(), AllocError>
    ensures { OnOk result (out.new.items ≡ out.old.items ++ ops_names ops.now) }
{
    let mut walk = ops.walk();
    while let Some(op) = walk.next_other()? {
        push_op(out, &op)?;
    }
    Ok(())
}

/// Appends what expressions name.
fn push_exprs(out: &mut Vec<Thing>, exprs: &[Ops]) -> Result<(), AllocError>
    ensures { OnOk result (out.new.items ≡ out.old.items ++ flat_map ops_names exprs.now) }
{
    for expr in exprs {
        push_ops(out, expr)?;
    }
    Ok(())
}

/// Appends functions.
fn push_funcs(out: &mut Vec<Thing>, funcs: &[FuncId]) -> Result<(), AllocError>
    ensures { OnOk result (out.new.items ≡ out.old.items ++ map func_thing funcs.now) }
{
    for func in funcs {
        push_thing(out, Thing::Func(func.0))?;
    }
    Ok(())
}

/// Appends what the entries of an element segment name.
pub(crate) fn push_content(out: &mut Vec<Thing>, elem: &Elem) -> Result<(), AllocError>
    ensures { OnOk result (out.new.items ≡ out.old.items ++ content_names elem.now) }
{
    push_funcs(out, elem.funcs.as_slice())?;
    push_exprs(out, elem.exprs.as_slice())
}

/// Appends what the place of an element segment names.
fn push_elem_place(out: &mut Vec<Thing>, place: &ElemPlace) -> Result<(), AllocError>
    ensures { OnOk result (out.new.items ≡ out.old.items ++ elem_place_names place.now) }
{
    match place {
        ElemPlace::Passive | ElemPlace::Declared => Ok(()),
        ElemPlace::Active(id, offset) => {
            push_thing(out, Thing::Table(id.0))?;
            push_ops(out, offset)
        }
    }
}

/// Appends what an element segment names.
pub(crate) fn push_elem(out: &mut Vec<Thing>, elem: &Elem) -> Result<(), AllocError>
    ensures { OnOk result (out.new.items ≡ out.old.items ++ (elem_place_names elem.now.place ++ content_names elem.now)) }
{
    push_elem_place(out, &elem.place)?;
    push_content(out, elem)
}

/// Appends what a data segment names.
pub(crate) fn push_segment(out: &mut Vec<Thing>, segment: &Segment) -> Result<(), AllocError>
    ensures { OnOk result (out.new.items ≡ out.old.items ++ segment_place_names segment.now.place) }
{
    match &segment.place {
        None => Ok(()),
        Some((id, offset)) => {
            push_thing(out, Thing::Memory(id.0))?;
            push_ops(out, offset)
        }
    }
}
