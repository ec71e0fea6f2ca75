//! The statements of the object table.
ghost use Rattle.std.specs.Prelude.{◌≡◌, ◌++◌, IfOk, OnOk, map};
ghost use Rattle.glue_tree.specs.Plainly.{plain_expr, plain_stmt, plain_stmts, lines_of};
ghost use Rattle.glue_heap.specs.HeapTrees as spec;

use crate::key::HeapKey;
use crate::terms::{
    bind, call, field, heap_length, heap_slot, host, local, make, module, one, push_line, push_one,
    short, throw_error, two,
};
use glue_tree::{BinaryOperator, Constant, Expr, Stmt, UnaryOperator};
use std::alloc::{AllocError, Global};
use values::{Seq, Text};

/// How the object table's parts are made.
#[derive(Clone, Copy, Debug, PartialEq, Eq)]
pub struct HeapOptions {
    /// Whether `addHeapObject` tests that the place of the next free slot is a number.
    pub debug: bool,
}

// How many slots there are for objects that are lent.
const LENT_SLOTS: i64 = 1024;

// The first slot behind those and the four constants.
const FIRST_OWNED: i64 = 1028;

// `undefined`, `null`, `true` and `false`.
fn constants(alloc: Global) -> Result<Seq<Expr>, AllocError>
    ensures list { IfOk result (λ list. map plain_expr list ≡ spec.constants) }
{
    let mut list = Seq::new(alloc);
    list.push(host(alloc, "undefined")?)?;
    list.push(Expr::Constant(Constant::Null))?;
    list.push(Expr::Constant(Constant::True))?;
    list.push(Expr::Constant(Constant::False))?;
    Ok(list)
}

fn heap(alloc: Global) -> Result<Seq<Stmt>, AllocError>
    ensures tree { IfOk result (λ tree. plain_stmts tree ≡ lines_of spec.heap_lines) }
{
    let fill = field(alloc, make(alloc, "Array", Expr::Num(LENT_SLOTS))?, "fill")?;
    let slots = call(alloc, fill, host(alloc, "undefined")?)?;
    let mut tree = Seq::new(alloc);
    tree.push(Stmt::Set(module(alloc, "heap")?, slots))?;
    tree.push(push_line(alloc, constants(alloc)?)?)?;
    Ok(tree)
}

fn heap_next(alloc: Global) -> Result<Seq<Stmt>, AllocError>
    ensures tree { IfOk result (λ tree. plain_stmts tree ≡ lines_of spec.heap_next_lines) }
{
    let mut tree = Seq::new(alloc);
    tree.push(Stmt::Set(module(alloc, "heap_next")?, heap_length(alloc)?))?;
    Ok(tree)
}

fn stack_pointer(alloc: Global) -> Result<Seq<Stmt>, AllocError>
    ensures tree { IfOk result (λ tree. plain_stmts tree ≡ lines_of spec.stack_pointer_lines) }
{
    let mut tree = Seq::new(alloc);
    tree.push(Stmt::Set(module(alloc, "stack_pointer")?, Expr::Num(LENT_SLOTS)))?;
    Ok(tree)
}

// `if (heap_next === heap.length) heap.push(heap.length + 1);`
fn one_slot_more(alloc: Global) -> Result<Stmt, AllocError>
    ensures line { IfOk result (λ line. plain_stmt line ≡ spec.one_slot_more) }
{
    let is_full = two(
        alloc,
        BinaryOperator::StrictEqual,
        module(alloc, "heap_next")?,
        heap_length(alloc)?,
    )?;
    let next = two(
        alloc,
        BinaryOperator::Add,
        heap_length(alloc)?,
        Expr::Num(1),
    )?;
    short(alloc, is_full, push_one(alloc, next)?)
}

// `if (typeof heap_next !== "number") throw new Error("corrupt heap");`
fn chain_test(alloc: Global) -> Result<Stmt, AllocError>
    ensures line { IfOk result (λ line. plain_stmt line ≡ spec.chain_test) }
{
    let kind = one(alloc, UnaryOperator::TypeOf, module(alloc, "heap_next")?)?;
    let number = Expr::Str(Text::from_str(alloc, "number")?);
    let is_corrupt = two(alloc, BinaryOperator::StrictUnequal, kind, number)?;
    short(alloc, is_corrupt, throw_error(alloc, "corrupt heap")?)
}

// Adds the test, where the table is tested.
fn push_chain_test(alloc: Global, debug: bool, tree: &mut Seq<Stmt>) -> Result<(), AllocError>
    ensures lines { OnOk result (map plain_stmt tree.new ≡ map plain_stmt tree.old ++ spec.chain_tests debug) }
{
    if debug {
        tree.push(chain_test(alloc)?)?;
    }
    Ok(())
}

fn add_heap_object(alloc: Global, debug: bool) -> Result<Seq<Stmt>, AllocError>
    ensures tree { IfOk result (λ tree. plain_stmts tree ≡ lines_of (spec.add_heap_object_lines debug)) }
{
    let mut tree = Seq::new(alloc);
    tree.push(one_slot_more(alloc)?)?;
    tree.push(bind(alloc, "idx", module(alloc, "heap_next")?)?)?;
    let next = heap_slot(alloc, local(alloc, "idx")?)?;
    tree.push(Stmt::Set(module(alloc, "heap_next")?, next))?;
    push_chain_test(alloc, debug, &mut tree)?;
    let taken = heap_slot(alloc, local(alloc, "idx")?)?;
    tree.push(Stmt::Set(taken, local(alloc, "obj")?))?;
    tree.push(Stmt::Return(Some(local(alloc, "idx")?)))?;
    Ok(tree)
}

// `if (stack_pointer == 1) throw new Error("out of js stack");`
fn full_test(alloc: Global) -> Result<Stmt, AllocError>
    ensures line { IfOk result (λ line. plain_stmt line ≡ spec.full_test) }
{
    let lent = module(alloc, "stack_pointer")?;
    let is_full = two(alloc, BinaryOperator::Equal, lent, Expr::Num(1))?;
    short(alloc, is_full, throw_error(alloc, "out of js stack")?)
}

fn borrowed_objects(alloc: Global) -> Result<Seq<Stmt>, AllocError>
    ensures tree { IfOk result (λ tree. plain_stmts tree ≡ lines_of spec.borrowed_objects_lines) }
{
    let mut tree = Seq::new(alloc);
    tree.push(full_test(alloc)?)?;
    let lent = one(
        alloc,
        UnaryOperator::Decrement,
        module(alloc, "stack_pointer")?,
    )?;
    tree.push(Stmt::Set(heap_slot(alloc, lent)?, local(alloc, "obj")?))?;
    tree.push(Stmt::Return(Some(module(alloc, "stack_pointer")?)))?;
    Ok(tree)
}

// `if (idx < 1028) return;`
fn constant_test(alloc: Global) -> Result<Stmt, AllocError>
    ensures line { IfOk result (λ line. plain_stmt line ≡ spec.constant_test) }
{
    let idx = local(alloc, "idx")?;
    let is_constant = two(alloc, BinaryOperator::Less, idx, Expr::Num(FIRST_OWNED))?;
    short(alloc, is_constant, Stmt::Return(None))
}

fn drop_ref(alloc: Global) -> Result<Seq<Stmt>, AllocError>
    ensures tree { IfOk result (λ tree. plain_stmts tree ≡ lines_of spec.drop_ref_lines) }
{
    let mut tree = Seq::new(alloc);
    tree.push(constant_test(alloc)?)?;
    let dropped = heap_slot(alloc, local(alloc, "idx")?)?;
    tree.push(Stmt::Set(dropped, module(alloc, "heap_next")?))?;
    tree.push(Stmt::Set(module(alloc, "heap_next")?, local(alloc, "idx")?))?;
    Ok(tree)
}

fn get_object(alloc: Global) -> Result<Seq<Stmt>, AllocError>
    ensures tree { IfOk result (λ tree. plain_stmts tree ≡ lines_of spec.get_object_lines) }
{
    let mut tree = Seq::new(alloc);
    let object = heap_slot(alloc, local(alloc, "idx")?)?;
    tree.push(Stmt::Return(Some(object)))?;
    Ok(tree)
}

// `name(idx)`
fn call_with_idx(alloc: Global, name: &str) -> Result<Expr, AllocError>
    ensures expr { IfOk result (λ e. plain_expr e ≡ spec.call_with_idx name.now) }
{
    call(alloc, module(alloc, name)?, local(alloc, "idx")?)
}

fn take_object(alloc: Global) -> Result<Seq<Stmt>, AllocError>
    ensures tree { IfOk result (λ tree. plain_stmts tree ≡ lines_of spec.take_object_lines) }
{
    let mut tree = Seq::new(alloc);
    tree.push(bind(alloc, "ret", call_with_idx(alloc, "getObject")?)?)?;
    tree.push(Stmt::Do(call_with_idx(alloc, "dropObject")?))?;
    tree.push(Stmt::Return(Some(local(alloc, "ret")?)))?;
    Ok(tree)
}

/// The statements of a part: a function's body, or those that make a variable, whose first sets it. Want of memory is the
/// only error.
pub fn heap_tree(
    alloc: Global,
    key: HeapKey,
    options: &HeapOptions,
) -> Result<Seq<Stmt>, AllocError>
    ensures tree { IfOk result (λ tree. plain_stmts tree ≡ spec.heap_tree key options.now.debug) }
{
    match key {
        HeapKey::Heap => heap(alloc),
        HeapKey::HeapNext => heap_next(alloc),
        HeapKey::StackPointer => stack_pointer(alloc),
        HeapKey::AddHeapObject => add_heap_object(alloc, options.debug),
        HeapKey::BorrowedObjects => borrowed_objects(alloc),
        HeapKey::DropRef => drop_ref(alloc),
        HeapKey::GetObject => get_object(alloc),
        HeapKey::TakeObject => take_object(alloc),
    }
}
