//! Rows of room for results: it is taken on the stack of the module, and integers are read from it or written to it.
ghost use Rattle.std.specs.Prelude.{◌≡◌, ◌++◌, ◌∷◌, [], IfOk, OnOk, map, codes, pos, neg_ℤ};
ghost use Rattle.glue_tree.specs.Plainly.{plain_expr, plain_stmt};
ghost use Rattle.glue_tree.specs.Term as t;
ghost use Rattle.glue_operands.specs.Plainly.{plain_operand};
ghost use Rattle.glue_operands.specs.Spelling.{Missing, Local};
ghost use Rattle.glue_binding.specs.Body.{IsAfter, row_of, newest_first};
ghost use Rattle.glue_binding.specs.Spelling as s;
ghost use Rattle.glue_steps.specs.AdapterMeaning.{reading_method, writing_method};
ghost use Rattle.glue_steps.specs.Stack.{last_of};
ghost use Rattle.glue_steps.specs.declared.step.Step.TheVariants.{ReturnPointer, LoadReturn, StoreReturn};

use crate::body::{Body, param};
use crate::objects::helper;
use crate::stack::pop;
use glue_operands::{Operand, push_local, to_expr};
use glue_tree::{BinaryOperator, Constant, Expr, Stmt};
use std::alloc::{AllocError, Global};
use values::{Boxed, Duplicate, Seq, Text};

// The export that moves the stack of the module.
const STACK_MOVER: &str = "__wbindgen_add_to_stack_pointer";

// `wasm.__wbindgen_add_to_stack_pointer(amount)`
fn mover_call(alloc: Global, amount: i64) -> Result<Expr, AllocError>
    ensures { IfOk result (λ e. plain_expr e ≡ s.mover_call amount) }
{
    let f = Boxed::new(alloc, Expr::Wasm(Text::from_str(alloc, STACK_MOVER)?))?;
    let mut args = Seq::new(alloc);
    args.push(Expr::Num(amount))?;
    Ok(Expr::Call(f, args))
}

// The call that takes room of so many bytes.
fn room_taken(alloc: Global, size: u32) -> Result<Expr, AllocError>
    ensures { IfOk result (λ e. plain_expr e ≡ s.mover_call (neg_ℤ (pos size))) }
{
    mover_call(alloc, -(size as i64))
}

// `const name = value;`
fn bound_line(name: Text, value: Expr) -> Stmt
    ensures { plain_stmt result ≡ t.Bind name (plain_expr value) }
{
    Stmt::Let(name, value)
}

// The statement that gives it back.
fn room_back(alloc: Global, size: u32) -> Result<Stmt, AllocError>
    ensures { IfOk result (λ line. plain_stmt line ≡ t.Run (s.mover_call (pos size))) }
{
    Ok(Stmt::Do(mover_call(alloc, size as i64)?))
}

// `address + offset`
fn place(alloc: Global, address: &Operand, offset: u32) -> Result<Expr, AllocError>
    ensures { IfOk result (λ e. plain_expr e ≡ s.place_term (plain_operand address.now) offset) }
{
    let address = Boxed::new(alloc, to_expr(alloc, address)?)?;
    let offset = Boxed::new(alloc, Expr::Num(offset as i64))?;
    Ok(Expr::Binary(BinaryOperator::Add, address, offset))
}

// `view().method`
fn view_method(alloc: Global, view: &Text, method: &str) -> Result<Expr, AllocError>
    ensures { IfOk result (λ e. plain_expr e ≡ s.view_method view.now method.now) }
{
    let f = Boxed::new(alloc, helper(alloc, view.as_str())?)?;
    let made = Boxed::new(alloc, Expr::Call(f, Seq::new(alloc)))?;
    Ok(Expr::Member(made, Text::from_str(alloc, method)?))
}

// The method of a view of memory that reads an integer.
fn reading_method(is_wide: bool) -> &'static str
    ensures name { result.now ≡ reading_method is_wide }
{
    if is_wide { "getBigInt64" } else { "getInt32" }
}

// The one that writes it.
fn writing_method(is_wide: bool) -> &'static str
    ensures name { result.now ≡ writing_method is_wide }
{
    if is_wide { "setBigInt64" } else { "setInt32" }
}

// `view().getInt32(address + offset, true)`
fn load_call(
    alloc: Global,
    view: &Text,
    offset: u32,
    is_wide: bool,
    address: &Operand,
) -> Result<Expr, AllocError>
    ensures { IfOk result (λ e. plain_expr e ≡ s.load_call view.now offset is_wide (plain_operand address.now)) }
{
    let f = Boxed::new(alloc, view_method(alloc, view, reading_method(is_wide))?)?;
    let mut args = Seq::new(alloc);
    args.push(place(alloc, address, offset)?)?;
    args.push(Expr::Constant(Constant::True))?;
    Ok(Expr::Call(f, args))
}

// `view().setInt32(address + offset, stored, true)`
fn store_call(
    alloc: Global,
    view: &Text,
    offset: u32,
    is_wide: bool,
    address: &Operand,
    stored: &Operand,
) -> Result<Expr, AllocError>
    ensures { IfOk result (λ e. plain_expr e ≡ s.store_call view.now offset is_wide (plain_operand address.now) (plain_operand stored.now)) }
{
    let f = Boxed::new(alloc, view_method(alloc, view, writing_method(is_wide))?)?;
    let mut args = Seq::new(alloc);
    args.push(place(alloc, address, offset)?)?;
    args.push(to_expr(alloc, stored)?)?;
    args.push(Expr::Constant(Constant::True))?;
    Ok(Expr::Call(f, args))
}

// The last of operands, or the one that stands for a lacking one.
#[tactic(auto, using(crate::proofs::Stacks::last_found))]
fn last_operand(alloc: Global, known: &[Operand]) -> Result<Operand, AllocError>
    ensures operand { IfOk result (λ o. plain_operand o ≡ last_of Missing (map plain_operand known.now)) }
{
    param(alloc, known, known.len().saturating_sub(1))
}

/// The row of room that is taken; it is one more of the operands that later steps know.
pub fn take_room(
    alloc: Global,
    body: &mut Body,
    size: u32,
    known: &mut Seq<Operand>,
) -> Result<(), AllocError>
    ensures after { OnOk result (IsAfter (row_of (ReturnPointer size) [] body.old) body.old body.new) }
    ensures known { OnOk result (map plain_operand known.new ≡ map plain_operand known.old ++ Local (s.first (newest_first body.old.coming)) ∷ []) }
{
    let taken = room_taken(alloc, size)?;
    let name = body.temporary(alloc)?;
    push_local(name.copy(alloc)?, known)?;
    body.ahead(bound_line(name, taken))?;
    body.cleanup(room_back(alloc, size)?)?;
    Ok(())
}

/// The row of a result that is read from that room.
pub fn load_return(
    alloc: Global,
    body: &mut Body,
    view: &Text,
    offset: u32,
    is_wide: bool,
    known: &[Operand],
) -> Result<(), AllocError>
    ensures after { OnOk result (IsAfter (row_of (LoadReturn view.now offset is_wide) (map plain_operand known.now) body.old) body.old body.new) }
{
    let address = last_operand(alloc, known)?;
    let loaded = load_call(alloc, view, offset, is_wide, &address)?;
    body.bind_value(alloc, loaded)?;
    Ok(())
}

/// The row of a result that is written to the room whose address is the first parameter.
pub fn store_return(
    alloc: Global,
    body: &mut Body,
    view: &Text,
    offset: u32,
    is_wide: bool,
    known: &[Operand],
) -> Result<(), AllocError>
    ensures after { OnOk result (IsAfter (row_of (StoreReturn view.now offset is_wide) (map plain_operand known.now) body.old) body.old body.new) }
{
    let address = param(alloc, known, 0)?;
    let stored = pop(&mut body.stack);
    let call = store_call(alloc, view, offset, is_wide, &address, &stored)?;
    body.ahead(Stmt::Do(call))
}
