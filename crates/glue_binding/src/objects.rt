//! Rows of helpers that are called, and of handles.
ghost use Rattle.std.specs.Prelude.{◌≡◌, ◌∷◌, [], IfOk, OnOk, codes, map};
ghost use Rattle.glue_tree.specs.Plainly.{plain_expr, plain_stmt};
ghost use Rattle.glue_tree.specs.Term as t;
ghost use Rattle.glue_operands.specs.Plainly.{plain_operand};
ghost use Rattle.glue_binding.specs.Body.{IsAfter, row_of};
ghost use Rattle.glue_binding.specs.Spelling as s;
ghost use Rattle.glue_steps.specs.declared.step.Step.TheVariants.{CallHelper, IndexFromBorrow, UnwrapResult};

use crate::body::Body;
use crate::piece::one;
use crate::stack::{pop, pop_operands};
use glue_operands::{Operand, to_expr, to_exprs};
use glue_tree::{Expr, Stmt, UnaryOperator};
use std::alloc::{AllocError, Global};
use values::{Boxed, Seq, Text};

/// A helper by its name.
pub fn helper(alloc: Global, key: &str) -> Result<Expr, AllocError>
    ensures { IfOk result (λ e. plain_expr e ≡ t.Name key.now) }
{
    Ok(Expr::Module(Text::from_str(alloc, key)?))
}

/// `helper(operand)`
pub fn helper_call(alloc: Global, key: &str, operand: &Operand) -> Result<Expr, AllocError>
    ensures { IfOk result (λ e. plain_expr e ≡ s.helper_call key.now (plain_operand operand.now ∷ [])) }
{
    let f = Boxed::new(alloc, helper(alloc, key)?)?;
    let mut args = Seq::new(alloc);
    args.push(to_expr(alloc, operand)?)?;
    Ok(Expr::Call(f, args))
}

/// `helper(operands)`
pub fn helper_with(alloc: Global, key: &Text, operands: &[Operand]) -> Result<Expr, AllocError>
    ensures { IfOk result (λ e. plain_expr e ≡ s.helper_call key.now (map plain_operand operands.now)) }
{
    let f = Boxed::new(alloc, helper(alloc, key.as_str())?)?;
    let args = to_exprs(alloc, operands)?;
    Ok(Expr::Call(f, args))
}

// `heap[stack_pointer++] = undefined;`
fn given_back(alloc: Global) -> Result<Stmt, AllocError>
    ensures { IfOk result (λ line. plain_stmt line ≡ s.gives_back_line) }
{
    let place = Boxed::new(alloc, helper(alloc, "stack_pointer")?)?;
    let place = Boxed::new(alloc, Expr::Unary(UnaryOperator::Increment, place))?;
    let heap = Boxed::new(alloc, helper(alloc, "heap")?)?;
    let undefined = Expr::Host(Text::from_str(alloc, "undefined")?);
    Ok(Stmt::Set(Expr::At(heap, place), undefined))
}

// `if (flag) { throw helper(handle); }`
fn throwing(
    alloc: Global,
    helper: &Text,
    flag: &Operand,
    handle: &Operand,
) -> Result<Stmt, AllocError>
    ensures { IfOk result (λ line. plain_stmt line ≡ s.throw_line helper.now (plain_operand flag.now) (plain_operand handle.now)) }
{
    let thrown = Stmt::Throw(helper_call(alloc, helper.as_str(), handle)?);
    let body = one(alloc, thrown)?;
    Ok(Stmt::If(to_expr(alloc, flag)?, body))
}

/// The row of a helper that is called with operands.
pub fn call_helper(
    alloc: Global,
    body: &mut Body,
    helper: &Text,
    params: usize,
) -> Result<(), AllocError>
    ensures after { OnOk result (IsAfter (row_of (CallHelper helper.now params) [] body.old) body.old body.new) }
{
    let operands = pop_operands(alloc, &mut body.stack, params)?;
    let call = helper_with(alloc, helper, &operands)?;
    body.bind_value(alloc, call)?;
    Ok(())
}

/// The row of an object that is lent.
pub fn borrow_index(alloc: Global, body: &mut Body) -> Result<(), AllocError>
    ensures after { OnOk result (IsAfter (row_of IndexFromBorrow [] body.old) body.old body.new) }
{
    let object = pop(&mut body.stack);
    let handle = helper_call(alloc, "addBorrowedObject", &object)?;
    body.bind_value(alloc, handle)?;
    body.cleanup(given_back(alloc)?)?;
    Ok(())
}

/// The row of a result that may be a throw.
pub fn unwrap_result(alloc: Global, body: &mut Body, helper: &Text) -> Result<(), AllocError>
    ensures after { OnOk result (IsAfter (row_of (UnwrapResult helper.now) [] body.old) body.old body.new) }
{
    let flag = pop(&mut body.stack);
    let handle = pop(&mut body.stack);
    let line = throwing(alloc, helper, &flag, &handle)?;
    body.ahead(line)
}
