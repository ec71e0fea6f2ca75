//! Rows of numbers and truths.
ghost use Rattle.std.specs.Prelude.{◌≡◌, [], IfOk, OnOk};
ghost use Rattle.glue_tree.specs.Plainly.{plain_expr};
ghost use Rattle.glue_operands.specs.Plainly.{plain_operand};
ghost use Rattle.glue_binding.specs.Body.{IsAfter, row_of};
ghost use Rattle.glue_binding.specs.Spelling as s;
ghost use Rattle.glue_steps.specs.declared.step.Step.TheVariants.{ToUnsigned, IsNotZero, ToUnsigned64};

use crate::body::Body;
use crate::stack::{pop, push};
use glue_operands::{Operand, to_expr};
use glue_tree::Expr;
use std::alloc::{AllocError, Global};
use values::{Boxed, Seq, Text};

/// The row of a 32-bit number that is read as unsigned.
pub fn to_unsigned(alloc: Global, body: &mut Body) -> Result<(), AllocError>
    ensures after { OnOk result (IsAfter (row_of ToUnsigned [] body.old) body.old body.new) }
{
    let operand = Boxed::new(alloc, pop(&mut body.stack))?;
    push(&mut body.stack, Operand::Unsigned(operand))
}

/// The row of a truth: whether a number isn't 0.
pub fn is_not_zero(alloc: Global, body: &mut Body) -> Result<(), AllocError>
    ensures after { OnOk result (IsAfter (row_of IsNotZero [] body.old) body.old body.new) }
{
    let operand = Boxed::new(alloc, pop(&mut body.stack))?;
    push(&mut body.stack, Operand::NotZero(operand))
}

// `BigInt.asUintN`
fn as_unsigned(alloc: Global) -> Result<Expr, AllocError>
    ensures { IfOk result (λ e. plain_expr e ≡ s.as_unsigned) }
{
    let host = Boxed::new(alloc, Expr::Host(Text::from_str(alloc, "BigInt")?))?;
    Ok(Expr::Member(host, Text::from_str(alloc, "asUintN")?))
}

// `BigInt.asUintN(64, operand)`
fn unsigned_64_call(alloc: Global, operand: &Operand) -> Result<Expr, AllocError>
    ensures { IfOk result (λ e. plain_expr e ≡ s.unsigned_64_call (plain_operand operand.now)) }
{
    let f = Boxed::new(alloc, as_unsigned(alloc)?)?;
    let mut args = Seq::new(alloc);
    args.push(Expr::Num(64))?;
    args.push(to_expr(alloc, operand)?)?;
    Ok(Expr::Call(f, args))
}

/// The row of a 64-bit number that is read as unsigned.
pub fn to_unsigned_64(alloc: Global, body: &mut Body) -> Result<(), AllocError>
    ensures after { OnOk result (IsAfter (row_of ToUnsigned64 [] body.old) body.old body.new) }
{
    let operand = pop(&mut body.stack);
    let number = unsigned_64_call(alloc, &operand)?;
    body.bind_value(alloc, number)?;
    Ok(())
}
