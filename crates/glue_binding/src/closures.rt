//! Rows of closures, functions that call back into the module.
ghost use Rattle.std.specs.Prelude.{◌≡◌, ◌∷◌, [], IfOk, OnOk};
ghost use Rattle.glue_tree.specs.Plainly.{plain_expr};
ghost use Rattle.glue_operands.specs.Plainly.{plain_operand};
ghost use Rattle.glue_binding.specs.Body.{IsAfter, row_of};
ghost use Rattle.glue_binding.specs.Spelling as s;
ghost use Rattle.glue_steps.specs.declared.step.Step.TheVariants.{MakeClosure};

use crate::body::Body;
use crate::objects::helper;
use crate::stack::pop;
use glue_operands::{Operand, to_expr};
use glue_tree::Expr;
use std::alloc::{AllocError, Global};
use values::{Boxed, Seq, Text};

// `helper(address, other, function)`
fn closure_call(
    alloc: Global,
    key: &Text,
    function: &Text,
    address: &Operand,
    other: &Operand,
) -> Result<Expr, AllocError>
    ensures { IfOk result (λ e. plain_expr e ≡ s.closure_call key.now function.now (plain_operand address.now ∷ plain_operand other.now ∷ [])) }
{
    let f = Boxed::new(alloc, helper(alloc, key.as_str())?)?;
    let mut args = Seq::new(alloc);
    args.push(to_expr(alloc, address)?)?;
    args.push(to_expr(alloc, other)?)?;
    args.push(helper(alloc, function.as_str())?)?;
    Ok(Expr::Call(f, args))
}

/// The row of a closure that a helper makes of an address, of what goes with it, and of a function of the file.
pub fn make_closure(
    alloc: Global,
    body: &mut Body,
    key: &Text,
    function: &Text,
) -> Result<(), AllocError>
    ensures after { OnOk result (IsAfter (row_of (MakeClosure key.now function.now) [] body.old) body.old body.new) }
{
    let other = pop(&mut body.stack);
    let address = pop(&mut body.stack);
    let closure = closure_call(alloc, key, function, &address, &other)?;
    body.bind_value(alloc, closure)?;
    Ok(())
}
