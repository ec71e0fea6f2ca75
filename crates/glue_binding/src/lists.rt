//! Rows of string enums, whose texts stand in lists.
ghost use Rattle.std.specs.Prelude.{◌≡◌, ◌∷◌, [], IfOk, OnOk};
ghost use Rattle.glue_tree.specs.Plainly.{plain_expr};
ghost use Rattle.glue_operands.specs.Plainly.{plain_operand};
ghost use Rattle.glue_binding.specs.Body.{IsAfter, row_of};
ghost use Rattle.glue_binding.specs.Spelling as s;
ghost use Rattle.glue_steps.specs.declared.step.Step.TheVariants.{IndexOf, ItemAt};

use crate::body::Body;
use crate::objects::helper;
use crate::stack::pop;
use glue_operands::{Operand, to_expr};
use glue_tree::Expr;
use std::alloc::{AllocError, Global};
use values::{Boxed, Seq, Text};

// `list.indexOf(operand)`
fn index_call(alloc: Global, list: &Text, operand: &Operand) -> Result<Expr, AllocError>
    ensures { IfOk result (λ e. plain_expr e ≡ s.index_call list.now (plain_operand operand.now)) }
{
    let texts = Boxed::new(alloc, helper(alloc, list.as_str())?)?;
    let f = Boxed::new(
        alloc,
        Expr::Member(texts, Text::from_str(alloc, "indexOf")?),
    )?;
    let mut args = Seq::new(alloc);
    args.push(to_expr(alloc, operand)?)?;
    Ok(Expr::Call(f, args))
}

// `list[operand]`
fn item(alloc: Global, list: &Text, operand: &Operand) -> Result<Expr, AllocError>
    ensures { IfOk result (λ e. plain_expr e ≡ s.item_term list.now (plain_operand operand.now)) }
{
    let texts = Boxed::new(alloc, helper(alloc, list.as_str())?)?;
    let place = Boxed::new(alloc, to_expr(alloc, operand)?)?;
    Ok(Expr::At(texts, place))
}

/// The row of a text whose place in a list is told.
pub fn index_of(alloc: Global, body: &mut Body, list: &Text) -> Result<(), AllocError>
    ensures after { OnOk result (IsAfter (row_of (IndexOf list.now) [] body.old) body.old body.new) }
{
    let operand = pop(&mut body.stack);
    let place = index_call(alloc, list, &operand)?;
    body.bind_value(alloc, place)?;
    Ok(())
}

/// The row of a place of which a list has the text.
pub fn item_at(alloc: Global, body: &mut Body, list: &Text) -> Result<(), AllocError>
    ensures after { OnOk result (IsAfter (row_of (ItemAt list.now) [] body.old) body.old body.new) }
{
    let operand = pop(&mut body.stack);
    let text = item(alloc, list, &operand)?;
    body.bind_value(alloc, text)?;
    Ok(())
}
