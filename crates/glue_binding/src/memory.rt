//! Rows of what passes through memory.
ghost use Rattle.std.specs.Prelude.{◌≡◌, ◌++◌, ◌∷◌, [], IfOk, OnOk, codes, map, pos};
ghost use Rattle.glue_tree.specs.Plainly.{plain_expr, plain_stmt};
ghost use Rattle.glue_tree.specs.Term as t;
ghost use Rattle.glue_operands.specs.Plainly.{plain_operand};
ghost use Rattle.glue_operands.specs.Spelling.{Missing, term_of};
ghost use Rattle.glue_binding.specs.Body.{IsAfter, stack_of, row_of};
ghost use Rattle.glue_binding.specs.Spelling as s;
ghost use Rattle.glue_steps.specs.Stack.{top, operands, without};
ghost use Rattle.glue_steps.specs.declared.step.Step.TheVariants.{PassToMemory, DeferFree, CopyOut};

use crate::body::Body;
use crate::objects::{helper, helper_call, helper_with};
use crate::stack::{pop, pop_operands};
use glue_operands::{Operand, to_expr};
use glue_tree::{Expr, Stmt};
use std::alloc::{AllocError, Global};
use values::{Boxed, Duplicate, Seq, Text};

// Appends an export.
fn push_export(alloc: Global, name: &Text, exprs: &mut Seq<Expr>) -> Result<(), AllocError>
    ensures exprs { OnOk result (map plain_expr exprs.new ≡ map plain_expr exprs.old ++ t.Export name.now ∷ []) }
{
    exprs.push(Expr::Wasm(name.copy(alloc)?))?;
    Ok(())
}

// Appends the exports of these names.
fn push_exports(alloc: Global, names: &[Text], exprs: &mut Seq<Expr>) -> Result<(), AllocError>
    ensures exprs { OnOk result (map plain_expr exprs.new ≡ map plain_expr exprs.old ++ map t.Export names.now) }
{
    for name in names {
        push_export(alloc, name, exprs)?;
    }
    Ok(())
}

// `helper(operand, wasm.name, ..)`
fn write_call(
    alloc: Global,
    key: &Text,
    exports: &[Text],
    operand: &Operand,
) -> Result<Expr, AllocError>
    ensures { IfOk result (λ e. plain_expr e ≡ s.write_call key.now exports.now (plain_operand operand.now)) }
{
    let f = Boxed::new(alloc, helper(alloc, key.as_str())?)?;
    let mut args = Seq::new(alloc);
    args.push(to_expr(alloc, operand)?)?;
    push_exports(alloc, exports, &mut args)?;
    Ok(Expr::Call(f, args))
}

// `isLikeNone(operand) ? 0 : written`
fn unless_absent(alloc: Global, operand: &Operand, written: Expr) -> Result<Expr, AllocError>
    ensures { IfOk result (λ e. plain_expr e ≡ t.Choose (s.helper_call (codes "isLikeNone") (plain_operand operand.now ∷ [])) (t.Lit (pos 0)) (plain_expr written)) }
{
    let absent = Boxed::new(alloc, helper_call(alloc, "isLikeNone", operand)?)?;
    let zero = Boxed::new(alloc, Expr::Num(0))?;
    let written = Boxed::new(alloc, written)?;
    Ok(Expr::Cond(absent, zero, written))
}

// The address of what is written, or 0 where it may be absent and is.
fn address(
    alloc: Global,
    key: &Text,
    exports: &[Text],
    optional: bool,
    operand: &Operand,
) -> Result<Expr, AllocError>
    ensures { IfOk result (λ e. plain_expr e ≡ s.address_term optional key.now exports.now (plain_operand operand.now)) }
{
    let written = write_call(alloc, key, exports, operand)?;
    if optional {
        unless_absent(alloc, operand, written)
    } else {
        Ok(written)
    }
}

// The operand that so many stand above, as an expression.
fn expr_under(alloc: Global, stack: &Seq<Operand>, above: usize) -> Result<Expr, AllocError>
    ensures { IfOk result (λ e. plain_expr e ≡ term_of (top Missing (without above (stack_of stack.now)))) }
{
    if above < stack.len() {
        let operands = stack.as_slice();
        to_expr(alloc, &operands[operands.len() - 1 - above])
    } else {
        to_expr(alloc, &Operand::Missing)
    }
}

// `wasm.free(address, length, align);`, of the two newest operands.
fn free_line(
    alloc: Global,
    free: &Text,
    align: u32,
    stack: &Seq<Operand>,
) -> Result<Stmt, AllocError>
    ensures { IfOk result (λ line. plain_stmt line ≡ s.free_line free.now align (operands Missing 2 (stack_of stack.now) [])) }
{
    let f = Boxed::new(alloc, Expr::Wasm(free.copy(alloc)?))?;
    let mut args = Seq::new(alloc);
    args.push(expr_under(alloc, stack, 1)?)?;
    args.push(expr_under(alloc, stack, 0)?)?;
    args.push(Expr::Num(align as i64))?;
    Ok(Stmt::Do(Expr::Call(f, args)))
}

// `helper(operands).slice()`
fn copy_call(alloc: Global, key: &Text, operands: &[Operand]) -> Result<Expr, AllocError>
    ensures { IfOk result (λ e. plain_expr e ≡ s.copy_call key.now (map plain_operand operands.now)) }
{
    let view = Boxed::new(alloc, helper_with(alloc, key, operands)?)?;
    let f = Boxed::new(alloc, Expr::Member(view, Text::from_str(alloc, "slice")?))?;
    Ok(Expr::Call(f, Seq::new(alloc)))
}

/// The row of a value that is written to memory.
pub fn pass_to_memory(
    alloc: Global,
    body: &mut Body,
    key: &Text,
    exports: &[Text],
    optional: bool,
) -> Result<(), AllocError>
    ensures after { OnOk result (IsAfter (row_of (PassToMemory key.now exports.now optional) [] body.old) body.old body.new) }
{
    let operand = pop(&mut body.stack);
    let address = address(alloc, key, exports, optional, &operand)?;
    body.bind_value(alloc, address)?;
    let length = helper(alloc, "WASM_VECTOR_LEN")?;
    body.bind_value(alloc, length)?;
    Ok(())
}

/// The row of memory that is freed at the end.
pub fn defer_free(alloc: Global, body: &mut Body, free: &Text, align: u32) -> Result<(), AllocError>
    ensures after { OnOk result (IsAfter (row_of (DeferFree free.now align) [] body.old) body.old body.new) }
{
    let line = free_line(alloc, free, align, &body.stack)?;
    body.cleanup(line)
}

/// The row of a view of memory that is copied.
pub fn copy_out(alloc: Global, body: &mut Body, key: &Text) -> Result<(), AllocError>
    ensures after { OnOk result (IsAfter (row_of (CopyOut key.now) [] body.old) body.old body.new) }
{
    let operands = pop_operands(alloc, &mut body.stack, 2)?;
    let copied = copy_call(alloc, key, &operands)?;
    body.bind_value(alloc, copied)?;
    Ok(())
}
