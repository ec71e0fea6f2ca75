//! Rows of calls of exports and of imports.
ghost use Rattle.std.specs.Prelude.{◌≡◌, ◌++◌, ◌∷◌, [], IfOk, OnOk, map};
ghost use Rattle.glue_tree.specs.Plainly.{plain_expr, plain_exprs};
ghost use Rattle.glue_tree.specs.Term as t;
ghost use Rattle.glue_operands.specs.Plainly.{plain_operand};
ghost use Rattle.glue_binding.specs.Body.{IsAfter, plain_pieces, stack_of, newest_first, row_of};
ghost use Rattle.glue_binding.specs.Spelling as s;
ghost use Rattle.glue_steps.specs.declared.step.Step.TheVariants.{CallExport, CallImport};

use crate::body::Body;
use crate::stack::{next_names, pop_operands};
use glue_imports::Expression;
use glue_operands::{Operand, import_line, to_exprs};
use glue_tree::{Expr, Stmt};
use std::alloc::{AllocError, Global};
use values::{Boxed, Duplicate, Text};

// `wasm.name(args)`
fn export_call(alloc: Global, name: &Text, args: &[Operand]) -> Result<Expr, AllocError>
    ensures expr { IfOk result (λ e. plain_expr e ≡ s.export_call name.now (map plain_operand args.now)) }
{
    let f = Boxed::new(alloc, Expr::Wasm(name.copy(alloc)?))?;
    let args = to_exprs(alloc, args)?;
    Ok(Expr::Call(f, args))
}

/// The row of a call of an export.
pub fn call_export(
    alloc: Global,
    body: &mut Body,
    name: &Text,
    params: usize,
    has_result: bool,
) -> Result<(), AllocError>
    ensures after { OnOk result (IsAfter (row_of (CallExport name.now params has_result) [] body.old) body.old body.new) }
{
    let args = pop_operands(alloc, &mut body.stack, params)?;
    let call = export_call(alloc, name, &args)?;
    if has_result {
        body.bind_value(alloc, call)
    } else {
        body.ahead(Stmt::Do(call))
    }
}

// The call of an import with these locals and operands, its answer bound to a local if there is one.
fn embed(
    alloc: Global,
    body: &mut Body,
    adapter: u32,
    bound: Option<Text>,
    expression: &Expression,
    locals: &[Text],
    operands: &[Operand],
) -> Result<(), AllocError>
    ensures pieces { OnOk result (plain_pieces body.new.pieces ≡ plain_pieces body.old.pieces
        ++ s.Ahead (s.import_call adapter bound expression.now locals.now (map plain_operand operands.now)) ∷ []) }
    ensures stack { body.new.stack ≡ body.old.stack }
    ensures names { body.new.coming ≡ body.old.coming }
{
    let args = to_exprs(alloc, operands)?;
    let words = import_line(alloc, &bound, expression, locals, operands)?;
    body.ahead(Stmt::Embedded(adapter, args, bound, words))
}

// The row of a call of an import with these locals, whose names are taken.
fn call_with(
    alloc: Global,
    body: &mut Body,
    adapter: u32,
    params: usize,
    has_result: bool,
    expression: &Expression,
    locals: &[Text],
) -> Result<(), AllocError>
    ensures after { OnOk result (IsAfter (s.import_row adapter params has_result expression.now locals.now (stack_of body.old.stack) (newest_first body.old.coming)) body.old body.new) }
{
    let operands = pop_operands(alloc, &mut body.stack, params)?;
    if has_result {
        let bound = body.temporary(alloc)?;
        embed(
            alloc,
            body,
            adapter,
            Some(bound),
            expression,
            locals,
            &operands,
        )?;
        Ok(())
    } else {
        embed(alloc, body, adapter, None, expression, locals, &operands)
    }
}

/// The row of a call of an import.
pub fn call_import(
    alloc: Global,
    body: &mut Body,
    adapter: u32,
    params: usize,
    has_result: bool,
    expression: &Expression,
) -> Result<(), AllocError>
    ensures after { OnOk result (IsAfter (row_of (CallImport adapter params has_result expression.now) [] body.old) body.old body.new) }
{
    let locals = next_names(alloc, &mut body.coming, expression.locals.len())?;
    call_with(
        alloc,
        body,
        adapter,
        params,
        has_result,
        expression,
        locals.as_slice(),
    )
}
