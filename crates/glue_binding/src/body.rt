//! The body of a function, step by step.
ghost use Rattle.std.specs.Prelude.{◌≡◌, ◌++◌, ◌∷◌, [], IfOk, OnOk, map};
ghost use Rattle.glue_tree.specs.Plainly.{plain_expr, plain_stmt, plain_stmts};
ghost use Rattle.glue_tree.specs.Term as t;
ghost use Rattle.glue_operands.specs.Plainly.{plain_operand};
ghost use Rattle.glue_operands.specs.Spelling.{Missing, Local};
ghost use Rattle.glue_binding.specs.Body.{IsAfter, plain_pieces, stack_of, newest_first, row_of};
ghost use Rattle.glue_binding.specs.Spelling as s;
ghost use Rattle.glue_steps.specs.AdapterMeaning.{known};
ghost use Rattle.glue_steps.specs.Stack.{item_at};

use crate::calls::{call_export, call_import};
use crate::closures::make_closure;
use crate::lists::{index_of, item_at};
use crate::memory::{copy_out, defer_free, pass_to_memory};
use crate::numbers::{is_not_zero, to_unsigned, to_unsigned_64};
use crate::objects::{borrow_index, call_helper, unwrap_result};
use crate::piece::{Piece, join};
use crate::room::{load_return, store_return, take_room};
use crate::stack::{next_name, pop, push};
use glue_operands::{Operand, copy_operand, to_expr};
use glue_steps::Step;
use glue_tree::{Expr, Stmt};
use std::alloc::{AllocError, Global};
use values::{Duplicate, Seq, Text};

/// A body while it is spelled.
#[derive(Drop)]
pub struct Body {
    /// The operands, the newest one last.
    pub stack: Seq<Operand>,
    /// The names of the temporaries to come, the first one last.
    pub coming: Seq<Text>,
    /// The pieces so far.
    pub pieces: Seq<Piece>,
}

/// The statements of the steps, with parameters that are spelled as these operands, and temporaries of these names.
pub fn body_of(
    alloc: Global,
    steps: &[Step],
    params: Seq<Operand>,
    temps: Seq<Text>,
) -> Result<Seq<Stmt>, AllocError>
    ensures tree { IfOk result (λ tree. plain_stmts tree ≡ s.tree_of steps.now (map plain_operand params) temps) }
{
    let pieces = pieces_of(alloc, steps, params, temps)?;
    join(alloc, pieces)
}

// The pieces of the steps.
fn pieces_of(
    alloc: Global,
    steps: &[Step],
    params: Seq<Operand>,
    temps: Seq<Text>,
) -> Result<Seq<Piece>, AllocError>
    ensures pieces { IfOk result (λ pieces. plain_pieces pieces
        ≡ s.pieces_of steps.now (map plain_operand params) [] temps) }
{
    let mut body = Body::new(alloc, temps);
    let mut known = params;
    for step in steps {
        body.add(alloc, step, &mut known)?;
    }
    body.finish(alloc)
}

/// The parameter at a place, or the operand that stands for a lacking one.
pub fn param(alloc: Global, params: &[Operand], place: usize) -> Result<Operand, AllocError>
    ensures operand { IfOk result (λ o. plain_operand o ≡ item_at Missing (map plain_operand params.now) place) }
{
    match params.get(place) {
        Some(operand) => copy_operand(alloc, operand),
        None => Ok(Operand::Missing),
    }
}

impl Body {
    // No operands and no pieces, and these names to come.
    fn new(alloc: Global, temps: Seq<Text>) -> Body
        ensures stack { stack_of result.stack ≡ [] }
        ensures names { newest_first result.coming ≡ temps }
        ensures pieces { plain_pieces result.pieces ≡ [] }
    {
        let mut coming = temps.into_vec();
        coming.reverse();
        Body {
            stack: Seq::new(alloc),
            coming: Seq::from_vec(coming),
            pieces: Seq::new(alloc),
        }
    }

    /// A statement in front of all that comes after.
    #[tactic(auto, unfolding(crate::specs::Body::plain_pieces))]
    pub fn ahead(&mut self, line: Stmt) -> Result<(), AllocError>
        ensures pieces { OnOk result (plain_pieces self.new.pieces ≡ plain_pieces self.old.pieces
            ++ s.Ahead (plain_stmt line) ∷ []) }
        ensures stack { self.new.stack ≡ self.old.stack }
        ensures names { self.new.coming ≡ self.old.coming }
    {
        self.pieces.push(Piece::Ahead(line))?;
        Ok(())
    }

    /// A cleanup after all that comes after.
    #[tactic(auto, unfolding(crate::specs::Body::plain_pieces))]
    pub fn cleanup(&mut self, line: Stmt) -> Result<(), AllocError>
        ensures pieces { OnOk result (plain_pieces self.new.pieces ≡ plain_pieces self.old.pieces
            ++ s.Cleanup (plain_stmt line)
            ∷ []) }
        ensures stack { self.new.stack ≡ self.old.stack }
        ensures names { self.new.coming ≡ self.old.coming }
    {
        self.pieces.push(Piece::Cleanup(line))?;
        Ok(())
    }

    /// The next name, which is pushed too.
    pub fn temporary(&mut self, alloc: Global) -> Result<Text, AllocError>
        ensures name { IfOk result (λ name. name ≡ s.first (newest_first self.old.coming)) }
        ensures stack { OnOk result (stack_of self.new.stack ≡ Local (s.first (newest_first self.old.coming))
            ∷ stack_of self.old.stack) }
        ensures names { OnOk result (newest_first self.new.coming ≡ s.later (newest_first self.old.coming)) }
        ensures pieces { self.new.pieces ≡ self.old.pieces }
    {
        let name = next_name(alloc, &mut self.coming);
        push(&mut self.stack, Operand::Local(name.copy(alloc)?))?;
        Ok(name)
    }

    /// `const name = value;` with the next name, which is pushed.
    pub fn bind_value(&mut self, alloc: Global, value: Expr) -> Result<(), AllocError>
        ensures pieces { OnOk result (plain_pieces self.new.pieces ≡ plain_pieces self.old.pieces
            ++ s.Ahead (t.Bind (s.first (newest_first self.old.coming)) (plain_expr value)) ∷ []) }
        ensures stack { OnOk result (stack_of self.new.stack ≡ Local (s.first (newest_first self.old.coming))
            ∷ stack_of self.old.stack) }
        ensures names { OnOk result (newest_first self.new.coming ≡ s.later (newest_first self.old.coming)) }
    {
        let name = self.temporary(alloc)?;
        self.ahead(Stmt::Let(name, value))
    }

    // The row of a step. What it knows beside the stack are the parameters, and behind them room, from the step on that takes it.
    fn add(
        &mut self,
        alloc: Global,
        step: &Step,
        before: &mut Seq<Operand>,
    ) -> Result<(), AllocError>
        ensures after { OnOk result (IsAfter (row_of step.now (map plain_operand before.old) self.old) self.old self.new) }
        ensures known { OnOk result (map plain_operand before.new ≡ known Missing step.now (map plain_operand before.old) (row_of step.now (map plain_operand before.old) self.old).stack) }
    {
        match step {
            Step::Parameter(place) => {
                push(
                    &mut self.stack,
                    param(alloc, before.as_slice(), *place as usize)?,
                )
            }
            Step::Unchanged => {
                let operand = pop(&mut self.stack);
                push(&mut self.stack, operand)
            }
            Step::CallExport {
                name,
                params,
                has_result,
            } => call_export(alloc, self, name, *params, *has_result),
            Step::CallImport {
                adapter,
                params,
                has_result,
                expression,
            } => call_import(alloc, self, *adapter, *params, *has_result, expression),
            Step::ToUnsigned => to_unsigned(alloc, self),
            Step::IsNotZero => is_not_zero(alloc, self),
            Step::ToUnsigned64 => to_unsigned_64(alloc, self),
            Step::CallHelper { helper, params } => call_helper(alloc, self, helper, *params),
            Step::IndexFromBorrow => borrow_index(alloc, self),
            Step::UnwrapResult { helper } => unwrap_result(alloc, self, helper),
            Step::PassToMemory {
                helper,
                exports,
                optional,
            } => pass_to_memory(alloc, self, helper, exports.as_slice(), *optional),
            Step::DeferFree { free, align } => defer_free(alloc, self, free, *align),
            Step::CopyOut { helper } => copy_out(alloc, self, helper),
            Step::ReturnPointer { size } => take_room(alloc, self, *size, before),
            Step::LoadReturn {
                view,
                offset,
                is_wide,
            } => load_return(alloc, self, view, *offset, *is_wide, before.as_slice()),
            Step::StoreReturn {
                view,
                offset,
                is_wide,
            } => store_return(alloc, self, view, *offset, *is_wide, before.as_slice()),
            Step::MakeClosure { helper, function } => make_closure(alloc, self, helper, function),
            Step::IndexOf { list } => index_of(alloc, self, list),
            Step::ItemAt { list } => item_at(alloc, self, list),
        }
    }

    // The pieces, with the newest operand returned where there is one.
    #[tactic(auto, unfolding(crate::specs::Body::stack_of))]
    fn finish(self, alloc: Global) -> Result<Seq<Piece>, AllocError>
        ensures pieces { IfOk result (λ pieces. plain_pieces pieces ≡ plain_pieces self.pieces
            ++ s.ending (stack_of self.stack)) }
    {
        let mut body = self;
        if let Some(operand) = body.stack.pop() {
            body.ahead(Stmt::Return(Some(to_expr(alloc, &operand)?)))?;
        }
        let Body { pieces, .. } = body;
        Ok(pieces)
    }
}
