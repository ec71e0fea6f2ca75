//! Operands, as expressions.
ghost use Rattle.std.specs.Prelude.{◌≡◌, ◌++◌, ◌∷◌, [], IfOk, OnOk, map, pos};
ghost use Rattle.glue_tree.specs.Plainly.{plain_expr, plain_exprs};
ghost use Rattle.glue_tree.specs.Term as t;
ghost use Rattle.glue_operands.specs.Plainly.{plain_operand};
ghost use Rattle.glue_operands.specs.Spelling.{Local, term_of, terms};

use glue_tree::{BinaryOperator, Constant, Expr};
use std::alloc::{AllocError, Global};
use values::{Boxed, Duplicate, Seq, Text};

/// An operand: a text that takes no step when it is evaluated.
#[derive(Drop)]
pub enum Operand {
    /// Stands for an operand that is lacking.
    Missing,
    /// What the function is called on.
    This,
    /// A parameter or a temporary.
    Local(Text),
    /// An operand as an unsigned number of 32 bits.
    Unsigned(Boxed<Operand>),
    /// Whether an operand isn't 0.
    NotZero(Boxed<Operand>),
}

// `e operator 0`
fn with_zero(alloc: Global, operator: BinaryOperator, e: Expr) -> Result<Expr, AllocError>
    ensures { IfOk result (λ v. plain_expr v ≡ t.Two operator (plain_expr e) (t.Lit (pos 0))) }
{
    let e = Boxed::new(alloc, e)?;
    let zero = Boxed::new(alloc, Expr::Num(0))?;
    Ok(Expr::Binary(operator, e, zero))
}

/// The expression of an operand. The only error is want of memory.
pub fn to_expr(alloc: Global, operand: &Operand) -> Result<Expr, AllocError>
    ensures { IfOk result (λ e. plain_expr e ≡ term_of (plain_operand operand.now)) }
{
    match operand {
        Operand::Missing => Ok(Expr::Constant(Constant::Null)),
        Operand::This => Ok(Expr::Constant(Constant::This)),
        Operand::Local(name) => Ok(Expr::Local(name.copy(alloc)?)),
        Operand::Unsigned(inner) => {
            let e = to_expr(alloc, inner.get())?;
            with_zero(alloc, BinaryOperator::ShiftUnsigned, e)
        }
        Operand::NotZero(inner) => {
            let e = to_expr(alloc, inner.get())?;
            with_zero(alloc, BinaryOperator::StrictUnequal, e)
        }
    }
}

/// An operand that is spelled alike. The only error is want of memory.
pub fn copy_operand(alloc: Global, operand: &Operand) -> Result<Operand, AllocError>
    ensures { IfOk result (λ o. plain_operand o ≡ plain_operand operand.now) }
{
    match operand {
        Operand::Missing => Ok(Operand::Missing),
        Operand::This => Ok(Operand::This),
        Operand::Local(name) => Ok(Operand::Local(name.copy(alloc)?)),
        Operand::Unsigned(inner) => {
            let inner = copy_operand(alloc, inner.get())?;
            Ok(Operand::Unsigned(Boxed::new(alloc, inner)?))
        }
        Operand::NotZero(inner) => {
            let inner = copy_operand(alloc, inner.get())?;
            Ok(Operand::NotZero(Boxed::new(alloc, inner)?))
        }
    }
}

/// Appends a local of this name. The only error is want of memory.
pub fn push_local(name: Text, operands: &mut Seq<Operand>) -> Result<(), AllocError>
    ensures operands { OnOk result (map plain_operand operands.new ≡ map plain_operand operands.old ++ Local name ∷ []) }
{
    operands.push(Operand::Local(name))?;
    Ok(())
}

// Appends the expression of an operand.
fn push_operand(alloc: Global, operand: &Operand, exprs: &mut Seq<Expr>) -> Result<(), AllocError>
    ensures exprs { OnOk result (map plain_expr exprs.new ≡ map plain_expr exprs.old
        ++ term_of (plain_operand operand.now) ∷ []) }
{
    exprs.push(to_expr(alloc, operand)?)?;
    Ok(())
}

/// The expressions of operands, in their order. The only error is want of memory.
pub fn to_exprs(alloc: Global, operands: &[Operand]) -> Result<Seq<Expr>, AllocError>
    ensures exprs { IfOk result (λ exprs. plain_exprs exprs ≡ terms (map plain_operand operands.now)) }
{
    let mut exprs = Seq::new(alloc);
    for operand in operands {
        push_operand(alloc, operand, &mut exprs)?;
    }
    Ok(exprs)
}
