//! Expressions and statements, put together from their parts.
ghost use Rattle.std.specs.Prelude.{◌≡◌, ◌∷◌, [], IfOk, map};
ghost use Rattle.glue_tree.specs.Plainly.{plain_expr, plain_stmt, terms_of};
ghost use Rattle.glue_tree.specs.Term as t;
ghost use Rattle.glue_heap.specs.HeapTrees as spec;

use glue_tree::{BinaryOperator, Expr, Stmt, UnaryOperator};
use std::alloc::{AllocError, Global};
use values::{Boxed, Seq, Text};

/// A name of the function.
pub fn local(alloc: Global, name: &str) -> Result<Expr, AllocError>
    ensures expr { IfOk result (λ e. plain_expr e ≡ t.Var name.now) }
{
    Ok(Expr::Local(Text::from_str(alloc, name)?))
}

/// A name of the glue file.
pub fn module(alloc: Global, name: &str) -> Result<Expr, AllocError>
    ensures expr { IfOk result (λ e. plain_expr e ≡ t.Name name.now) }
{
    Ok(Expr::Module(Text::from_str(alloc, name)?))
}

/// A name of the host.
pub fn host(alloc: Global, name: &str) -> Result<Expr, AllocError>
    ensures expr { IfOk result (λ e. plain_expr e ≡ t.Outside name.now) }
{
    Ok(Expr::Host(Text::from_str(alloc, name)?))
}

/// `object.name`
pub fn field(alloc: Global, object: Expr, name: &str) -> Result<Expr, AllocError>
    ensures expr { IfOk result (λ e. plain_expr e ≡ t.Field (plain_expr object) name.now) }
{
    let object = Boxed::new(alloc, object)?;
    Ok(Expr::Member(object, Text::from_str(alloc, name)?))
}

/// `heap[place]`
pub fn heap_slot(alloc: Global, place: Expr) -> Result<Expr, AllocError>
    ensures expr { IfOk result (λ e. plain_expr e ≡ spec.heap_slot (plain_expr place)) }
{
    let place = Boxed::new(alloc, place)?;
    let heap = Boxed::new(alloc, module(alloc, "heap")?)?;
    Ok(Expr::At(heap, place))
}

/// `heap.length`
pub fn heap_length(alloc: Global) -> Result<Expr, AllocError>
    ensures expr { IfOk result (λ e. plain_expr e ≡ spec.heap_length) }
{
    field(alloc, module(alloc, "heap")?, "length")
}

/// An operator with its operand.
pub fn one(alloc: Global, op: UnaryOperator, operand: Expr) -> Result<Expr, AllocError>
    ensures expr { IfOk result (λ e. plain_expr e ≡ t.One op (plain_expr operand)) }
{
    Ok(Expr::Unary(op, Boxed::new(alloc, operand)?))
}

/// An operator with its left operand and its right one.
pub fn two(alloc: Global, op: BinaryOperator, left: Expr, right: Expr) -> Result<Expr, AllocError>
    ensures expr { IfOk result (λ e. plain_expr e ≡ t.Two op (plain_expr left) (plain_expr right)) }
{
    let left = Boxed::new(alloc, left)?;
    let right = Boxed::new(alloc, right)?;
    Ok(Expr::Binary(op, left, right))
}

// One argument.
fn argument(alloc: Global, value: Expr) -> Result<Seq<Expr>, AllocError>
    ensures list { IfOk result (λ list. list ≡ value ∷ []) }
{
    let mut arguments = Seq::new(alloc);
    arguments.push(value)?;
    Ok(arguments)
}

/// `callee(value)`
pub fn call(alloc: Global, callee: Expr, value: Expr) -> Result<Expr, AllocError>
    ensures expr { IfOk result (λ e. plain_expr e ≡ t.Apply (plain_expr callee) (terms_of (plain_expr value ∷ []))) }
{
    let callee = Boxed::new(alloc, callee)?;
    Ok(Expr::Call(callee, argument(alloc, value)?))
}

/// `new class(value)`, of a class of the host.
pub fn make(alloc: Global, class: &str, value: Expr) -> Result<Expr, AllocError>
    ensures expr { IfOk result (λ e. plain_expr e ≡ t.Make (t.Outside class.now) (terms_of (plain_expr value ∷ []))) }
{
    let class = Boxed::new(alloc, host(alloc, class)?)?;
    Ok(Expr::New(class, argument(alloc, value)?))
}

/// `heap.push(a, b);`
pub fn push_line(alloc: Global, values: Seq<Expr>) -> Result<Stmt, AllocError>
    ensures line { IfOk result (λ line. plain_stmt line ≡ spec.push_line (map plain_expr values)) }
{
    let push = Boxed::new(alloc, field(alloc, module(alloc, "heap")?, "push")?)?;
    Ok(Stmt::Do(Expr::Call(push, values)))
}

/// `heap.push(value);`
pub fn push_one(alloc: Global, value: Expr) -> Result<Stmt, AllocError>
    ensures line { IfOk result (λ line. plain_stmt line ≡ spec.push_line (plain_expr value ∷ [])) }
{
    push_line(alloc, argument(alloc, value)?)
}

/// `throw new Error(message);`
pub fn throw_error(alloc: Global, message: &str) -> Result<Stmt, AllocError>
    ensures line { IfOk result (λ line. plain_stmt line ≡ spec.throw_error message.now) }
{
    let message = Expr::Str(Text::from_str(alloc, message)?);
    Ok(Stmt::Throw(make(alloc, "Error", message)?))
}

/// `if (test) line`
pub fn short(alloc: Global, test: Expr, line: Stmt) -> Result<Stmt, AllocError>
    ensures line { IfOk result (λ whole. plain_stmt whole ≡ t.Short (plain_expr test) (plain_stmt line)) }
{
    Ok(Stmt::Short(test, Boxed::new(alloc, line)?))
}

/// `const name = value;`
pub fn bind(alloc: Global, name: &str, value: Expr) -> Result<Stmt, AllocError>
    ensures line { IfOk result (λ line. plain_stmt line ≡ t.Bind name.now (plain_expr value)) }
{
    Ok(Stmt::Let(Text::from_str(alloc, name)?, value))
}
