//! Expressions and statements as constants, and the trees of them.
use glue_tree::{BinaryOperator, Constant, Expr, Stmt, UnaryOperator};
use glue_words::Word;
use std::alloc::{AllocError, Global};
use values::{Boxed, Seq, Text};

/// An expression.
pub enum Form {
    Number(i64),
    Big(i64),
    Str(&'static str),
    Null,
    Local(&'static str),
    Wasm(&'static str),
    Member(&'static Form, &'static str),
    At(&'static Form, &'static Form),
    Call(&'static Form, &'static [Form]),
    New(&'static Form),
    Unary(UnaryOperator, &'static Form),
    Binary(BinaryOperator, &'static Form, &'static Form),
    Cond(&'static Form, &'static Form, &'static Form),
    /// A record of one field.
    Record(&'static str, &'static Form),
}

/// A statement.
pub enum Line {
    Let(&'static str, Form),
    Unset(&'static str),
    Do(Form),
    If(Form, &'static [Line]),
    Finally(&'static [Line], &'static [Line]),
    Throw(Form),
    Return(Form),
    ReturnNothing,
    /// A name of the host.
    Host(&'static str),
}

#[cycle(expressions)]
fn boxed(alloc: Global, form: &Form) -> Result<Boxed<Expr>, AllocError> {
    Boxed::new(alloc, expr_of(alloc, form)?)
}

#[cycle(expressions)]
fn exprs_of(alloc: Global, forms: &[Form]) -> Result<Seq<Expr>, AllocError> {
    let mut exprs = Seq::new(alloc);
    for form in forms {
        exprs.push(expr_of(alloc, form)?)?;
    }
    Ok(exprs)
}

fn record(alloc: Global, key: &str, value: Expr) -> Result<Expr, AllocError> {
    let mut fields = Seq::new(alloc);
    fields.push((Text::from_str(alloc, key)?, value))?;
    Ok(Expr::Record(fields))
}

/// The tree of an expression.
#[cycle(expressions)]
pub fn expr_of(alloc: Global, form: &Form) -> Result<Expr, AllocError> {
    match form {
        Form::Number(number) => Ok(Expr::Num(*number)),
        Form::Big(number) => Ok(Expr::Big(*number)),
        Form::Str(text) => Ok(Expr::Str(Text::from_str(alloc, text)?)),
        Form::Null => Ok(Expr::Constant(Constant::Null)),
        Form::Local(name) => Ok(Expr::Local(Text::from_str(alloc, name)?)),
        Form::Wasm(name) => Ok(Expr::Wasm(Text::from_str(alloc, name)?)),
        Form::Member(object, name) => {
            let object = boxed(alloc, object)?;
            Ok(Expr::Member(object, Text::from_str(alloc, name)?))
        }
        Form::At(object, place) => {
            let object = boxed(alloc, object)?;
            Ok(Expr::At(object, boxed(alloc, place)?))
        }
        Form::Call(f, arguments) => {
            let f = boxed(alloc, f)?;
            Ok(Expr::Call(f, exprs_of(alloc, arguments)?))
        }
        Form::New(class) => Ok(Expr::New(boxed(alloc, class)?, Seq::new(alloc))),
        Form::Unary(operator, operand) => Ok(Expr::Unary(*operator, boxed(alloc, operand)?)),
        Form::Binary(operator, left, right) => {
            let left = boxed(alloc, left)?;
            Ok(Expr::Binary(*operator, left, boxed(alloc, right)?))
        }
        Form::Cond(test, first, second) => {
            let test = boxed(alloc, test)?;
            let first = boxed(alloc, first)?;
            Ok(Expr::Cond(test, first, boxed(alloc, second)?))
        }
        Form::Record(key, value) => record(alloc, key, expr_of(alloc, value)?),
    }
}

fn host(alloc: Global, name: &str) -> Result<Stmt, AllocError> {
    let mut own = Seq::new(alloc);
    own.push(Word::Host(Text::from_str(alloc, name)?, false))?;
    Ok(Stmt::Embedded(7, Seq::new(alloc), None, own))
}

#[cycle(statements)]
fn stmt_of(alloc: Global, line: &Line) -> Result<Stmt, AllocError> {
    match line {
        Line::Let(name, value) => {
            let value = expr_of(alloc, value)?;
            Ok(Stmt::Let(Text::from_str(alloc, name)?, value))
        }
        Line::Unset(name) => Ok(Stmt::Unset(Text::from_str(alloc, name)?)),
        Line::Do(form) => Ok(Stmt::Do(expr_of(alloc, form)?)),
        Line::If(test, body) => {
            let test = expr_of(alloc, test)?;
            Ok(Stmt::If(test, stmts_of(alloc, body)?))
        }
        Line::Finally(body, last) => {
            let body = stmts_of(alloc, body)?;
            Ok(Stmt::Finally(body, stmts_of(alloc, last)?))
        }
        Line::Throw(form) => Ok(Stmt::Throw(expr_of(alloc, form)?)),
        Line::Return(form) => Ok(Stmt::Return(Some(expr_of(alloc, form)?))),
        Line::ReturnNothing => Ok(Stmt::Return(None)),
        Line::Host(name) => host(alloc, name),
    }
}

/// The trees of statements.
#[cycle(statements)]
pub fn stmts_of(alloc: Global, lines: &[Line]) -> Result<Seq<Stmt>, AllocError> {
    let mut stmts = Seq::new(alloc);
    for line in lines {
        stmts.push(stmt_of(alloc, line)?)?;
    }
    Ok(stmts)
}
