//! The evaluator of expressions and statements, as ECMAScript runs them (sections 13 and 14), for the forms that adapters
//! have. Any other form ends the run.
use crate::run::{Answer, Came, Left, Run, Value, push_value};
use glue_tree::{BinaryOperator, Constant, Expr, Stmt, UnaryOperator};
use std::alloc::{AllocError, Global};
use values::{Duplicate, Text};

fn constant_value(constant: Constant) -> Value {
    match constant {
        Constant::Null => Value::Null,
        Constant::True => Value::Truth(true),
        Constant::False => Value::Truth(false),
        Constant::This | Constant::Arguments => Value::Undefined,
    }
}

// A value of the host, which is evaluated by no step.
fn host_value(name: &str) -> Value {
    match name {
        "BigInt" => Value::Other("BigInt"),
        _ => Value::Undefined,
    }
}

fn is_true(value: Value) -> bool {
    match value {
        Value::Undefined | Value::Null => false,
        Value::Truth(truth) => truth,
        Value::Number(number) => number != 0,
        Value::Other(_) => true,
    }
}

// `n >>> 0`
fn unsigned(number: i64) -> i64 {
    number & 4_294_967_295
}

// `v op 0`, for the two operators that operands have.
fn with_zero(operator: BinaryOperator, value: Value) -> Came {
    match (operator, value) {
        (BinaryOperator::ShiftUnsigned, Value::Number(number)) => {
            Came::Value(Value::Number(unsigned(number)))
        }
        (BinaryOperator::ShiftUnsigned, Value::Truth(truth)) => {
            Came::Value(Value::Number(if truth { 1 } else { 0 }))
        }
        (BinaryOperator::ShiftUnsigned, Value::Undefined | Value::Null) => {
            Came::Value(Value::Number(0))
        }
        (BinaryOperator::StrictUnequal, Value::Number(number)) => {
            Came::Value(Value::Truth(number != 0))
        }
        (BinaryOperator::StrictUnequal, _) => Came::Value(Value::Truth(true)),
        _ => Came::Ended,
    }
}

// `v op number`, for the operators that operands and places have.
fn with_number(operator: BinaryOperator, value: Value, number: i64) -> Came {
    match (operator, value) {
        (BinaryOperator::Add, Value::Number(first)) => {
            Came::Value(Value::Number(first.wrapping_add(number)))
        }
        _ => {
            if number == 0 {
                with_zero(operator, value)
            } else {
                Came::Ended
            }
        }
    }
}

// A step that a name is told by.
fn named(run: &mut Run<'_>, alloc: Global, front: &str, name: &str) -> Result<Came, AllocError> {
    let mut entry = String::new(alloc);
    entry.push_str(front)?;
    entry.push_str(name)?;
    run.step(entry.as_str())
}

// `name++`: a read, a write of one more, and the value that was read.
fn increment(run: &mut Run<'_>, alloc: Global, name: &str) -> Result<Came, AllocError> {
    let read = named(run, alloc, "read ", name)?;
    match read {
        Came::Value(Value::Number(number)) => write_next(run, alloc, name, number),
        Came::Value(_) => Ok(Came::Ended),
        other => Ok(other),
    }
}

// The write of one more than what was read.
fn write_next(
    run: &mut Run<'_>,
    alloc: Global,
    name: &str,
    number: i64,
) -> Result<Came, AllocError> {
    let next = number.wrapping_add(1);
    let entry = format!(in alloc; "write {name} {next}")?;
    match run.step(entry.as_str())? {
        Came::Value(_) => Ok(Came::Value(Value::Number(number))),
        other => Ok(other),
    }
}

// The read of a slot.
fn read_slot(
    run: &mut Run<'_>,
    alloc: Global,
    object: Value,
    place: Value,
) -> Result<Came, AllocError> {
    let mut entry = String::new(alloc);
    entry.push_str("read ")?;
    push_value(alloc, object, &mut entry)?;
    entry.push_str("[")?;
    push_value(alloc, place, &mut entry)?;
    entry.push_str("]")?;
    run.step(entry.as_str())
}

/// The value of an expression.
#[cycle(expressions)]
pub fn value_of(run: &mut Run<'_>, alloc: Global, e: &Expr) -> Result<Came, AllocError> {
    match e {
        Expr::Num(number) => Ok(Came::Value(Value::Number(*number))),
        Expr::Constant(constant) => Ok(Came::Value(constant_value(*constant))),
        Expr::Local(name) => Ok(Came::Value(run.local(name.as_str()))),
        Expr::Host(name) => Ok(Came::Value(host_value(name.as_str()))),
        Expr::Module(name) => named(run, alloc, "read ", name.as_str()),
        Expr::Wasm(name) => named(run, alloc, "read wasm.", name.as_str()),
        Expr::Unary(UnaryOperator::Increment, operand) => match operand.get() {
            Expr::Module(name) => increment(run, alloc, name.as_str()),
            _ => Ok(Came::Ended),
        },
        Expr::Binary(operator, left, right) => {
            let Expr::Num(number) = right.get() else {
                return Ok(Came::Ended);
            };
            match value_of(run, alloc, left.get())? {
                Came::Value(value) => Ok(with_number(*operator, value, *number)),
                other => Ok(other),
            }
        }
        Expr::Cond(test, first, second) => match value_of(run, alloc, test.get())? {
            Came::Value(value) => {
                if is_true(value) {
                    value_of(run, alloc, first.get())
                } else {
                    value_of(run, alloc, second.get())
                }
            }
            other => Ok(other),
        },
        Expr::At(object, place) => match value_of(run, alloc, object.get())? {
            Came::Value(object) => match value_of(run, alloc, place.get())? {
                Came::Value(place) => read_slot(run, alloc, object, place),
                other => Ok(other),
            },
            other => Ok(other),
        },
        Expr::Call(f, arguments) => {
            let mut entry = String::new(alloc);
            let front = push_callee(run, alloc, f.get(), &mut entry)?;
            if !matches!(front, Came::Value(_)) {
                return Ok(front);
            }
            let values = push_values(run, alloc, arguments.as_slice(), &mut entry)?;
            if !matches!(values, Came::Value(_)) {
                return Ok(values);
            }
            run.step(entry.as_str())
        }
        _ => Ok(Came::Ended),
    }
}

// Appends what is called. A name is no step of its own; the object of a method is evaluated.
#[cycle(expressions)]
fn push_callee(
    run: &mut Run<'_>,
    alloc: Global,
    f: &Expr,
    entry: &mut String,
) -> Result<Came, AllocError> {
    entry.push_str("call ")?;
    match f {
        Expr::Wasm(name) => {
            entry.push_str("wasm.")?;
            entry.push_str(name.as_str())?;
            Ok(Came::Value(Value::Undefined))
        }
        Expr::Module(name) => {
            entry.push_str(name.as_str())?;
            Ok(Came::Value(Value::Undefined))
        }
        Expr::Member(object, name) => {
            let came = value_of(run, alloc, object.get())?;
            if let Came::Value(value) = came {
                push_value(alloc, value, entry)?;
                entry.push_str(".")?;
                entry.push_str(name.as_str())?;
            }
            Ok(came)
        }
        _ => Ok(Came::Ended),
    }
}

// Appends the values of arguments, evaluated in order.
#[cycle(expressions)]
fn push_values(
    run: &mut Run<'_>,
    alloc: Global,
    arguments: &[Expr],
    entry: &mut String,
) -> Result<Came, AllocError> {
    entry.push_str("(")?;
    let mut is_first = true;
    for argument in arguments {
        entry.push_str(if is_first { "" } else { ", " })?;
        is_first = false;
        match value_of(run, alloc, argument)? {
            Came::Value(value) => push_value(alloc, value, entry)?,
            other => return Ok(other),
        }
    }
    entry.push_str(")")?;
    Ok(Came::Value(Value::Undefined))
}

// Where a statement has come to by its expression.
fn left_by(came: Came) -> Left {
    match came {
        Came::Value(_) => Left::On,
        Came::Thrown(value) => Left::Thrown(value),
        Came::Ended => Left::Ended,
    }
}

// `const name = e;`
fn bind(run: &mut Run<'_>, alloc: Global, name: &Text, e: &Expr) -> Result<Left, AllocError> {
    let came = value_of(run, alloc, e)?;
    if let Came::Value(value) = came {
        run.bind(name.copy(alloc)?, value)?;
    }
    Ok(left_by(came))
}

// `name[e] = value;`: the name is read, then the place and the value are evaluated, and then the slot is written.
fn put(run: &mut Run<'_>, alloc: Global, target: &Expr, e: &Expr) -> Result<Left, AllocError> {
    let Expr::At(object, place) = target else {
        return Ok(Left::Ended);
    };
    let object = value_of(run, alloc, object.get())?;
    let Came::Value(object) = object else {
        return Ok(left_by(object));
    };
    let place = value_of(run, alloc, place.get())?;
    let Came::Value(place) = place else {
        return Ok(left_by(place));
    };
    let value = value_of(run, alloc, e)?;
    let Came::Value(value) = value else {
        return Ok(left_by(value));
    };
    let mut entry = String::new(alloc);
    entry.push_str("write ")?;
    push_value(alloc, object, &mut entry)?;
    entry.push_str("[")?;
    push_value(alloc, place, &mut entry)?;
    entry.push_str("] ")?;
    push_value(alloc, value, &mut entry)?;
    Ok(left_by(run.step(entry.as_str())?))
}

// `throw e;`
fn throw(run: &mut Run<'_>, alloc: Global, e: &Expr) -> Result<Left, AllocError> {
    match value_of(run, alloc, e)? {
        Came::Value(value) => Ok(Left::Thrown(value)),
        other => Ok(left_by(other)),
    }
}

// `return e;`
fn leave(run: &mut Run<'_>, alloc: Global, e: &Expr) -> Result<Left, AllocError> {
    match value_of(run, alloc, e)? {
        Came::Value(value) => Ok(Left::Returned(value)),
        other => Ok(left_by(other)),
    }
}

#[cycle(statements)]
fn run_line(run: &mut Run<'_>, alloc: Global, line: &Stmt) -> Result<Left, AllocError> {
    match line {
        Stmt::Let(name, e) => bind(run, alloc, name, e),
        Stmt::Do(e) => Ok(left_by(value_of(run, alloc, e)?)),
        Stmt::Set(target, e) => put(run, alloc, target, e),
        Stmt::Throw(e) => throw(run, alloc, e),
        Stmt::Return(Some(e)) => leave(run, alloc, e),
        Stmt::If(test, body) => match value_of(run, alloc, test)? {
            Came::Value(value) => {
                if is_true(value) {
                    run_lines(run, alloc, body.as_slice())
                } else {
                    Ok(Left::On)
                }
            }
            other => Ok(left_by(other)),
        },
        Stmt::Finally(body, last) => {
            let first = run_lines(run, alloc, body.as_slice())?;
            if matches!(first, Left::Ended) {
                return Ok(first);
            }
            match run_lines(run, alloc, last.as_slice())? {
                Left::On => Ok(first),
                other => Ok(other),
            }
        }
        _ => Ok(Left::Ended),
    }
}

#[cycle(statements)]
fn run_lines(run: &mut Run<'_>, alloc: Global, body: &[Stmt]) -> Result<Left, AllocError> {
    for line in body {
        match run_line(run, alloc, line)? {
            Left::On => {}
            other => return Ok(other),
        }
    }
    Ok(Left::On)
}

/// What a function does: its trace, a line a step, and its end. A parameter without an argument is `undefined`.
pub fn evaluated(
    alloc: Global,
    params: &[Text],
    body: &[Stmt],
    arguments: &[Value],
    answers: &[Answer],
) -> Result<String, AllocError> {
    let mut run = Run::new(alloc, answers);
    let mut given = arguments.iter();
    for name in params {
        let value = match given.next() {
            Some(value) => *value,
            None => Value::Undefined,
        };
        run.bind(name.copy(alloc)?, value)?;
    }
    let left = run_lines(&mut run, alloc, body)?;
    run.told(alloc, left)
}
