//! Vectors: an adapter's steps, arguments and answers, and what its function has to do with them.
mod calls;
mod memory;
mod rooms;

use crate::compare::assert_told;
use crate::evaluator::evaluated;
use crate::run::{Answer, Value};
use crate::steps::{Row, bound, push_steps};
use glue_operands::usual_form;
use std::alloc::{AllocError, Global};
use std::process::Abort;

/// The steps, the arguments, the answers, and the trace with the end.
pub type Vector = (
    &'static [Row],
    &'static [Value],
    &'static [Answer],
    &'static str,
);

fn trace_of(alloc: Global, vector: &Vector) -> Result<String, AllocError> {
    let (rows, arguments, answers, _) = vector;
    let mut steps = Vec::new(alloc);
    push_steps(alloc, rows, &mut steps)?;
    let function = bound(alloc, &steps, &["a", "b"], usual_form(), &[])?;
    evaluated(
        alloc,
        function.params.as_slice(),
        function.tree.as_slice(),
        arguments,
        answers,
    )
}

/// Each vector of these tables comes to its trace and its end.
pub fn assert_vectors<H: Abort>(
    rt: &H,
    alloc: Global,
    tables: &[&[Vector]],
) -> Result<(), AllocError> {
    for vectors in tables {
        for vector in vectors.iter() {
            assert_told(rt, trace_of(alloc, vector), vector.3)?;
        }
    }
    Ok(())
}

/// What an export answers.
pub const NUMBER: Answer = Answer::Gives(Value::Number(7));

/// The answer of a step that gives nothing.
pub const DONE: Answer = Answer::Gives(Value::Undefined);

/// Two values that are passed.
pub const OBJECT: Value = Value::Other("object");

pub const OTHER: Value = Value::Other("other");

/// A throw in place of an answer.
pub const FAULT: Answer = Answer::Throws(Value::Other("fault"));
