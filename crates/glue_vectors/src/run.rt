//! A run: its locals, its trace, and the answers that are left.
use std::alloc::{AllocError, Global};
use values::Text;

/// A value: `undefined`, `null`, a truth, a whole number, or anything else by a name.
#[derive(Clone, Copy)]
pub enum Value {
    Undefined,
    Null,
    Truth(bool),
    Number(i64),
    Other(&'static str),
}

/// What the outside answers: a value, or a throw of one.
#[derive(Clone, Copy)]
pub enum Answer {
    Gives(Value),
    Throws(Value),
}

/// Where an expression has come to: a value, a throw of one, or the end of the answers, which is also where an expression
/// has no meaning.
#[derive(Clone, Copy)]
pub enum Came {
    Value(Value),
    Thrown(Value),
    Ended,
}

/// Where statements have come to: their end, or out of the function.
#[derive(Clone, Copy)]
pub enum Left {
    On,
    Returned(Value),
    Thrown(Value),
    Ended,
}

/// A run. An outside step joins the trace as a line, and takes the next answer.
#[derive(Drop)]
pub struct Run<'a> {
    locals: Vec<(Text, Value)>,
    answers: &'a [Answer],
    trace: String,
}

impl<'a> Run<'a> {
    /// A run that has these answers to come.
    pub fn new(alloc: Global, answers: &'a [Answer]) -> Run<'a> {
        Run {
            locals: Vec::new(alloc),
            answers,
            trace: String::new(alloc),
        }
    }

    /// A local more.
    pub fn bind(&mut self, name: Text, value: Value) -> Result<(), AllocError> {
        self.locals.push((name, value))?;
        Ok(())
    }

    /// The value of the newest local of a name: `undefined` where there is none.
    pub fn local(&self, name: &str) -> Value {
        let mut found = Value::Undefined;
        for (other, value) in self.locals.iter() {
            if other.as_str() == name {
                found = *value;
            }
        }
        found
    }

    /// An outside step.
    pub fn step(&mut self, entry: &str) -> Result<Came, AllocError> {
        self.trace.push_str(entry)?;
        self.trace.push_str("\n")?;
        match self.answers.split_first() {
            None => Ok(Came::Ended),
            Some((answer, rest)) => {
                self.answers = rest;
                Ok(came_by(*answer))
            }
        }
    }

    /// The trace, a line a step, and the end that the statements have come to.
    pub fn told(self, alloc: Global, left: Left) -> Result<String, AllocError> {
        let Run { trace, .. } = self;
        let mut text = trace;
        push_end(alloc, left, &mut text)?;
        Ok(text)
    }
}

// What a step comes to by its answer.
fn came_by(answer: Answer) -> Came {
    match answer {
        Answer::Gives(value) => Came::Value(value),
        Answer::Throws(value) => Came::Thrown(value),
    }
}

/// Appends a value as it stands in a trace.
pub fn push_value(alloc: Global, value: Value, text: &mut String) -> Result<(), AllocError> {
    match value {
        Value::Undefined => text.push_str("undefined"),
        Value::Null => text.push_str("null"),
        Value::Truth(truth) => text.push_str(if truth { "true" } else { "false" }),
        Value::Number(number) => {
            let shown = format!(in alloc; "{number}")?;
            text.push_str(shown.as_str())
        }
        Value::Other(name) => text.push_str(name),
    }
}

// Appends the end of a run.
fn push_end(alloc: Global, left: Left, text: &mut String) -> Result<(), AllocError> {
    match left {
        Left::On => text.push_str("nothing"),
        Left::Returned(value) => {
            text.push_str("returns ")?;
            push_value(alloc, value, text)
        }
        Left::Thrown(value) => {
            text.push_str("throws ")?;
            push_value(alloc, value, text)
        }
        Left::Ended => text.push_str("ended"),
    }
}
