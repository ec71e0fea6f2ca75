//! Functions of steps as text: steps, the names that the parameters want, and the text.
mod calls;
mod forms;
mod memory;
mod nesting;

use crate::compare::assert_told;
use crate::steps::{Row, bound, push_steps};
use glue_inputs::printed;
use glue_operands::{Form, usual_form};
use glue_steps::Step;
use glue_tree::JsFunction;
use glue_words::Word;
use std::alloc::{AllocError, Global};
use std::process::Abort;
use values::Seq;

/// The steps, the wanted names, and the text.
pub type Function = (&'static [Row], &'static [&'static str], &'static str);

// The words of a function.
fn words_of(function: JsFunction) -> Seq<Word> {
    let JsFunction { words, .. } = function;
    words
}

/// The text of the function of these steps, which has this form and stands within these names.
pub fn told(
    alloc: Global,
    steps: &[Step],
    wanted: &[&str],
    form: Form,
    around: &[&str],
) -> Result<String, AllocError> {
    let function = bound(alloc, steps, wanted, form, around)?;
    printed(alloc, words_of(function))
}

fn usual(alloc: Global, function: &Function) -> Result<String, AllocError> {
    let (rows, wanted, _) = function;
    let mut steps = Vec::new(alloc);
    push_steps(alloc, rows, &mut steps)?;
    told(alloc, &steps, wanted, usual_form(), &[])
}

/// Each function of these tables, of the usual form, has its text.
pub fn assert_functions<H: Abort>(
    rt: &H,
    alloc: Global,
    tables: &[&[Function]],
) -> Result<(), AllocError> {
    for functions in tables {
        for function in functions.iter() {
            assert_told(rt, usual(alloc, function), function.2)?;
        }
    }
    Ok(())
}
