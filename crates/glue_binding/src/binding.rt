//! From steps to a function of a form.
ghost use Rattle.std.specs.Prelude.{◌≡◌, [], false, IfOk};
ghost use Rattle.glue_operands.specs.Nesting.{nests_too_often};
ghost use Rattle.glue_binding.specs.Binding.{IsBoundFunction};

use crate::body::body_of;
use crate::draw::{draw, temporaries_of};
use crate::seed::{reserve_names, reserve_seed};
use glue_operands::{Form, check_nesting, form_words_of, parameters_of};
use glue_scope::Names;
use glue_steps::Step;
use glue_tree::JsFunction;
use std::alloc::{AllocError, Global};
use values::{Seq, Text};

/// The JavaScript function of an adapter's steps and of a form, with parameters that are drawn for the wanted names: one for each that is
/// printed, so that none is wanted for `this`. Its parameters and temporaries are called otherwise than the names that its words use from outside,
/// and than those that stand around it in the same item.
///
/// Where a step names a parameter that isn't there, or finds no operand, `null` stands for it, in the text as in the
/// meaning; the steps of a checked adapter never come there. The only error is want of memory; more than 5,000 steps that nest, as
/// cleanups and readings as unsigned do, come to it. Documentation and TypeScript signature are empty.
pub fn bind<N: Names>(
    alloc: Global,
    steps: &[Step],
    wanted: &[Text],
    form: Form,
    around: &[Text],
) -> Result<JsFunction, AllocError>
    ensures function { IfOk result (λ f. IsBoundFunction form steps.now wanted.now around.now f) }
    ensures few { IfOk result (λ f. nests_too_often steps.now ≡ false) }
{
    check_nesting(steps)?;
    let mut scope = N::new(alloc);
    reserve_seed(alloc, &mut scope, steps)?;
    reserve_names(&mut scope, around)?;
    let params = draw(alloc, &mut scope, wanted)?;
    let others = temporaries_of(alloc, steps)?;
    let temps = draw(alloc, &mut scope, others.as_slice())?;
    let known = parameters_of(alloc, form, params.as_slice())?;
    let tree = body_of(alloc, steps, known, temps)?;
    let words = form_words_of(alloc, form, params.as_slice(), tree.as_slice())?;
    Ok(JsFunction {
        params,
        tree,
        words,
        ts_sig: empty(alloc),
        ts_doc: empty(alloc),
        js_doc: empty(alloc),
    })
}

// An empty text.
fn empty(alloc: Global) -> Text
    ensures { result ≡ [] }
{
    Text::new(String::new(alloc))
}
