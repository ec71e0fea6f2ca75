//! The functions of adapters.
ghost use Rattle.std.specs.Prelude.{◌≡◌, ◌++◌, codes, IfOk, Some, is_some, true};
ghost use Rattle.std.specs.Fmt.{decimal};
ghost use Rattle.glue_steps.specs.Resolving as resolving;
ghost use Rattle.glue_context.specs.Functions as spec;

use glue_binding::bind;
use glue_imports::Basis;
use glue_operands::Form;
use glue_scope::Names;
use glue_shared::{AdapterId, AuxExport, AuxExportKind, Lowered};
use glue_steps::{Indexed, Step, adapter_steps};
use glue_tree::JsFunction;
use glue_words::Word;
use std::alloc::{AllocError, Global};
use values::{Duplicate, Seq, Text};

// `arg` and the numbers below a count.
#[tactic(auto, using(crate::proofs::Lists::name_steps))]
fn default_names(alloc: Global, count: usize) -> Result<Seq<Text>, AllocError>
    ensures names { IfOk result (λ names. names ≡ spec.default_names count 0) }
{
    let mut names = Seq::new(alloc);
    for number in 0..count {
        names.push(Text::new(format!(in alloc; "arg{number}")?))?;
    }
    Ok(names)
}

// The names that are wanted for parameters.
fn wanted_names(alloc: Global, names: &Seq<Text>, count: usize) -> Result<Seq<Text>, AllocError>
    ensures names { IfOk result (λ wanted. wanted ≡ spec.wanted_names names.now count) }
{
    if names.is_empty() {
        default_names(alloc, count)
    } else {
        names.copy(alloc)
    }
}

// Those of the parameters that are printed: all but the first, where `this` stands in its place.
fn without_this(takes_this: bool, wanted: &[Text]) -> &[Text]
    ensures names { result.now ≡ spec.without_this takes_this wanted.now }
{
    if !takes_this {
        return wanted;
    }
    match wanted {
        [_, others @ ..] => others,
        [] => wanted,
    }
}

// Whether a function takes `this`.
fn is_this(kind: AuxExportKind) -> bool
    ensures test { result ≡ spec.is_this kind }
{
    matches!(kind, AuxExportKind::FunctionThis)
}

/// The form of the function of an export.
pub(crate) fn form_of(export: &AuxExport) -> Form
    ensures form { result ≡ spec.form_of export.now }
{
    Form {
        takes_this: is_this(export.kind),
        has_rest: export.variadic,
    }
}

// How many arguments an adapter has.
fn argument_count(lowered: &Lowered, id: AdapterId) -> usize
    ensures count { result ≡ spec.argument_count lowered.now id }
{
    match lowered.wit.adapters.get(&id) {
        None => 0,
        Some(adapter) => adapter.args.len(),
    }
}

// The steps of an adapter that is known to have some.
fn known_steps(
    alloc: Global,
    basis: &Basis<'_>,
    indexed: &Indexed<'_>,
    id: AdapterId,
) -> Result<Seq<Step>, AllocError>
    requires told { is_some (resolving.adapter_steps basis.now.settings.now basis.now.names.now indexed.now id) ≡ true }
    ensures steps { IfOk result (λ steps. resolving.adapter_steps basis.now.settings.now basis.now.names.now indexed.now id ≡ Some steps) }
{
    match adapter_steps(alloc, basis, indexed, id)? {
        Some(steps) => Ok(steps),
        None => unreachable!(),
    }
}

/// The function of a form of an adapter that is known to have steps, with parameters of these names, where others stand around it in the same item.
/// Want of memory is the only error.
pub(crate) fn adapter_function<N: Names>(
    alloc: Global,
    basis: &Basis<'_>,
    indexed: &Indexed<'_>,
    id: AdapterId,
    form: Form,
    names: &Seq<Text>,
    around: &[Text],
) -> Result<JsFunction, AllocError>
    requires told { is_some (resolving.adapter_steps basis.now.settings.now basis.now.names.now indexed.now id) ≡ true }
    ensures function { IfOk result (λ function. spec.IsFunctionOf basis.now.settings.now basis.now.names.now indexed.now id form names.now around.now function) }
{
    let steps = known_steps(alloc, basis, indexed, id)?;
    let wanted = wanted_names(alloc, names, argument_count(indexed.lowered(), id))?;
    let own = without_this(form.takes_this, wanted.as_slice());
    let function = bind::<N>(alloc, steps.as_slice(), own, form, around)?;
    Ok(function)
}

/// The words of a function, without the rest of it.
pub(crate) fn words_of(function: JsFunction) -> Seq<Word>
    ensures words { result ≡ function.words }
{
    function.words
}
