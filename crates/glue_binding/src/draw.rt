//! The names of a function: its parameters and temporaries, in a scope that holds the names from outside.
ghost use Rattle.std.specs.Prelude.{◌≡◌, ◌++◌, ◌∷◌, [], ◌+◌, ◌-◌, ◌^◌, ◌<◌, ◌≤◌, IfOk, OnOk, codes};
ghost use Rattle.glue_words.specs.Ident.{numbered};
ghost use Rattle.values.specs.TextSet.{with_texts};
ghost use Rattle.glue_scope.specs.Scope.{AreDrawn};
ghost use Rattle.glue_binding.specs.Spelling as s;

use glue_imports::Expression;
use glue_scope::Names;
use glue_steps::Step;
use std::alloc::{AllocError, Global};
use values::{Duplicate, Seq, Text};

/// Draws a name for each of the wanted ones, in order.
pub fn draw<N: Names>(
    alloc: Global,
    scope: &mut N,
    wanted: &[Text],
) -> Result<Seq<Text>, AllocError>
    ensures drawn { IfOk result (λ names. AreDrawn (N.bound scope.old) wanted.now names) }
    ensures bound { IfOk result (λ names. N.bound scope.new ≡ with_texts (N.bound scope.old) names) }
{
    let mut names = Seq::new(alloc);
    for name in wanted {
        names.push(Text::new(scope.generate(name.as_str())?))?;
    }
    Ok(names)
}

// `ret`, for a call that has a result.
fn push_result(alloc: Global, has_result: bool, wanted: &mut Seq<Text>) -> Result<(), AllocError>
    ensures wanted { OnOk result (wanted.new ≡ wanted.old ++ s.result_of has_result) }
{
    if has_result {
        wanted.push(Text::from_str(alloc, "ret")?)?;
    }
    Ok(())
}

// The names of the locals of the statements before an import's own.
fn push_locals(
    alloc: Global,
    expression: &Expression,
    wanted: &mut Seq<Text>,
) -> Result<(), AllocError>
    ensures wanted { OnOk result (wanted.new ≡ wanted.old ++ expression.now.locals) }
{
    wanted.append(expression.locals.copy(alloc)?)
}

// The temporaries of a call of an import.
fn push_called(
    alloc: Global,
    expression: &Expression,
    has_result: bool,
    wanted: &mut Seq<Text>,
) -> Result<(), AllocError>
    ensures wanted { OnOk result (wanted.new ≡ wanted.old ++ (expression.now.locals ++ s.result_of has_result)) }
{
    push_locals(alloc, expression, wanted)?;
    push_result(alloc, has_result, wanted)
}

// `v` and the number.
fn push_numbered(alloc: Global, count: usize, wanted: &mut Seq<Text>) -> Result<(), AllocError>
    ensures wanted { OnOk result (wanted.new ≡ wanted.old ++ numbered (codes "v") count ∷ []) }
{
    wanted.push(Text::new(format!(in alloc; "v{count}")?))?;
    Ok(())
}

// `retptr`
fn push_room(alloc: Global, wanted: &mut Seq<Text>) -> Result<(), AllocError>
    ensures wanted { OnOk result (wanted.new ≡ wanted.old ++ codes "retptr" ∷ []) }
{
    wanted.push(Text::from_str(alloc, "retptr")?)?;
    Ok(())
}

// `ptr` and `len`, each with the number.
fn push_pair(alloc: Global, count: usize, wanted: &mut Seq<Text>) -> Result<(), AllocError>
    ensures wanted { OnOk result (wanted.new ≡ wanted.old ++ numbered (codes "ptr") count
        ∷ numbered (codes "len") count
        ∷ []) }
{
    wanted.push(Text::new(format!(in alloc; "ptr{count}")?))?;
    wanted.push(Text::new(format!(in alloc; "len{count}")?))?;
    Ok(())
}

// The temporaries that a step wants, where so many before it have a numbered one.
fn push_wanted(
    alloc: Global,
    step: &Step,
    count: usize,
    wanted: &mut Seq<Text>,
) -> Result<(), AllocError>
    ensures wanted { OnOk result (wanted.new ≡ wanted.old ++ s.wanted_by step.now count) }
{
    match step {
        Step::CallExport { has_result, .. } => push_result(alloc, *has_result, wanted),
        Step::CallImport {
            has_result,
            expression,
            ..
        } => push_called(alloc, expression, *has_result, wanted),
        Step::ToUnsigned64 => push_numbered(alloc, count, wanted),
        Step::CallHelper { .. } => push_numbered(alloc, count, wanted),
        Step::IndexFromBorrow => push_numbered(alloc, count, wanted),
        Step::PassToMemory { .. } => push_pair(alloc, count, wanted),
        Step::CopyOut { .. } => push_numbered(alloc, count, wanted),
        Step::ReturnPointer { .. } => push_room(alloc, wanted),
        Step::LoadReturn { .. } => push_numbered(alloc, count, wanted),
        Step::MakeClosure { .. } => push_numbered(alloc, count, wanted),
        Step::IndexOf { .. } => push_numbered(alloc, count, wanted),
        Step::ItemAt { .. } => push_numbered(alloc, count, wanted),
        Step::Parameter(_) => Ok(()),
        Step::Unchanged => Ok(()),
        Step::ToUnsigned => Ok(()),
        Step::IsNotZero => Ok(()),
        Step::UnwrapResult { .. } => Ok(()),
        Step::DeferFree { .. } => Ok(()),
        Step::StoreReturn { .. } => Ok(()),
    }
}

// How many steps have a numbered temporary after this one, where so many have one before it.
fn counted(step: &Step, count: usize) -> usize
    requires { count < 2 ^ 64 - 1 }
    ensures count { result ≡ s.counted step.now count }
    ensures next { result ≤ count + 1 }
{
    match step {
        Step::ToUnsigned64 => count + 1,
        Step::CallHelper { .. } => count + 1,
        Step::IndexFromBorrow => count + 1,
        Step::PassToMemory { .. } => count + 1,
        Step::CopyOut { .. } => count + 1,
        Step::LoadReturn { .. } => count + 1,
        Step::MakeClosure { .. } => count + 1,
        Step::IndexOf { .. } => count + 1,
        Step::ItemAt { .. } => count + 1,
        _ => count,
    }
}

/// The temporaries that the steps want.
pub fn temporaries_of(alloc: Global, steps: &[Step]) -> Result<Seq<Text>, AllocError>
    ensures wanted { IfOk result (λ wanted. wanted ≡ s.temporaries steps.now) }
{
    let mut wanted = Seq::new(alloc);
    let mut count = 0usize;
    for step in steps {
        push_wanted(alloc, step, count, &mut wanted)?;
        count = counted(step, count);
    }
    Ok(wanted)
}
