//! The lines of a note that tell the types of a function.
ghost use Rattle.std.specs.Prelude.{◌≡◌, IfOk};
ghost use Rattle.type_texts.specs.Notes as spec;

use crate::texts::type_text;
use glue_shared::{Adapter, AdapterType, AuxExport, AuxExportKind, NameMap};
use std::alloc::{AllocError, Global};
use values::{Seq, Text};

// `@param {T} p`.
fn param_line(alloc: Global, ty: &Text, name: &Text) -> Result<Text, AllocError>
    ensures line { IfOk result (λ line. line ≡ spec.param_line ty.now name.now) }
{
    let mut line = Text::from_str(alloc, "@param {")?;
    line.push_str(ty.as_str())?;
    line.push_str("} ")?;
    line.push_str(name.as_str())?;
    Ok(line)
}

// A line for each type and the name beside it.
fn param_lines(
    alloc: Global,
    buffers: bool,
    names: &NameMap,
    types: &[AdapterType],
    params: &[Text],
) -> Result<Seq<Text>, AllocError>
    ensures lines { IfOk result (λ lines. lines ≡ spec.param_lines buffers names.now types.now params.now) }
{
    let mut lines = Seq::new(alloc);
    let mut rest = params;
    for ty in types {
        match rest.split_first() {
            None => return Ok(lines),
            Some((name, others)) => {
                let text = type_text(alloc, buffers, names, ty)?;
                lines.push(param_line(alloc, &text, name)?)?;
                rest = others;
            }
        }
    }
    Ok(lines)
}

// What stands behind the first of these.
fn behind_first(types: &[AdapterType]) -> &[AdapterType]
    ensures types { result.now ≡ spec.behind_first types.now }
{
    match types.split_first() {
        Some((_, others)) => others,
        None => types,
    }
}

// The types of the parameters of a signature, which leaves out `this`.
fn signature_types(kind: AuxExportKind, types: &[AdapterType]) -> &[AdapterType]
    ensures types { result.now ≡ spec.signature_types kind types.now }
{
    match kind {
        AuxExportKind::FunctionThis => behind_first(types),
        _ => types,
    }
}

// The text of what a function answers.
fn answer_text(
    alloc: Global,
    buffers: bool,
    names: &NameMap,
    results: &[AdapterType],
) -> Result<Text, AllocError>
    ensures text { IfOk result (λ text. text ≡ spec.answer_text buffers names.now results.now) }
{
    match results.split_first() {
        None => Text::from_str(alloc, "void"),
        Some((ty, _)) => type_text(alloc, buffers, names, ty),
    }
}

// A promise of it, where the function is async.
fn promised(alloc: Global, asyncness: bool, answer: Text) -> Result<Text, AllocError>
    ensures text { IfOk result (λ text. text ≡ spec.promised asyncness answer) }
{
    match asyncness {
        false => Ok(answer),
        true => {
            let mut text = Text::from_str(alloc, "Promise<")?;
            text.push_str(answer.as_str())?;
            text.push_str(">")?;
            Ok(text)
        }
    }
}

// `@returns {R}`.
fn returns_line(alloc: Global, answer: &Text) -> Result<Text, AllocError>
    ensures line { IfOk result (λ line. line ≡ spec.returns_line answer.now) }
{
    let mut line = Text::from_str(alloc, "@returns {")?;
    line.push_str(answer.as_str())?;
    line.push_str("}")?;
    Ok(line)
}

// This line, where the answer isn't `void`.
fn told_answer(alloc: Global, answer: &Text) -> Result<Seq<Text>, AllocError>
    ensures lines { IfOk result (λ lines. lines ≡ spec.told_answer answer.now) }
{
    let mut lines = Seq::new(alloc);
    if answer.as_str() == "void" {
        Ok(lines)
    } else {
        lines.push(returns_line(alloc, answer)?)?;
        Ok(lines)
    }
}

// The same, but for a constructor, whose signature has no answer.
fn returns_lines(alloc: Global, kind: AuxExportKind, answer: &Text) -> Result<Seq<Text>, AllocError>
    ensures lines { IfOk result (λ lines. lines ≡ spec.returns_lines kind answer.now) }
{
    match kind {
        AuxExportKind::Constructor => Ok(Seq::new(alloc)),
        _ => told_answer(alloc, answer),
    }
}

/// The lines that tell the types of an export's adapter, the parameters of whose signature have these names: `@param {T} p` for each of them,
/// and `@returns {R}` where it answers something. The signature of a function that takes `this` leaves out the first parameter,
/// that of a constructor has no answer, and an async function answers a promise. Want of memory is the only error.
pub fn signature_lines(
    alloc: Global,
    buffers: bool,
    names: &NameMap,
    export: &AuxExport,
    adapter: &Adapter,
    params: &[Text],
) -> Result<Seq<Text>, AllocError>
    ensures lines { IfOk result (λ lines. lines ≡ spec.signature_lines buffers names.now export.now adapter.now params.now) }
{
    let types = signature_types(export.kind, adapter.args.as_slice());
    let mut lines = param_lines(alloc, buffers, names, types, params)?;
    let answer = answer_text(alloc, buffers, names, adapter.results.as_slice())?;
    let answer = promised(alloc, export.asyncness, answer)?;
    lines.append(returns_lines(alloc, export.kind, &answer)?)?;
    Ok(lines)
}
