//! What becomes of what the imports throw that the glue file defines by functions of adapters: the module gets it as it is, or it is caught by
//! `handleError` and handed to the module.
ghost use Rattle.std.specs.Prelude.{◌≡◌, ◌++◌, pos, IfOk, OnOk};
ghost use Rattle.std.specs.List.{list_all};
ghost use Rattle.std.specs.Option.{option_copied};
ghost use Rattle.glue_context.specs.Handing as spec;

use glue_shared::AdapterId;
use glue_steps::{Indexed, function_type};
use glue_words::{Item, Role, Word, WordBuilder, key, punct};
use printed_adapters::is_caught;
use std::alloc::{AllocError, Global};
use values::{Duplicate, Seq, Text};
use wasm_core::{FuncType, ImportId, ImportKind, Module, ValType};

/// What becomes of what an import throws.
#[derive(Clone, Copy)]
pub(crate) enum Throws {
    /// The module gets it as it is.
    Left,
    /// It is caught and handed to the module. For a call that threw the import then answers nothing, or `0n` where its result has 64 bits
    /// (`wide`).
    Handed { wide: bool },
}

// ---- which of these

fn is_i64(ty: ValType) -> bool
    ensures test { result ≡ spec.is_i64 ty }
{
    matches!(ty, ValType::I64)
}

// Whether a function has one result, of 64 bits.
fn is_wide(ty: Option<&FuncType>) -> bool
    ensures test { result ≡ spec.is_wide (option_copied ty.entry) }
{
    match ty {
        None => false,
        Some(ty) => {
            let results = ty.results.as_slice();
            results.len() == 1 && results.iter().all(|given| is_i64(*given))
        }
    }
}

// Whether an import of this kind brings in such a function.
fn gives_wide(module: &Module, kind: ImportKind) -> bool
    ensures test { result ≡ spec.gives_wide «module».now kind }
{
    match kind {
        ImportKind::Func(id) => is_wide(function_type(module, id)),
        _ => false,
    }
}

/// What becomes of what the import throws that an adapter calls, where the adapter stands for an import of this kind.
pub(crate) fn throws_of(indexed: &Indexed<'_>, id: AdapterId, kind: ImportKind) -> Throws
    ensures throws { result ≡ spec.throws_of indexed.now id kind }
{
    if is_caught(indexed, id) {
        Throws::Handed {
            wide: gives_wide(&indexed.lowered().module, kind),
        }
    } else {
        Throws::Left
    }
}

// ---- the definition

/// The names that stand around the adapter's function. Want of memory is the only error.
pub(crate) fn names_around(alloc: Global, throws: Throws) -> Result<Seq<Text>, AllocError>
    ensures names { IfOk result (λ names. names ≡ spec.names_around throws) }
{
    let mut names = Seq::new(alloc);
    if let Throws::Handed { .. } = throws {
        names.push(Text::from_str(alloc, "handleError")?)?;
    }
    Ok(names)
}

// `() { return handleError(function `, where it is caught.
fn caller_front(alloc: Global, throws: Throws) -> Result<Seq<Word>, AllocError>
    ensures words { IfOk result (λ words. words ≡ spec.caller_front throws) }
{
    let mut words = WordBuilder::new(alloc);
    if let Throws::Handed { .. } = throws {
        words.punct(punct::OPEN_PAREN)?;
        words.punct(punct::CLOSE_PAREN)?;
        words.space()?;
        words.punct(punct::OPEN_BRACE)?;
        words.space()?;
        words.key(key::RETURN)?;
        words.space()?;
        words.push(Word::Refer(Text::from_str(alloc, "handleError")?, false))?;
        words.punct(punct::OPEN_PAREN)?;
        words.key(key::FUNCTION)?;
        words.space()?;
    }
    Ok(words.finish())
}

// ` ?? 0n`, where the result has 64 bits.
fn fallback(alloc: Global, wide: bool) -> Result<Seq<Word>, AllocError>
    ensures words { IfOk result (λ words. words ≡ spec.fallback wide) }
{
    let mut words = WordBuilder::new(alloc);
    if wide {
        words.space()?;
        words.punct(punct::COALESCE)?;
        words.space()?;
        words.push(Word::Num(0))?;
        words.key(key::N)?;
    }
    Ok(words.finish())
}

// `, arguments); }`, where it is caught.
fn caller_back(alloc: Global, throws: Throws) -> Result<Seq<Word>, AllocError>
    ensures words { IfOk result (λ words. words ≡ spec.caller_back throws) }
{
    let mut words = WordBuilder::new(alloc);
    if let Throws::Handed { wide } = throws {
        words.punct(punct::COMMA)?;
        words.space()?;
        words.key(key::ARGUMENTS)?;
        words.punct(punct::CLOSE_PAREN)?;
        words.append(fallback(alloc, wide)?)?;
        words.punct(punct::SEMICOLON)?;
        words.space()?;
        words.punct(punct::CLOSE_BRACE)?;
    }
    Ok(words.finish())
}

/// The definition of an import by the function of its adapter. Want of memory is the only error.
pub(crate) fn define_function(
    alloc: Global,
    throws: Throws,
    place: ImportId,
    name: &Text,
    function: Seq<Word>,
) -> Result<Item, AllocError>
    ensures item { IfOk result (λ item. item ≡ spec.define_item throws place.0 name.now function) }
{
    let mut words = WordBuilder::new(alloc);
    words.push(Word::Outer(name.copy(alloc)?))?;
    words.punct(punct::COLON)?;
    words.space()?;
    words.key(key::FUNCTION)?;
    words.append(caller_front(alloc, throws)?)?;
    words.append(function)?;
    words.append(caller_back(alloc, throws)?)?;
    words.punct(punct::COMMA)?;
    words.line_feed()?;
    Ok(Item {
        role: Role::Define(place.0),
        words: words.finish(),
    })
}
