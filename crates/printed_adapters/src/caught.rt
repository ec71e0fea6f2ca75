//! What imports throw that the glue file defines by functions of adapters: whether it is caught, and handed to the module.
ghost use Rattle.std.specs.Prelude.{◌≡◌, IfOk};
ghost use Rattle.std.specs.List.{list_any};
ghost use Rattle.std.specs.Option.{option_copied};
ghost use Rattle.printed_adapters.specs.Caught as spec;
ghost use Rattle.printed_adapters.specs.Printed.{code_by};

use crate::own::own_places;
use glue_faults::IdSet;
use glue_shared::{AdapterId, AuxImport, Instruction, Intrinsic, Lowered, Settings, code_of};
use glue_steps::Indexed;
use std::alloc::{AllocError, Global};
use wasm_core::ImportId;

// Whether an import throws because it is called for that.
fn is_thrower(import: Option<&AuxImport>) -> bool
    ensures test { result ≡ spec.is_thrower (option_copied import.entry) }
{
    match import {
        Some(AuxImport::Intrinsic(intrinsic)) => {
            matches!(intrinsic, Intrinsic::Throw | Intrinsic::Rethrow)
        }
        _ => false,
    }
}

// Whether an instruction calls such an import.
fn calls_thrower(indexed: &Indexed<'_>, instruction: &Instruction) -> bool
    ensures test { result ≡ spec.calls_thrower indexed.now instruction.now }
{
    match instruction {
        Instruction::CallAdapter(id) => is_thrower(indexed.described_import(*id)),
        _ => false,
    }
}

// Whether one of these does.
fn any_calls_thrower(indexed: &Indexed<'_>, code: &[Instruction]) -> bool
    ensures test { result ≡ list_any (spec.calls_thrower indexed.now) code.now }
{
    code.iter()
        .any(|instruction| calls_thrower(indexed, instruction))
}

/// Whether what the import throws that an adapter calls is caught, and handed to the module.
pub fn is_caught(indexed: &Indexed<'_>, id: AdapterId) -> bool
    ensures test { result ≡ spec.is_caught indexed.now id }
{
    let lowered = indexed.lowered();
    indexed.is_listed_caught(id)
        && !lowered.aux.js_tag.is_some()
        && !any_calls_thrower(indexed, code_of(lowered.wit.adapters.get(&id)))
}

// Whether that of a pair is, where its import is one of these.
fn is_caught_pair(own: &IdSet, indexed: &Indexed<'_>, pair: &(ImportId, AdapterId)) -> bool
    ensures test { result ≡ spec.is_caught_pair own.now indexed.now pair.now }
{
    own.has(pair.0.0) && is_caught(indexed, pair.1)
}

// Whether one of these is.
fn is_any_caught(own: &IdSet, indexed: &Indexed<'_>, pairs: &[(ImportId, AdapterId)]) -> bool
    ensures test { result ≡ list_any (spec.is_caught_pair own.now indexed.now) pairs.now }
{
    pairs.iter().any(|pair| is_caught_pair(own, indexed, pair))
}

/// Whether the glue file catches what an import throws that it defines, so that it needs the function which hands that to the module. Want of
/// memory is the only error.
pub fn catches(alloc: Global, settings: &Settings, lowered: &Lowered) -> Result<bool, AllocError>
    ensures test { IfOk result (λ test. test ≡ spec.catches settings.now lowered.now) }
{
    let own = own_places(alloc, settings, lowered)?;
    let indexed = Indexed::new(alloc, lowered)?;
    Ok(is_any_caught(&own, &indexed, lowered.wit.implements.as_slice()))
}
