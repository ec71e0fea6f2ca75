//! Room for results on the stack of the module: whether adapters that become functions take any.
ghost use Rattle.std.specs.Prelude.{◌≡◌, IfOk};
ghost use Rattle.std.specs.List.{list_any};
ghost use Rattle.glue_steps.specs.Room as room;
ghost use Rattle.printed_adapters.specs.Printed as spec;

use crate::closures::used_closures;
use crate::own::own_places;
use glue_faults::IdSet;
use glue_shared::{AdapterId, AuxExport, Lowered, Settings, code_of};
use glue_steps::makes_room;
use std::alloc::{AllocError, Global};
use wasm_core::ImportId;

/// The name of the function that moves the stack of the module, and of its export.
pub const SHIM: &str = "__wbindgen_add_to_stack_pointer";

// Whether an adapter takes room.
fn takes_room(lowered: &Lowered, id: AdapterId) -> bool
    ensures test { result ≡ room.makes_room (spec.code_by lowered.now id) }
{
    makes_room(code_of(lowered.wit.adapters.get(&id)))
}

// Whether that of a pair does, where its import is one of these.
fn pair_takes_room(own: &IdSet, lowered: &Lowered, pair: &(ImportId, AdapterId)) -> bool
    ensures test { result ≡ room.makes_room (spec.pair_code own.now lowered.now pair.now) }
{
    own.has(pair.0.0) && takes_room(lowered, pair.1)
}

// Whether one of these exports has an adapter that does.
fn exports_take_room(lowered: &Lowered, exports: &[AuxExport]) -> bool
    ensures test { result ≡ list_any (λ e. room.makes_room (spec.export_code lowered.now e)) exports.now }
{
    exports
        .iter()
        .any(|export| takes_room(lowered, export.adapter))
}

// Whether one of these pairs does.
fn pairs_take_room(own: &IdSet, lowered: &Lowered, pairs: &[(ImportId, AdapterId)]) -> bool
    ensures test { result ≡ list_any (λ pair. room.makes_room (spec.pair_code own.now lowered.now pair)) pairs.now }
{
    pairs.iter().any(|pair| pair_takes_room(own, lowered, pair))
}

// Whether one of these adapters does.
fn closures_take_room(lowered: &Lowered, ids: &[AdapterId]) -> bool
    ensures test { result ≡ list_any (λ id. room.makes_room (spec.code_by lowered.now id)) ids.now }
{
    ids.iter().any(|id| takes_room(lowered, *id))
}

/// Whether an adapter that becomes a function, of an export, of an own import or of a closure that is used, takes room for results on the stack of the module, so that the
/// written module has a function `SHIM` that moves the stack. Want of memory is the only error.
#[tactic(auto, using(crate::proofs::PrintedRoom::taken_by_some))]
pub fn uses_shim(alloc: Global, settings: &Settings, lowered: &Lowered) -> Result<bool, AllocError>
    ensures test { IfOk result (λ test. test ≡ spec.uses_shim settings.now lowered.now) }
{
    if exports_take_room(lowered, lowered.aux.exports.as_slice()) {
        return Ok(true);
    }
    let own = own_places(alloc, settings, lowered)?;
    if pairs_take_room(&own, lowered, lowered.wit.implements.as_slice()) {
        return Ok(true);
    }
    let used = used_closures(alloc, settings, lowered)?;
    Ok(closures_take_room(lowered, used.as_slice()))
}
