//! Own imports, and imports with the adapters that stand for them, in the order in which they are gone through.
ghost use Rattle.std.specs.Prelude.{◌≡◌, ◌++◌, ◌∷◌, [], IfOk, OnOk, filter, map};
ghost use Rattle.wasm_core.specs.ids.ImportId.{ImportId};
ghost use Rattle.glue_shared.specs.Names.{own_imports};
ghost use Rattle.glue_naming.specs.Arranged.{IsArranged};
ghost use Rattle.glue_naming.specs.Pairs as spec;

use glue_check::{own_ids, own_places};
use glue_shared::{AdapterId, IdSet, Lowered, Settings};
use std::alloc::{AllocError, Global};
use std::cmp::Ordering;
use wasm_core::ImportId;

// The name of the import at a place, where one stands.
fn place_name(lowered: &Lowered, place: ImportId) -> &str
    ensures name { result.now ≡ spec.place_name lowered.now place.0 }
{
    match lowered.module.imports().get(place.0 as usize) {
        Some(Some(import)) => import.name.as_str(),
        _ => "",
    }
}

// Whether a pair comes before another, or after it.
fn pair_order(lowered: &Lowered, a: &(ImportId, AdapterId), b: &(ImportId, AdapterId)) -> Ordering
    ensures order { result ≡ spec.pair_order lowered.now a.now b.now }
{
    match place_name(lowered, a.0).cmp(place_name(lowered, b.0)) {
        Ordering::Equal => a.1.0.cmp(&b.1.0),
        order => order,
    }
}

// These pairs by the import's name, and then by the adapter's id.
fn sorted_pairs(
    lowered: &Lowered,
    pairs: Vec<(ImportId, AdapterId)>,
) -> Result<Vec<(ImportId, AdapterId)>, AllocError>
    ensures sorted { IfOk result (λ sorted. IsArranged (spec.pair_order lowered.now) pairs.items sorted.items) }
{
    let mut sorted = pairs;
    sorted.sort_by(|a, b| pair_order(lowered, a, b))?;
    Ok(sorted)
}

/// The pairs by the import's name, and then by the adapter's id. Want of memory is the only error.
pub fn pairs_by_import(
    alloc: Global,
    lowered: &Lowered,
) -> Result<Vec<(ImportId, AdapterId)>, AllocError>
    ensures sorted { IfOk result (λ sorted. IsArranged (spec.pair_order lowered.now) lowered.now.wit.implements sorted.items) }
{
    let pairs = Vec::from_slice(alloc, lowered.wit.implements.as_slice())?;
    sorted_pairs(lowered, pairs)
}

// Adds a pair, where its import is one of these.
fn push_own(
    own: &IdSet,
    pair: &(ImportId, AdapterId),
    pairs: &mut Vec<(ImportId, AdapterId)>,
) -> Result<(), AllocError>
    ensures pushed { OnOk result (pairs.new.items ≡ pairs.old.items ++ filter (spec.is_among own.now) (pair.now ∷ [])) }
{
    if own.has(pair.0.0) {
        pairs.push(*pair)?;
    }
    Ok(())
}

// Those of these pairs whose imports are among these.
fn pairs_among(
    alloc: Global,
    own: &IdSet,
    pairs: &[(ImportId, AdapterId)],
) -> Result<Vec<(ImportId, AdapterId)>, AllocError>
    ensures among { IfOk result (λ among. among.items ≡ filter (spec.is_among own.now) pairs.now) }
{
    let mut among = Vec::new(alloc);
    for pair in pairs {
        push_own(own, pair, &mut among)?;
    }
    Ok(among)
}

/// The pairs of the imports that the glue file defines, by the import's name, and then by the adapter's id. Want of memory is the only
/// error.
pub fn own_pairs_by_import(
    alloc: Global,
    settings: &Settings,
    lowered: &Lowered,
) -> Result<Vec<(ImportId, AdapterId)>, AllocError>
    ensures sorted { IfOk result (λ sorted. IsArranged (spec.pair_order lowered.now) (spec.own_pairs settings.now lowered.now) sorted.items) }
{
    let own = own_places(alloc, settings, lowered)?;
    let pairs = pairs_among(alloc, &own, lowered.wit.implements.as_slice())?;
    sorted_pairs(lowered, pairs)
}

// Whether a place comes before another, or after it.
fn place_order(lowered: &Lowered, a: ImportId, b: ImportId) -> Ordering
    ensures order { result ≡ spec.place_order lowered.now a.0 b.0 }
{
    match place_name(lowered, a).cmp(place_name(lowered, b)) {
        Ordering::Equal => a.0.cmp(&b.0),
        order => order,
    }
}

// These places by the import's name, and then by their numbers.
fn sorted_places(lowered: &Lowered, places: Vec<ImportId>) -> Result<Vec<ImportId>, AllocError>
    ensures sorted { IfOk result (λ sorted. IsArranged (spec.place_order lowered.now) (map (λ (id : ImportId). id.0) places.items) (map (λ (id : ImportId). id.0) sorted.items)) }
{
    let mut sorted = places;
    sorted.sort_by(|a, b| place_order(lowered, *a, *b))?;
    Ok(sorted)
}

/// The places of the imports that the glue file defines, by the import's name, and then by their numbers. Want of memory is the only error.
pub fn own_places_by_name(
    alloc: Global,
    settings: &Settings,
    lowered: &Lowered,
) -> Result<Vec<ImportId>, AllocError>
    ensures sorted { IfOk result (λ sorted. IsArranged (spec.place_order lowered.now) (own_imports settings.now lowered.now.«module» lowered.now.wit lowered.now.aux) (map (λ (id : ImportId). id.0) sorted.items)) }
{
    let own = own_ids(alloc, settings, lowered)?;
    let places = Vec::from_slice(alloc, own.as_slice())?;
    sorted_places(lowered, places)
}
