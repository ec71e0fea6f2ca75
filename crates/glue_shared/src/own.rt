//! The imports that the glue file defines.
ghost use Rattle.std.specs.Prelude.{◌≡◌, ◌++◌, IfOk, OnOk, map};
ghost use Rattle.std.specs.List.{flat_map};
ghost use Rattle.glue_shared.specs.Indexed as indexed;
ghost use Rattle.glue_shared.specs.Names as spec;

use crate::adapter::{AdapterId, NonstandardWitSection};
use crate::aux::WasmBindgenAux;
use crate::direct::{is_direct, is_emscripten};
use crate::ids::IdSet;
use crate::indexed::IndexedAux;
use crate::settings::Settings;
use std::alloc::{AllocError, Global};
use values::Seq;
use wasm_core::{Import, ImportId, Memory, Module};

// The places of the imports that adapters define.
fn implemented(alloc: Global, pairs: &[(ImportId, AdapterId)]) -> Result<IdSet, AllocError>
    ensures places { IfOk result (λ places. places ≡ map (λ pair. pair.0.0) pairs.now) }
{
    let mut places = IdSet::new(alloc);
    for pair in pairs {
        places = places.with(pair.0.0)?;
    }
    Ok(places)
}

// These places, with that of an import whose adapter only hands on.
fn with_handed_on(
    settings: &Settings,
    wit: &NonstandardWitSection,
    aux: &IndexedAux<'_>,
    places: IdSet,
    pair: &(ImportId, AdapterId),
) -> Result<IdSet, AllocError>
    ensures places { IfOk result (λ more. more ≡ places ++ indexed.handed_place settings.now wit.now aux.now pair.now) }
{
    if is_direct(settings, wit, aux, pair.1) {
        places.with(pair.0.0)
    } else {
        Ok(places)
    }
}

// The places of the imports of these pairs whose adapters only hand on.
fn handed_places(
    alloc: Global,
    settings: &Settings,
    wit: &NonstandardWitSection,
    aux: &IndexedAux<'_>,
    pairs: &[(ImportId, AdapterId)],
) -> Result<IdSet, AllocError>
    ensures places { IfOk result (λ places. places ≡ flat_map (indexed.handed_place settings.now wit.now aux.now) pairs.now) }
{
    let mut places = IdSet::new(alloc);
    for pair in pairs {
        places = with_handed_on(settings, wit, aux, places, pair)?;
    }
    Ok(places)
}

// The places at which the described name itself can be the import.
fn handed_on(
    alloc: Global,
    settings: &Settings,
    wit: &NonstandardWitSection,
    aux: &WasmBindgenAux,
) -> Result<IdSet, AllocError>
    ensures places { IfOk result (λ places. places ≡ flat_map (indexed.handed_place settings.now wit.now aux.now) wit.now.implements) }
{
    let indexed = IndexedAux::new(alloc, aux)?;
    handed_places(alloc, settings, wit, &indexed, wit.implements.as_slice())
}

// Whether the import at a place brings in a memory.
fn is_imported_at(memory: &Memory, place: ImportId) -> bool
    ensures test { result ≡ spec.is_imported_at place.0 memory.now }
{
    match memory.import {
        Some(id) => id.0 == place.0,
        None => false,
    }
}

// Whether the first memory is imported by the import at a place.
fn is_first_memory(memories: &[Option<Memory>], place: ImportId) -> bool
    ensures test { result ≡ spec.is_first_of place.0 memories.now }
{
    for memory in memories {
        if let Some(memory) = memory {
            return is_imported_at(memory, place);
        }
    }
    false
}

// Whether the glue file defines the import.
fn is_own(
    settings: &Settings,
    module: &Module,
    implemented: &IdSet,
    handed_on: &IdSet,
    place: ImportId,
    import: &Import,
) -> bool
    ensures test { result ≡ indexed.is_own_by settings.now «module».now implemented.now handed_on.now place.0 import.now }
{
    let is_ours = import.module.as_str() == "__wbindgen_placeholder__"
        || implemented.has(place.0)
        || (!is_emscripten(&settings.target) && is_first_memory(module.memories(), place));
    is_ours && !handed_on.has(place.0)
}

// The id of a place. Places past the last id stand for want of memory.
fn import_id(place: usize) -> Result<ImportId, AllocError>
    ensures id { IfOk result (λ id. id.0 ≡ place) }
{
    if place < 4_294_967_296 {
        Ok(ImportId(place as u32))
    } else {
        Err(AllocError)
    }
}

// Adds the place of an import that stands and that the glue file defines.
fn push_own(
    settings: &Settings,
    module: &Module,
    implemented: &IdSet,
    handed_on: &IdSet,
    place: usize,
    import: &Option<Import>,
    places: &mut Seq<ImportId>,
) -> Result<(), AllocError>
    ensures pushed { OnOk result (map (λ id. id.0) places.new ≡ map (λ id. id.0) places.old ++ spec.own_place (indexed.is_own_by settings.now «module».now implemented.now handed_on.now) place import.now) }
{
    if let Some(import) = import {
        let id = import_id(place)?;
        if is_own(settings, module, implemented, handed_on, id, import) {
            places.push(id)?;
        }
    }
    Ok(())
}

// The places of the imports that the glue file defines, by the places that are known.
fn own_places(
    alloc: Global,
    settings: &Settings,
    module: &Module,
    implemented: &IdSet,
    handed_on: &IdSet,
) -> Result<Seq<ImportId>, AllocError>
    ensures places { IfOk result (λ places. map (λ id. id.0) places ≡ spec.own_places (indexed.is_own_by settings.now «module».now implemented.now handed_on.now) 0 «module».now.imports) }
{
    let mut places = Seq::new(alloc);
    for (place, import) in module.imports().iter().enumerate() {
        push_own(
            settings,
            module,
            implemented,
            handed_on,
            place,
            import,
            &mut places,
        )?;
    }
    Ok(places)
}

/// The places of the imports that the glue file defines, in order. Want of memory is the only error.
pub fn own_imports(
    alloc: Global,
    settings: &Settings,
    module: &Module,
    wit: &NonstandardWitSection,
    aux: &WasmBindgenAux,
) -> Result<Seq<ImportId>, AllocError>
    ensures places { IfOk result (λ places. map (λ id. id.0) places ≡ spec.own_imports settings.now «module».now wit.now aux.now) }
{
    let implemented = implemented(alloc, wit.implements.as_slice())?;
    let handed_on = handed_on(alloc, settings, wit, aux)?;
    let places = own_places(alloc, settings, module, &implemented, &handed_on)?;
    Ok(places)
}
