//! The imports that the glue file defines, as a set of places and by their names.
ghost use Rattle.std.specs.Prelude.{◌≡◌, ◌++◌, IfOk, OnOk, map};
ghost use Rattle.std.specs.List.{flat_map};
ghost use Rattle.wasm_core.specs.ids.ImportId.{ImportId};
ghost use Rattle.std.specs.Option.{option_copied};
ghost use Rattle.glue_shared.specs.Names as names;
ghost use Rattle.glue_steps.specs.Resolving.{entry_at};
ghost use Rattle.glue_shared.specs.Names.{implemented};

use glue_faults::IdSet;
use glue_shared::{Lowered, NonstandardWitSection, Settings, own_imports};
use std::alloc::{AllocError, Global};
use values::{Duplicate, Seq, Text};
use wasm_core::{Import, ImportId};

// The places of a list, as a set.
fn place_set(alloc: Global, ids: &[ImportId]) -> Result<IdSet, AllocError>
    ensures places { IfOk result (λ places. places ≡ map (λ (id : ImportId). id.0) ids.now) }
{
    let mut places = IdSet::new(alloc);
    for id in ids {
        places = places.with(id.0)?;
    }
    Ok(places)
}

/// The places of the imports that adapters stand for. Want of memory is the only error.
pub fn paired_places(alloc: Global, wit: &NonstandardWitSection) -> Result<IdSet, AllocError>
    ensures places { IfOk result (λ places. places ≡ implemented wit.now) }
{
    let mut places = IdSet::new(alloc);
    for pair in wit.implements.as_slice() {
        places = places.with(pair.0.0)?;
    }
    Ok(places)
}

/// The ids of the imports that the glue file defines, in order. Want of memory is the only error.
pub fn own_ids(
    alloc: Global,
    settings: &Settings,
    lowered: &Lowered,
) -> Result<Seq<ImportId>, AllocError>
    ensures ids { IfOk result (λ ids. map (λ (id : ImportId). id.0) ids ≡ names.own_imports settings.now lowered.now.«module» lowered.now.wit lowered.now.aux) }
{
    own_imports(alloc, settings, &lowered.module, &lowered.wit, &lowered.aux)
}

/// The places of the imports that the glue file defines. Want of memory is the only error.
pub fn own_places(
    alloc: Global,
    settings: &Settings,
    lowered: &Lowered,
) -> Result<IdSet, AllocError>
    ensures places { IfOk result (λ places. places ≡ names.own_imports settings.now lowered.now.«module» lowered.now.wit lowered.now.aux) }
{
    let ids = own_ids(alloc, settings, lowered)?;
    place_set(alloc, ids.as_slice())
}

/// The import at a place, if one stands there.
pub fn import_at(imports: &[Option<Import>], place: ImportId) -> Option<&Import>
    ensures found { option_copied result ≡ entry_at imports.now place.0 }
{
    imports.get(place.0 as usize)?.as_ref()
}

// Adds the name of the import at a place, where one stands there.
#[tactic(auto, using(crate::proofs::OwnNames::name_added, crate::proofs::OwnNames::none_added))]
fn push_name(
    alloc: Global,
    imports: &[Option<Import>],
    place: ImportId,
    texts: &mut Seq<Text>,
) -> Result<(), AllocError>
    ensures pushed { OnOk result (texts.new ≡ texts.old ++ names.name_at place.0 imports.now) }
{
    match import_at(imports, place) {
        None => Ok(()),
        Some(import) => {
            texts.push(import.name.copy(alloc)?)?;
            Ok(())
        }
    }
}

// The names of the imports at these places.
fn names_at(
    alloc: Global,
    imports: &[Option<Import>],
    places: &[ImportId],
) -> Result<Seq<Text>, AllocError>
    ensures texts { IfOk result (λ texts. texts ≡ flat_map (λ (id : ImportId). names.name_at id.0 imports.now) places.now) }
{
    let mut texts = Seq::new(alloc);
    for place in places {
        push_name(alloc, imports, *place, &mut texts)?;
    }
    Ok(texts)
}

/// The names of the imports that the glue file defines, in order. Want of memory is the only error.
pub fn own_names(
    alloc: Global,
    settings: &Settings,
    lowered: &Lowered,
) -> Result<Seq<Text>, AllocError>
    ensures texts { IfOk result (λ texts. texts ≡ names.own_names settings.now lowered.now.«module» lowered.now.wit lowered.now.aux) }
{
    let ids = own_ids(alloc, settings, lowered)?;
    names_at(alloc, lowered.module.imports(), ids.as_slice())
}
