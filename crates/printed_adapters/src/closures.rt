//! The adapters of closures that are used.
ghost use Rattle.std.specs.Prelude.{◌≡◌, ◌++◌, ◌<◌, ◌∷◌, [], All, IfOk, OnOk, length};
ghost use Rattle.std.specs.List.{flat_map};
ghost use Rattle.printed_adapters.specs.Places.{places_of};
ghost use Rattle.printed_adapters.specs.Printed as spec;

use crate::own::own_places;
use crate::places::Places;
use glue_faults::IdSet;
use glue_shared::{AdapterId, AuxExport, Instruction, Lowered, Settings, code_of};
use least_set::{Graph, search};
use std::alloc::{AllocError, Global};
use values::Seq;
use wasm_core::ImportId;

// The adapters by their places, each of which names those of the closures that its code makes.
#[derive(Drop)]
struct Makers<'a> {
    lowered: &'a Lowered,
    places: &'a Places,
}

impl<'a> Graph for Makers<'a> {
    ghost use Rattle.std.specs.Prelude.{length};
    ghost use Rattle.printed_adapters.specs.Places.{id_at, places_of};
    ghost use Rattle.printed_adapters.specs.Printed.{closures_by};

    ghost count = { λ m. length m.places.now };

    ghost names = { λ m place. places_of m.places.now (closures_by m.lowered.now (id_at m.places.now place)) };

    fn count(&self) -> usize {
        self.places.len()
    }

    fn push_names(&self, out: &mut Vec<usize>, node: usize) -> Result<(), AllocError> {
        push_adapter(self.lowered, self.places, self.places.id(node), out)
    }
}

// Appends the place of the adapter of the closure that an instruction makes, if it makes one and there is such an adapter.
fn push_made(
    places: &Places,
    instruction: &Instruction,
    out: &mut Vec<usize>,
) -> Result<(), AllocError>
    ensures pushed { OnOk result (out.new.items ≡ out.old.items ++ places_of places.now (spec.closures_in (instruction.now ∷ []))) }
{
    match instruction {
        Instruction::Closure(id, _) => match places.place(*id) {
            Some(place) => Ok(out.push(place)?),
            None => Ok(()),
        },
        _ => Ok(()),
    }
}

// Appends those of code.
fn push_code(places: &Places, code: &[Instruction], out: &mut Vec<usize>) -> Result<(), AllocError>
    ensures pushed { OnOk result (out.new.items ≡ out.old.items ++ places_of places.now (spec.closures_in code.now)) }
{
    for instruction in code {
        push_made(places, instruction, out)?;
    }
    Ok(())
}

// Appends those of an adapter's code.
fn push_adapter(
    lowered: &Lowered,
    places: &Places,
    id: AdapterId,
    out: &mut Vec<usize>,
) -> Result<(), AllocError>
    ensures pushed { OnOk result (out.new.items ≡ out.old.items ++ places_of places.now (spec.closures_by lowered.now id)) }
{
    push_code(places, code_of(lowered.wit.adapters.get(&id)), out)
}

// Appends those of a pair's, where its import is one of these.
#[tactic(auto, using(crate::proofs::PrintedEnums::none_more))]
fn push_pair(
    own: &IdSet,
    lowered: &Lowered,
    places: &Places,
    pair: &(ImportId, AdapterId),
    out: &mut Vec<usize>,
) -> Result<(), AllocError>
    ensures pushed { OnOk result (out.new.items ≡ out.old.items ++ places_of places.now (spec.closures_in (spec.pair_code own.now lowered.now pair.now))) }
{
    if !own.has(pair.0.0) {
        return Ok(());
    }
    push_adapter(lowered, places, pair.1, out)
}

// Appends those of these exports.
fn push_exports(
    lowered: &Lowered,
    places: &Places,
    exports: &[AuxExport],
    out: &mut Vec<usize>,
) -> Result<(), AllocError>
    ensures pushed { OnOk result (out.new.items ≡ out.old.items ++ places_of places.now (spec.closures_in (flat_map (spec.export_code lowered.now) exports.now))) }
{
    for export in exports {
        push_adapter(lowered, places, export.adapter, out)?;
    }
    Ok(())
}

// Appends those of these pairs.
fn push_pairs(
    own: &IdSet,
    lowered: &Lowered,
    places: &Places,
    pairs: &[(ImportId, AdapterId)],
    out: &mut Vec<usize>,
) -> Result<(), AllocError>
    ensures pushed { OnOk result (out.new.items ≡ out.old.items ++ places_of places.now (spec.closures_in (flat_map (spec.pair_code own.now lowered.now) pairs.now))) }
{
    for pair in pairs {
        push_pair(own, lowered, places, pair, out)?;
    }
    Ok(())
}

// The places of the adapters of those closures that the code of adapters of exports and own imports makes.
#[tactic(auto, using(crate::proofs::Making::made_by_both))]
fn outer_places(
    alloc: Global,
    settings: &Settings,
    lowered: &Lowered,
    places: &Places,
) -> Result<Vec<usize>, AllocError>
    ensures outer { IfOk result (λ outer. outer.items ≡ places_of places.now (spec.closures_in (spec.outer_code settings.now lowered.now))) }
{
    let own = own_places(alloc, settings, lowered)?;
    let mut outer = Vec::new(alloc);
    push_exports(lowered, places, lowered.aux.exports.as_slice(), &mut outer)?;
    push_pairs(
        &own,
        lowered,
        places,
        lowered.wit.implements.as_slice(),
        &mut outer,
    )?;
    Ok(outer)
}

/// The adapters of closures that are used, in the order of their ids: those of the least set that has each adapter of a closure that the code of
/// adapters of exports and of own imports makes, and each of one that the code of an adapter of the set makes. An id that no adapter has is none
/// of them. Want of memory is the only error.
pub fn used_closures(
    alloc: Global,
    settings: &Settings,
    lowered: &Lowered,
) -> Result<Seq<AdapterId>, AllocError>
    ensures used { IfOk result (λ used. used ≡ spec.used_closures settings.now lowered.now) }
    ensures least { IfOk result (λ used. spec.AreUsed settings.now lowered.now used) }
{
    let places = Places::new(alloc, &lowered.wit.adapters)?;
    let outer = outer_places(alloc, settings, lowered, &places)?;
    let makers = Makers {
        lowered,
        places: &places,
    };
    let marks = search(alloc, &makers, &outer)?;
    places.marked(alloc, &marks)
}
