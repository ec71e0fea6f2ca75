//! The places of adapters in the order of their ids.
ghost use Rattle.std.specs.Prelude.{◌≡◌, ◌<◌, ◌∷◌, [], ◌++◌, All, IfOk, IfSome, OnOk, length};
ghost use Rattle.std.specs.List.{filter};
ghost use Rattle.std.specs.Map.{keys_of};
ghost use Rattle.printed_adapters.specs.Places as spec;
ghost use Rattle.printed_adapters.specs.Places.{GivesPlaces};

use glue_shared::AdapterId;
use std::alloc::{AllocError, Global};
use std::marker::Model;
use values::{Map, Seq};

/// Ids of adapters, with an index of the first place of each. A contract sees the ids.
#[derive(Drop)]
pub(crate) struct Places {
    ids: Seq<AdapterId>,
    index: Map<u32, usize>,
}

impl Model for Places {
    ghost use Rattle.std.specs.Prelude.{ℕ, List};
    ghost use Rattle.printed_adapters.specs.Places.{GivesPlaces};

    ghost Value = { List ℕ };

    ghost view = { λ places. places.ids };

    ghost invariant = { λ places. GivesPlaces places.index 0 places.ids };
}

// The first place of each id. From the last on, so that earlier ones stand in place of later ones.
fn first_places(alloc: Global, ids: &[AdapterId]) -> Result<Map<u32, usize>, AllocError>
    ensures index { IfOk result (λ index. GivesPlaces index 0 ids.now) }
{
    let mut index = Map::new(alloc);
    let mut place = ids.len();
    while place > 0 {
        place -= 1;
        let id = ids[place];
        index.insert(id.0, place)?;
    }
    Ok(index)
}

// The ids of a map, in order.
fn ids_of<V>(alloc: Global, adapters: &Map<AdapterId, V>) -> Result<Seq<AdapterId>, AllocError>
    ensures ids { IfOk result (λ ids. ids ≡ keys_of adapters.now) }
{
    let mut ids = Seq::new(alloc);
    for (id, _) in adapters.iter() {
        ids.push(*id)?;
    }
    Ok(ids)
}

impl Places {
    /// Those of a map of adapters. Want of memory is the only error.
    pub(crate) fn new<V>(alloc: Global, adapters: &Map<AdapterId, V>) -> Result<Places, AllocError>
        ensures same { IfOk result (λ places. places ≡ keys_of adapters.now) }
    {
        let ids = ids_of(alloc, adapters)?;
        let index = first_places(alloc, ids.as_slice())?;
        Ok(Places { ids, index })
    }

    /// How many there are.
    pub(crate) fn len(&self) -> usize
        ensures len { result ≡ length self.now }
    {
        self.ids.len()
    }

    /// The id at a place.
    pub(crate) fn id(&self, place: usize) -> AdapterId
        requires within { place < length self.now }
        ensures id { result ≡ spec.id_at self.now place }
    {
        self.ids.as_slice()[place]
    }

    /// The first place of an id, if there is one.
    #[tactic(auto, using(crate::proofs::FirstPlaces::found_within))]
    pub(crate) fn place(&self, id: AdapterId) -> Option<usize>
        ensures found { result ≡ spec.place_in self.now id }
        ensures within { IfSome result (λ place. place < length self.now) }
    {
        match self.index.get(&id.0) {
            Some(place) => Some(*place),
            None => None,
        }
    }

    // Whether the place of an id is marked.
    fn has_mark(&self, marks: &[bool], id: AdapterId) -> bool
        requires count { length marks.now ≡ length self.now }
        ensures test { result ≡ spec.has_mark self.now marks.now id }
    {
        match self.place(id) {
            Some(place) => marks[place],
            None => false,
        }
    }

    /// Those whose places are marked, in order. Want of memory is the only error.
    pub(crate) fn marked(&self, alloc: Global, marks: &[bool]) -> Result<Seq<AdapterId>, AllocError>
        requires count { length marks.now ≡ length self.now }
        ensures marked { IfOk result (λ marked. marked ≡ filter (spec.has_mark self.now marks.now) self.now) }
    {
        let mut marked = Seq::new(alloc);
        for id in self.ids.as_slice() {
            if self.has_mark(marks, *id) {
                marked.push(*id)?;
            }
        }
        Ok(marked)
    }
}
