//! The adapters that implement imports, by the places of these.
ghost use Rattle.std.specs.Prelude.{◌≡◌, IfOk};
ghost use Rattle.glue_shared.specs.Indexed.{GivesFirst};
ghost use Rattle.glue_shared.specs.Names.{adapter_for};

use crate::adapter::AdapterId;
use std::alloc::{AllocError, Global};
use std::marker::Model;
use values::Map;
use wasm_core::ImportId;

/// The adapters that implement imports, with an index of the first of each import. A contract sees the pairs of an import and its adapter.
#[derive(Drop)]
pub struct Implementers<'a> {
    pairs: &'a [(ImportId, AdapterId)],
    adapters: Map<u32, AdapterId>,
}

impl<'a> Model for Implementers<'a> {
    ghost use Rattle.std.specs.Prelude.{ℕ, List};
    ghost use Rattle.wasm_core.specs.ids.ImportId.{ImportId};
    ghost use Rattle.glue_shared.specs.Indexed.{GivesFirst};

    ghost Value = { List (ImportId × ℕ) };

    ghost view = { λ implementers. implementers.pairs.now };

    ghost invariant = { λ implementers. GivesFirst implementers.adapters implementers.pairs.now };
}

// The adapter of the first pair of each import. From the last pair on, so that earlier ones stand in place of later ones.
fn first_adapters(
    alloc: Global,
    pairs: &[(ImportId, AdapterId)],
) -> Result<Map<u32, AdapterId>, AllocError>
    ensures index { IfOk result (λ adapters. GivesFirst adapters pairs.now) }
{
    let mut adapters = Map::new(alloc);
    let mut place = pairs.len();
    while place > 0 {
        place -= 1;
        let pair = pairs[place];
        adapters.insert(pair.0.0, pair.1)?;
    }
    Ok(adapters)
}

impl<'a> Implementers<'a> {
    /// These pairs, with their index. Want of memory is the only error.
    pub fn new(
        alloc: Global,
        pairs: &'a [(ImportId, AdapterId)],
    ) -> Result<Implementers<'a>, AllocError>
        ensures same { IfOk result (λ implementers. implementers ≡ pairs.now) }
    {
        let adapters = first_adapters(alloc, pairs)?;
        Ok(Implementers { pairs, adapters })
    }

    /// The adapter that the first pair of an import gives it.
    pub fn get(&self, place: ImportId) -> Option<AdapterId>
        ensures found { result ≡ adapter_for self.now place.0 }
    {
        match self.adapters.get(&place.0) {
            Some(adapter) => Some(*adapter),
            None => None,
        }
    }
}
