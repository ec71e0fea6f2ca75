//! The first entry of a list that clashes with an earlier one, in one pass.
ghost use Rattle.std.specs.Prelude.{◌≡◌, ℕ, List, IfOk, OnOk};
ghost use Rattle.std.specs.Option.{option_copied};
ghost use Rattle.std.specs.FinSet as set;
ghost use Rattle.values.specs.TextSet.{with_texts};
ghost use Rattle.glue_faults.specs.Clash.{first_told, is_told};

use glue_scope::{IdentScope, Names};
use std::alloc::{AllocError, Global};

/// What can clash with an earlier entry: it asks for words, and tells words.
pub trait Claim {
    /// The words that no earlier entry may have told.
    ghost asks: { Self → List (List ℕ) };

    /// The words that it tells the later ones.
    ghost tells: { Self → List (List ℕ) };

    /// Whether a word that it asks for was told.
    fn is_met<N: Names>(&self, alloc: Global, told: &N) -> Result<bool, AllocError>
        ensures met { IfOk result (λ met. met ≡ is_told (N.bound told.now) (asks self.now)) };

    /// Tells its words.
    fn tell<N: Names>(&self, alloc: Global, told: &mut N) -> Result<(), AllocError>
        ensures told { OnOk result (N.bound told.new ≡ with_texts (N.bound told.old) (tells self.now)) };
}

/// The first entry that asks for a word that was told, by an earlier one or before. Want of memory is the only error.
pub fn first_met<'a, E: Claim, N: Names>(
    alloc: Global,
    told: N,
    entries: &'a [E],
) -> Result<Option<&'a E>, AllocError>
    ensures first { IfOk result (λ found. option_copied found ≡ first_told E.asks E.tells (N.bound told) entries.now) }
{
    let mut told = told;
    for entry in entries {
        if entry.is_met(alloc, &told)? {
            return Ok(Some(entry));
        }
        entry.tell(alloc, &mut told)?;
    }
    Ok(None)
}

/// The first entry that asks for a word that an earlier one told.
pub fn first_clash<E: Claim>(alloc: Global, entries: &[E]) -> Result<Option<&E>, AllocError>
    ensures first { IfOk result (λ found. option_copied found ≡ first_told E.asks E.tells set.empty entries.now) }
{
    let told: IdentScope = Names::new(alloc);
    first_met(alloc, told, entries)
}
