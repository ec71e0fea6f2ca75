//! How often a path was given as a name.
ghost use Rattle.std.specs.Prelude.{◌≡◌, ◌++◌, ◌∷◌, [], IfOk};
ghost use Rattle.func_names.specs.Numbered.{times};

use std::alloc::{AllocError, Global};
use std::marker::Model;
use values::{Seq, Text, TextMap};

/// Paths that were given as names. A contract sees their list, in order.
#[derive(Drop)]
pub(crate) struct Uses {
    given: Seq<Text>,
    counts: TextMap<usize>,
}

impl Model for Uses {
    ghost use Rattle.std.specs.Prelude.{ℕ, List};
    ghost use Rattle.std.specs.Coded.{coded_ℕ, coded_list};
    ghost use Rattle.func_names.specs.Counted.{AreCounted};

    ghost Value = { List (List ℕ) };

    ghost coded = { coded_list (coded_list coded_ℕ) };

    ghost view = { λ uses. uses.given };

    ghost invariant = { λ uses. AreCounted uses.counts uses.given };
}

impl Uses {
    /// No paths.
    pub(crate) fn new(alloc: Global) -> Uses
        ensures { result ≡ [] }
    {
        Uses {
            given: Seq::new(alloc),
            counts: TextMap::new(alloc),
        }
    }

    /// How often the path was given.
    pub(crate) fn count(&self, path: &str) -> usize
        ensures count { result ≡ times path.now self.now }
    {
        match self.counts.get(path) {
            Some(count) => *count,
            None => 0,
        }
    }

    /// The paths with this one too. Want of memory is the only error.
    #[tactic(auto, using(crate::proofs::Counted::counted_more))]
    pub(crate) fn with(self, alloc: Global, path: &str) -> Result<Uses, AllocError>
        ensures added { IfOk result (λ uses. uses ≡ self ++ path.now ∷ []) }
    {
        let Some(count) = self.count(path).checked_add(1) else {
            return Err(AllocError);
        };
        let Uses {
            mut given,
            mut counts,
        } = self;
        given.push(Text::from_str(alloc, path)?)?;
        counts.insert(Text::from_str(alloc, path)?, count)?;
        Ok(Uses { given, counts })
    }
}
