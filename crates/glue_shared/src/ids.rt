//! Sets of numbers.
ghost use Rattle.std.specs.Prelude.{◌≡◌, ◌++◌, ◌∷◌, [], IfOk};
ghost use Rattle.glue_shared.specs.Names.{has_number};

use std::alloc::{AllocError, Global};
use std::collections::BTreeSet;
use std::marker::Model;
use values::Seq;

/// A set of numbers, as ids have them. A contract sees the list of those that were added, in order.
#[derive(Drop)]
pub struct IdSet {
    added: Seq<u32>,
    set: BTreeSet<u32>,
}

impl Model for IdSet {
    ghost use Rattle.std.specs.Prelude.{ℕ, List};
    ghost use Rattle.std.specs.Coded.{coded_ℕ, coded_list};
    ghost use Rattle.glue_shared.specs.Ids.{Holds};

    ghost Value = { List ℕ };

    ghost coded = { coded_list coded_ℕ };

    ghost view = { λ ids. ids.added };

    ghost invariant = { λ ids. Holds ids.set ids.added };
}

impl IdSet {
    /// No numbers.
    pub fn new(alloc: Global) -> IdSet
        ensures { result ≡ [] }
    {
        IdSet {
            added: Seq::new(alloc),
            set: BTreeSet::new(alloc),
        }
    }

    /// Whether the number was added.
    pub fn has(&self, id: u32) -> bool
        ensures test { result ≡ has_number id self.now }
    {
        self.set.contains(&id)
    }

    /// The set with this number too. Want of memory is the only error.
    pub fn with(self, id: u32) -> Result<IdSet, AllocError>
        ensures added { IfOk result (λ ids. ids ≡ self ++ id ∷ []) }
    {
        let IdSet { mut added, mut set } = self;
        added.push(id)?;
        set.insert(id)?;
        Ok(IdSet { added, set })
    }
}
