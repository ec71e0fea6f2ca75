//! Sets of names.
ghost use Rattle.std.specs.Prelude.{◌≡◌, ◌++◌, ◌∷◌, [], IfOk};
ghost use Rattle.std.specs.List.{list_any};
ghost use Rattle.std.specs.Str.{bytes_eq};

use std::alloc::{AllocError, Global};
use std::marker::Model;
use values::{Seq, Text, TextMap};

/// A set of names. A contract sees the list of those that were added, in order.
#[derive(Drop)]
pub struct NameSet {
    added: Seq<Text>,
    places: TextMap<()>,
}

impl Model for NameSet {
    ghost use Rattle.std.specs.Prelude.{ℕ, List};
    ghost use Rattle.std.specs.Coded.{coded_ℕ, coded_list};
    ghost use Rattle.name_set.specs.Held.{AreHeld};

    ghost Value = { List (List ℕ) };

    ghost coded = { coded_list (coded_list coded_ℕ) };

    ghost view = { λ names. names.added };

    ghost invariant = { λ names. AreHeld names.places names.added };
}

impl NameSet {
    /// No names.
    pub fn new(alloc: Global) -> NameSet
        ensures { result ≡ [] }
    {
        NameSet {
            added: Seq::new(alloc),
            places: TextMap::new(alloc),
        }
    }

    /// Whether the name was added.
    pub fn has(&self, name: &str) -> bool
        ensures test { result ≡ list_any (λ other. bytes_eq other name.now) self.now }
    {
        self.places.get(name).is_some()
    }

    /// The set with this name too. Want of memory is the only error.
    #[tactic(auto, using(crate::proofs::Held::held_more))]
    pub fn with(self, alloc: Global, name: &str) -> Result<NameSet, AllocError>
        ensures added { IfOk result (λ names. names ≡ self ++ name.now ∷ []) }
    {
        let NameSet {
            mut added,
            mut places,
        } = self;
        added.push(Text::from_str(alloc, name)?)?;
        places.insert(Text::from_str(alloc, name)?, ())?;
        Ok(NameSet { added, places })
    }
}
