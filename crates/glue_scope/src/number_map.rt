//! A map from texts to numbers, seen as a finite map from bytes.
ghost use Rattle.std.specs.Prelude.{◌≡◌, OnOk, OnErr, IfOk, ℕ, List, IsSome};
ghost use Rattle.std.specs.FinMap as finite;
ghost use Rattle.std.specs.String.{string_bytes};

use std::alloc::{AllocError, Global};
use std::collections::BTreeMap;
use std::marker::Model;

/// A map from texts to numbers.
#[derive(Drop)]
pub(crate) struct NumberMap {
    tree: BTreeMap<String, u64>,
}

impl Model for NumberMap {
    ghost use Rattle.std.specs.Prelude.{ℕ};
    ghost use Rattle.std.specs.Coded.{coded_ℕ, coded_list};
    ghost use Rattle.std.specs.FinMap as finite;
    ghost use Rattle.glue_scope.specs.Scope.{Numbers, number_map};

    ghost Value = { Numbers };

    ghost coded = { finite.code (coded_list coded_ℕ) coded_ℕ };

    ghost view = { λ a. number_map a.tree.entries };
}

impl NumberMap {
    /// A map without entries.
    pub(crate) fn new(alloc: Global) -> NumberMap
        ensures { result ≡ finite.empty }
    {
        NumberMap {
            tree: BTreeMap::new(alloc),
        }
    }

    /// The number of a text.
    pub(crate) fn get(&self, key: &str) -> Option<u64>
        ensures { result ≡ finite.get self.now key.now }
    {
        self.tree.get(key).copied()
    }

    /// Gives a text a number. Want of memory leaves the map as it was.
    pub(crate) fn insert(&mut self, key: String, value: u64) -> Result<(), AllocError>
        ensures ok { OnOk result (self.new ≡ finite.insert self.old (string_bytes key) value) }
        ensures err { OnErr result (self.new ≡ self.old) }
    {
        self.tree.insert(key, value)?;
        Ok(())
    }

    /// Gives a key that is there another number.
    pub(crate) fn set(&mut self, key: &str, value: u64)
        requires { IsSome (finite.get self.old key.now) }
        ensures { self.new ≡ finite.insert self.old key.now value }
    {
        let place = self.tree.get_mut(key).unwrap();
        *place = value;
    }
}
