//! The names of the host among those of re-exports.
ghost use Rattle.std.specs.Prelude.{◌≡◌, IfOk};
ghost use Rattle.glue_shared.specs.Names.{is_one_of};
ghost use Rattle.glue_exports.specs.Kept as kept;

use std::alloc::{AllocError, Global};
use std::marker::Model;
use values::{Duplicate, Map, Text};

/// Names of the host, with a set of them. A contract sees the list of the names.
#[derive(Drop)]
pub(crate) struct HostNames<'a> {
    names: &'a [Text],
    set: Map<Text, bool>,
}

impl<'a> Model for HostNames<'a> {
    ghost use Rattle.std.specs.Prelude.{ℕ, List};
    ghost use Rattle.glue_exports.specs.Kept.{AreNames};

    ghost Value = { List (List ℕ) };

    ghost view = { λ h. h.names.now };

    ghost invariant = { λ h. AreNames h.set h.names.now };
}

// The set of these names.
fn name_set(alloc: Global, names: &[Text]) -> Result<Map<Text, bool>, AllocError>
    ensures set { IfOk result (λ set. kept.AreNames set names.now) }
{
    let mut set = Map::new(alloc);
    for name in names {
        set.insert(name.copy(alloc)?, true)?;
    }
    Ok(set)
}

impl<'a> HostNames<'a> {
    /// These names. Want of memory is the only error.
    pub(crate) fn new(alloc: Global, names: &'a [Text]) -> Result<HostNames<'a>, AllocError>
        ensures names { IfOk result (λ hosts. hosts ≡ names.now) }
    {
        let set = name_set(alloc, names)?;
        Ok(HostNames { names, set })
    }

    /// Whether the name is one of them.
    pub(crate) fn contains(&self, name: &Text) -> bool
        ensures test { result ≡ is_one_of self.now name.now }
    {
        self.set.get(name).is_some()
    }
}
