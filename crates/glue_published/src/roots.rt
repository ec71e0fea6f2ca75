//! The names at which the glue file makes a namespace's object.
ghost use Rattle.std.specs.Prelude.{◌≡◌, ◌++◌, ◌∷◌, [], IfOk, OnOk, filter, not};
ghost use Rattle.std.specs.List.{list_any};
ghost use Rattle.std.specs.List.Sorted.{IsStrictlySortedBy};
ghost use Rattle.std.specs.Map.{keys_of};
ghost use Rattle.std.specs.Str.{bytes_eq};
ghost use Rattle.glue_published.specs.Roots as spec;
ghost use Rattle.glue_published.specs.Sets.{AreNames, holds, name_order};

use crate::reexports::parents;
use crate::things::published_things;
use glue_shared::{JsImport, Settings, WasmBindgenAux};
use std::alloc::{AllocError, Global};
use values::{Duplicate, Map, Seq, Text};

// The names of re-exports.
fn reexported_names(
    alloc: Global,
    reexports: &[(Text, JsImport, bool)],
) -> Result<Map<Text, bool>, AllocError>
    ensures names { IfOk result (λ set. AreNames set (λ name. list_any (λ r. bytes_eq r.0 name) reexports.now)) }
{
    let mut set = Map::new(alloc);
    for reexport in reexports {
        set.insert(reexport.0.copy(alloc)?, true)?;
    }
    Ok(set)
}

// Adds a name that isn't in a set.
fn push_other(
    alloc: Global,
    set: &Map<Text, bool>,
    name: &Text,
    names: &mut Seq<Text>,
) -> Result<(), AllocError>
    ensures pushed { OnOk result (names.new ≡ names.old ++ filter (λ name. not (holds set.now name)) (name.now ∷ [])) }
{
    if set.get(name).is_none() {
        names.push(name.copy(alloc)?)?;
    }
    Ok(())
}

// The names of the first set that aren't in the second, in order.
fn names_besides(
    alloc: Global,
    all: &Map<Text, bool>,
    set: &Map<Text, bool>,
) -> Result<Seq<Text>, AllocError>
    ensures names { IfOk result (λ names. names ≡ filter (λ name. not (holds set.now name)) (keys_of all.now)) }
    ensures rises { IsStrictlySortedBy name_order (keys_of all.now) }
{
    let mut names = Seq::new(alloc);
    for (name, _) in all.iter() {
        push_other(alloc, set, name, &mut names)?;
    }
    Ok(names)
}

/// The names at which the glue file makes a namespace's object: something is published below them, and no re-export has them. Each stands
/// once, in the order of their bytes. Want of memory is the only error.
pub fn root_names(
    alloc: Global,
    settings: &Settings,
    aux: &WasmBindgenAux,
) -> Result<Seq<Text>, AllocError>
    ensures roots { IfOk result (λ names. spec.AreRoots settings.now aux.now names) }
{
    let things = published_things(alloc, settings, aux)?;
    let parents = parents(alloc, things.as_slice())?;
    let reexported = reexported_names(alloc, aux.reexports.as_slice())?;
    names_besides(alloc, &parents, &reexported)
}
