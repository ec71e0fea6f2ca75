//! The first thing that can't be published beside an earlier one.
ghost use Rattle.std.specs.Prelude.{◌≡◌, ◌∷◌, [], List, is_some, IfOk, OnOk};
ghost use Rattle.std.specs.List.{list_any};
ghost use Rattle.std.specs.Option.{option_copied};
ghost use Rattle.values.specs.Map.{look_up};
ghost use Rattle.glue_targets.specs.PublicTree as public;
ghost use Rattle.glue_faults.specs.Clash.{first_clash};
ghost use Rattle.glue_exports.specs.Fronts.{path_order};
ghost use Rattle.glue_published.specs.declared.things.PublishedThing as declared;
ghost use Rattle.glue_published.specs.Clash as spec;

use crate::things::{PublishedThing, published_things};
use glue_exports::{add_paths, fronts};
use glue_faults::Fault;
use glue_shared::{Settings, WasmBindgenAux};
use std::alloc::{AllocError, Global};
use values::{Duplicate, Map, Seq, Text};

// What is known of the things that come before another.
#[derive(Drop)]
struct KnownThings {
    // Their qualified names.
    names: Map<Text, bool>,
    // The paths of those that are no re-exports.
    declared: Map<Seq<Text>, bool>,
    // The paths that those of all of them run through.
    fronts: Map<Seq<Text>, bool>,
}

// Whether one of the paths is in a set.
fn any_in(set: &Map<Seq<Text>, bool>, paths: &[Seq<Text>]) -> bool
    ensures test { result ≡ list_any (λ path. is_some (look_up path_order set.now path)) paths.now }
{
    paths.iter().any(|path| set.get(path).is_some())
}

// Adds the path of a thing, where it is no re-export.
fn add_declared(
    alloc: Global,
    declared: &mut Map<Seq<Text>, bool>,
    thing: &PublishedThing,
) -> Result<(), AllocError>
    ensures added { OnOk result (declared.new ≡ spec.with_declared declared.old thing.now) }
{
    if !thing.is_reexport {
        declared.insert(thing.path.copy(alloc)?, true)?;
    }
    Ok(())
}

impl KnownThings {
    fn new(alloc: Global) -> KnownThings
        ensures known { spec.AreKnown result.names result.declared result.fronts [] }
    {
        KnownThings {
            names: Map::new(alloc),
            declared: Map::new(alloc),
            fronts: Map::new(alloc),
        }
    }

    // Whether a thing, whose path has these fronts, collides with one of those that are known.
    fn has_collision(&self, thing: &PublishedThing, fronts: &[Seq<Text>]) -> bool
        requires fronts { fronts.now ≡ public.fronts thing.now.path }
        ensures test { result ≡ spec.meets self.now.names self.now.declared self.now.fronts thing.now }
    {
        self.names.get(&thing.qualified).is_some()
            || any_in(&self.declared, fronts)
            || !thing.is_reexport && self.fronts.get(&thing.path).is_some()
    }

    // Adds a thing, whose path has these fronts.
    fn add(
        &mut self,
        alloc: Global,
        thing: &PublishedThing,
        fronts: Vec<Seq<Text>>,
    ) -> Result<(), AllocError>
        requires fronts { fronts.items ≡ public.fronts thing.now.path }
        ensures known { OnOk result ((things : List declared.PublishedThing) → spec.AreKnown self.old.names self.old.declared self.old.fronts things → spec.AreKnown self.new.names self.new.declared self.new.fronts (thing.now ∷ things)) }
    {
        self.names.insert(thing.qualified.copy(alloc)?, true)?;
        add_declared(alloc, &mut self.declared, thing)?;
        add_paths(&mut self.fronts, fronts)?;
        Ok(())
    }
}

/// The first of these things that collides with an earlier one.
pub(crate) fn first_collision(
    alloc: Global,
    things: &[PublishedThing],
) -> Result<Option<&PublishedThing>, AllocError>
    ensures first { IfOk result (λ found. option_copied found ≡ first_clash spec.collide things.now) }
{
    let mut known = KnownThings::new(alloc);
    for thing in things {
        let fronts = fronts(alloc, thing.path.as_slice())?;
        if known.has_collision(thing, fronts.as_slice()) {
            return Ok(Some(thing));
        }
        known.add(alloc, thing, fronts)?;
    }
    Ok(None)
}

/// The first thing that clashes with an earlier one, private ones too: they share the path or the qualified name, or the path
/// of one runs through that of the other, which is no re-export. Want of memory is the only error.
#[tactic(auto, using(crate::proofs::Qualified::by_name))]
pub fn thing_clash(
    alloc: Global,
    settings: &Settings,
    aux: &WasmBindgenAux,
) -> Result<Option<Fault>, AllocError>
    ensures fault { IfOk result (λ fault. fault ≡ spec.thing_clash settings.now aux.now) }
{
    let things = published_things(alloc, settings, aux)?;
    match first_collision(alloc, things.as_slice())? {
        None => Ok(None),
        Some(thing) => Ok(Some(Fault::ExportClash {
            name: thing.qualified.copy(alloc)?,
        })),
    }
}
