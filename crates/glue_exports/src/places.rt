//! What puts definitions at their paths below an object.
ghost use Rattle.std.specs.Prelude.{◌≡◌, ◌∷◌, [], drop, is_some, map, IfOk, OnOk};
ghost use Rattle.values.specs.Map.{look_up};
ghost use Rattle.glue_targets.specs.PublicTree as public;
ghost use Rattle.glue_exports.specs.Fronts.{AreAdded, path_order};
ghost use Rattle.glue_exports.specs.Kept as kept;
ghost use Rattle.glue_exports.specs.Printed as spec;

use crate::definition::ExportDefinition;
use crate::entry::TreeEntry;
use crate::hosts::HostNames;
use crate::paths::{add_paths, fronts};
use crate::statements::{assign_words, inner_words};
use glue_words::{Item, Role, Word};
use std::alloc::{AllocError, Global};
use values::{Duplicate, Map, Seq, Text};

// The object at the root of paths.
#[derive(Drop)]
struct Root<'a> {
    // The names of the host among those of re-exports.
    hosts: &'a HostNames<'a>,
    // What the object is called.
    word: Word,
    // How an inner namespace is put in its place: `=`, or `||=` where the object may hold it already.
    operator: u8,
}

/// The word that names a definition, evaluated with its item or later. Want of memory is the only error.
pub(crate) fn named_word(
    alloc: Global,
    hosts: &HostNames<'_>,
    definition: &ExportDefinition,
    now: bool,
) -> Result<Word, AllocError>
    ensures word { IfOk result (λ word. word ≡ spec.named_word hosts.now definition.now now) }
{
    let name = definition.identifier.copy(alloc)?;
    if definition.is_reexport() && hosts.contains(&definition.identifier) {
        Ok(Word::Host(name, now))
    } else {
        Ok(Word::Refer(name, now))
    }
}

// `root.path = {};`
fn inner_item(alloc: Global, root: &Root<'_>, path: &Seq<Text>) -> Result<Item, AllocError>
    ensures item { IfOk result (λ item. item ≡ spec.inner_item root.now.word root.now.operator path.now) }
{
    let words = inner_words(alloc, root.operator, path.as_slice(), &root.word)?;
    let path = path.copy(alloc)?;
    Ok(Item {
        role: Role::Namespace(path),
        words,
    })
}

// `root.path = name;`
fn assign_item(alloc: Global, root: &Root<'_>, entry: &TreeEntry<'_>) -> Result<Item, AllocError>
    ensures item { IfOk result (λ item. item ≡ spec.assign_item root.now.hosts.now root.now.word entry.now) }
{
    let definition = entry.definition();
    let name = named_word(alloc, root.hosts, definition, true)?;
    let words = assign_words(alloc, entry.path().as_slice(), name, &root.word)?;
    let path = entry.path().copy(alloc)?;
    let thing = definition.thing.copy(alloc)?;
    let identifier = definition.identifier.copy(alloc)?;
    Ok(Item {
        role: Role::Assign(path, thing, identifier),
        words,
    })
}

// The fronts that have two segments or more.
fn inner_fronts(fronts: &[Seq<Text>]) -> &[Seq<Text>]
    ensures inner { result.now ≡ drop 1 fronts.now }
{
    match fronts {
        [] => fronts,
        [_, inner @ ..] => inner,
    }
}

// Whether the path is in the set.
fn has_path(set: &Map<Seq<Text>, bool>, path: &Seq<Text>) -> bool
    ensures test { result ≡ is_some (look_up path_order set.now path.now) }
{
    set.get(path).is_some()
}

// The objects at those of the paths that aren't in the set.
#[tactic(auto, using(crate::proofs::Sets::lacking_more))]
fn new_objects(
    alloc: Global,
    root: &Root<'_>,
    placed: &Map<Seq<Text>, bool>,
    paths: &[Seq<Text>],
) -> Result<Seq<Item>, AllocError>
    ensures items { IfOk result (λ items. items ≡ map (spec.inner_item root.now.word root.now.operator) (kept.lacking placed.now paths.now)) }
{
    let mut items = Seq::new(alloc);
    for path in paths {
        if !has_path(placed, path) {
            items.push(inner_item(alloc, root, path)?)?;
        }
    }
    Ok(items)
}

// What puts a definition at its path, where the objects at the paths of the set stand already.
#[tactic(auto, using(crate::proofs::Sets::inner_are))]
fn place_items(
    alloc: Global,
    root: &Root<'_>,
    placed: &Map<Seq<Text>, bool>,
    fronts: &[Seq<Text>],
    entry: &TreeEntry<'_>,
) -> Result<Seq<Item>, AllocError>
    requires fronts { fronts.now ≡ public.fronts entry.now.0 }
    ensures items { IfOk result (λ items. items ≡ kept.items_placed root.now.hosts.now root.now.word root.now.operator placed.now entry.now) }
{
    let mut items = new_objects(alloc, root, placed, inner_fronts(fronts))?;
    items.push(assign_item(alloc, root, entry)?)?;
    Ok(items)
}

// The same, and its path and the fronts of it are in the set behind that.
fn place(
    alloc: Global,
    root: &Root<'_>,
    placed: &mut Map<Seq<Text>, bool>,
    entry: &TreeEntry<'_>,
) -> Result<Seq<Item>, AllocError>
    ensures items { IfOk result (λ items. items ≡ kept.items_placed root.now.hosts.now root.now.word root.now.operator placed.old entry.now) }
    ensures added { OnOk result (AreAdded placed.old (entry.now.0 ∷ public.fronts entry.now.0) placed.new) }
{
    let fronts = fronts(alloc, entry.path().as_slice())?;
    let items = place_items(alloc, root, placed, fronts.as_slice(), entry)?;
    placed.insert(entry.path().copy(alloc)?, true)?;
    add_paths(placed, fronts)?;
    Ok(items)
}

// What puts definitions at their paths, one behind the other.
fn places(alloc: Global, root: &Root<'_>, below: &[TreeEntry<'_>]) -> Result<Seq<Item>, AllocError>
    ensures items { IfOk result (λ items. items ≡ spec.places_from root.now.hosts.now root.now.word root.now.operator [] below.now) }
{
    let mut items = Seq::new(alloc);
    let mut placed = Map::new(alloc);
    for entry in below {
        items.append(place(alloc, root, &mut placed, entry)?)?;
    }
    Ok(items)
}

/// What puts definitions at their paths below the object that the word names, one behind the other. An inner namespace is put
/// in its place by this operator: `=`, or `||=` where the object may hold it already. Want of memory is the only error.
pub(crate) fn places_below(
    alloc: Global,
    hosts: &HostNames<'_>,
    word: Word,
    operator: u8,
    below: &[TreeEntry<'_>],
) -> Result<Seq<Item>, AllocError>
    ensures items { IfOk result (λ items. items ≡ spec.places_from hosts.now word operator [] below.now) }
{
    let root = Root {
        hosts,
        word,
        operator,
    };
    places(alloc, &root, below)
}
