//! The places of classes on a level, and the steps to their parents.
ghost use Rattle.std.specs.Prelude.{◌≡◌, IfOk, OnOk, map, List, ℕ};
ghost use Rattle.std.specs.Option.{option_copied};
ghost use Rattle.values.specs.Map.{look_up};
ghost use Rattle.glue_order.specs.Order as order;
ghost use Rattle.glue_order.specs.Walks as spec;

use crate::entry::ExportEntry;
use crate::walks::Walk;
use glue_words::Thing;
use std::alloc::{AllocError, Global};
use std::cmp::Ordering;
use values::{Duplicate, Map, Text};

// The qualified name of a class.
fn class_name(thing: &Thing) -> Option<&Text>
    ensures name { option_copied result ≡ order.class_name thing.now }
{
    match thing {
        Thing::Class(name) => Some(name),
        _ => None,
    }
}

// The qualified name of the class that an entry is.
fn class_of(entry: &ExportEntry) -> Option<&Text>
    ensures name { option_copied result ≡ order.class_of entry.now }
{
    match entry {
        ExportEntry::Definition(definition) => class_name(&definition.thing),
        ExportEntry::Namespace(namespace) => match &namespace.thing {
            Some(thing) => class_name(thing),
            None => None,
        },
    }
}

// The qualified name of the class that an entry's own class extends.
fn parent_name(entry: &ExportEntry) -> Option<&Text>
    ensures name { option_copied result ≡ order.parent_name entry.now }
{
    match entry {
        ExportEntry::Definition(definition) => definition.parent.as_ref(),
        ExportEntry::Namespace(_) => None,
    }
}

// Adds the place of an entry that is a class, unless its name has one.
fn add_place(
    alloc: Global,
    entry: &(Text, ExportEntry),
    place: usize,
    places: &mut Map<Text, usize>,
) -> Result<(), AllocError>
    ensures added { OnOk result ((name : List ℕ) → look_up order.name_order places.new name ≡ spec.first_of (look_up order.name_order places.old name) (order.is_class name entry.now) place) }
{
    let Some(name) = class_of(&entry.1) else {
        return Ok(());
    };
    if places.get(name).is_none() {
        drop(places.insert(name.copy(alloc)?, place)?);
    }
    Ok(())
}

// The places of the classes on a level, by the classes' qualified names. The first of a name counts.
fn class_places(
    alloc: Global,
    level: &[(Text, ExportEntry)],
) -> Result<Map<Text, usize>, AllocError>
    ensures places { IfOk result (λ places. spec.ArePlaces level.now places) }
{
    let mut places = Map::new(alloc);
    for (place, entry) in level.iter().enumerate() {
        add_place(alloc, entry, place, &mut places)?;
    }
    Ok(places)
}

// One more sweep, where a name stands before another.
fn rise(name: &Text, parent: &Text) -> usize
    ensures rise { result ≡ order.rise (order.name_order name.now parent.now) }
{
    match name.cmp(parent) {
        Ordering::Less => 1,
        _ => 0,
    }
}

// The place of an entry's parent.
fn parent_place(places: &Map<Text, usize>, entry: &ExportEntry) -> Option<usize>
    ensures place { result ≡ spec.parent_in places.now entry.now }
{
    match parent_name(entry) {
        Some(name) => places.get(name).copied(),
        None => None,
    }
}

// The step from an entry to its parent.
#[tactic(auto, using(crate::proofs::ClassPlaces::parent_same))]
fn first_step(
    level: &[(Text, ExportEntry)],
    places: &Map<Text, usize>,
    entry: &(Text, ExportEntry),
) -> Walk
    requires places { spec.ArePlaces level.now places.now }
    ensures step { result ≡ spec.first_step level.now entry.now }
{
    let place = parent_place(places, &entry.1);
    let parent = match place {
        Some(place) => level.get(place),
        None => None,
    };
    match parent {
        Some(parent) => Walk {
            end: place,
            sweep: rise(&entry.0, &parent.0),
        },
        None => Walk {
            end: None,
            sweep: 0,
        },
    }
}

/// The steps from the entries of a level to their parents. Want of memory is the only error.
pub(crate) fn first_steps(
    alloc: Global,
    level: &[(Text, ExportEntry)],
) -> Result<Vec<Walk>, AllocError>
    ensures steps { IfOk result (λ steps. steps.items ≡ map (spec.first_step level.now) level.now) }
{
    let places = class_places(alloc, level)?;
    let mut steps = Vec::new(alloc);
    for entry in level {
        steps.push(first_step(level, &places, entry))?;
    }
    Ok(steps)
}
