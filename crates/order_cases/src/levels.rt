//! Levels of export trees, and the order of their entries (`glue_order`).
use glue_exports::ExportDefinition;
use glue_order::{ExportEntry, ExportedNamespace, topo_sort_class_entries};
use glue_words::Thing;
use std::alloc::{AllocError, Global};
use values::{Seq, Text};

// An entry by its name: a class with its qualified name and its parent's, if that isn't empty; or a namespace with the class that it
// names, if that isn't empty, and the entries of the level below it.
enum Given {
    Class(&'static str, &'static str, &'static str),
    Namespace(&'static str, &'static str, &'static [Given]),
}

// `A` extends `B`.
const CHILD: Given = Given::Class("A", "A", "B");

const PARENT: Given = Given::Class("B", "B", "");

// `C` extends `B`, and `B` extends `A`.
const CHAIN: &[Given] = &[
    Given::Class("C", "C", "B"),
    Given::Class("B", "B", "A"),
    Given::Class("A", "A", ""),
];

// The entries of a level, and the names in their order, those of a level below behind its namespace.
const LEVELS: &[(&[Given], &str)] = &[
    // a class behind its parent, whatever their names are
    (&[CHILD, PARENT], "B A"),
    (CHAIN, "A B C"),
    // the sweep of a chain rises once, where a name stands before its parent's
    (
        &[
            Given::Class("a", "n.a", "n.c"),
            Given::Class("b", "n.b", "n.a"),
            Given::Class("c", "n.c", ""),
            Given::Class("d", "n.d", "other"),
        ],
        "c d a b",
    ),
    // names are told apart from qualified names
    (
        &[
            Given::Class("x", "z", ""),
            Given::Class("m", "m", "z"),
            Given::Class("z", "x", "m"),
        ],
        "x m z",
    ),
    // a parent that a re-export names
    (
        &[
            Given::Class("a", "n.a", "n.c"),
            Given::Namespace("c", "n.c", &[]),
            Given::Class("d", "n.d", ""),
        ],
        "c d a",
    ),
    // namespaces by name, beside classes
    (
        &[
            Given::Namespace("n", "", &[]),
            Given::Namespace("m", "", &[]),
            CHILD,
            PARENT,
        ],
        "B m n A",
    ),
    (&[], ""),
    // equal names
    (
        &[
            Given::Class("b", "1", ""),
            Given::Class("a", "2", ""),
            Given::Namespace("b", "", &[]),
            Given::Class("a", "2", ""),
        ],
        "a a b b",
    ),
    // two entries of one class, of which the first is the parent
    (
        &[
            Given::Class("z", "P", ""),
            Given::Class("a", "P", ""),
            Given::Class("n", "C", "P"),
        ],
        "a z n",
    ),
    (
        &[
            Given::Class("a", "P", ""),
            Given::Class("z", "P", ""),
            Given::Class("n", "C", "P"),
        ],
        "a n z",
    ),
    // parents that come back
    (
        &[
            Given::Class("A", "A", "B"),
            Given::Class("B", "B", "A"),
            Given::Class("C", "C", "C"),
        ],
        "C B A",
    ),
    // levels inside: below `m` a class, its parent and `n`, and below `n` a chain of three classes
    (
        &[Given::Namespace("m", "", &[CHILD, PARENT, Given::Namespace("n", "", CHAIN)])],
        "m(B n(A B C) A)",
    ),
];

// A text, or none where it is empty.
fn text_of(alloc: Global, text: &str) -> Result<Option<Text>, AllocError> {
    if text.is_empty() {
        return Ok(None);
    }
    Ok(Some(Text::from_str(alloc, text)?))
}

fn definition(
    alloc: Global,
    name: &str,
    class: &str,
    parent: &str,
) -> Result<ExportEntry, AllocError> {
    let parent = text_of(alloc, parent)?;
    let thing = Thing::Class(Text::from_str(alloc, class)?);
    Ok(ExportEntry::Definition(ExportDefinition {
        thing,
        identifier: Text::from_str(alloc, name)?,
        items: Seq::new(alloc),
        private: false,
        parent,
    }))
}

#[cycle(levels)]
fn namespace(alloc: Global, class: &str, below: &[Given]) -> Result<ExportEntry, AllocError> {
    let class = text_of(alloc, class)?;
    Ok(ExportEntry::Namespace(ExportedNamespace {
        id: None,
        thing: class.map(|name| Thing::Class(name)),
        ns: level_of(alloc, below)?,
    }))
}

#[cycle(levels)]
fn entry_of(alloc: Global, given: &Given) -> Result<(Text, ExportEntry), AllocError> {
    match given {
        Given::Class(name, class, parent) => {
            let entry = definition(alloc, name, class, parent)?;
            Ok((Text::from_str(alloc, name)?, entry))
        }
        Given::Namespace(name, class, below) => {
            let entry = namespace(alloc, class, below)?;
            Ok((Text::from_str(alloc, name)?, entry))
        }
    }
}

#[cycle(levels)]
fn level_of(alloc: Global, given: &[Given]) -> Result<Seq<(Text, ExportEntry)>, AllocError> {
    let mut level = Seq::new(alloc);
    for one in given {
        level.push(entry_of(alloc, one)?)?;
    }
    Ok(level)
}

// Appends the names of a level's entries, with a space between, and those below a namespace in parentheses.
#[cycle(names)]
fn push_names(level: &[(Text, ExportEntry)], names: &mut String) -> Result<(), AllocError> {
    let mut is_first = true;
    for (name, entry) in level {
        names.push_str(if is_first { "" } else { " " })?;
        is_first = false;
        names.push_str(name.as_str())?;
        push_below(entry, names)?;
    }
    Ok(())
}

#[cycle(names)]
fn push_below(entry: &ExportEntry, names: &mut String) -> Result<(), AllocError> {
    match entry {
        ExportEntry::Namespace(namespace) if !namespace.ns.is_empty() => {
            names.push_str("(")?;
            push_names(namespace.ns.as_slice(), names)?;
            names.push_str(")")
        }
        _ => Ok(()),
    }
}

fn sorted_names(alloc: Global, given: &[Given]) -> Result<String, AllocError> {
    let level = level_of(alloc, given)?;
    let sorted = topo_sort_class_entries(alloc, level)?;
    let mut names = String::new(alloc);
    push_names(sorted.as_slice(), &mut names)?;
    Ok(names)
}

#[test]
fn entries_stand_by_sweep_and_name(rt: HostRuntime) -> Result<(), AllocError> {
    for (given, want) in LEVELS {
        let names = sorted_names(rt.alloc(), given)?;
        assert!(rt; names.as_str() == *want, "{names:?} in place of {want:?}");
    }
    Ok(())
}
