//! The items of definitions, root by root.
ghost use Rattle.std.specs.Prelude.{◌≡◌, IfOk, filter};
ghost use Rattle.std.specs.List.{flat_map};
ghost use Rattle.glue_exports.specs.Kept as kept;
ghost use Rattle.glue_exports.specs.Printed as spec;

use crate::entry::TreeEntry;
use crate::hosts::HostNames;
use crate::top::{namespace_items, reexport_items, top_items};
use glue_words::Item;
use std::alloc::{AllocError, Global};
use values::{Map, Seq, Text};

// The items of definitions under one root.
fn run_items(
    alloc: Global,
    roots: &Map<Text, Text>,
    hosts: &HostNames<'_>,
    run: &[TreeEntry<'_>],
) -> Result<Seq<Item>, AllocError>
    ensures items { IfOk result (λ items. items ≡ spec.run_items roots.now hosts.now run.now) }
{
    let [first, below @ ..] = run else {
        return Ok(Seq::new(alloc));
    };
    let definition = first.definition();
    match first.path().as_slice() {
        [] => Ok(Seq::new(alloc)),
        [segment] if definition.is_reexport() => {
            reexport_items(alloc, hosts, segment, definition, below)
        }
        [segment] => top_items(alloc, hosts, segment, definition),
        [segment, ..] => namespace_items(alloc, roots, hosts, segment, run),
    }
}

// Whether the two paths begin with the same segment.
fn share_root(path: &[Text], other: &[Text]) -> bool
    ensures test { result ≡ spec.share_root path.now other.now }
{
    match (path, other) {
        ([a, ..], [b, ..]) => a.as_str() == b.as_str(),
        _ => false,
    }
}

// Whether a definition stands under the root of these.
fn continues(run: &[TreeEntry<'_>], entry: &TreeEntry<'_>) -> bool
    ensures test { result ≡ kept.continues run.now entry.now }
{
    match run {
        [] => false,
        [first, ..] => share_root(first.path().as_slice(), entry.path().as_slice()),
    }
}

/// The items of definitions, root by root. Want of memory is the only error.
pub(crate) fn items_by_root(
    alloc: Global,
    roots: &Map<Text, Text>,
    hosts: &HostNames<'_>,
    entries: Vec<TreeEntry<'_>>,
) -> Result<Seq<Item>, AllocError>
    ensures items { IfOk result (λ items. items ≡ flat_map (spec.run_items roots.now hosts.now) (spec.runs entries.entry.items)) }
{
    let mut items = Seq::new(alloc);
    let mut run = Vec::new(alloc);
    for entry in entries {
        if !continues(run.as_slice(), &entry) {
            items.append(run_items(alloc, roots, hosts, run.as_slice())?)?;
            run.clear();
        }
        run.push(entry)?;
    }
    items.append(run_items(alloc, roots, hosts, run.as_slice())?)?;
    Ok(items)
}
