//! The items of an export tree.
ghost use Rattle.std.specs.Prelude.{◌≡◌, IfOk, filter};
ghost use Rattle.glue_exports.specs.Printed as spec;
ghost use Rattle.glue_exports.specs.Sound as sound;

use crate::definition::ExportDefinition;
use crate::entry::TreeEntry;
use crate::hosts::HostNames;
use crate::runs::items_by_root;
use crate::tree::ExportTree;
use glue_words::Item;
use std::alloc::{AllocError, Global};
use values::{Map, Seq, Text};

// Whether a definition leaves something: a private re-export at the top level doesn't.
fn is_shown(entry: &TreeEntry<'_>) -> bool
    ensures test { result ≡ spec.is_shown entry.now }
{
    let definition = entry.definition();
    !(definition.is_reexport() && definition.private && entry.path().len() == 1)
}

// The definitions of a tree that leave something, in the paths' order.
fn shown_entries(
    alloc: Global,
    definitions: &Map<Seq<Text>, ExportDefinition>,
) -> Result<Vec<TreeEntry<'_>>, AllocError>
    ensures entries { IfOk result (λ entries. entries.items ≡ filter spec.is_shown definitions.now) }
{
    let mut entries = Vec::new(alloc);
    for (path, definition) in definitions.iter() {
        let entry = TreeEntry::new(path, definition);
        if is_shown(&entry) {
            entries.push(entry)?;
        }
    }
    Ok(entries)
}

// The items of definitions, root by root.
fn listed_items(
    alloc: Global,
    definitions: &Map<Seq<Text>, ExportDefinition>,
    roots: &Map<Text, Text>,
    hosts: &[Text],
) -> Result<Seq<Item>, AllocError>
    ensures items { IfOk result (λ items. items ≡ spec.tree_items roots.now hosts.now definitions.now) }
{
    let hosts = HostNames::new(alloc, hosts)?;
    let entries = shown_entries(alloc, definitions)?;
    items_by_root(alloc, roots, &hosts, entries)
}

/// The items that declare what stands in a tree and publish it, root by root, in the paths' order; parents of classes don't
/// count. `roots` are the names that were drawn for namespaces at the root; one without goes by its own, which then has to be
/// an identifier that nothing else has. `hosts` are the names of the host among those of re-exports. A segment `__proto__`
/// behind the first makes no key of an object. Want of memory is the only error.
pub fn tree_items(
    alloc: Global,
    tree: &ExportTree,
    roots: &Map<Text, Text>,
    hosts: &[Text],
) -> Result<Seq<Item>, AllocError>
    ensures items { IfOk result (λ items. items ≡ spec.tree_items roots.now hosts.now tree.now) }
    ensures published { IfOk result (λ items. sound.AreSound tree.now → sound.ArePublished tree.now items) }
{
    listed_items(alloc, tree.definitions(), roots, hosts)
}
