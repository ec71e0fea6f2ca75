//! The items of what stands at a root: a definition at the top level, a namespace, or a re-export with what stands below it.
ghost use Rattle.std.specs.Prelude.{◌≡◌, ◌∷◌, [], map, IfOk};
ghost use Rattle.glue_exports.specs.Kept as kept;
ghost use Rattle.glue_exports.specs.Printed as spec;

use crate::definition::ExportDefinition;
use crate::entry::TreeEntry;
use crate::exported::exported_item;
use crate::hosts::HostNames;
use crate::places::{named_word, places_below};
use crate::statements::{clause_words, root_words};
use glue_words::{Item, Role, Thing, Word, punct};
use std::alloc::{AllocError, Global};
use values::{Duplicate, Map, Seq, Text};

// A path of one name.
fn top_path(alloc: Global, name: &Text) -> Result<Seq<Text>, AllocError>
    ensures path { IfOk result (λ path. path ≡ name.now ∷ []) }
{
    let name = name.copy(alloc)?;
    Ok(Seq::from_vec(vec![in alloc; name]?))
}

// `export { name as segment };`
fn publish_item(
    alloc: Global,
    segment: &Text,
    thing: Thing,
    name: &Text,
    word: Word,
) -> Result<Item, AllocError>
    ensures item { IfOk result (λ item. item ≡ spec.publish_item segment.now thing name.now word) }
{
    let words = clause_words(alloc, segment, word)?;
    let path = top_path(alloc, segment)?;
    let name = name.copy(alloc)?;
    Ok(Item {
        role: Role::Publish(path, thing, name),
        words,
    })
}

// The clause that publishes a definition.
fn publish_definition(
    alloc: Global,
    hosts: &HostNames<'_>,
    segment: &Text,
    definition: &ExportDefinition,
) -> Result<Item, AllocError>
    ensures item { IfOk result (λ item. item ≡ spec.publish_definition hosts.now segment.now definition.now) }
{
    let word = named_word(alloc, hosts, definition, false)?;
    let thing = definition.thing.copy(alloc)?;
    publish_item(alloc, segment, thing, &definition.identifier, word)
}

// The items, with `export ` before declarations.
fn exported_items(alloc: Global, items: &[Item]) -> Result<Seq<Item>, AllocError>
    ensures items { IfOk result (λ exported. exported ≡ map spec.exported_item items.now) }
{
    let mut exported = Seq::new(alloc);
    for item in items {
        exported.push(exported_item(alloc, item)?)?;
    }
    Ok(exported)
}

/// The items of a definition at the top level that is no re-export. Want of memory is the only error.
pub(crate) fn top_items(
    alloc: Global,
    hosts: &HostNames<'_>,
    segment: &Text,
    definition: &ExportDefinition,
) -> Result<Seq<Item>, AllocError>
    ensures items { IfOk result (λ items. items ≡ spec.top_items hosts.now segment.now definition.now) }
{
    if definition.private {
        return definition.items.copy(alloc);
    }
    if definition.identifier.as_str() == segment.as_str() {
        return exported_items(alloc, definition.items.as_slice());
    }
    let mut items = definition.items.copy(alloc)?;
    items.push(publish_definition(alloc, hosts, segment, definition)?)?;
    Ok(items)
}

// `const name = {};`
fn root_item(alloc: Global, segment: &Text, name: &Text) -> Result<Item, AllocError>
    ensures item { IfOk result (λ item. item ≡ spec.root_item segment.now name.now) }
{
    let words = root_words(alloc, name.as_str() == segment.as_str(), name)?;
    let path = top_path(alloc, segment)?;
    Ok(Item {
        role: Role::Namespace(path),
        words,
    })
}

// The clause that publishes a namespace's object under the namespace's own name, where it has another.
fn root_publish(alloc: Global, segment: &Text, name: &Text) -> Result<Seq<Item>, AllocError>
    ensures items { IfOk result (λ items. items ≡ spec.root_publish segment.now name.now) }
{
    let mut items = Seq::new(alloc);
    if name.as_str() != segment.as_str() {
        let thing = Thing::Group(top_path(alloc, segment)?);
        let word = Word::Refer(name.copy(alloc)?, false);
        items.push(publish_item(alloc, segment, thing, name, word)?)?;
    }
    Ok(items)
}

// The declarations of what stands below a root.
fn declared_below(alloc: Global, below: &[TreeEntry<'_>]) -> Result<Seq<Item>, AllocError>
    ensures items { IfOk result (λ items. items ≡ spec.declared_below below.now) }
{
    let mut items = Seq::new(alloc);
    for entry in below {
        items.append(entry.definition().items.copy(alloc)?)?;
    }
    Ok(items)
}

// The name of a namespace at the root.
fn root_name<'a>(roots: &'a Map<Text, Text>, segment: &'a Text) -> &'a Text
    ensures name { result.now ≡ spec.root_name roots.now segment.now }
{
    match roots.get(segment) {
        None => segment,
        Some(name) => name,
    }
}

// The object of a namespace at the root, what is put there, and the clause that publishes it.
fn object_items(
    alloc: Global,
    hosts: &HostNames<'_>,
    segment: &Text,
    name: &Text,
    below: &[TreeEntry<'_>],
) -> Result<Seq<Item>, AllocError>
    ensures items { IfOk result (λ items. items ≡ kept.object_items hosts.now segment.now name.now below.now) }
{
    let mut items = Seq::new(alloc);
    items.push(root_item(alloc, segment, name)?)?;
    let word = Word::Refer(name.copy(alloc)?, true);
    items.append(places_below(alloc, hosts, word, punct::ASSIGN, below)?)?;
    items.append(root_publish(alloc, segment, name)?)?;
    Ok(items)
}

/// The items of a namespace at the root. Want of memory is the only error.
pub(crate) fn namespace_items(
    alloc: Global,
    roots: &Map<Text, Text>,
    hosts: &HostNames<'_>,
    segment: &Text,
    below: &[TreeEntry<'_>],
) -> Result<Seq<Item>, AllocError>
    ensures items { IfOk result (λ items. items ≡ spec.namespace_items roots.now hosts.now segment.now below.now) }
{
    let name = root_name(roots, segment);
    let mut items = declared_below(alloc, below)?;
    items.append(object_items(alloc, hosts, segment, name, below)?)?;
    Ok(items)
}

/// The items of a re-export at the root, with what stands below it. Want of memory is the only error.
pub(crate) fn reexport_items(
    alloc: Global,
    hosts: &HostNames<'_>,
    segment: &Text,
    definition: &ExportDefinition,
    below: &[TreeEntry<'_>],
) -> Result<Seq<Item>, AllocError>
    ensures items { IfOk result (λ items. items ≡ spec.reexport_items hosts.now segment.now definition.now below.now) }
{
    let mut items = declared_below(alloc, below)?;
    let word = named_word(alloc, hosts, definition, true)?;
    items.append(places_below(alloc, hosts, word, punct::OR_ASSIGN, below)?)?;
    items.push(publish_definition(alloc, hosts, segment, definition)?)?;
    Ok(items)
}
