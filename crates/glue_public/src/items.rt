//! The items of the export tree of a description.
ghost use Rattle.std.specs.Prelude.{[], IfOk, IfErr};
ghost use Rattle.glue_shared.specs.declared.settings.Settings as of;
ghost use Rattle.glue_public.specs.Described as spec;
ghost use Rattle.glue_public.specs.Public.{ArePublic, AreTreeItems, IsCovered};

use crate::tree::described_tree;
use glue_exports::{ExportFault, tree_items};
use glue_shared::{NameMap, WasmBindgenAux};
use glue_words::Item;
use std::alloc::{AllocError, Global};
use values::{Seq, Text};

/// The items that declare what a description asks for, and publish it: those of its export tree. `hosts` are the names of the
/// host among those of re-exports. The errors are those of [`described_tree`].
pub fn described_items(
    alloc: Global,
    aux: &WasmBindgenAux,
    names: &NameMap,
    hosts: &[Text],
    functions: Seq<(Text, Seq<Item>)>,
) -> Result<Seq<Item>, ExportFault>
    ensures items { IfOk result (AreTreeItems aux.now names.now hosts.now functions) }
    ensures public { IfOk result (λ items. (settings : of.Settings) → IsCovered settings aux.now functions → ArePublic settings aux.now items) }
    ensures cause { IfErr result (spec.IsCause (spec.described aux.now names.now functions) []) }
{
    let tree = described_tree(alloc, aux, names, functions)?;
    Ok(tree_items(alloc, &tree, &names.namespaces, hosts)?)
}

/// The same of a description none of whose definitions clashes with those before it. Want of memory is the only error.
pub fn unclashed_items(
    alloc: Global,
    aux: &WasmBindgenAux,
    names: &NameMap,
    hosts: &[Text],
    functions: Seq<(Text, Seq<Item>)>,
) -> Result<Seq<Item>, AllocError>
    requires unclashed { spec.AreUnclashed (spec.described aux.now names.now functions) }
    ensures items { IfOk result (AreTreeItems aux.now names.now hosts.now functions) }
    ensures public { IfOk result (λ items. (settings : of.Settings) → IsCovered settings aux.now functions → ArePublic settings aux.now items) }
{
    match described_items(alloc, aux, names, hosts, functions) {
        Ok(items) => Ok(items),
        Err(ExportFault::OutOfMemory) => Err(AllocError),
        Err(ExportFault::Clash { .. }) => unreachable!(),
    }
}
