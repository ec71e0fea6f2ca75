//! The export tree of a description.
ghost use Rattle.std.specs.Prelude.{[], IfOk, IfErr};
ghost use Rattle.glue_public.specs.Described as spec;

use crate::definitions::{PublicDefinition, described};
use glue_exports::{ExportFault, ExportTree, define_export};
use glue_shared::{NameMap, WasmBindgenAux};
use glue_words::Item;
use std::alloc::Global;
use values::{Seq, Text};

// The tree of definitions that are put in one behind another.
fn defined_tree(
    alloc: Global,
    definitions: Seq<PublicDefinition>,
) -> Result<ExportTree, ExportFault>
    ensures tree { IfOk result (λ tree. spec.ArePut definitions [] tree) }
    ensures cause { IfErr result (spec.IsCause definitions []) }
{
    let mut tree = ExportTree::new(alloc);
    for one in definitions.into_vec() {
        let PublicDefinition {
            namespace,
            name,
            definition,
        } = one;
        define_export(
            alloc,
            &mut tree,
            name.as_str(),
            namespace.as_slice(),
            definition,
        )?;
    }
    Ok(tree)
}

/// The export tree of a description. `functions` has the identifier and the items of each function that stands by itself, in the
/// description's order; where one of the two lists goes on, the rest of it is left out. Classes and the function that resets the
/// state aren't in the tree.
///
/// [`ExportFault::Clash`] names the first definition that can't stand beside those before it; the other error is want of memory,
/// which answers a path of too many segments too.
pub fn described_tree(
    alloc: Global,
    aux: &WasmBindgenAux,
    names: &NameMap,
    functions: Seq<(Text, Seq<Item>)>,
) -> Result<ExportTree, ExportFault>
    ensures tree { IfOk result (λ tree. spec.ArePut (spec.described aux.now names.now functions) [] tree) }
    ensures cause { IfErr result (spec.IsCause (spec.described aux.now names.now functions) []) }
{
    let definitions = described(alloc, aux, names, functions)?;
    defined_tree(alloc, definitions)
}
