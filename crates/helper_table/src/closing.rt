//! The helpers that needed keys ask for, as items.
ghost use Rattle.std.specs.Prelude.{◌≡◌, ◌++◌, ◌∷◌, [], IfOk, OnOk};
ghost use Rattle.helper_table.specs.Closed.{AreClosed, AreHeld, ArePresent, needed_helpers};

use crate::parts::HelperParts;
use crate::table::{HelperTable, keyed};
use glue_words::Item;
use helper_set::helper_items;
use std::alloc::{AllocError, Global};
use values::{Seq, Text};

// Appends the helper with a key, if one has it.
fn push_keyed(
    alloc: Global,
    parts: &HelperParts,
    key: &Text,
    out: &mut Vec<usize>,
) -> Result<(), AllocError>
    ensures appended { OnOk result (out.new.items ≡ out.old.items ++ needed_helpers parts.now (key.now ∷ [])) }
{
    match keyed(alloc, parts, key.as_str())? {
        None => Ok(()),
        Some(node) => Ok(out.push(node)?),
    }
}

// The helpers with these keys. A key that no helper has is passed over.
fn needed_nodes(
    alloc: Global,
    parts: &HelperParts,
    needed: &[Text],
) -> Result<Vec<usize>, AllocError>
    ensures nodes { IfOk result (λ nodes. nodes.items ≡ needed_helpers parts.now needed.now) }
{
    let mut nodes = Vec::new(alloc);
    for key in needed {
        push_keyed(alloc, parts, key, &mut nodes)?;
    }
    Ok(nodes)
}

/// The items of the least set that holds these helpers and each that a word of a held one refers to, by key in order of bytes. Want of memory
/// is the only error.
pub(crate) fn held_items(
    alloc: Global,
    parts: &HelperParts,
    nodes: &[usize],
) -> Result<Seq<Item>, AllocError>
    requires bound { ArePresent parts.now nodes.now }
    ensures held { IfOk result (λ items. AreHeld parts.now nodes.now items) }
{
    let held = helper_set::close(alloc, &HelperTable { parts }, nodes)?;
    helper_items(alloc, &held)
}

/// The items of the helpers that the needed keys ask for: of the least set that holds the helpers with these keys, and each that a word of a
/// held one refers to. Each stands once, by its key in order of bytes. A key that no helper has, or whose helper takes a part that is
/// absent, is passed over; so is a helper that a word refers to and that takes one, whose name then stays unbound. Helpers of the object
/// table are there whatever `externref` is, and those of the table of references where the module has one. Want of memory is the only error.
pub fn close(alloc: Global, parts: &HelperParts, needed: &[Text]) -> Result<Seq<Item>, AllocError>
    ensures closed { IfOk result (λ items. AreClosed parts.now needed.now items) }
{
    let nodes = needed_nodes(alloc, parts, needed)?;
    held_items(alloc, parts, nodes.as_slice())
}
