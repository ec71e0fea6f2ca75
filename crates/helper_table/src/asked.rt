//! The helpers that items ask for.
ghost use Rattle.std.specs.Prelude.{◌≡◌, ◌++◌, ◌∷◌, [], fold, IfOk, OnOk};
ghost use Rattle.helper_table.specs.Closed as closed;

use crate::closing::held_items;
use crate::parts::HelperParts;
use crate::reading::find_binder;
use crate::table::binder;
use glue_words::{Item, Word};
use std::alloc::{AllocError, Global};
use values::{Seq, Text};

// Whether a helper is one of these.
fn is_one(nodes: &[usize], node: usize) -> bool
    ensures test { result ≡ closed.is_one nodes.now node }
{
    nodes.contains(&node)
}

// Adds the helper that binds a name, unless it is there.
fn push_binder(
    alloc: Global,
    parts: &HelperParts,
    name: &Text,
    nodes: &mut Vec<usize>,
) -> Result<(), AllocError>
    ensures asked { OnOk result (nodes.new.items ≡ closed.with_binder parts.now nodes.old.items name.now) }
{
    let Some(node) = find_binder(alloc, name.as_str())? else {
        return Ok(());
    };
    if is_one(nodes.as_slice(), node) {
        return Ok(());
    }
    match binder(alloc, parts, name.as_str())? {
        None => Ok(()),
        Some(found) => Ok(nodes.push(found)?),
    }
}

// Adds the helper that a word refers to, unless it is there.
fn push_word(
    alloc: Global,
    parts: &HelperParts,
    word: &Word,
    nodes: &mut Vec<usize>,
) -> Result<(), AllocError>
    ensures asked { OnOk result (nodes.new.items ≡ closed.with_words parts.now nodes.old.items (word.now ∷ [])) }
{
    match word {
        Word::Refer(name, _) => push_binder(alloc, parts, name, nodes),
        _ => Ok(()),
    }
}

// Adds those that words refer to.
fn push_words(
    alloc: Global,
    parts: &HelperParts,
    words: &[Word],
    nodes: &mut Vec<usize>,
) -> Result<(), AllocError>
    ensures asked { OnOk result (nodes.new.items ≡ closed.with_words parts.now nodes.old.items words.now) }
{
    for word in words {
        push_word(alloc, parts, word, nodes)?;
    }
    Ok(())
}

// Those that items refer to.
fn asked_nodes(alloc: Global, parts: &HelperParts, items: &[Item]) -> Result<Vec<usize>, AllocError>
    ensures asked { IfOk result (λ nodes. nodes.items ≡ closed.asked_helpers parts.now items.now) }
{
    let mut nodes = Vec::new(alloc);
    for item in items {
        push_words(alloc, parts, item.words.as_slice(), &mut nodes)?;
    }
    Ok(nodes)
}

/// The items of the helpers that these items ask for: of the least set that holds each helper that a word of theirs refers to, and each that
/// a word of a held one refers to. Each stands once, by its key in order of bytes. Want of memory is the only error.
pub fn close_over(
    alloc: Global,
    parts: &HelperParts,
    items: &[Item],
) -> Result<Seq<Item>, AllocError>
    ensures asked { IfOk result (λ group. closed.AreAsked parts.now items.now group) }
{
    let nodes = asked_nodes(alloc, parts, items)?;
    held_items(alloc, parts, nodes.as_slice())
}
