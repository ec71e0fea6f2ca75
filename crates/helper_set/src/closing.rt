//! The helpers that are held, and their items.
ghost use Rattle.std.specs.Prelude.{◌≡◌, ◌<◌, ◌++◌, ◌∷◌, [], length, map, true, All, IfOk, OnOk};
ghost use Rattle.least_set.specs.Least.{is_marked};
ghost use Rattle.helper_set.specs.Helpers.{AreEntries, AreHelpers, held_item, referred};

use crate::table::Table;
use glue_words::{Item, Role, Word};
use least_set::{Graph, search};
use std::alloc::{AllocError, Global};
use values::{Duplicate, Map, Seq, Text};

// The helpers of a table, each of which names those that its words refer to.
#[derive(Drop)]
struct References<'a, T> {
    table: &'a T,
    alloc: Global,
}

impl<'a, T: Table> Graph for References<'a, T> {
    ghost use Rattle.helper_set.specs.Helpers.{referred};

    ghost count = { λ r. T.count r.table.now };

    ghost names = { λ r i. referred (T.binder r.table.now) (T.words r.table.now i) };

    fn count(&self) -> usize {
        self.table.count()
    }

    fn push_names(&self, out: &mut Vec<usize>, node: usize) -> Result<(), AllocError> {
        let words = self.table.words(self.alloc, node)?;
        push_referred(self.alloc, self.table, words.as_slice(), out)
    }
}

// Appends the helper that binds the name that a word refers to, if one does.
fn push_binder<T: Table>(
    alloc: Global,
    table: &T,
    word: &Word,
    out: &mut Vec<usize>,
) -> Result<(), AllocError>
    ensures appended { OnOk result (out.new.items ≡ out.old.items ++ referred (T.binder table.now) (word.now ∷ [])) }
{
    match word {
        Word::Refer(name, _) => match table.binder(alloc, name.as_str())? {
            Some(node) => Ok(out.push(node)?),
            None => Ok(()),
        },
        _ => Ok(()),
    }
}

// Appends the helpers that words refer to.
fn push_referred<T: Table>(
    alloc: Global,
    table: &T,
    words: &[Word],
    out: &mut Vec<usize>,
) -> Result<(), AllocError>
    ensures appended { OnOk result (out.new.items ≡ out.old.items ++ referred (T.binder table.now) words.now) }
{
    for word in words {
        push_binder(alloc, table, word, out)?;
    }
    Ok(())
}

/// The words of the helpers that are held, by their keys: those of the least set that has the needed helpers and each that the words of
/// one of its helpers refer to. Want of memory is the only error.
pub fn close<T: Table>(
    alloc: Global,
    table: &T,
    needed: &[usize],
) -> Result<Map<Text, Seq<Word>>, AllocError>
    requires nodes { All (λ node. node < T.count table.now) needed.now }
    ensures held { IfOk result (λ held. AreHelpers (T.key table.now) (T.words table.now) (T.binder table.now) needed.now held) }
{
    let marks = search(alloc, &References { table, alloc }, needed)?;
    collect(alloc, table, &marks)
}

// The words of the helpers that are marked, by their keys.
fn collect<T: Table>(
    alloc: Global,
    table: &T,
    marks: &[bool],
) -> Result<Map<Text, Seq<Word>>, AllocError>
    requires count { length marks.now ≡ T.count table.now }
    ensures entries { IfOk result (λ held. AreEntries (T.key table.now) (T.words table.now) (λ i. is_marked marks.now i ≡ true) held) }
{
    let mut held = Map::new(alloc);
    for node in 0..marks.len() {
        if marks[node] {
            drop(held.insert(table.key(alloc, node)?, table.words(alloc, node)?)?);
        }
    }
    Ok(held)
}

/// An item for each entry, in the order of their keys, which is that of their bytes. Want of memory is the only error.
pub fn helper_items(alloc: Global, held: &Map<Text, Seq<Word>>) -> Result<Seq<Item>, AllocError>
    ensures items { IfOk result (λ items. items ≡ map held_item held.now) }
{
    let mut items = Seq::new(alloc);
    for (key, words) in held.iter() {
        let words = words.copy(alloc)?;
        items.push(Item {
            role: Role::Helper(key.copy(alloc)?),
            words,
        })?;
    }
    Ok(items)
}
