//! Declarations that are exported where they stand.
ghost use Rattle.std.specs.Prelude.{◌≡◌, ◌++◌, ◌≤◌, true, false, length, take, drop, IfOk, OnOk};
ghost use Rattle.glue_targets.specs.RoleWords as role_words;
ghost use Rattle.glue_exports.specs.Printed as spec;

use glue_words::{Item, Role, Word, WordBuilder, key};
use std::alloc::{AllocError, Global};
use values::{Duplicate, Seq};

// How many words the notes have that the words begin with, with the gaps that follow a note.
fn notes_len(words: &[Word]) -> usize
    ensures within { result ≤ length words.now }
    ensures parts { spec.export_behind_notes words.now ≡ take result words.now ++ (role_words.export_first true ++ drop result words.now) }
{
    let mut noted = false;
    for (place, word) in words.iter().enumerate() {
        match word {
            Word::Note(_, _) => noted = true,
            Word::Gap(_) if noted => {}
            _ => return place,
        }
    }
    words.len()
}

fn push_copies(alloc: Global, words: &mut WordBuilder, more: &[Word]) -> Result<(), AllocError>
    ensures words { OnOk result (words.new ≡ words.old ++ more.now) }
{
    for word in more {
        words.push(word.copy(alloc)?)?;
    }
    Ok(())
}

// The words with `export ` before them, or behind the notes that they begin with.
fn export_behind_notes(alloc: Global, words: &[Word]) -> Result<Seq<Word>, AllocError>
    ensures words { IfOk result (λ exported. exported ≡ spec.export_behind_notes words.now) }
{
    let notes = notes_len(words);
    let mut exported = WordBuilder::new(alloc);
    push_copies(alloc, &mut exported, &words[..notes])?;
    exported.key(key::EXPORT)?;
    exported.space()?;
    push_copies(alloc, &mut exported, &words[notes..])?;
    Ok(exported.finish())
}

/// The item, exported where it is a declaration: `export ` stands before its words, behind the notes that they begin with.
/// Want of memory is the only error.
pub(crate) fn exported_item(alloc: Global, item: &Item) -> Result<Item, AllocError>
    ensures item { IfOk result (λ exported. exported ≡ spec.exported_item item.now) }
{
    match &item.role {
        Role::Declare(thing) => Ok(Item {
            role: Role::Declare(thing.copy(alloc)?),
            words: export_behind_notes(alloc, item.words.as_slice())?,
        }),
        _ => item.copy(alloc),
    }
}
