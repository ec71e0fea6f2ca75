//! The items of the object table.
ghost use Rattle.std.specs.Prelude.{◌≡◌, ◌++◌, IfOk, OnOk, map};
ghost use Rattle.glue_tree.specs.Plainly.{plain_stmts};
ghost use Rattle.glue_heap.specs.HeapItems as spec;
ghost use Rattle.glue_heap.specs.HeapKeys.{heap_name, heap_parameter};

use crate::key::HeapKey;
use crate::trees::{HeapOptions, heap_tree};
use glue_tree::{Stmt, function_words_of, words_of};
use glue_words::{Item, Role, Word, WordBuilder, key};
use std::alloc::{AllocError, Global};
use values::{Duplicate, Seq, Text};

// The word, where names from outside of a function are evaluated with its item.
fn evaluated(alloc: Global, word: &Word) -> Result<Word, AllocError>
    ensures word { IfOk result (λ copy. copy ≡ spec.evaluated word.now) }
{
    match word {
        Word::Refer(name, _) => Ok(Word::Refer(name.copy(alloc)?, true)),
        Word::Host(name, _) => Ok(Word::Host(name.copy(alloc)?, true)),
        _ => word.copy(alloc),
    }
}

fn push_evaluated(alloc: Global, more: &[Word], words: &mut WordBuilder) -> Result<(), AllocError>
    ensures words { OnOk result (words.new ≡ words.old ++ map spec.evaluated more.now) }
{
    for word in more {
        words.push(evaluated(alloc, word)?)?;
    }
    Ok(())
}

fn behind_first(words: &[Word]) -> &[Word]
    ensures words { result.now ≡ spec.behind_first words.now }
{
    match words {
        [] => words,
        [_, others @ ..] => others,
    }
}

// `let name = value;`, where the statements begin with the name.
fn variable_words(alloc: Global, name: &str, tree: &[Stmt]) -> Result<Seq<Word>, AllocError>
    ensures words { IfOk result (λ words. words ≡ spec.variable_words name.now (plain_stmts tree.now)) }
{
    let spelled = words_of(alloc, tree)?;
    let mut words = WordBuilder::new(alloc);
    words.key(key::LET)?;
    words.space()?;
    words.bind(name)?;
    push_evaluated(alloc, behind_first(spelled.as_slice()), &mut words)?;
    words.line_feed()?;
    Ok(words.finish())
}

// `function name(parameter) {..}`
fn named_function_words(
    alloc: Global,
    name: &str,
    parameter: &str,
    tree: &[Stmt],
) -> Result<Seq<Word>, AllocError>
    ensures words { IfOk result (λ words. words
        ≡ spec.named_function_words name.now parameter.now (plain_stmts tree.now)) }
{
    let mut parameters = Seq::new(alloc);
    parameters.push(Text::from_str(alloc, parameter)?)?;
    let mut words = WordBuilder::new(alloc);
    words.key(key::FUNCTION)?;
    words.space()?;
    words.bind(name)?;
    words.append(function_words_of(alloc, parameters.as_slice(), tree)?)?;
    words.line_feed()?;
    Ok(words.finish())
}

// The words of a part.
fn heap_words(alloc: Global, key: HeapKey, tree: &[Stmt]) -> Result<Seq<Word>, AllocError>
    ensures words { IfOk result (λ words. words
        ≡ spec.words_with (heap_parameter key) (heap_name key) (plain_stmts tree.now)) }
{
    match key {
        HeapKey::Heap | HeapKey::HeapNext | HeapKey::StackPointer => {
            variable_words(alloc, key.name(), tree)
        }
        HeapKey::AddHeapObject | HeapKey::BorrowedObjects => {
            named_function_words(alloc, key.name(), "obj", tree)
        }
        HeapKey::DropRef | HeapKey::GetObject | HeapKey::TakeObject => {
            named_function_words(alloc, key.name(), "idx", tree)
        }
    }
}

/// The item of a part, whose role is the helper of that key. Want of memory is the only error.
pub fn heap_item(alloc: Global, key: HeapKey, options: &HeapOptions) -> Result<Item, AllocError>
    ensures item { IfOk result (λ item. item ≡ spec.heap_item key options.now.debug) }
{
    let tree = heap_tree(alloc, key, options)?;
    let words = heap_words(alloc, key, tree.as_slice())?;
    let role = Role::Helper(Text::from_str(alloc, key.text())?);
    Ok(Item { role, words })
}
