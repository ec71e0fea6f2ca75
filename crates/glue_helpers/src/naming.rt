//! Items of texts with names for their stand-ins.
ghost use Rattle.std.specs.Prelude.{◌≡◌, IfOk, is_ok, true};
ghost use Rattle.glue_marked.specs.Marked.{read_marked};
ghost use Rattle.glue_marked.specs.Reads.{words_in};
ghost use Rattle.glue_words.specs.Ident.{numbered};
ghost use Rattle.glue_helpers.specs.Items as spec;
ghost use Rattle.glue_helpers.specs.Numbered as names;

use crate::element::{ElementKind, class_of};
use glue_marked::{renamed_words, shipped, spread_words};
use glue_words::{Item, Role, Word};
use std::alloc::{AllocError, Global};
use values::{Seq, Text};

/// A name with a number.
pub fn numbered_text(alloc: Global, name: &str, number: u32) -> Result<Text, AllocError>
    ensures name { IfOk result (λ text. text ≡ numbered name.now number) }
{
    Ok(Text::new(format!(in alloc; "{name}{number}")?))
}

/// The name of the helper that gives a memory as an array.
pub fn array_view_name(alloc: Global, element: ElementKind, memory: u32) -> Result<Text, AllocError>
    ensures name { IfOk result (λ text. text ≡ names.array_view_name element memory) }
{
    let class = class_of(element);
    Ok(Text::new(format!(in alloc; "get{class}Memory{memory}")?))
}

/// The name of the variable that keeps it.
pub fn array_cache_name(
    alloc: Global,
    element: ElementKind,
    memory: u32,
) -> Result<Text, AllocError>
    ensures name { IfOk result (λ text. text ≡ names.array_cache_name element memory) }
{
    let class = class_of(element);
    Ok(Text::new(format!(in alloc; "cached{class}Memory{memory}")?))
}

/// The words of a text with a number for `$size`.
#[tactic(auto, unfolding(crate::specs::Items::sized_words))]
pub fn sized_words(alloc: Global, size: i64, text: &str) -> Result<Seq<Word>, AllocError>
    requires reads { is_ok (read_marked text.now) ≡ true }
    ensures words { IfOk result (λ words. words ≡ spec.sized_words size text.now) }
{
    let words = shipped(alloc, text)?;
    let mut number = Seq::new(alloc);
    number.push(Word::Num(size))?;
    let size = (Text::from_str(alloc, "$size")?, number);
    spread_words(alloc, &[size], words.as_slice())
}

/// The item with this key of words with names for their stand-ins and exports for theirs.
#[tactic(auto, unfolding(crate::specs::Items::named_words))]
pub fn renamed_item(
    alloc: Global,
    key: Text,
    names: &[(Text, Text)],
    exports: &[(Text, Text)],
    words: &[Word],
) -> Result<Item, AllocError>
    ensures item { IfOk result (λ item. item ≡ spec.helper_item key (spec.named_words names.now exports.now words.now)) }
{
    let words = renamed_words(alloc, names, exports, words)?;
    Ok(Item {
        role: Role::Helper(key),
        words,
    })
}

/// The same of a text.
pub fn named_item(
    alloc: Global,
    key: Text,
    names: &[(Text, Text)],
    exports: &[(Text, Text)],
    text: &str,
) -> Result<Item, AllocError>
    requires reads { is_ok (read_marked text.now) ≡ true }
    ensures item { IfOk result (λ item. item ≡ spec.helper_item key (spec.named_words names.now exports.now (words_in text.now))) }
{
    let words = shipped(alloc, text)?;
    renamed_item(alloc, key, names, exports, words.as_slice())
}
