//! Properties, by their names and by computed keys.
ghost use Rattle.std.specs.Prelude.{◌≡◌, ◌++◌, ◌∷◌, ◌==◌, [], IfOk, OnOk};
ghost use Rattle.glue_scope.specs.Properties.{property_parts, segment_words};

use glue_words::{Word, is_computed_key, is_valid_ident, punct};
use std::alloc::{AllocError, Global};
use values::Text;

/// Adds a word.
fn push(words: &mut Vec<Word>, word: Word) -> Result<(), AllocError>
    ensures { OnOk result (words.new.items ≡ words.old.items ++ word ∷ []) }
{
    words.push(word)?;
    Ok(())
}

/// Adds the access of a property: `.name`, or `["name"]` where the name is no identifier.
#[tactic(auto, unfolding(crate::specs::Properties::segment_words))]
fn push_segment(alloc: Global, words: &mut Vec<Word>, segment: &str) -> Result<(), AllocError>
    ensures { OnOk result (words.new.items ≡ words.old.items ++ segment_words segment.now) }
{
    if is_valid_ident(segment) {
        push(words, Word::Punct(punct::DOT))?;
        return push(words, Word::Prop(Text::from_str(alloc, segment)?));
    }
    push(words, Word::Punct(punct::OPEN_BRACKET))?;
    push(words, Word::Text(Text::from_str(alloc, segment)?))?;
    push(words, Word::Punct(punct::CLOSE_BRACKET))
}

/// Adds the words that access a property: a computed key whole, or each part between dots.
#[tactic(auto, unfolding(crate::specs::Properties::property_parts))]
fn push_parts(alloc: Global, words: &mut Vec<Word>, name: &str) -> Result<(), AllocError>
    ensures { OnOk result (words.new.items ≡ words.old.items ++ property_parts name.now) }
{
    if is_computed_key(name) {
        return push(words, Word::Splice(Text::from_str(alloc, name)?));
    }
    for segment in name.split('.') {
        push_segment(alloc, words, segment)?;
    }
    Ok(())
}

/// The words that access a property after an object.
///
/// A computed key is spliced whole. Any other name is split at its dots, and each part is accessed in turn.
pub fn property_words(alloc: Global, name: &str) -> Result<Vec<Word>, AllocError>
    ensures words { IfOk result (λ words. words.items ≡ property_parts name.now) }
{
    let mut words = Vec::new(alloc);
    push_parts(alloc, &mut words, name)?;
    Ok(words)
}
