//! Constants that are lists of texts.
ghost use Rattle.std.specs.Prelude.{◌≡◌, ◌++◌, IfOk, OnOk};
ghost use Rattle.std.specs.List.{flat_map};
ghost use Rattle.glue_lines.specs.Texts as spec;

use glue_words::{Item, Role, WordBuilder, key, punct};
use std::alloc::{AllocError, Global};
use values::Text;

// A further text.
fn push_next_text(words: &mut WordBuilder, text: &str) -> Result<(), AllocError>
    ensures words { OnOk result (words.new ≡ words.old ++ spec.next_text text.now) }
{
    words.punct(punct::COMMA)?;
    words.space()?;
    words.text(text)
}

// The further texts.
fn push_next_texts(words: &mut WordBuilder, texts: &[Text]) -> Result<(), AllocError>
    ensures words { OnOk result (words.new ≡ words.old ++ flat_map spec.next_text texts.now) }
{
    for text in texts {
        push_next_text(words, text.as_str())?;
    }
    Ok(())
}

// Texts, with `, ` between them.
fn push_texts(words: &mut WordBuilder, texts: &[Text]) -> Result<(), AllocError>
    ensures words { OnOk result (words.new ≡ words.old ++ spec.texts_words texts.now) }
{
    match texts {
        [] => Ok(()),
        [first, others @ ..] => {
            words.text(first.as_str())?;
            push_next_texts(words, others)
        }
    }
}

/// The constant that is the list of these texts, in their order: `const bound = ["a", "b"];`, or `const bound = [];`
/// where there is none.
///
/// The name that the constant is bound to has to be an identifier. The texts may be any: each is written as a string
/// literal. Want of memory is the only error.
pub fn texts_constant(alloc: Global, bound: &str, texts: &[Text]) -> Result<Item, AllocError>
    ensures item { IfOk result (λ item. item ≡ spec.texts_constant bound.now texts.now) }
{
    let mut words = WordBuilder::new(alloc);
    words.key(key::CONST)?;
    words.space()?;
    words.bind(bound)?;
    words.space()?;
    words.punct(punct::ASSIGN)?;
    words.space()?;
    words.punct(punct::OPEN_BRACKET)?;
    push_texts(&mut words, texts)?;
    words.punct(punct::CLOSE_BRACKET)?;
    words.punct(punct::SEMICOLON)?;
    words.line_feed()?;
    Ok(Item {
        role: Role::Body,
        words: words.finish(),
    })
}
