//! Texts with stand-ins: names for names, and words for local names.
ghost use Rattle.std.specs.Prelude.{◌≡◌, ◌++◌, ◌∷◌, [], IfOk, OnOk};
ghost use Rattle.glue_marked.specs.StandIns as spec;

use glue_words::Word;
use std::alloc::{AllocError, Global};
use values::{Duplicate, Seq, Text};

// The name for a stand-in, and each other name itself.
fn name_for(alloc: Global, names: &[(Text, Text)], name: &Text) -> Result<Text, AllocError>
    ensures { IfOk result (λ new. new ≡ spec.name_for names.now name.now) }
{
    match names.split_first() {
        None => name.copy(alloc),
        Some((entry, others)) => {
            if entry.0.is_same(name) {
                entry.1.copy(alloc)
            } else {
                name_for(alloc, others, name)
            }
        }
    }
}

// The word with its name renamed.
fn renamed_word(
    alloc: Global,
    names: &[(Text, Text)],
    texts: &[(Text, Text)],
    word: &Word,
) -> Result<Word, AllocError>
    ensures { IfOk result (λ new. new ≡ spec.renamed_word (spec.name_for names.now) (spec.name_for texts.now) word.now) }
{
    match word {
        Word::Bind(name) => Ok(Word::Bind(name_for(alloc, names, name)?)),
        Word::Refer(name, now) => Ok(Word::Refer(name_for(alloc, names, name)?, *now)),
        Word::Host(name, now) => Ok(Word::Host(name_for(alloc, names, name)?, *now)),
        Word::LocalBind(name) => Ok(Word::LocalBind(name_for(alloc, names, name)?)),
        Word::Local(name) => Ok(Word::Local(name_for(alloc, names, name)?)),
        Word::Prop(name) => Ok(Word::Prop(name_for(alloc, names, name)?)),
        Word::Wasm(name) => Ok(Word::Wasm(name_for(alloc, texts, name)?)),
        Word::Outer(name) => Ok(Word::Outer(name_for(alloc, texts, name)?)),
        Word::Text(text) => Ok(Word::Text(name_for(alloc, texts, text)?)),
        _ => word.copy(alloc),
    }
}

/// The words with names for their stand-ins: `names` for names of scopes and properties, `texts` for exports, names
/// for the outside and texts.
pub fn renamed_words(
    alloc: Global,
    names: &[(Text, Text)],
    texts: &[(Text, Text)],
    words: &[Word],
) -> Result<Seq<Word>, AllocError>
    ensures words { IfOk result (λ new. new ≡ spec.renamed (spec.name_for names.now) (spec.name_for texts.now) words.now) }
{
    let mut new = Seq::new(alloc);
    for word in words {
        new.push(renamed_word(alloc, names, texts, word)?)?;
    }
    Ok(new)
}

// The words for a stand-in, and the local name itself where it is none.
fn words_for(
    alloc: Global,
    spreads: &[(Text, Seq<Word>)],
    name: &Text,
) -> Result<Seq<Word>, AllocError>
    ensures { IfOk result (λ words. words ≡ spec.words_for spreads.now name.now) }
{
    match spreads.split_first() {
        None => {
            let mut words = Seq::new(alloc);
            words.push(Word::Local(name.copy(alloc)?))?;
            Ok(words)
        }
        Some((entry, others)) => {
            if entry.0.is_same(name) {
                entry.1.copy(alloc)
            } else {
                words_for(alloc, others, name)
            }
        }
    }
}

// Appends the word, or those that stand for it.
fn push_spread(
    alloc: Global,
    spreads: &[(Text, Seq<Word>)],
    word: &Word,
    out: &mut Seq<Word>,
) -> Result<(), AllocError>
    ensures { OnOk result (out.new ≡ out.old ++ spec.spread_word spreads.now word.now) }
{
    match word {
        Word::Local(name) => out.append(words_for(alloc, spreads, name)?),
        _ => out.push(word.copy(alloc)?),
    }
}

/// The words with others for local names that are stand-ins.
pub fn spread_words(
    alloc: Global,
    spreads: &[(Text, Seq<Word>)],
    words: &[Word],
) -> Result<Seq<Word>, AllocError>
    ensures words { IfOk result (λ new. new ≡ spec.spread spreads.now words.now) }
{
    let mut new = Seq::new(alloc);
    for word in words {
        push_spread(alloc, spreads, word, &mut new)?;
    }
    Ok(new)
}
