//! Reading a text in the marked notation.
ghost use Rattle.std.specs.Prelude.{◌≡◌, [], reverse, OnOk, IfOk};
ghost use Rattle.glue_marked.specs.Marked as spec;
ghost use Rattle.glue_marked.specs.Reads.{IsPlaced, Reads, KeepLimits};

use crate::mark_fault::MarkFault;
use crate::mark_kind::kind_of;
use crate::mark_length::{behind, front, len_of};
use crate::mark_word::word_of;
use glue_words::{Word, punct};
use std::alloc::{AllocError, Global};
use values::Seq;

/// What is open behind a word, the innermost last: true for a substitution of a template, false for a brace.
#[tactic(auto, using(crate::proofs::MarkedReading::opening, glue_words::proofs::Edges::first_is, glue_words::proofs::Edges::last_is), unfolding(crate::specs::Marked::open_after))]
fn open_after(opened: &mut Seq<bool>, word: &Word) -> Result<(), AllocError>
    ensures { OnOk result (reverse opened.new ≡ spec.open_after (reverse opened.old) word.now) }
{
    match word {
        Word::Tpl(piece) => {
            let bytes = piece.as_str().as_bytes();
            if bytes.first().copied() != Some(b'`') {
                let _ = opened.pop();
            }
            if bytes.last().copied() == Some(b'{') {
                opened.push(true)?;
            }
        }
        Word::Punct(punct::OPEN_BRACE) => opened.push(false)?,
        Word::Punct(punct::CLOSE_BRACE) => {
            let _ = opened.pop();
        }
        _ => {}
    }
    Ok(())
}

/// Whether a bare name behind the word is that of a property.
#[tactic(auto, unfolding(crate::specs::Marked::is_dot))]
fn is_dot(word: &Word) -> bool
    ensures { result ≡ spec.is_dot word.now }
{
    matches!(word, Word::Punct(punct::DOT))
}

/// The words of a text in the marked notation, or the place of the first part that isn't in it.
pub fn marked(alloc: Global, text: &str) -> Result<Vec<Word>, MarkFault>
    ensures reads { Reads result (spec.read_marked text.now) }
    ensures placed { IsPlaced result text.now }
    ensures limits { IfOk result (λ words. KeepLimits words.items) }
{
    let bytes = text.as_bytes();
    let mut words = Seq::new(alloc);
    let mut opened = Seq::new(alloc);
    let mut after_dot = false;
    let mut place = 0;
    while place < bytes.len() {
        let rest = behind(bytes, place);
        let kind = kind_of(opened.as_slice(), rest);
        let len = len_of(kind, rest).max(1);
        let Some(word) = word_of(alloc, kind, after_dot, front(rest, len))? else {
            return Err(MarkFault::BadMark { place });
        };
        open_after(&mut opened, &word)?;
        after_dot = is_dot(&word);
        words.push(word)?;
        place += len;
    }
    Ok(words.into_vec())
}
