//! The names from outside, read off a first spelling.
ghost use Rattle.std.specs.Prelude.{◌≡◌, OnOk};
ghost use Rattle.values.specs.TextSet.{with_texts};
ghost use Rattle.glue_binding.specs.Outer.{outer_of, outer_list, outer_names};

use crate::body::body_of;
use glue_scope::Names;
use glue_steps::Step;
use glue_tree::function_words_of;
use glue_words::Word;
use std::alloc::{AllocError, Global};
use values::{Seq, Text};

// Binds the name from outside that a word uses.
fn reserve_word<N: Names>(scope: &mut N, word: &Word) -> Result<(), AllocError>
    ensures bound { OnOk result (N.bound scope.new ≡ with_texts (N.bound scope.old) (outer_of word.now)) }
{
    match word {
        Word::Refer(name, _) => {
            scope.reserve(name.as_str())?;
            Ok(())
        }
        Word::Host(name, _) => {
            scope.reserve(name.as_str())?;
            Ok(())
        }
        _ => Ok(()),
    }
}

// Binds the names from outside that words use.
fn reserve_words<N: Names>(scope: &mut N, words: &[Word]) -> Result<(), AllocError>
    ensures bound { OnOk result (N.bound scope.new ≡ with_texts (N.bound scope.old) (outer_list words.now)) }
{
    for word in words {
        reserve_word(scope, word)?;
    }
    Ok(())
}

/// Binds names that stand around a function.
pub fn reserve_names<N: Names>(scope: &mut N, names: &[Text]) -> Result<(), AllocError>
    ensures bound { OnOk result (N.bound scope.new ≡ with_texts (N.bound scope.old) names.now) }
{
    for name in names {
        scope.reserve(name.as_str())?;
    }
    Ok(())
}

/// Binds the names from outside that the function of the steps uses, whatever its parameters and temporaries are
/// called: they are read off its words, spelled with no names drawn. The only error is want of memory.
pub(crate) fn reserve_seed<N: Names>(
    alloc: Global,
    scope: &mut N,
    steps: &[Step],
) -> Result<(), AllocError>
    ensures bound { OnOk result (N.bound scope.new ≡ with_texts (N.bound scope.old) (outer_names steps.now)) }
{
    let body = body_of(alloc, steps, Seq::new(alloc), Seq::new(alloc))?;
    let words = function_words_of(alloc, &[], body.as_slice())?;
    reserve_words(scope, words.as_slice())
}
