//! Texts in order of bytes, each once.
ghost use Rattle.cli_support.specs.Listed.{IsSortedSet};

use values::{Seq, Text};

/// The texts in order of bytes, each once.
pub(crate) fn sorted_set(texts: Vec<Text>) -> Seq<Text>
    ensures set { IsSortedSet texts.items result }
{
    let mut sorted = texts;
    sorted.sort_unstable();
    sorted.dedup();
    Seq::from_vec(sorted)
}
