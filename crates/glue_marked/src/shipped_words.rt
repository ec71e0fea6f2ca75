//! The words of texts that are known to be in the marked notation.
ghost use Rattle.std.specs.Prelude.{◌≡◌, true, is_ok, IfOk};
ghost use Rattle.glue_marked.specs.Marked.{read_marked};
ghost use Rattle.glue_marked.specs.Reads.{words_in, KeepLimits};

use crate::mark_fault::MarkFault;
use crate::mark_reader::marked;
use glue_words::Word;
use std::alloc::{AllocError, Global};
use values::Seq;

/// The words of a text that is in the marked notation. Want of memory is its only error.
#[tactic(auto, using(crate::proofs::MarkedReading::words_found))]
pub fn shipped(alloc: Global, text: &str) -> Result<Seq<Word>, AllocError>
    requires { is_ok (read_marked text.now) ≡ true }
    ensures words { IfOk result (λ words. words ≡ words_in text.now) }
    ensures limits { IfOk result (λ words. KeepLimits words) }
{
    match marked(alloc, text) {
        Ok(words) => Ok(Seq::from_vec(words)),
        Err(MarkFault::OutOfMemory) => Err(AllocError),
        Err(MarkFault::BadMark { .. }) => unreachable!(),
    }
}
