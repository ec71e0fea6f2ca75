//! Tables of helpers.
use glue_words::Word;
use std::alloc::{AllocError, Global};
use values::{Seq, Text};

/// Helpers by their numbers: each has a key, and words that bind and use names.
pub trait Table {
    ghost use Rattle.std.specs.Prelude.{◌≡◌, ◌<◌, ℕ, List, Option, Some, IfOk};
    ghost use Rattle.values.specs.Lists.{IsIn};
    ghost use Rattle.glue_words.specs.declared.word.Word.{Word};
    ghost use Rattle.glue_words.specs.Names.{bound_in};

    /// How many helpers there are.
    ghost count: { Self → ℕ };

    /// A helper's key.
    ghost key: { Self → ℕ → List ℕ };

    /// A helper's words.
    ghost words: { Self → ℕ → List Word };

    /// The helper that binds a name.
    ghost binder: { Self → List ℕ → Option ℕ };

    /// How many helpers there are; their numbers are those below it.
    fn count(&self) -> usize
        ensures count { result ≡ count self.now };

    /// A helper's key. Want of memory is the only error, as of the calls below.
    fn key(&self, alloc: Global, node: usize) -> Result<Text, AllocError>
        requires node { node < count self.now }
        ensures key { IfOk result (λ text. text ≡ key self.now node) };

    /// A helper's words.
    fn words(&self, alloc: Global, node: usize) -> Result<Seq<Word>, AllocError>
        requires node { node < count self.now }
        ensures words { IfOk result (λ found. found ≡ words self.now node) };

    /// The helper that binds a name, if one does.
    fn binder(&self, alloc: Global, name: &str) -> Result<Option<usize>, AllocError>
        ensures binder { IfOk result (λ found. found ≡ binder self.now name.now) };

    /// A helper that is found by a name binds it.
    ghost binds: { (t : Self) (name : List ℕ) (i : ℕ) → binder t name ≡ Some i → (i < count t) × IsIn name (bound_in (words t i)) };

    /// A helper that binds a name is found by it.
    ghost finds: { (t : Self) (name : List ℕ) (i : ℕ) → i < count t → IsIn name (bound_in (words t i)) → binder t name ≡ Some i };

    /// No two helpers have one key.
    ghost apart: { (t : Self) (i j : ℕ) → i < count t → j < count t → key t i ≡ key t j → i ≡ j };
}
