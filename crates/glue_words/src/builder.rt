//! Putting words together.
ghost use Rattle.std.specs.Prelude.{◌≡◌, ◌++◌, ◌∷◌, [], true, false, OnErr, OnOk};
ghost use Rattle.glue_words.specs.Words.{space, line_feed};
ghost use Rattle.glue_words.specs.declared.word.Word.TheVariants as w;

use crate::word::{NoteKind, Word};
use std::alloc::{AllocError, Global};
use std::marker::Model;
use values::{Seq, Text};

/// Words that are put together, one behind the other. A contract sees the list of them.
///
/// Each method that adds a word fails by want of memory alone, and then the words stay as they were.
#[derive(Debug, Drop)]
pub struct WordBuilder {
    alloc: Global,
    words: Seq<Word>,
}

impl Model for WordBuilder {
    ghost use Rattle.std.specs.Prelude.{List};
    ghost use Rattle.glue_words.specs.declared.word.Word as declared;

    ghost Value = { List declared.Word };

    ghost view = { λ b. b.words };
}

impl WordBuilder {
    /// No words.
    pub fn new(alloc: Global) -> WordBuilder
        ensures empty { result ≡ [] }
    {
        WordBuilder {
            alloc,
            words: Seq::new(alloc),
        }
    }

    /// The words.
    pub fn finish(self) -> Seq<Word>
        ensures words { result ≡ self }
    {
        let WordBuilder { words, .. } = self;
        words
    }

    /// Adds a word.
    pub fn push(&mut self, word: Word) -> Result<(), AllocError>
        ensures ok { OnOk result (self.new ≡ self.old ++ word ∷ []) }
        ensures err { OnErr result (self.new ≡ self.old) }
    {
        self.words.push(word)
    }

    /// Adds words.
    pub fn append(&mut self, words: Seq<Word>) -> Result<(), AllocError>
        ensures ok { OnOk result (self.new ≡ self.old ++ words) }
        ensures err { OnErr result (self.new ≡ self.old) }
    {
        self.words.append(words)
    }

    /// Adds a gap: spaces and line feeds.
    fn gap(&mut self, text: &str) -> Result<(), AllocError>
        ensures ok { OnOk result (self.new ≡ self.old ++ w.Gap text.now ∷ []) }
        ensures err { OnErr result (self.new ≡ self.old) }
    {
        self.push(Word::Gap(Text::from_str(self.alloc, text)?))
    }

    /// Adds punctuation, by its place: one of the constants of `punct`.
    pub fn punct(&mut self, place: u8) -> Result<(), AllocError>
        ensures ok { OnOk result (self.new ≡ self.old ++ w.Punct place ∷ []) }
        ensures err { OnErr result (self.new ≡ self.old) }
    {
        self.push(Word::Punct(place))
    }

    /// Adds a keyword, by its place: one of the constants of `key`.
    pub fn key(&mut self, place: u8) -> Result<(), AllocError>
        ensures ok { OnOk result (self.new ≡ self.old ++ w.Key place ∷ []) }
        ensures err { OnErr result (self.new ≡ self.old) }
    {
        self.push(Word::Key(place))
    }

    /// Adds a space.
    pub fn space(&mut self) -> Result<(), AllocError>
        ensures ok { OnOk result (self.new ≡ self.old ++ space ∷ []) }
        ensures err { OnErr result (self.new ≡ self.old) }
    {
        self.gap(" ")
    }

    /// Adds a line feed.
    pub fn line_feed(&mut self) -> Result<(), AllocError>
        ensures ok { OnOk result (self.new ≡ self.old ++ line_feed ∷ []) }
        ensures err { OnErr result (self.new ≡ self.old) }
    {
        self.gap("\n")
    }

    /// Adds a whole number.
    pub fn number(&mut self, value: i64) -> Result<(), AllocError>
        ensures ok { OnOk result (self.new ≡ self.old ++ w.Num value ∷ []) }
        ensures err { OnErr result (self.new ≡ self.old) }
    {
        self.push(Word::Num(value))
    }

    /// Adds a text, printed as a string literal.
    pub fn text(&mut self, text: &str) -> Result<(), AllocError>
        ensures ok { OnOk result (self.new ≡ self.old ++ w.Text text.now ∷ []) }
        ensures err { OnErr result (self.new ≡ self.old) }
    {
        self.push(Word::Text(Text::from_str(self.alloc, text)?))
    }

    /// Adds a name of the module's scope, where it is declared.
    pub fn bind(&mut self, name: &str) -> Result<(), AllocError>
        ensures ok { OnOk result (self.new ≡ self.old ++ w.Bind name.now ∷ []) }
        ensures err { OnErr result (self.new ≡ self.old) }
    {
        self.push(Word::Bind(Text::from_str(self.alloc, name)?))
    }

    /// Adds a name of the module's scope that isn't evaluated when its item is.
    pub fn refer(&mut self, name: &str) -> Result<(), AllocError>
        ensures ok { OnOk result (self.new ≡ self.old ++ w.Refer name.now false ∷ []) }
        ensures err { OnErr result (self.new ≡ self.old) }
    {
        self.push(Word::Refer(Text::from_str(self.alloc, name)?, false))
    }

    /// Adds a name of the module's scope that is evaluated when its item is.
    pub fn refer_now(&mut self, name: &str) -> Result<(), AllocError>
        ensures ok { OnOk result (self.new ≡ self.old ++ w.Refer name.now true ∷ []) }
        ensures err { OnErr result (self.new ≡ self.old) }
    {
        self.push(Word::Refer(Text::from_str(self.alloc, name)?, true))
    }

    /// Adds a name of the host that isn't evaluated when its item is.
    pub fn host(&mut self, name: &str) -> Result<(), AllocError>
        ensures ok { OnOk result (self.new ≡ self.old ++ w.Host name.now false ∷ []) }
        ensures err { OnErr result (self.new ≡ self.old) }
    {
        self.push(Word::Host(Text::from_str(self.alloc, name)?, false))
    }

    /// Adds a name of the host that is evaluated when its item is.
    pub fn host_now(&mut self, name: &str) -> Result<(), AllocError>
        ensures ok { OnOk result (self.new ≡ self.old ++ w.Host name.now true ∷ []) }
        ensures err { OnErr result (self.new ≡ self.old) }
    {
        self.push(Word::Host(Text::from_str(self.alloc, name)?, true))
    }

    /// Adds a name of a function's scope, where it is declared.
    pub fn bind_local(&mut self, name: &str) -> Result<(), AllocError>
        ensures ok { OnOk result (self.new ≡ self.old ++ w.LocalBind name.now ∷ []) }
        ensures err { OnErr result (self.new ≡ self.old) }
    {
        self.push(Word::LocalBind(Text::from_str(self.alloc, name)?))
    }

    /// Adds a name of a function's scope, where it is used.
    pub fn local(&mut self, name: &str) -> Result<(), AllocError>
        ensures ok { OnOk result (self.new ≡ self.old ++ w.Local name.now ∷ []) }
        ensures err { OnErr result (self.new ≡ self.old) }
    {
        self.push(Word::Local(Text::from_str(self.alloc, name)?))
    }

    /// Adds the name of a property.
    pub fn prop(&mut self, name: &str) -> Result<(), AllocError>
        ensures ok { OnOk result (self.new ≡ self.old ++ w.Prop name.now ∷ []) }
        ensures err { OnErr result (self.new ≡ self.old) }
    {
        self.push(Word::Prop(Text::from_str(self.alloc, name)?))
    }

    /// Adds the access of a WebAssembly export.
    pub fn wasm(&mut self, name: &str) -> Result<(), AllocError>
        ensures ok { OnOk result (self.new ≡ self.old ++ w.Wasm name.now ∷ []) }
        ensures err { OnErr result (self.new ≡ self.old) }
    {
        self.push(Word::Wasm(Text::from_str(self.alloc, name)?))
    }

    /// Adds a name for the outside.
    pub fn outer(&mut self, name: &str) -> Result<(), AllocError>
        ensures ok { OnOk result (self.new ≡ self.old ++ w.Outer name.now ∷ []) }
        ensures err { OnErr result (self.new ≡ self.old) }
    {
        self.push(Word::Outer(Text::from_str(self.alloc, name)?))
    }

    /// Adds a computed property key, as it is printed.
    pub fn splice(&mut self, text: &str) -> Result<(), AllocError>
        ensures ok { OnOk result (self.new ≡ self.old ++ w.Splice text.now ∷ []) }
        ensures err { OnErr result (self.new ≡ self.old) }
    {
        self.push(Word::Splice(Text::from_str(self.alloc, text)?))
    }

    /// Adds a comment.
    pub fn note(&mut self, kind: NoteKind, text: &str) -> Result<(), AllocError>
        ensures ok { OnOk result (self.new ≡ self.old ++ w.Note kind text.now ∷ []) }
        ensures err { OnErr result (self.new ≡ self.old) }
    {
        self.push(Word::Note(kind, Text::from_str(self.alloc, text)?))
    }
}
