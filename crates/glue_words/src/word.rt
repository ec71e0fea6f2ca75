//! The words of an item.
ghost use Rattle.std.specs.Prelude.{◌≡◌, IfOk};

use std::alloc::{AllocError, Global};
use values::{Duplicate, Text};

/// The forms of a note, which is a JavaScript comment.
#[derive(Clone, Copy, Debug, PartialEq, Eq, PartialOrd, Ord, Hash)]
pub enum NoteKind {
    /// `/**`, the first line of a comment of several lines. Its text isn't printed.
    Open,
    /// ` * text`, a line between the first and the last.
    Line,
    /// ` */`, the last line. Its text isn't printed.
    Close,
    /// `// text`.
    Slash,
    /// `/* text */`.
    Block,
}

/// A word: a piece of JavaScript text with what it stands for.
///
/// The truth of `Refer` and `Host` says whether the name is evaluated when its item is.
#[derive(Debug, PartialEq, Eq, PartialOrd, Ord, Hash, Drop)]
pub enum Word {
    /// Punctuation, by its place: one of the constants of `punct`.
    Punct(u8),
    /// A keyword, by its place: one of the constants of `key`.
    Key(u8),
    /// A regular expression, by its place in the table of `regex_text`.
    Regex(u8),
    /// Spaces and line feeds.
    Gap(Text),
    /// A whole number, printed in decimal.
    Num(i64),
    /// A text, printed as a string literal.
    Text(Text),
    /// A piece of a template literal, as it is printed.
    Tpl(Text),
    /// A comment.
    Note(NoteKind, Text),
    /// A name of the module's scope, where it is declared.
    Bind(Text),
    /// A name of the module's scope, where it is used.
    Refer(Text, bool),
    /// A name that the host gives.
    Host(Text, bool),
    /// A name of a function's scope, where it is declared.
    LocalBind(Text),
    /// A name of a function's scope, where it is used.
    Local(Text),
    /// The name of a property.
    Prop(Text),
    /// The access of a WebAssembly export: `.name`, or `["name"]` where the name is no identifier.
    Wasm(Text),
    /// A name for the outside: itself, or its string literal where it is no identifier.
    Outer(Text),
    /// A computed property key, printed as it is.
    Splice(Text),
}

impl Duplicate for Word {
    fn copy(&self, alloc: Global) -> Result<Word, AllocError> {
        match self {
            Word::Punct(place) => Ok(Word::Punct(*place)),
            Word::Key(place) => Ok(Word::Key(*place)),
            Word::Regex(place) => Ok(Word::Regex(*place)),
            Word::Gap(text) => Ok(Word::Gap(text.copy(alloc)?)),
            Word::Num(value) => Ok(Word::Num(*value)),
            Word::Text(text) => Ok(Word::Text(text.copy(alloc)?)),
            Word::Tpl(text) => Ok(Word::Tpl(text.copy(alloc)?)),
            Word::Note(kind, text) => Ok(Word::Note(*kind, text.copy(alloc)?)),
            Word::Bind(name) => Ok(Word::Bind(name.copy(alloc)?)),
            Word::Refer(name, now) => Ok(Word::Refer(name.copy(alloc)?, *now)),
            Word::Host(name, now) => Ok(Word::Host(name.copy(alloc)?, *now)),
            Word::LocalBind(name) => Ok(Word::LocalBind(name.copy(alloc)?)),
            Word::Local(name) => Ok(Word::Local(name.copy(alloc)?)),
            Word::Prop(name) => Ok(Word::Prop(name.copy(alloc)?)),
            Word::Wasm(name) => Ok(Word::Wasm(name.copy(alloc)?)),
            Word::Outer(name) => Ok(Word::Outer(name.copy(alloc)?)),
            Word::Splice(text) => Ok(Word::Splice(text.copy(alloc)?)),
        }
    }
}
