//! The words and items of a glue file, and its text.
//!
//! A glue file is a list of items, and an item is a list of words with a role. `print` joins their texts.
//! `specs/Linking.antt` says what it means that items are linked: each name is declared once, each name that is used
//! is declared or the host's, and neighbouring words stand apart. The proofs show that a string literal is read back
//! as its text, and when words stand apart by their kinds.
//!
//! Words are put together by `WordBuilder`. Punctuation and keywords go by the names of `punct` and `key`.
//!
//! `specs/Facts.antt` says what words hold and how they stand, as one record that computes and is put together from
//! the parts'. Items whose facts fit are linked (`proofs/Fitting.antt`).
//!
//! It stands on `values`, and on the tables of Unicode in `unicode_ident`. It knows nothing of descriptions,
//! adapters or targets, nor of the notation in which words are written as a text.
#![tactic(auto)]

mod builder;
mod computed;
mod ident;
mod item;
pub mod key;
mod literal;
mod printing;
pub mod punct;
mod tables;
mod word;

pub use builder::WordBuilder;
pub use computed::is_computed_key;
pub use ident::{is_valid_ident, to_valid_ident};
pub use item::{Item, Role, Thing};
pub use literal::js_string_literal;
pub use printing::print;
pub use tables::{key_text, punct_text, regex_text};
pub use word::{NoteKind, Word};
