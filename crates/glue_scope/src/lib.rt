//! Names that are bound once, and the words that access a property.
//!
//! A scope draws names that are new: `IdentScope`, behind the trait `Names`. The proofs show that drawn names are new, distinct and
//! identifiers. `property_words` gives the words that access a property. A `MemView` is displayed as its name with its number (`output`).
//!
//! It stands on `values` and on the words of `glue_words`, which it hands on.
#![tactic(auto)]

mod mem_view;
mod names;
mod number_map;
mod property;

pub use glue_words::{
    Item, NoteKind, Role, Thing, Word, is_computed_key, is_valid_ident, js_string_literal,
    key_text, print, punct_text, regex_text, to_valid_ident,
};
pub use mem_view::MemView;
pub use names::{IdentScope, Names};
pub use property::property_words;
