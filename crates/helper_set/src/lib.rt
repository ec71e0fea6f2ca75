//! The helper functions that a glue file holds.
//!
//! Of a table of helpers (`Table`) these are the least set that has the needed ones and each that the words of one of its helpers refer
//! to. `close` gives their words by key, in order of bytes, each once (its clause `held`: `AreHelpers` in `specs/Helpers.antt`), and
//! `helper_items` makes items of them. What a helper binds and refers to is read off its words alone.
//!
//! Stands on `least_set`, `glue_words` and `values`. It knows no helper.
#![tactic(auto)]

mod closing;
mod table;

pub use closing::{close, helper_items};
pub use table::Table;
