//! The JavaScript functions and variables that a glue file's items call and share: helpers, as items.
//!
//! The text of each stands once in this crate, in the marked notation of `glue_marked`, in a file for each family:
//! `asserts`, `objects`, `errors`, `strings`, `views`, `arrays`, `externref` and `closures`. Names that depend on a
//! memory, a table or an export are stand-ins there, which each file's head lists. A helper whose text differs by a
//! setting has a text for each form. The forms for a module that can be reset, for the wrapped tag and legacy exceptions,
//! the keys `reinit_scheduled` and `wrapError`, and Emscripten's forms aren't here.
//!
//! - `plain_helper` gives the item of a text without stand-ins, and the calls of the families those of the others.
//!   Clause `item`: the item has the helper's key, and the words of the text with names for the stand-ins
//!   (`specs/Items.antt`, and a page for each family).
//! - The proofs say of each item which names it declares, uses and takes of the host and of the module, exactly, that it
//!   publishes nothing, and that it fits where the names that it asks for are there (a page of `proofs/` for each
//!   family; `Telling` has what they share).
//!
//! Stands on `glue_marked`, `glue_words` and `values`. It doesn't know which helpers a file needs, nor the object table.
#![tactic(auto)]

pub mod arrays;
pub mod asserts;
pub mod closures;
mod element;
pub mod errors;
pub mod externref;
mod naming;
pub mod objects;
mod plain;
pub mod strings;
pub mod views;

pub use element::{ElementKind, Width};
pub use plain::{PlainHelper, plain_helper};
