//! What of a WebAssembly module can be reached: things that refer to things, and the least set that holds the roots
//! and what each of its members refers to.
//!
//! `search` marks exactly that set (`IsLeast` in `specs/Reach.antt`), unless memory runs out. What a thing names is asked
//! once for each thing that is reached. It stands on `values`.
#![tactic(auto)]

mod found;
mod graph;
mod marks;
mod things;

pub use graph::{Graph, search};
pub use marks::{Marks, Sizes};
pub use things::Thing;
