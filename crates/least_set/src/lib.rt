//! The least set that holds some things and what each of its members names.
//!
//! What such a set is stands in `specs/Least.antt` (`IsLeast`), for things of any type. `search` marks exactly that set of numbered
//! nodes (its clause `least`), unless memory runs out.
//!
//! Stands on nothing.
#![tactic(auto)]

mod found;
mod graph;

pub use graph::{Graph, search};
