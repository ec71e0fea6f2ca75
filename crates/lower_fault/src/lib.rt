//! What is wrong with a description that doesn't read.
//!
//! `explain_lower` names the first key of a description that doesn't read as `glue_json` reads it, by its path, with what stands there and
//! what may, or the line and the column where the text isn't JSON. Promised: it returns, and its answer begins with the name of the fault and
//! a colon (`headed`). That it finds what the reader finds is tested.
//!
//! Stands on `serde_json` for values, on `glue_json` for the number of a module's entries, and on `shown_names` for names.
#![tactic(auto)]

mod described;
mod entries;
mod explained;
mod leaves;
mod lists;
mod misfit;
mod objects;
mod types;
mod words;

pub use explained::explain_lower;
pub use glue_json::Counts;
