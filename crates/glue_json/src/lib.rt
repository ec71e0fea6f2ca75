//! Descriptions read from JSON values.
//!
//! What a value reads as is said by a definition for each of its forms, a line for each key: which key, what it reads,
//! and what its absence means. Each reader gives exactly what the definition gives, and fails exactly where that is
//! nothing, unless memory runs out. An object with another key, a value of another kind, a number with a fraction or an
//! exponent, an index without an entry and an adapter id that stands twice read as nothing.
//!
//! Stands on `serde_json` for values, on `glue_shared` for what is described, and on `wasm_core` for the module whose
//! entries are numbered. It knows no bytes and no text: the value of a text is the JSON reader's.
#![tactic(auto)]

mod adapters;
mod counts;
mod exports;
mod fields;
mod ids;
mod imports;
mod instructions;
mod intrinsics;
mod kinds;
mod members;
mod parts;
mod reads;
mod types;
mod whole;

pub use counts::Counts;
pub use reads::{LowerFault, Reads};
