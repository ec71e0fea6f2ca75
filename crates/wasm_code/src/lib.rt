//! Function bodies and initial expressions (WebAssembly core specification, 5.4.9 and 5.5.13): how they are read and how they are
//! written.
//!
//! A reader gives exactly what the grammar in `specs/` gives, with the place of the first fault, unless memory runs out. Open
//! blocks are a list, so a body may nest as deeply as its bytes allow. What is written is exactly the spelling in `specs/`: runs of
//! locals joined, entries by the numbers that a `Numbering` gives them.
//!
//! It stands on `packed_ops`, `wasm_ops`, `wasm_types`, `wasm_bytes` and `values`.
#![tactic(auto)]

mod body;
mod code;
mod locals;
mod spelling;

pub use body::Body;
pub use code::{read_code_entry, read_initial, read_initials};
pub use spelling::{write_code, write_expression};
