//! Types of WebAssembly, and the places of what a module holds (WebAssembly core specification, 2.3, 5.3 and 5.5.1): how they are
//! read and how they are written.
//!
//! A reader gives exactly what the grammar in `specs/` gives, with the place of the first fault, unless memory runs out. What is
//! written is exactly the spelling in `specs/`.
//!
//! It stands on `wasm_bytes` and `values`.
#![tactic(auto)]

mod entries;
mod ids;
mod spelling;
mod types;

pub use entries::{read_ref_type, read_val_type};
pub use ids::{
    DataId, ElemId, ExportId, FuncId, GlobalId, ImportId, MemoryId, TableId, TagId, TypeId,
};
pub use types::{FuncType, Limits, ValType};
