//! WebAssembly modules by ids: reading and editing.
//!
//! `Module::parse` gives exactly the module that `module_of` gives, or the place of the first fault, and each editing call
//! exactly the module that its definition in `Edits` gives, unless memory runs out; `Module::keep` leaves what is marked
//! (`remainder`). It stands on `wasm_reach`, `wasm_file`, `wasm_code`, `packed_ops`, `wasm_ops`, `wasm_types`,
//! `wasm_bytes` and `values`.
#![tactic(auto)]

mod added;
mod assemble;
mod edits;
mod faults;
mod fill;
mod keep;
mod lookup;
mod module;
mod producers;
mod types;

pub use assemble::take_next;
pub use faults::ParseFault;
pub use module::{LONGEST, Module, sections};
pub use packed_ops::{Ops, Walk};
pub use types::{Func, GlobalVar, Import, ImportKind, Memory, ParseConfig, Table, Tag};
pub use wasm_bytes::push_u32;
pub use wasm_code::Body;
pub use wasm_file::{
    Custom, Elem, ElemPlace, Export, ExportItem, ProducerField, ProducerValue, Section, Segment,
};
pub use wasm_ops::{BlockType, Catch, MemArg, Op};
pub use wasm_types::{
    DataId, ElemId, ExportId, FuncId, FuncType, GlobalId, ImportId, Limits, MemoryId, TableId,
    TagId, TypeId, ValType,
};
