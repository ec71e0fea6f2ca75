//! What a WebAssembly file holds: the frames of its sections, their content and their spelling.
//!
//! `read_frames` gives exactly the frames of a file, and `read_parts` exactly the lists that the grammar in `specs/`
//! gives, both with the place of the first fault, unless memory runs out. A count is believed only as far as bytes stand
//! behind it. `read_names`, `read_producers` and `lists_feature` give exactly what the content of those custom sections
//! holds, and none where it doesn't read. What is written is exactly the spelling in `specs/`.
//!
//! It stands on `wasm_code`, `packed_ops`, `wasm_ops`, `wasm_types`, `wasm_bytes` and `values`.
#![tactic(auto)]

mod customs;
mod entries;
mod frames;
mod grammar;
mod imported;
mod lists;
mod sections;
mod spelling;

pub use customs::{lists_feature, read_names, read_producers};
pub use entries::{
    Custom, Elem, ElemPlace, Export, ExportItem, FileGlobal, FileImport, ImportType, Names, Parts,
    ProducerField, ProducerValue, Section, Segment, TableType,
};
pub use frames::read_frames;
pub use sections::read_parts;
pub use spelling::{write_custom, write_global_type, write_limits, write_section, write_tag};

/// The greatest number of entries of a kind.
pub const MOST: u32 = 10_000_000;
