//! Operators of WebAssembly, one by one (WebAssembly core specification, 5.4): which operands follow an opcode, how they are read
//! and how an operator is written.
//!
//! `read_operands` gives exactly what the grammar in `specs/` gives, with the place of the first fault, unless memory runs out.
//! What `write_op` writes is exactly the spelling in `specs/`: numbers in their shortest form, entries by the numbers that a
//! `Numbering` gives them.
//!
//! It stands on `wasm_types`, `wasm_bytes` and `values`.
#![tactic(auto)]

mod operands;
mod ops;
mod shapes;
mod spelling;

pub use operands::{read_array, read_operands};
pub use ops::{BlockType, Catch, MemArg, Numbering, Op};
pub use shapes::{Shape, initial_shape, named_blocks, shape_within};
pub use spelling::{
    number_at, push_bytes, push_coded, push_coded_bytes, push_coded_pair, push_coded_signed,
    write_op,
};
