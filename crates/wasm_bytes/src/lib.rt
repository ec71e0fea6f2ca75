//! Bytes of a WebAssembly file, read from left to right with the place of the first fault, and written.
//!
//! A reader gives exactly what the reading function of `specs/` gives, unless memory runs out. What is written is
//! exactly the spelling of `specs/`, and numbers that are written are read again (`numbers_are_read_again`).
//! It stands on `values`.
#![tactic(auto)]

mod counts;
mod entry;
mod fault;
mod items;
mod laws;
mod number;
mod reader;
mod spell;
mod step;

pub use counts::Counts;
pub use entry::{Entry, read_entries, read_list};
pub use fault::ReadFault;
pub use items::{read_exactly, read_index, read_name, read_text};
pub use laws::numbers_are_read_again;
pub use number::{number_len, push_i32, push_i64, push_number, push_u32, signed_len};
pub use reader::Reader;
pub use spell::{Spell, write_entries, write_framed, write_list, write_name};
pub use step::{Step, read_steps};
