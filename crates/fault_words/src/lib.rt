//! Faults in words.
//!
//! `fault_words` says in a few sentences what a fault names, why it came, and where there is something, what to do instead. Promised: the
//! answer begins with the fault's name and a colon (`headed`), and behind these with each number and name that the fault holds (`named`),
//! where a byte of the module is told with the section that it lies in. The sentences behind that are tested and not proved.
//!
//! Stands on `shown_names` for names, on `glue_faults` for faults, on `glue_shared` and `wasm_core` for what is known of the input, on `wasm_bytes` for numbers and
//! names in a file, and on `values`. It knows no condition.
#![tactic(auto)]

mod held;
mod known;
mod meaning;
mod sections;
mod things;
mod unbuilt;
mod words;

pub use glue_faults::Fault;
pub use known::Known;
pub use words::fault_words;
