//! Names of a module's functions, demangled.
//!
//! Promised: `demangle_names` gives each function whose name is a symbol of Rust's older form the path that the symbol shows. Of several
//! that show one path the first keeps it, and each further one has the number of those before it in brackets behind it (`named`,
//! `specs/Numbered.antt`). Nothing but want of memory fails, and then nothing but names of functions was changed (`left`).
//!
//! Stands on `demangle_core`, `wasm_core` and `values`.
#![tactic(auto)]

mod names;
mod uses;

pub use names::demangle_names;
