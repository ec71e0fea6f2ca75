//! Names of functions as Rust's older form of mangling writes them.
//!
//! Such a symbol is `_ZN`, `ZN` or `__ZN`, then parts, each of which is its length in decimal and so many bytes, then `E`. Promised:
//! `demangle` gives exactly what the parts show, joined by `::`, and nothing where the name is no such symbol (`demangled`).
//! `specs/Symbol.antt` says what a symbol is, `specs/Shown.antt` what a part shows, and `specs/Reading.antt` what numbers digits spell.
//!
//! Stands on `std` alone.
#![tactic(auto)]

mod reading;
mod shown;
mod symbol;

pub use symbol::demangle;
