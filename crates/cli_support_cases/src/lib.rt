//! Tests of calls of `cli_support` that no row of `run_rows` makes: the use of the library that README.md shows, and a module that is
//! changed where an output has it.
//!
//! Stands on `cli_support` for the calls, on `glue_ends` for files, and on `values`.
#![tactic(auto)]

#[cfg(test)]
mod library;
#[cfg(test)]
mod output;
