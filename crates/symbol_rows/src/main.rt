//! Runs the rows of the files `*.jsonl` of the folder that it is run in, and prints the file, the line, the name and the first difference of
//! each that comes to something else than it wants, and then how many there were. The status is 1 where one differs.
//!
//! A row is a line, a JSON object with `name`, what is tried, and `call`:
//!
//! - `demangle`: `text` is the path that the symbol `of` shows, null where that is no symbol.
//! - `listing`: `text`, or `bytes` as hexadecimal digits, is read as a listing. `lines` are what comes of it: for each file its path, its form
//!   and its bytes as hexadecimal digits, with spaces between, or `fault` and the place from which on it is no listing.
//!
//! Stands on `demangle_core` and `file_listing` for the calls, on `glue_ends` for files, on `hex` for digits, and on `rows`, `values` and
//! `serde_json` for rows.
#![tactic(auto)]

mod listings;
mod symbols;

use rows::{Judge, RowFault, run_files, text_at};
use serde_json::Value;
use std::alloc::Global;
use std::io;
use std::process::ExitCode;

/// Asks for what symbols and listings come to.
struct SymbolRows;

impl Judge for SymbolRows {
    fn difference(&self, alloc: Global, row: &Value) -> Result<Option<String>, RowFault> {
        match text_at(row, "call")? {
            "demangle" => symbols::difference(alloc, row),
            "listing" => listings::difference(alloc, row),
            _ => Err(RowFault::Row),
        }
    }
}

fn main(rt: HostRuntime) -> io::Result<ExitCode> {
    run_files(&rt, &SymbolRows)
}
