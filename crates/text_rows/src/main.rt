//! Runs the rows of the files `*.jsonl` of the folder that it is run in, each through one public call that answers a text, names or the like,
//! and prints the file, the line, the name and the first difference of each that comes to something else, and then how many there were. The
//! status is 1 where one differs. Promised is that it returns.
//!
//! A row is a JSON object. `name` says what is tried, and `call` which call is asked; `calls` leads from it to the module that reads the other
//! keys, each of which tells at its head which calls it knows, with their keys. A row with another key can't be run (`known`).
//!
//! Stands on `rows` for the files and the keys of rows, on `serde_json` for JSON, on `glue_json` for descriptions and parts of them, on
//! `glue_inputs` for settings, and on the libraries whose calls are asked.
#![tactic(auto)]

mod calls;
mod compared;
mod declared;
mod described;
mod heap;
mod helpers;
mod imported;
mod known;
mod lines;
mod named;
mod names;
mod notation;
mod parts;
mod prepared;
mod public_items;
mod published;
mod texts;
mod trees;
mod types;
mod words;

use rows::{Judge, RowFault, run_files};
use serde_json::Value;
use std::alloc::Global;
use std::io;
use std::process::ExitCode;

/// Asks the call that a row names.
struct TextRows;

impl Judge for TextRows {
    fn difference(&self, alloc: Global, row: &Value) -> Result<Option<String>, RowFault> {
        calls::difference(alloc, row)
    }
}

fn main(rt: HostRuntime) -> io::Result<ExitCode> {
    run_files(&rt, &TextRows)
}
