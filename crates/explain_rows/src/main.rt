//! Runs the rows of the files `*.jsonl` of the folder that it is run in, each through a call that says in words what is wrong, and prints the
//! file, the line, the name and the first difference of each that comes to something else, and then how many there were. The status is 1
//! where one differs. Promised is that it returns.
//!
//! A row is a JSON object with the text `name`, which says what is tried, and `want`, the exact text that is answered. With `fault`, the name
//! of a variant, it is one of `fault_words`:
//!
//! - `place`, `adapter`, `import`: the number that the fault holds. `names`: the names that it holds, in the order of its fields.
//! - `module`: the bytes that are known, in hexadecimal digits; none are known where it is absent. `description`: what is described of this
//!   module, as docs/DESCRIPTION.md has it; with it the module is known with its description. With `bytes` false the bytes aren't known,
//!   though the module is.
//!
//! With `text`, it is one of `explain_lower` on that text, or with `hex` on these bytes. `module`: the module that it stands in, in hexadecimal
//! digits; where it is absent, how many entries the module has isn't known.
//!
//! A row with another key can't be run.
//!
//! Stands on `rows` for the files and the keys of rows, on `fault_words` and `lower_fault` for the calls, on `glue_json` for descriptions, on `glue_faults`,
//! `glue_shared`, `wasm_core` and `values` for what is handed in, and on `serde_json` for JSON.
#![tactic(auto)]

mod descriptions;
mod faults;
mod inputs;
mod known;

use rows::{Judge, RowFault, run_files};
use serde_json::Value;
use std::alloc::Global;
use std::io;
use std::process::ExitCode;

/// Asks for the words of what a row names.
struct ExplainRows;

impl Judge for ExplainRows {
    fn difference(&self, alloc: Global, row: &Value) -> Result<Option<String>, RowFault> {
        if row.get("text").is_some() || row.get("hex").is_some() {
            return descriptions::difference(alloc, row);
        }
        faults::difference(alloc, row)
    }
}

fn main(rt: HostRuntime) -> io::Result<ExitCode> {
    run_files(&rt, &ExplainRows)
}
