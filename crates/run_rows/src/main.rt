//! Runs the rows of the files `*.jsonl` of the folder that it is run in, and prints the file, the line, the name and the first difference of
//! each that comes to something else than it wants, and then how many there were. The status is 1 where one differs.
//!
//! A row is a line, a JSON object. Of any row:
//!
//! - `name`: what is tried.
//! - `module`: the module, in hexadecimal digits. `description`: what stands behind it in a custom section: a text, by its bytes as they stand,
//!   or any other value, printed compactly; none where it is absent or null. `edits`: pairs of texts; each first one has to stand once in the
//!   description, where the second takes its place. `repeated`: a part, a text and a number; wherever the part stands in the description and
//!   in wanted texts, the text stands that many times.
//!
//! There are five kinds.
//!
//! 1. With `words`, a whole run of `run` on these words. `pieces`: how many bytes a read gives. `read_fails` and `write_fails`: the number of
//!    the read and of the write that fails, counted from 1. `status`, and `wanted`, the whole text that is written, or `wanted_start`, how it
//!    begins. With `each_front` each proper prefix of the module is run instead, and ends so, but for those of `other_fronts`: objects with
//!    `length`, `status`, and `wanted` or `wanted_start`.
//! 2. With `steps`, calls of one generator, one behind the other. A step is an object: `set`, the name of a setter, `to`, what it is given,
//!    and `answer`, what it answers (the fault as `{:?}` prints it, nothing without one); `input`, which is `bytes` or `module`, under the name
//!    `stem`; `stem_is`, the name that the generator tells, null where it has none; or a call that makes files, with what is wanted of it.
//! 3. With `asked`, the call of `check` on the lowered description, with the settings that these words ask for: a target, which is
//!    Deno's without one (`bundler`, `web`, `no_modules`, `enum_global`, `node`, `node_module`, `module`, `emscripten`), and what is on
//!    (`debug`, `export_wasm`, `no_imports`, `others`). `condition` is the one of its conditions that is called by itself instead. `fault`:
//!    what it answers. Before it, with `collected`, what no export reaches is dropped of the module, and `changed` says what no description
//!    can: an object with `pair`, an `import` and an `adapter` that stands for it too; `deleted_export`, the place of an export that is
//!    dropped; or `last_export`, which is `constructor` where the last export becomes one.
//! 4. With `lowered`, what is read of the description, which is wanted to be read: an object with `customs`, how many custom sections are
//!    left, `adapters`, `implements`, `exports` and `imports`, how many there are; `first_export`: its adapter, its name for debugging, how
//!    many segments its namespace and how many names its parameters have, and whether it has TypeScript, JSDoc, a rest parameter, and is
//!    async; `first_class`: whether its parent has a name, and whether that has a namespace.
//! 5. Else, what a generator makes of the input under the name `stem`, which is `out` where it is absent. `set`: an object of setters with
//!    what they are given, called in the order of their names; `{"deno":true}` where it is absent.
//!
//! Of what is made is wanted: `fault`, the fault's name and what it names, or nothing, which is wanted where no fault is; `debug`, the fault
//! as `{:?}` prints it; `glue`, the glue file; `places`, what stands in the places of the frame and of loading for Deno, the rest being the
//! same in each glue file (`before`, `parameter`, `definitions`, `modules`, `helpers`, `options`, `start`; absent ones are empty); `begins`, how
//! the module that is written begins, in hexadecimal digits; `paths`, those of the files; `lengths`, how many bytes the first of them have;
//! `hosts` and `keys`, the names and computed keys that are listed; `features_missing`; `items`, how many there are; `imports`, how many the
//! module has; `has_text`, whether the glue file has one; `has_start`, whether a bundler's file is there.
//!
//! A row with another key, or one of which nothing is wanted, can't be run. Promised is that each function returns.
//!
//! Stands on `glue_run` and `cli_support` for the calls, on `glue_check` and `glue_adapters` for the conditions, on `wasm_collect`, `wasm_core`
//! and `glue_shared` for what is changed before them, on `wasm_bytes` for sections, and on `rows` and `serde_json` for rows.
#![tactic(auto)]

mod asked;
mod changes;
mod conditions;
mod frame;
mod generated;
mod input;
mod known;
mod lowering;
mod made;
mod named;
mod setters;
mod steps;
mod whole_run;

use rows::{Judge, RowFault, run_files};
use serde_json::Value;
use std::alloc::Global;
use std::io;
use std::process::ExitCode;

// Runs a row by its kind.
struct RunRows;

impl Judge for RunRows {
    fn difference(&self, alloc: Global, row: &Value) -> Result<Option<String>, RowFault> {
        if row.get("words").is_some() {
            return whole_run::difference(alloc, row);
        }
        if row.get("steps").is_some() {
            return steps::difference(alloc, row);
        }
        if row.get("asked").is_some() {
            return conditions::difference(alloc, row);
        }
        if row.get("lowered").is_some() {
            return lowering::difference(alloc, row);
        }
        generated::difference(alloc, row)
    }
}

fn main(rt: HostRuntime) -> io::Result<ExitCode> {
    run_files(&rt, &RunRows)
}
