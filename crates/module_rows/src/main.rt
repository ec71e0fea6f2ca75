//! Runs the rows of modules of the files `*.jsonl` of the folder that it is run in, prints the place, the name and the first difference of
//! each that comes to something else than it wants, and then how many there were. The status is 1 where one differs.
//!
//! A row is a line, a JSON object with a `name`; a key that isn't told here makes it no row. Bytes are hexadecimal digits, and texts
//! `as printed` are as `{:?}` prints them. Without `call` it is a module: `module`, its bytes, is read with `config` (an object of
//! `keep_debug`, `names` and `producers`, absent ones false; without it names and producers are kept), the `edits` are made, each a list of
//! a call's name and what it is given, as `["delete_export", 0]` (`edits.rt` has them), and wanted are those that stand there of
//!
//! - `fault`: the place of the first fault. Without it the module has to read.
//! - `answers`: what the edits answer, as printed.
//! - `kept`: `x` for an entry and `.` for an empty place of the lists of types, functions, tables, memories, globals, tags, element
//!   segments, data segments and imports, each list with a space behind it.
//! - `shows`: an object of lists (`types`, `funcs`, `imports`, `exports`, `tags`) or `start`, `name` and `config`, as printed.
//! - `counts`: how many `exports` and `customs` there are.
//! - `features`: an object of features: whether they are listed with a plus, `null` without a list.
//! - `bytes`: what is written, or `same`: what was read; `length`: how many bytes are written.
//!
//! With `call` it is one of
//!
//! - `sections`: the frames of `file`, with `fault`, `sections` (as printed) and `count`.
//! - `split_debug_info`: `file` without its debugging information, which is told to be at `url`; `describe`: `file` with the description
//!   `description` (bytes), with `fault` or `bytes`: what is left.
//! - `has_description`: whether `file` has a description, `described`, with `fault`.
//! - `lists`: the lists of `file`, with `fault` and `lists` (as printed).
//! - `names`, `producers`: what the content `bytes` of such a custom section holds, `answer` as printed; of names with `funcs` functions.
//! - `features`: whether the content `bytes` lists `feature` with a plus, `listed`.
//! - `reader`: `bytes` read by `steps`, as `["number32"]` or `["frame", 4, [["raw", 1]]]` (`reader.rt` has them), and their `answers` as
//!   printed.
//! - `writer`: what `steps` write, as `["push_u32", 300]` (`writer.rt` has them), `bytes`.
//! - `body`: the `entry` of a body, or `operators`, which end with 0B, `nested` in so many blocks, of a function with `params` parameters
//!   (one, if absent) in a module of three types and functions and two entries of each other kind (`memories`: so many memories), with
//!   `fault`, `body` and `ops` as printed, `op_count`, `same` (it is written as it was read) and `expression` (as its operators are
//!   written where places have these `numbers`).
//! - `locals`: how a body with these `runs` of locals is written, `bytes`.
//! - `number_at`: the `number` of a `place` in `numbers`.
//! - `value_type`: the `type` of a `code`, as printed, and whether it `is_reference`.
//! - `emit_sections`: `answer`, as printed, where `sections` (id and content) are written whose content may have `longest` bytes.
//!
//! Promised is that it returns. It stands on `rows`, and calls `wasm_core`, `wasm_emission`, `wasm_collect`, `wasm_sections` and the crates of bytes below
//! them.
#![tactic(auto)]

mod arguments;
mod bodies;
mod compare;
mod contents;
mod edits;
mod module;
mod numbers;
mod reader;
mod replaced;
mod told;
mod types;
mod writer;

use rows::{Judge, RowFault, opt_text_at, run_files};
use serde_json::Value;
use std::alloc::Global;
use std::io;
use std::process::ExitCode;

struct ModuleRows;

impl Judge for ModuleRows {
    fn difference(&self, alloc: Global, row: &Value) -> Result<Option<String>, RowFault> {
        match opt_text_at(row, "call")? {
            None => module::difference(alloc, row),
            Some("sections") => contents::sections_difference(alloc, row),
            Some("split_debug_info") => replaced::split_difference(alloc, row),
            Some("describe") => replaced::described_difference(alloc, row),
            Some("has_description") => replaced::has_difference(alloc, row),
            Some("lists") => contents::lists_difference(alloc, row),
            Some("names") => contents::names_difference(alloc, row),
            Some("producers") => contents::producers_difference(alloc, row),
            Some("features") => contents::feature_difference(alloc, row),
            Some("reader") => reader::difference(alloc, row),
            Some("writer") => writer::difference(alloc, row),
            Some("body") => bodies::difference(alloc, row),
            Some("locals") => bodies::locals_difference(alloc, row),
            Some("number_at") => numbers::difference(alloc, row),
            Some("value_type") => types::difference(alloc, row),
            Some("emit_sections") => writer::sections_difference(alloc, row),
            Some(_) => Err(RowFault::Row),
        }
    }
}

fn main(rt: HostRuntime) -> io::Result<ExitCode> {
    run_files(&rt, &ModuleRows)
}
