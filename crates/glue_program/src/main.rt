//! The program: reads a module on standard input, and prints the listing of the files that are made of it.
//!
//! Its words are `--target deno`. It ends with the status of `run`, whose contract holds the whole promise: where the status is 0,
//! what was written is the listing of files whose items are linked with their module, define each own import once by a function
//! that means its adapter, and publish exactly the described tree.
//!
//! Stands on `glue_run`. Trusted are standard input and output, of whose bytes nothing is known.
#![tactic(auto)]

use glue_run::run_process;
use std::process::ExitCode;

fn main(rt: HostRuntime) -> ExitCode {
    run_process(&rt)
}
