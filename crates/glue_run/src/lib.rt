//! The top call: words, a source and a sink go in; what the words ask for is written, and a status comes out.
//!
//! Promised: each status of `run` has its cause. Where it is 0, what was written is the listing of files whose items are linked
//! with their module, define each own import once by a function that means its adapter, and publish exactly the described tree.
//!
//! `run_process` hands the words, standard input and standard output of the process to `run`, and answers its status as an
//! exit code. Of it is promised that it returns, and that the exit code is 0 to 6.
//!
//! Stands on `cli_support`. Trusted are standard input and output, of whose bytes nothing is known.
#![tactic(auto)]

mod process;
mod running;

pub use process::run_process;
pub use running::{LIMIT, PIECE, Ran, run};
