//! A run of the process: its words, standard input and standard output.
ghost use Rattle.std.specs.Prelude.{◌≡◌, ◌≢◌, ◌≤◌};
ghost use Rattle.std.specs.Process.{exit_status};

use crate::running::{Ran, run};
use cli_support::{ReadEnd, WriteEnd};
use std::io;
use std::io::ErrorKind;
use std::process::ExitCode;
use std::rt::Env;

// The words behind the program's name.
fn words_of<R: Env + AllocGlobal>(rt: &R) -> io::Result<Vec<String>> {
    let words: Vec<String> = std::env::args(rt)?.skip(1).collect(rt.alloc())?;
    Ok(words)
}

// The status where the words can't be had: memory ran out, or one of them is no UTF-8, and so none that is read.
fn unread_status(kind: ErrorKind) -> u8
    ensures short { kind ≡ ErrorKind.OutOfMemory → result ≡ 5 }
    ensures other { kind ≢ ErrorKind.OutOfMemory → result ≡ 2 }
{
    match kind {
        ErrorKind::OutOfMemory => 5,
        _ => 2,
    }
}

// The exit code of a run, whose output goes.
fn code_of(ran: Ran) -> ExitCode
    ensures code { exit_status result ≡ ran.status }
{
    let Ran { status, output } = ran;
    drop(output);
    ExitCode::from(status)
}

/// Runs on the words of the process, on standard input and on standard output. The exit code is the status of `run`: 2 also where
/// a word is no UTF-8, and 5 where memory runs out on the words; then nothing was read or written.
pub fn run_process<R: Env + AllocGlobal + Input + Print>(rt: &R) -> ExitCode
    ensures known { exit_status result ≤ 6 }
{
    match words_of(rt) {
        Ok(words) => {
            let mut source = ReadEnd::new(rt.reader());
            let mut sink = WriteEnd::new(io::writer(rt));
            let ran = run(rt.alloc(), words.as_slice(), &mut source, &mut sink);
            code_of(ran)
        }
        Err(error) => ExitCode::from(unread_status(error.kind())),
    }
}
