//! The ends over readers and writers of std, as standard input and output.
//!
//! What a call on them does to the machine is std's contract of `Read` and `Write`, which nothing here can check.
ghost use Rattle.std.specs.Prelude.{◌≡◌, OnOk};
ghost use Rattle.std.specs.Io.KnownBytes.{Appends};
ghost use Rattle.glue_ends.specs.Causes.{AppendsPrefix};

use crate::sink::{Sink, WriteFault};
use crate::source::{ReadFailed, Source};
use std::io;
use std::io::{Read, Write};

/// A source over a reader.
#[derive(Drop)]
pub struct ReadEnd<R> {
    inner: R,
    faults: u64,
}

impl<R: Read> ReadEnd<R> {
    /// No read has failed yet.
    pub fn new(inner: R) -> ReadEnd<R>
        ensures { result ≡ record { inner = inner; faults = 0 } }
    {
        ReadEnd { inner, faults: 0 }
    }
}

impl<R: Read> Source for ReadEnd<R> {
    ghost left = { λ s. R.remaining s.inner };

    ghost faults = { λ s. s.faults };

    fn read(&mut self, buf: &mut [u8]) -> Result<usize, ReadFailed> {
        match self.inner.read(buf) {
            Ok(count) => Ok(count),
            Err(_) => {
                self.faults = self.faults.saturating_add(1);
                Err(ReadFailed)
            }
        }
    }
}

/// A sink over a writer.
#[derive(Drop)]
pub struct WriteEnd<W> {
    inner: W,
    faults: u64,
}

impl<W: Write> WriteEnd<W> {
    /// No write has failed yet.
    pub fn new(inner: W) -> WriteEnd<W>
        ensures { result ≡ record { inner = inner; faults = 0 } }
    {
        WriteEnd { inner, faults: 0 }
    }
}

// Writes all the bytes, and flushes. A write that takes none of them is an error.
fn write_whole<W: Write>(inner: &mut W, bytes: &[u8]) -> io::Result<()>
    ensures ok { OnOk result (Appends (W.contents inner.old) (W.contents inner.new) bytes.now) }
    ensures prefix { AppendsPrefix (W.contents inner.old) (W.contents inner.new) bytes.now }
{
    let mut rest = bytes;
    while !rest.is_empty() {
        let count = inner.write(rest)?;
        if count == 0 {
            return Err(io::Error::from(io::ErrorKind::WriteZero));
        }
        let (_, after) = rest.split_at(count);
        rest = after;
    }
    inner.flush()
}

impl<W: Write> Sink for WriteEnd<W> {
    ghost taken = { λ s. W.contents s.inner };

    ghost faults = { λ s. s.faults };

    fn write_all(&mut self, bytes: &[u8]) -> Result<(), WriteFault> {
        match write_whole(&mut self.inner, bytes) {
            Ok(()) => Ok(()),
            Err(_) => {
                self.faults = self.faults.saturating_add(1);
                Err(WriteFault::Failed)
            }
        }
    }
}
