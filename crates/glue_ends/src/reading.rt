//! Reading a source to its end.
ghost use Rattle.std.specs.Prelude.{◌≡◌, ◌≢◌, ◌≤◌, ◌<◌, ◌+◌, length, IfOk, OnOk};
ghost use Rattle.std.specs.Io.KnownBytes.{IsAtEnd, Keeps};
ghost use Rattle.values.specs.Count.{Rose};
ghost use Rattle.glue_ends.specs.Taking.{TakesAtMost, TakesMoreThan, TakesInto, IsWhole};

use crate::source::{ReadFailed, Source};
use std::alloc::{AllocError, AllocFailed, Global};

/// Why a source was not read to its end.
#[derive(Clone, Copy, Debug, PartialEq, Eq)]
pub enum Stop {
    /// A read failed.
    Failed,

    /// More bytes were there than the limit allows.
    TooLong,
    OutOfMemory,
}

impl From<AllocError> for Stop {
    ghost use Rattle.glue_ends.specs.declared.reading.Stop.TheVariants.{OutOfMemory};

    ghost from_gives = { λ _ e. e ≡ OutOfMemory };

    fn from(_: AllocError) -> Self {
        Stop::OutOfMemory
    }
}

impl<T: Drop> From<AllocFailed<T>> for Stop {
    ghost use Rattle.glue_ends.specs.declared.reading.Stop.TheVariants.{OutOfMemory};

    ghost from_gives = { λ _ e. e ≡ OutOfMemory };

    fn from(_: AllocFailed<T>) -> Self {
        Stop::OutOfMemory
    }
}

impl From<ReadFailed> for Stop {
    ghost use Rattle.glue_ends.specs.declared.reading.Stop.TheVariants.{Failed};

    ghost from_gives = { λ _ e. e ≡ Failed };

    fn from(_: ReadFailed) -> Self {
        Stop::Failed
    }
}

// A buffer, whose length is a parameter: a proof would compute a literal one.
fn buffer(alloc: Global, size: usize) -> Result<Vec<u8>, AllocError>
    ensures { IfOk result (λ v. length v.items ≡ size) }
{
    vec![in alloc; 0u8; size]
}

// Reads one piece, and puts it behind the bytes.
fn read_piece<I: Source>(input: &mut I, buf: &mut [u8], bytes: &mut Vec<u8>) -> Result<usize, Stop>
    requires { 0 < length buf.old }
    ensures taken { OnOk result (TakesInto (I.left input.old) (I.left input.new) bytes.old.items bytes.new.items) }
    ensures count { IfOk result (λ n. length bytes.new.items ≡ length bytes.old.items + n) }
    ensures end { IfOk result (λ n. n ≡ 0 → IsAtEnd (I.left input.new) × (bytes.new.items ≡ bytes.old.items)) }
    ensures failed { result ≡ Err Stop.Failed → Rose (I.faults input.old) (I.faults input.new) × Keeps (I.left input.old) (I.left input.new) × (bytes.new.items ≡ bytes.old.items) }
    ensures not_too_long { result ≢ Err Stop.TooLong }
    ensures later { I.faults input.old ≤ I.faults input.new }
    ensures kept { result ≢ Err Stop.Failed → I.faults input.new ≡ I.faults input.old }
{
    let count = input.read(buf)?;
    bytes.extend_from_slice(&buf[..count])?;
    Ok(count)
}

/// Reads all the bytes that are left, at most `piece` of them in one read.
///
/// `Failed` comes where a read failed. At most `limit` bytes were taken then.
/// `TooLong` comes where more than `limit` bytes were taken.
/// With every answer but `Failed` no read failed: their count stays.
pub fn read_whole<I: Source>(
    alloc: Global,
    input: &mut I,
    limit: usize,
    piece: usize,
) -> Result<Vec<u8>, Stop>
    requires { 0 < piece }
    ensures whole { IfOk result (λ v. IsWhole limit (I.left input.old) (I.left input.new) v.items) }
    ensures failed { result ≡ Err Stop.Failed → Rose (I.faults input.old) (I.faults input.new) × TakesAtMost limit (I.left input.old) (I.left input.new) }
    ensures too_long { result ≡ Err Stop.TooLong → TakesMoreThan limit (I.left input.old) (I.left input.new) }
    ensures later { I.faults input.old ≤ I.faults input.new }
    ensures kept { result ≢ Err Stop.Failed → I.faults input.new ≡ I.faults input.old }
{
    let mut buf = buffer(alloc, piece)?;
    let mut bytes = Vec::new(alloc);
    'reading: while bytes.len() <= limit {
        if read_piece(input, buf.as_mut_slice(), &mut bytes)? == 0 {
            return Ok(bytes);
        }
    }
    Err(Stop::TooLong)
}
