//! A sink of bytes.
ghost use Rattle.std.specs.Prelude.{◌≡◌, ◌≤◌, List, ℕ, OnOk};
ghost use Rattle.std.specs.declared.option.Option.{Option};
ghost use Rattle.std.specs.Io.KnownBytes.{Appends};
ghost use Rattle.glue_ends.specs.Causes.{AppendsPrefix};
ghost use Rattle.values.specs.Count.{Rose};
ghost use Rattle.glue_ends.specs.declared.sink.WriteFault.TheVariants.{OutOfMemory};

use std::alloc::{AllocError, AllocFailed};

/// Why bytes were not written.
#[derive(Clone, Copy, Debug, PartialEq, Eq)]
pub enum WriteFault {
    /// A write failed.
    Failed,
    OutOfMemory,
}

impl From<AllocError> for WriteFault {
    ghost from_gives = { λ _ e. e ≡ OutOfMemory };

    fn from(_: AllocError) -> Self {
        WriteFault::OutOfMemory
    }
}

impl<T: Drop> From<AllocFailed<T>> for WriteFault {
    ghost from_gives = { λ _ e. e ≡ OutOfMemory };

    fn from(_: AllocFailed<T>) -> Self {
        WriteFault::OutOfMemory
    }
}

/// Where bytes go.
pub trait Sink {
    /// The bytes that were taken, where the sink tells.
    ghost taken: { Self → Option (List ℕ) };

    /// How often a write has failed. It never falls.
    ghost faults: { Self → ℕ };

    /// Takes all the bytes. After a refusal a prefix of them was taken.
    fn write_all(&mut self, bytes: &[u8]) -> Result<(), WriteFault>
        ensures ok { OnOk result (Appends (taken self.old) (taken self.new) bytes.now) }
        ensures prefix { AppendsPrefix (taken self.old) (taken self.new) bytes.now }
        ensures later { faults self.old ≤ faults self.new }
        ensures failed { result ≡ Err WriteFault.Failed → Rose (faults self.old) (faults self.new) }
        ensures kept { OnOk result (faults self.new ≡ faults self.old) };
}
