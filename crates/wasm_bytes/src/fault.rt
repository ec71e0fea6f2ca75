ghost use Rattle.std.specs.Prelude.{◌≡◌};
ghost use Rattle.wasm_bytes.specs.declared.fault.ReadFault.TheVariants.{OutOfMemory};

use std::alloc::{AllocError, AllocFailed};

/// Why a module could not be read.
#[derive(Debug, PartialEq, Eq, Drop)]
pub enum ReadFault {
    /// The bytes are not a module: the offset of the first fault.
    Parse { place: u64 },
    OutOfMemory,
}

impl From<AllocError> for ReadFault {
    ghost from_gives = { λ _ e. e ≡ OutOfMemory };

    fn from(_e: AllocError) -> ReadFault {
        ReadFault::OutOfMemory
    }
}

impl<T: Drop> From<AllocFailed<T>> for ReadFault {
    ghost from_gives = { λ _ e. e ≡ OutOfMemory };

    fn from(_e: AllocFailed<T>) -> ReadFault {
        ReadFault::OutOfMemory
    }
}
