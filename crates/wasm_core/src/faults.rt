//! Why a module can't be read.

ghost use Rattle.std.specs.Prelude.{◌≡◌};
ghost use Rattle.wasm_core.specs.Parsing.{told};
ghost use Rattle.wasm_core.specs.declared.faults.ParseFault.TheVariants as faults;

use std::alloc::{AllocError, AllocFailed};
use wasm_bytes::ReadFault;

/// Why a module can't be read.
#[derive(Debug, PartialEq, Eq, Drop)]
pub enum ParseFault {
    /// The bytes are no module: the place of the first fault, in bytes.
    Parse { place: u64 },
    /// Memory ran out.
    OutOfMemory,
}

impl From<AllocError> for ParseFault {
    ghost from_gives = { λ _ e. e ≡ faults.OutOfMemory };

    fn from(_e: AllocError) -> ParseFault {
        ParseFault::OutOfMemory
    }
}

impl<T: Drop> From<AllocFailed<T>> for ParseFault {
    ghost from_gives = { λ _ e. e ≡ faults.OutOfMemory };

    fn from(_e: AllocFailed<T>) -> ParseFault {
        ParseFault::OutOfMemory
    }
}

impl From<ReadFault> for ParseFault {
    ghost from_gives = { λ e f. f ≡ told e };

    fn from(e: ReadFault) -> ParseFault {
        match e {
            ReadFault::Parse { place } => ParseFault::Parse { place },
            ReadFault::OutOfMemory => ParseFault::OutOfMemory,
        }
    }
}
