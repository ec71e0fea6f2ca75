//! Why a module can't be written.

ghost use Rattle.std.specs.Prelude.{◌≡◌};
ghost use Rattle.wasm_emission.specs.declared.faults.EmitFault.TheVariants as refusals;

use std::alloc::{AllocError, AllocFailed};

/// Why a module can't be written.
#[derive(Debug, PartialEq, Eq, Drop)]
pub enum EmitFault {
    /// The content of a section has more than 4,294,967,295 bytes: its id.
    TooLarge { section: u8 },
    /// Memory ran out.
    OutOfMemory,
}

impl From<AllocError> for EmitFault {
    ghost from_gives = { λ _ e. e ≡ refusals.OutOfMemory };

    fn from(_e: AllocError) -> EmitFault {
        EmitFault::OutOfMemory
    }
}

impl<T: Drop> From<AllocFailed<T>> for EmitFault {
    ghost from_gives = { λ _ e. e ≡ refusals.OutOfMemory };

    fn from(_e: AllocFailed<T>) -> EmitFault {
        EmitFault::OutOfMemory
    }
}
