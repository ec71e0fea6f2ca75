//! Why a text isn't read.
use std::alloc::AllocError;

/// Why a marked text isn't read.
#[derive(Clone, Copy, Debug, PartialEq, Eq, Drop)]
pub enum MarkFault {
    /// The part at this byte isn't in the notation.
    BadMark { place: usize },
    /// Memory ran out.
    OutOfMemory,
}

impl From<AllocError> for MarkFault {
    ghost use Rattle.std.specs.Prelude.{◌≡◌};
    ghost use Rattle.glue_marked.specs.declared.mark_fault.MarkFault.TheVariants.{OutOfMemory};

    ghost from_gives = { λ _ e. e ≡ OutOfMemory };

    fn from(_: AllocError) -> Self {
        MarkFault::OutOfMemory
    }
}
