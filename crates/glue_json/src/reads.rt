//! What reads as a value of a type.
ghost use Rattle.std.specs.Prelude.{◌≡◌, IfOk, None, Some};
ghost use Rattle.std.specs.declared.option.Option.{Option};
ghost use Rattle.serde_json.specs.Data.{Data};
ghost use Rattle.serde_json.specs.View.{view};
ghost use Rattle.glue_json.specs.declared.counts.Counts.{Counts};
ghost use Rattle.glue_json.specs.declared.reads.LowerFault.TheVariants.{OutOfMemory};

use crate::counts::Counts;
use serde_json::Value;
use std::alloc::{AllocError, AllocFailed, Global};

/// Why nothing was read.
#[derive(Clone, Copy, Debug, PartialEq, Eq)]
pub enum LowerFault {
    /// There is no description: not this key, not this kind of value, no number of this range, or none of these words.
    Failed,
    OutOfMemory,
}

impl From<AllocError> for LowerFault {
    ghost from_gives = { λ _ e. e ≡ OutOfMemory };

    fn from(_: AllocError) -> Self {
        LowerFault::OutOfMemory
    }
}

impl<T: Drop> From<AllocFailed<T>> for LowerFault {
    ghost from_gives = { λ _ e. e ≡ OutOfMemory };

    fn from(_: AllocFailed<T>) -> Self {
        LowerFault::OutOfMemory
    }
}

/// A type that is read from a JSON value, for a module with so many entries.
pub trait Reads: Sized + Drop {
    /// What a value reads as, where it does.
    ghost reads: { Counts → Data → Option Self };

    /// Fails exactly where the value doesn't read, or for want of memory.
    fn read(alloc: Global, counts: &Counts, value: &Value) -> Result<Self, LowerFault>
        ensures ok { IfOk result (λ x. reads counts.now (view value.now) ≡ Some x) }
        ensures failed { result ≡ Err LowerFault.Failed → reads counts.now (view value.now) ≡ None };
}
