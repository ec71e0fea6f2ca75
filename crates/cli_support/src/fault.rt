//! Why nothing is set.
use std::alloc::AllocError;
use thiserror::Error;
use values::Text;

/// Why a setter refuses.
#[derive(Debug, Drop, PartialEq, Eq, Error)]
pub enum SetFault {
    /// A target other than the bundler's stands already.
    #[error("ModeTwice")]
    ModeTwice,
    /// The global of a script can't have this name: it is no identifier, or a glue file or every host gives it.
    #[error("BadGlobalName")]
    BadGlobalName { name: Text },
    /// The target isn't a script.
    #[error("NotNoModules")]
    NotNoModules,
    /// The target isn't a bundler's.
    #[error("NotBundler")]
    NotBundler,
    /// Memory ran out.
    #[error("OutOfMemory")]
    OutOfMemory,
}

impl From<AllocError> for SetFault {
    ghost use Rattle.std.specs.Prelude.{◌≡◌};
    ghost use Rattle.cli_support.specs.declared.fault.SetFault.TheVariants.{OutOfMemory};

    ghost from_gives = { λ _ e. e ≡ OutOfMemory };

    fn from(_: AllocError) -> Self {
        SetFault::OutOfMemory
    }
}
