//! A folder that files are put into.
ghost use Rattle.std.specs.Prelude.{◌≡◌, ◌≤◌, ◌∷◌, [], List, ℕ, OnOk, OnErr};
ghost use Rattle.std.specs.declared.option.Option.{Option};
ghost use Rattle.values.specs.Count.{Rose};
ghost use Rattle.glue_unpack.specs.Putting.{Puts};
ghost use Rattle.glue_unpack.specs.declared.file.PutFile.{PutFile};
ghost use Rattle.glue_unpack.specs.declared.folder.PutFault.TheVariants.{OutOfMemory};

use std::alloc::{AllocError, AllocFailed, Global};

/// Why a file was not put.
#[derive(Clone, Copy, Debug, PartialEq, Eq)]
pub enum PutFault {
    /// It could not be written, or not come under its name.
    Failed,
    OutOfMemory,
}

impl From<AllocError> for PutFault {
    ghost from_gives = { λ _ e. e ≡ OutOfMemory };

    fn from(_: AllocError) -> Self {
        PutFault::OutOfMemory
    }
}

impl<T: Drop> From<AllocFailed<T>> for PutFault {
    ghost from_gives = { λ _ e. e ≡ OutOfMemory };

    fn from(_: AllocFailed<T>) -> Self {
        PutFault::OutOfMemory
    }
}

/// A folder that files are put into.
pub trait Folder {
    /// The files that were put, in order, where the folder tells.
    ghost files: { Self → Option (List PutFile) };

    /// How often a file could not be put. It never falls.
    ghost faults: { Self → ℕ };

    /// Puts a file of these bytes under a path, in place of one that stands there, and makes the folders that the path names. A file that
    /// isn't put leaves those that stand there as they are.
    fn put(&mut self, alloc: Global, path: &str, bytes: &[u8]) -> Result<(), PutFault>
        ensures ok { OnOk result (Puts (files self.old) (files self.new) (record { path = path.now; bytes = bytes.now } ∷ [])) }
        ensures same { OnErr result (Puts (files self.old) (files self.new) []) }
        ensures later { faults self.old ≤ faults self.new }
        ensures failed { result ≡ Err PutFault.Failed → Rose (faults self.old) (faults self.new) }
        ensures kept { OnOk result (faults self.new ≡ faults self.old) };
}
