//! A folder over memory, which fails at listed calls.
ghost use Rattle.std.specs.Prelude.{◌≡◌, ◌≢◌, ◌≤◌, ◌++◌, ◌∷◌, [], Some, OnOk, OnErr};

use crate::file::PutFile;
use crate::folder::{Folder, PutFault};
use std::alloc::Global;
use values::{Seq, Text};

/// Keeps the files that are put into it.
#[derive(Drop)]
pub struct MemFolder {
    files: Seq<PutFile>,
    fails: Vec<u64>,
    made: u64,
    faults: u64,
}

impl MemFolder {
    /// The calls with the numbers in `fails`, counted from 1, fail. The count stops at the last `u64`.
    pub fn new(alloc: Global, fails: Vec<u64>) -> MemFolder
        ensures { result ≡ record { files = []; fails = fails; made = 0; faults = 0 } }
    {
        MemFolder {
            files: Seq::new(alloc),
            fails,
            made: 0,
            faults: 0,
        }
    }

    /// The files that were put so far.
    pub fn files(&self) -> &[PutFile]
        ensures { result.now ≡ self.now.files }
    {
        self.files.as_slice()
    }

    // Keeps a file behind the others.
    fn keep(&mut self, alloc: Global, path: &str, bytes: &[u8]) -> Result<(), PutFault>
        ensures ok { OnOk result (self.new.files ≡ self.old.files ++ record { path = path.now; bytes = bytes.now } ∷ []) }
        ensures same { OnErr result (self.new.files ≡ self.old.files) }
        ensures memory { result ≢ Err PutFault.Failed }
        ensures kept { self.new.faults ≡ self.old.faults }
    {
        let file = PutFile {
            path: Text::from_str(alloc, path)?,
            bytes: Seq::from_vec(bytes.to_vec(alloc)?),
        };
        self.files.push(file)?;
        Ok(())
    }
}

impl Folder for MemFolder {
    ghost files = { λ s. Some s.files };

    ghost faults = { λ s. s.faults };

    fn put(&mut self, alloc: Global, path: &str, bytes: &[u8]) -> Result<(), PutFault> {
        self.made = self.made.saturating_add(1);
        if self.fails.contains(&self.made) {
            self.faults = self.faults.saturating_add(1);
            return Err(PutFault::Failed);
        }
        self.keep(alloc, path, bytes)
    }
}
