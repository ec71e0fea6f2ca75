//! A file as a folder keeps it.

use values::{Seq, Text};

/// A file as a folder keeps it.
#[derive(Debug, Drop)]
pub struct PutFile {
    /// Where it stands, with `/` between the folders.
    pub path: Text,
    pub bytes: Seq<u8>,
}
