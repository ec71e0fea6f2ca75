//! A file to be written.

use values::{Seq, Text};

/// A file to be written.
#[derive(Debug, Drop)]
pub struct PlannedFile {
    /// Where it goes, with `/` between the folders.
    pub path: Text,
    pub bytes: Seq<u8>,

    /// Whether the listing shows the bytes as they are, and not as hexadecimal digits.
    pub is_text: bool,
}
