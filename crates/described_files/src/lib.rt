//! The files that a description brings along: pieces of JavaScript that crates hold (snippets), and modules of its own.
//!
//! Promised: they are planned where the glue file imports them from, in order of bytes, with the texts as they are
//! (`files`). Paths are not looked into: two files may have one path, and a path may lead anywhere.
//!
//! Stands on `glue_ends` and `values`.
#![tactic(auto)]

mod files;

pub use files::{local_files, snippet_files};
