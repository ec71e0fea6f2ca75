//! Reads a listing back into the files that it lists.
//!
//! A listing is what `glue_ends::write_files` writes: for each file the line `file {path} text {count}` or `file {path} hex {count}`, the
//! bytes or two lower-case digits for each, and a line feed. Promised of `read_listing`: the files that it reads have exactly the text as
//! their listing (`read`), and are the only ones (`exact`); where it refuses, no files have it (`refused`), and it tells the place of the first part that is no file's
//! (`fault`). So a listing that is cut, a count that doesn't fit, and digits that are odd, wrong or in upper case are refused. Files are
//! taken as a listing can tell them: a path is text of one line. The time grows with the text's length.
//!
//! Stands on `glue_ends` for files and listings, on `hex` for digits and on `values`.
#![tactic(auto)]

mod body;
mod heading;
mod lines;
mod listing;

pub use listing::{ListingFault, read_listing};
