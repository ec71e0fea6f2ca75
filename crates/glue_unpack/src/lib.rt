//! Puts the files of a listing into a folder.
//!
//! Promised of `unpack`: with `Ok` the text is the listing of files whose paths lead below the folder and don't clash, and exactly these were
//! put, in order (`done`). A text that is no listing, and a path that leads elsewhere or clashes, is refused before a file is put; where a
//! file can't be put, those before it were, and it is named (`refused`). No other text is refused (`complete`). A `Folder` says
//! what was put, and counts what failed; the count never falls.
//!
//! `RealFolder` is a folder of the file system: it makes the folders that a path names, writes each file under a name of its own, and renames
//! it into place, so that no half-written file stands under a wanted name. What its calls do to the machine nothing here can check.
//!
//! Stands on `file_listing` for listings, on `planned_paths` for paths, on `glue_ends` for files and on `values`.
#![tactic(auto)]

mod fault;
mod file;
mod folder;
mod memory;
mod real;
mod stop;
mod unpacking;

pub use fault::UnpackFault;
pub use file::PutFile;
pub use folder::{Folder, PutFault};
pub use memory::MemFolder;
pub use real::RealFolder;
pub use unpacking::unpack;
