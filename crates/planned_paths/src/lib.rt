//! Which lists of planned files may be written below a folder.
//!
//! A path leads below the folder that it is read from where it isn't absolute, no step of it is empty, `.` or `..`, and no byte of it is NUL.
//! Two paths clash where they are one, or where one names a folder and the other a file by the same name. Promised: `problem_of` answers
//! exactly the first problem by these rules (`problem`), at a place of the list (`within`). It takes n log n comparisons of paths for n names
//! of files and folders.
//!
//! Stands on `glue_ends` for the files, on `name_set` for sets of names and on `values`.
#![tactic(auto)]

mod below;
mod heads;
mod problem;

pub use problem::{PathProblem, problem_of};
