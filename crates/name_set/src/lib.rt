//! A set of names, which a contract sees as the list of those that were put in.
//!
//! Promised: a name is found exactly where it is one of these (`test`), and nothing but want of memory fails. A test takes the time of a search
//! in a tree, however many names there are.
//!
//! Stands on `values`.
#![tactic(auto)]

mod names;

pub use names::NameSet;
