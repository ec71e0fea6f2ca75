//! The layout of JavaScript: each line is indented by the brackets that stand open before it.
//!
//! The answer is a definition's value, it has exactly the trimmed lines of the trimmed text, and laying it out
//! again changes nothing. It stands on std's words for `trim` and `lines`.
#![tactic(auto)]

mod layout;

pub use layout::reset_indentation;
