//! Names as they stand in messages.
//!
//! `shown` puts a name between quotes, so that it stands on one line, shows each of its characters and isn't too long. Promised: exactly the
//! text of `specs/Shown.antt` (`value`).
//!
//! Stands on std alone.
#![tactic(auto)]

mod names;

pub use names::shown;
