//! Where bytes come from and go to: a source, a sink, both over memory and over readers and writers of std,
//! the listing of planned files, and the reading of a source to its end.
//!
//! A source or a sink that fails says so by a count, which never falls: an answer `Failed` comes only where the
//! count rose in this call, or stands at its last value, and where all was read or written the count stays. After a refusal a sink has taken a prefix of what it was
//! given, so the listing is cut and never garbled.
//!
//! It stands on `values`, on the digits of `hex`, and on std's contracts of `Read` and `Write`.
#![tactic(auto)]

mod listing;
mod memory;
mod plan;
mod reading;
mod sink;
mod source;
mod standard;

pub use listing::write_files;
pub use memory::{MemSink, MemSource};
pub use plan::PlannedFile;
pub use reading::{Stop, read_whole};
pub use sink::{Sink, WriteFault};
pub use source::{ReadFailed, Source};
pub use standard::{ReadEnd, WriteEnd};
