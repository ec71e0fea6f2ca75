//! Words written as a text: the marked notation, and texts with stand-ins.
//!
//! A text in the marked notation is the text of words with marks before their names: `b@name` declares, `u@name` uses,
//! `l@name` declares a local name, and so on. `specs/Marked.antt` defines which words a text reads as, or the place of
//! the first part that isn't in the notation.
//!
//! - `marked` reads exactly that (clause `reads`), and the words keep the limits of their kinds (`limits`).
//! - `shipped` reads texts that are known to be in the notation. Want of memory is its only error.
//! - `renamed_words` and `spread_words` put names and words for the stand-ins of a text (`specs/StandIns.antt`).
//!
//! The proofs show what the facts of such words are: facts of renamed words, of words with others for local names, and
//! a test that lets a text fit (`proofs/StandIns.antt`). `proofs/Reading.antt` lets a text's words and facts compute.
//!
//! It stands on `glue_words` and `values`. It knows nothing of items, of a target or of what its texts are for.
#![tactic(auto)]

mod literal_bytes;
mod mark_fault;
mod mark_kind;
mod mark_length;
mod mark_reader;
mod mark_text;
mod mark_word;
mod shipped_words;
mod stand_ins;

pub use mark_fault::MarkFault;
pub use mark_reader::marked;
pub use shipped_words::shipped;
pub use stand_ins::{renamed_words, spread_words};
