//! The texts of a target that are the same in every call, but for the names of files and for what a frame takes and hands on.
//!
//! - `frame_start` answers the item of the frame up to the first definition of an import. The function that answers the
//!   imports takes the memory where the first memory is imported, and `memory` is then a name of the file, to which the
//!   definition of that memory refers.
//! - `frame_end` answers the item from the end of the definitions on. It hands on the other modules that it is given, as
//!   `import1`, `import2` and so on, and string constants where the module imports some.
//! - `loading_item` answers the item that loads the module, which is told of string constants where it imports some, and calls its
//!   start function where it has one.
//!
//! Promised: each is the item of its definition in `specs/Targets.antt` (clause `item`). `specs/RoleWords.antt` says which
//! words an item of each role may have on a target, and `specs/Published.antt` what items publish.
//!
//! The proofs show what the fixed texts declare, use and publish, and that they fit where the names that they use, those of
//! the host and the exports that they take are known (`proofs/FixedTexts.antt`; `proofs/FrameEnd.antt` for any modules that
//! the frame hands on), and which items are refused beside which are right (`proofs/RefusedItems.antt`).
//!
//! Stands on `glue_words`, `glue_marked` (texts with stand-ins), `glue_shared` and `values`. Only the texts of Deno are here. It
//! knows no description, and not which modules a file hands on.
#![tactic(auto)]

pub mod deno;
mod targets;

pub use targets::{frame_end, frame_start, loading_item};
