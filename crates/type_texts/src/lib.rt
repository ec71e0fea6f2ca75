//! The TypeScript texts of adapters' types, and the lines of a function's note that tell them.
//!
//! - `type_text` answers the text of a type: `number`, `string`, `Uint8Array`, the identifier of a class or an enum, and so on.
//! - `signature_lines` answers the lines `@param {T} p` and `@returns {R}` of an export, in the order of its signature.
//!
//! Promised, for every type and every map of names: each is the text of its definition in `specs/TypeTexts.antt` and
//! `specs/Notes.antt` (clause `text`, clause `lines`). The names of string enums and unions stand as they are described: whoever prints
//! a line sees to it that it stays one.
//!
//! Stands on `glue_shared` for types, exports and names, and on `values`. It knows no word, no target and no module.
#![tactic(auto)]

mod notes;
mod texts;

pub use notes::signature_lines;
pub use texts::type_text;
