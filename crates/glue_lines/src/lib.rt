//! The lines of a glue file that take names of other modules, names of the host that have vendor prefixes, and lists of
//! texts.
//!
//! - `import_line` answers the line of a module with the names that are taken of it, and `foreign_line` that of a
//!   module which is taken whole, under a number. Both in the form of an ES module and in that of a CommonJS module
//!   (`LineForm`), by exactly the words of `specs/Lines.antt` (clause `item` of each).
//! - `vendor_constant` answers the constant that is the first of a name and its prefixed forms that is there: the words
//!   of `specs/Vendor.antt` (clause `item`).
//! - `texts_constant` answers the constant that is a list of texts, in their order, each as a string literal: the words
//!   of `specs/Texts.antt` (clause `item`).
//! - `import_lines` answers the import lines of described names: each name stands in the one line of its module, in the
//!   order in which the names are given, and the lines stand in the order of their modules' bytes (clause `lines`,
//!   `AreImportLines` of `specs/Grouped.antt`).
//!
//! The proofs show of each what it declares and takes of the host, that it holds no other name, and that it belongs
//! into a file that has these names of the host, for any number of entries, prefixes and texts (`LineFacts`,
//! `VendorFacts`, `TextsFacts` and `GroupedFacts` of `proofs/`).
//!
//! Stands on `glue_words`, on the described names of `glue_shared`, and on `values`. It draws no name: names come
//! drawn. It knows no target and no adapter, and not which names a file needs.
#![tactic(auto)]

mod form;
mod grouped;
mod lines;
mod texts;
mod vendor;

pub use form::LineForm;
pub use grouped::{import_lines, source_of};
pub use lines::{foreign_line, import_line};
pub use texts::texts_constant;
pub use vendor::vendor_constant;
