//! The JavaScript expression that a description asks for where an import is called.
//!
//! `expression` gives it as parts: words that are known from the description, the settings and the names that are drawn (`Basis`), and
//! places for the operands, and for the locals of the statements before it, where it has some. The value that an import names begins with
//! the name that was drawn for it, or where none was with a name of the host: a global, or a module's export where the setting
//! `omit_imports` leaves its import out (`specs/Roots.antt`). Promised: exactly the parts of `expression` in
//! `specs/Expressions.antt`, of intrinsics those of the tables in `specs/Intrinsics.antt`, and with statements those of
//! `specs/Preludes.antt`; nothing but want of memory fails. Whether an import has an expression depends neither on the names, nor on what
//! is given of the module, nor on how it is called (`proofs/Any.antt`). That the parts of each stand well beside one another is shown above, in `glue_context`. Classes that are
//! wrapped or unwrapped have no parts here yet, nor have links to files on a target whose glue file is no ES module. The module's own object
//! and its instance have parts on the targets whose glue file has a name for them, and `lacks_value` answers whether it has none. Helpers
//! are named by the names that they bind.
//!
//! An intrinsic that gives an item of the module, its memory or a table, goes by the export that gives it (`Given`; `specs/Given.antt`);
//! `given_item` tells which item that is.
//!
//! `function_or_throw` gives the parts that define an import by a property of a module's name, which needs no function of its own
//! (`specs/Definitions.antt`); `root` those of the value itself.
//!
//! A kind of import more is a line of the definition and an arm of the function; an intrinsic more is a line of a table in both.
//!
//! Stands on `glue_shared`, `glue_words`, `wasm_core` and `values`. It knows neither adapters nor what operands are.
#![tactic(auto)]

mod definition;
mod expressions;
mod given;
mod intrinsic;
mod part;
mod prelude;
mod roots;

pub use definition::function_or_throw;
pub use expressions::{Basis, expression, has_expression};
pub use given::{Given, given_item, gives_item};
pub use intrinsic::lacks_value;
pub use part::{Expression, Part};
pub use roots::root;
