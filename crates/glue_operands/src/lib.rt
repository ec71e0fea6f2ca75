//! Operands of steps, as expressions and as words.
//!
//! An operand is a text that takes no step when it is evaluated: `null` where it is lacking, `this`, a local, one of these as an unsigned number,
//! or whether it isn't 0 (`specs/Spelling.antt`; `plain_operand` of `specs/Plainly.antt` takes an operand to what it is without pointers). `to_expr`
//! gives its expression. `import_line` gives the words of the statements that an import's expression stands in, with the operands and
//! the names of its locals in their places, and `spell` those of parts that go by neither.
//!
//! The form of a function (`specs/Form.antt`) says what its parameters are spelled as and how they are printed: `parameters_of` gives the operands,
//! and `form_words_of` the words of a function of the form with given statements.
//!
//! `check_nesting` refuses steps of which more nest than may (`specs/Nesting.antt`). Promised: exactly what these files say, and nothing else
//! fails but for want of memory.
//!
//! Where parts may stand beside one another, so do their words, whatever the names and the operands are (`proofs/Standing.antt`); which names
//! they use and bind say `proofs/Parts.antt`, `proofs/Paths.antt` and `proofs/Free.antt`, and the words of a form `proofs/FormWords.antt`.
//!
//! Stands on the parts of `glue_imports`, on the steps of `glue_steps`, on the expressions of `glue_tree`, on the properties of `glue_scope`,
//! on the words of `glue_words` and on `values`. It knows no body of a function: which operands a step takes and leaves, and which statements it adds, is said above, in `glue_binding`.
#![tactic(auto)]

mod arguments;
mod form;
mod import;
mod nesting;
mod operand;
mod parameters;

pub use form::{Form, usual_form};
pub use import::{import_line, spell};
pub use nesting::check_nesting;
pub use operand::{Operand, copy_operand, push_local, to_expr, to_exprs};
pub use parameters::{form_words_of, parameters_of};
