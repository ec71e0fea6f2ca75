//! Expressions and statements of JavaScript: their words, and what they mean.
//!
//! A body is a list of statements (ECMAScript, sections 13 and 14: the forms that calls, the object table and classes
//! need). Words and meaning are defined of trees without pointers (`specs/Term.antt`), to which `plain_expr` and
//! `plain_stmts` of `specs/Plainly.antt` lead from the types here.
//!
//! - `words_of` and `function_words_of` give exactly the words of `specs/Spelling.antt` (clauses `words`), for every
//!   form. An operand stands in parentheses where it binds more loosely than the grammar allows there
//!   (`specs/Operands.antt`), and an expression at the start of a statement where it begins with `{`.
//! - `tree_meaning` of `specs/TreeMeaning.antt` is the run of a body: a map of locals, a trace of all that it does to
//!   what isn't its own, and an answer for each such step (`values`, `specs/Value.antt`). Operators are functions of values;
//!   `proofs/Values.antt` has what their equality says, `proofs/Meaning.antt` that `if (c) s` is `if (c) { s }`, and
//!   what the guard of a call is.
//! - The names in the words of a tree are those of its leaves (`specs/Leaves.antt`), of whichever kind: `term_names`,
//!   `line_names` and `function_names` of `proofs/Names.antt`, one induction for all kinds of names.
//! - Where a tree is fit (`proofs/Fit.antt`: names are identifiers, keys are properties), each of its words is spaced
//!   from the next: `expression`, `line` and `function` of `proofs/Spacing.antt`, one induction. So an item that holds
//!   a function is linked as its leaves are (`proofs/Functions.antt`); `proofs/FixedHelper.antt` shows it of a helper.
//!
//! Stands on `values` and on the words of `glue_words`. It knows no instruction, and no name of the program's own.
#![tactic(auto)]

mod operand;
mod spelling;
mod tree;

pub use spelling::{function_words_of, push_arguments, push_const, words_of};
pub use tree::{BinaryOperator, Constant, Expr, JsFunction, Stmt, UnaryOperator};
