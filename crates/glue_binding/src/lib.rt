//! From the steps of an adapter to its JavaScript function.
//!
//! `bind` gives the function, and `IsBoundFunction` of `specs/Binding.antt` is its promise: which names its parameters
//! and temporaries have, which statements it has, which words they have, and that for all arguments and all answers of
//! the outside the statements do what the steps do. A file holds the rows of one family of steps. Stands on the operands
//! and the forms of `glue_operands`, on the parts of `glue_imports`, on the steps of `glue_steps`, on the statements of
//! `glue_tree`, on the scopes of `glue_scope`, on the words of `glue_words` and on `values`.
#![tactic(auto)]

mod binding;
mod body;
mod calls;
mod closures;
mod draw;
mod lists;
mod memory;
mod numbers;
mod objects;
mod piece;
mod room;
mod seed;
mod stack;

pub use binding::bind;
