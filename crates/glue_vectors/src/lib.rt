//! Functions of steps, as `bind` of `glue_binding` gives them: their texts, and vectors of their runs, which tell what the statements of
//! adapters do, step by step, for given answers of the outside. A plain evaluator runs the trees; each text, each trace and each end was
//! worked out by hand.
//!
//! Promised: nothing. No clause rests on the evaluator: what a tree means is a definition of `glue_tree`. Stands on `glue_binding` for
//! the trees, on `glue_operands` for the forms of functions, and on `glue_steps` and `glue_imports` for the steps that they come from.
#![tactic(auto)]

#[cfg(test)]
mod compare;
#[cfg(test)]
mod evaluator;
#[cfg(test)]
mod functions;
#[cfg(test)]
mod run;
#[cfg(test)]
mod steps;
#[cfg(test)]
mod vectors;
