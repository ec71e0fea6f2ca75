//! Tests of expressions and statements as text, with the parentheses that ECMAScript's grammar asks for (`glue_tree`). The texts were
//! worked out by hand.
#![tactic(auto)]

#[cfg(test)]
mod bodies;
#[cfg(test)]
mod compare;
#[cfg(test)]
mod form;
#[cfg(test)]
mod operands;
