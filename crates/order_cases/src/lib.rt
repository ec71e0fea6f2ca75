//! Tests of orders and of least sets: the order of the levels of an export tree (`glue_order`), which numbered nodes are reached
//! (`least_set`), and which helpers are held (`helper_set`). The answers were worked out by hand.
#![tactic(auto)]

#[cfg(test)]
mod helpers;
#[cfg(test)]
mod levels;
#[cfg(test)]
mod nodes;
