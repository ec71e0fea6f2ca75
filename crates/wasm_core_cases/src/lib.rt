//! Tests of `values` and `packed_ops`: containers, and operators that no file has, which no row of `module_rows` can write.
#![tactic(auto)]

#[cfg(test)]
mod compare;
#[cfg(test)]
mod containers;
#[cfg(test)]
mod packed;
