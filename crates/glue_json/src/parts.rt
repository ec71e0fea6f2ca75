//! Reading the parts of a list, which are exactly so many.
ghost use Rattle.std.specs.Prelude.{◌≡◌, IfOk, None, Some, map};
ghost use Rattle.serde_json.specs.View.{view};
ghost use Rattle.glue_json.specs.Reading.{no_part, one_part, two_parts, three_parts, pair_of, triple_of};

use crate::counts::Counts;
use crate::reads::{LowerFault, Reads};
use serde_json::Value;
use std::alloc::Global;

/// No part: what was made stands alone.
pub fn none<T: Drop>(made: T, parts: &[Value]) -> Result<T, LowerFault>
    ensures ok { IfOk result (λ x. no_part made (map view parts.now) ≡ Some x) }
    ensures failed { result ≡ Err LowerFault.Failed → no_part made (map view parts.now) ≡ None }
{
    match parts {
        [] => Ok(made),
        [_, ..] => Err(LowerFault::Failed),
    }
}

/// One part.
pub fn one<A: Reads>(alloc: Global, counts: &Counts, parts: &[Value]) -> Result<A, LowerFault>
    ensures ok { IfOk result (λ x. one_part (A.reads counts.now) (map view parts.now) ≡ Some x) }
    ensures failed { result ≡ Err LowerFault.Failed → one_part (A.reads counts.now) (map view parts.now) ≡ None }
{
    match parts {
        [part] => A::read(alloc, counts, part),
        _ => Err(LowerFault::Failed),
    }
}

/// Two parts.
pub fn two<A: Reads, B: Reads>(
    alloc: Global,
    counts: &Counts,
    parts: &[Value],
) -> Result<(A, B), LowerFault>
    ensures ok { IfOk result (λ x. two_parts (A.reads counts.now) (B.reads counts.now) (map view parts.now) ≡ Some x) }
    ensures failed { result ≡ Err LowerFault.Failed → two_parts (A.reads counts.now) (B.reads counts.now) (map view parts.now) ≡ None }
{
    match parts.split_first() {
        Some((part, others)) => {
            let first = A::read(alloc, counts, part)?;
            let second = one(alloc, counts, others)?;
            Ok((first, second))
        }
        None => Err(LowerFault::Failed),
    }
}

/// Three parts.
pub fn three<A: Reads, B: Reads, C: Reads>(
    alloc: Global,
    counts: &Counts,
    parts: &[Value],
) -> Result<(A, B, C), LowerFault>
    ensures ok { IfOk result (λ x. three_parts (A.reads counts.now) (B.reads counts.now) (C.reads counts.now) (map view parts.now) ≡ Some x) }
    ensures failed { result ≡ Err LowerFault.Failed → three_parts (A.reads counts.now) (B.reads counts.now) (C.reads counts.now) (map view parts.now) ≡ None }
{
    match parts.split_first() {
        Some((part, others)) => {
            let first = A::read(alloc, counts, part)?;
            let (second, third) = two(alloc, counts, others)?;
            Ok((first, second, third))
        }
        None => Err(LowerFault::Failed),
    }
}

/// A list of two values.
#[tactic(auto, using(crate::proofs::Lists::pair_of_items))]
pub fn read_pair<A: Reads, B: Reads>(
    alloc: Global,
    counts: &Counts,
    value: &Value,
) -> Result<(A, B), LowerFault>
    ensures ok { IfOk result (λ x. pair_of (A.reads counts.now) (B.reads counts.now) (view value.now) ≡ Some x) }
    ensures failed { result ≡ Err LowerFault.Failed → pair_of (A.reads counts.now) (B.reads counts.now) (view value.now) ≡ None }
{
    match value.as_array() {
        Some(values) => two(alloc, counts, values.as_slice()),
        None => Err(LowerFault::Failed),
    }
}

/// A list of three values.
#[tactic(auto, using(crate::proofs::Lists::triple_of_items))]
pub fn read_triple<A: Reads, B: Reads, C: Reads>(
    alloc: Global,
    counts: &Counts,
    value: &Value,
) -> Result<(A, B, C), LowerFault>
    ensures ok { IfOk result (λ x. triple_of (A.reads counts.now) (B.reads counts.now) (C.reads counts.now) (view value.now) ≡ Some x) }
    ensures failed { result ≡ Err LowerFault.Failed → triple_of (A.reads counts.now) (B.reads counts.now) (C.reads counts.now) (view value.now) ≡ None }
{
    match value.as_array() {
        Some(values) => three(alloc, counts, values.as_slice()),
        None => Err(LowerFault::Failed),
    }
}
