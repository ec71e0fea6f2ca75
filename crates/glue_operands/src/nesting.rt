//! How many steps nest.
ghost use Rattle.std.specs.Prelude.{◌≡◌, false, IfOk};
ghost use Rattle.std.specs.List.{count_by};
ghost use Rattle.glue_operands.specs.Nesting as spec;

use glue_steps::Step;
use std::alloc::AllocError;

/// At most so many steps that nest may stand in one adapter. What they come to is walked by recursion, so that the machine's stack is memory too.
pub const MOST_NESTING: u64 = 5_000;

// Whether what stands behind a step stands in its `try`, or its operand in another one.
fn nests(step: &Step) -> bool
    ensures test { result ≡ spec.nests step.now }
{
    matches!(
        step,
        Step::IndexFromBorrow
            | Step::DeferFree { .. }
            | Step::ReturnPointer { .. }
            | Step::ToUnsigned
            | Step::IsNotZero
    )
}

// How many of these do.
fn nesting(steps: &[Step]) -> u64
    ensures count { result ≡ count_by spec.nests steps.now }
{
    let mut count = 0;
    for step in steps {
        count += u64::from(nests(step));
    }
    count
}

/// Nothing, where at most 5,000 steps nest (`MOST_NESTING`). The only error is want of memory: that of more of them.
pub fn check_nesting(steps: &[Step]) -> Result<(), AllocError>
    ensures few { IfOk result (λ unit. spec.nests_too_often steps.now ≡ false) }
{
    if nesting(steps) > MOST_NESTING {
        return Err(AllocError);
    }
    Ok(())
}
