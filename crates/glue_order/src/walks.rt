//! Walks from entries along their parents, by the entries' places on a level.
ghost use Rattle.std.specs.Prelude.{◌≡◌, ◌+◌, ◌-◌, ◌<◌, ◌≤◌, ◌^◌, IfOk, map, length};
ghost use Rattle.std.specs.List.{All};
ghost use Rattle.glue_order.specs.Walks as spec;

use std::alloc::{AllocError, Global};

/// A walk from an entry, step by step to the entry of the parent.
#[derive(Clone, Copy, Debug)]
pub(crate) struct Walk {
    /// The place of the entry at its end, unless it has come to one that has no parent, with steps to go.
    pub(crate) end: Option<usize>,
    /// How many of its steps go from an entry to one of a greater name.
    pub(crate) sweep: usize,
}

// A walk, and behind it the one of these that begins at its end.
fn then_walk(walk: Walk, walks: &[Walk]) -> Walk
    requires fits { All (λ next. walk.sweep + next.sweep < 2 ^ 64) walks.now }
    ensures walk { result ≡ spec.then_walk walks.now walk }
{
    let sweep = walk.sweep;
    let Some(place) = walk.end else {
        return Walk { end: None, sweep };
    };
    match walks.get(place) {
        Some(next) => Walk {
            end: next.end,
            sweep: sweep + next.sweep,
        },
        None => Walk { end: None, sweep },
    }
}

// The walks, and behind each the one of others that begins at its end.
fn joined(alloc: Global, walks: &[Walk], others: &[Walk]) -> Result<Vec<Walk>, AllocError>
    requires fits { All (λ walk. All (λ next. walk.sweep + next.sweep < 2 ^ 64) others.now) walks.now }
    ensures walks { IfOk result (λ joined. joined.items ≡ map (spec.then_walk others.now) walks.now) }
{
    let mut joined = Vec::new(alloc);
    for walk in walks {
        joined.push(then_walk(*walk, others))?;
    }
    Ok(joined)
}

/// The walks of as many steps as there are entries, given those of one step. Want of memory is the only error.
pub(crate) fn far_walks(alloc: Global, steps: &[Walk]) -> Result<Vec<Walk>, AllocError>
    requires small { All (λ step. step.sweep ≤ 1) steps.now }
    ensures walks { IfOk result (λ walks. walks.items ≡ spec.walks steps.now (length steps.now - 1)) }
{
    let mut walks = Vec::from_slice(alloc, steps)?;
    let mut longer = Vec::from_slice(alloc, steps)?;
    let mut left = steps.len().saturating_sub(1);
    while left > 0 {
        if left % 2 == 1 {
            walks = joined(alloc, &walks, &longer)?;
        }
        longer = joined(alloc, &longer, &longer)?;
        left /= 2;
    }
    Ok(walks)
}
