//! A search over a few numbers (`least_set`).
ghost use Rattle.std.specs.Prelude.{◌-◌, ◌∷◌, []};

use least_set::{Graph, search};
use std::alloc::AllocError;

/// So many numbers, each of which names the one below it. Zero names itself.
struct Below {
    count: usize,
}

impl Graph for Below {
    ghost count = { λ g. g.count };

    ghost names = { λ g node. (node - 1) ∷ [] };

    fn count(&self) -> usize {
        self.count
    }

    fn push_names(&self, out: &mut Vec<usize>, node: usize) -> Result<(), AllocError> {
        out.push(node.saturating_sub(1))?;
        Ok(())
    }
}

/// The numbers, the roots, and which are reached.
const SEARCHES: &[(Below, &[usize], &[bool])] = &[
    // those up to the root
    (
        Below { count: 6 },
        &[3, 1],
        &[true, true, true, true, false, false],
    ),
    // nothing without roots
    (Below { count: 2 }, &[], &[false, false]),
];

#[test]
fn numbers_up_to_the_roots_are_reached(rt: HostRuntime) -> Result<(), AllocError> {
    for (below, roots, reached) in SEARCHES {
        let marks = search(rt.alloc(), below, roots)?;
        assert!(rt;
            marks.as_slice() == *reached,
            "{marks:?} in place of {reached:?}"
        );
    }
    Ok(())
}
