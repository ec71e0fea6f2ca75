//! A search over numbered nodes.
ghost use Rattle.std.specs.Prelude.{◌≡◌, ◌<◌, [], length, All, IfOk, OnOk};
ghost use Rattle.least_set.specs.Least.{IsLeast, is_marked};

use crate::found::Found;
use std::alloc::{AllocError, Global};

/// Nodes that name nodes, by their numbers.
pub trait Graph {
    ghost use Rattle.std.specs.Prelude.{◌≡◌, ◌<◌, ◌++◌, ℕ, List, All, OnOk};

    /// How many nodes there are.
    ghost count: { Self → ℕ };

    /// What a node names.
    ghost names: { Self → ℕ → List ℕ };

    /// How many nodes there are; their numbers are those below it.
    fn count(&self) -> usize
        ensures count { result ≡ count self.now };

    /// Appends what a node names, each of which is a node. Want of memory is the only error.
    fn push_names(&self, out: &mut Vec<usize>, node: usize) -> Result<(), AllocError>
        requires node { node < count self.now }
        ensures named { OnOk result (out.new.items ≡ out.old.items ++ names self.now node) }
        ensures within { OnOk result (All (λ other. other < count self.now) (names self.now node)) };
}

/// Marks the least set of nodes that holds the roots and what each of its members names, a truth for each node. Each node that is
/// reached is asked once for what it names. Want of memory is the only error.
pub fn search<G: Graph>(alloc: Global, graph: &G, roots: &[usize]) -> Result<Vec<bool>, AllocError>
    requires within { All (λ root. root < G.count graph.now) roots.now }
    ensures count { IfOk result (λ marks. length marks.items ≡ G.count graph.now) }
    ensures least { IfOk result (λ marks. IsLeast (G.names graph.now) roots.now (is_marked marks.items)) }
{
    let mut found = Found::new(alloc, graph.count())?;
    add_reached(&mut found, alloc, graph, roots)?;
    Ok(found.into_marks())
}

// Adds the roots, and what can be reached from them.
fn add_reached<G: Graph>(
    found: &mut Found,
    alloc: Global,
    graph: &G,
    roots: &[usize],
) -> Result<(), AllocError>
    requires none { found.old.found ≡ [] }
    requires count { length found.old.marks ≡ G.count graph.now }
    requires within { All (λ root. root < G.count graph.now) roots.now }
    ensures count { OnOk result (length found.new.marks ≡ G.count graph.now) }
    ensures least { OnOk result (IsLeast (G.names graph.now) roots.now (is_marked found.new.marks)) }
{
    found.add_all(roots)?;
    let mut names = Vec::new(alloc);
    let mut next = 0;
    'search: while next < found.len() {
        names.clear();
        graph.push_names(&mut names, found.node(next))?;
        found.add_all(&names)?;
        next += 1;
    }
    Ok(())
}
