//! The least set that holds the roots and what each of its members refers to.

ghost use Rattle.std.specs.Prelude.{◌≡◌, [], true, IfOk, OnOk};
ghost use Rattle.std.specs.List.{filter};
ghost use Rattle.wasm_reach.specs.declared.things.Thing.{Thing};
ghost use Rattle.wasm_reach.specs.Marks.{IsCounted, IsWithin, is_marked};
ghost use Rattle.wasm_reach.specs.Reach.{IsLeast};

use crate::found::Found;
use crate::marks::{Marks, Sizes};
use crate::things::Thing;
use std::alloc::{AllocError, Global};

/// Things that name things.
pub trait Graph {
    ghost use Rattle.std.specs.Prelude.{◌≡◌, ◌++◌, Bool, List, OnOk};
    ghost use Rattle.wasm_reach.specs.declared.things.Thing.{Thing};

    /// Whether a thing stands there.
    ghost is_there: { Self → Thing → Bool };

    /// What a thing names. It refers to those of them that stand there.
    ghost names: { Self → Thing → List Thing };

    fn is_there(&self, thing: Thing) -> bool
        ensures { result ≡ is_there self.now thing };

    /// Appends what a thing names.
    fn push_names(&self, out: &mut Vec<Thing>, thing: Thing) -> Result<(), AllocError>
        ensures { OnOk result (out.new.items ≡ out.old.items ++ names self.now thing) };
}

/// Marks what can be reached from the roots: the least set that holds those of the roots that stand there, and what each
/// of its members refers to.
pub fn search<G: Graph>(
    alloc: Global,
    sizes: &Sizes,
    graph: &G,
    roots: &[Thing],
) -> Result<Marks, AllocError>
    requires { (t : Thing) → G.is_there graph.now t ≡ true → IsCounted sizes.now t }
    ensures { IfOk result (λ m. IsLeast (λ t. filter (G.is_there graph.now) (G.names graph.now t)) (filter (G.is_there graph.now) roots.now) (is_marked m)) }
{
    let mut found = Found::new(alloc, sizes)?;
    let added = add_reached(&mut found, alloc, graph, roots);
    added.and(Ok(found.into_marks()))
}

/// Adds those of the roots that stand there, and what can be reached from them.
fn add_reached<G: Graph>(
    found: &mut Found,
    alloc: Global,
    graph: &G,
    roots: &[Thing],
) -> Result<(), AllocError>
    requires none { found.old.found ≡ [] }
    requires within { (t : Thing) → G.is_there graph.now t ≡ true → IsWithin found.old.marks t }
    ensures { OnOk result (IsLeast (λ t. filter (G.is_there graph.now) (G.names graph.now t)) (filter (G.is_there graph.now) roots.now) (is_marked found.new.marks)) }
{
    found.add_all(graph, roots)?;
    let mut names = Vec::new(alloc);
    let mut next = 0;
    'search: while next < found.len() {
        names.clear();
        graph.push_names(&mut names, found.thing(next))?;
        found.add_all(graph, &names)?;
        next += 1;
    }
    Ok(())
}
