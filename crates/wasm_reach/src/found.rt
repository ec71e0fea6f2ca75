//! Things that were found.

ghost use Rattle.std.specs.Prelude.{◌≡◌, ◌<◌, ◌≤◌, [], ◌∷◌, length, slice_get, OnOk, IfOk, Some, true, Contains};
ghost use Rattle.std.specs.List.{filter};
ghost use Rattle.wasm_reach.specs.Marks.{IsWithin, is_marked, unmarked, room};
ghost use Rattle.wasm_reach.specs.Found.{Nodes, Adds};

use crate::graph::Graph;
use crate::marks::{Marks, Sizes};
use crate::things::Thing;
use std::alloc::{AllocError, Global};
use std::marker::Model;

/// The things found so far, each once, in the order in which they were found.
#[derive(Drop)]
pub(crate) struct Found {
    marks: Marks,
    list: Vec<Thing>,
}

impl Model for Found {
    ghost use Rattle.wasm_reach.specs.Found.{Nodes, AreMarked};

    ghost Value = { Nodes };

    ghost view = { λ f. record { marks = f.marks; found = f.list.items } };

    ghost invariant = { λ f. AreMarked f.marks f.list.items };
}

impl Found {
    /// None found yet, in lists of these sizes.
    pub(crate) fn new(alloc: Global, sizes: &Sizes) -> Result<Found, AllocError>
        ensures { IfOk result (λ f. f ≡ record { marks = unmarked sizes.now; found = [] }) }
    {
        Ok(Found {
            marks: Marks::new(alloc, sizes)?,
            list: Vec::new(alloc),
        })
    }

    /// Adds a thing, where it isn't there yet.
    pub(crate) fn add(&mut self, thing: Thing) -> Result<(), AllocError>
        requires { IsWithin self.old.marks thing }
        ensures { OnOk result (Adds self.old self.new (thing ∷ [])) }
    {
        if !self.marks.has(thing) {
            self.list.push(thing)?;
            self.marks.set(thing);
        }
        Ok(())
    }

    /// Adds those of the things that are there, each where it wasn't added yet.
    pub(crate) fn add_all<G: Graph>(
        &mut self,
        graph: &G,
        things: &[Thing],
    ) -> Result<(), AllocError>
        requires { (t : Thing) → G.is_there graph.now t ≡ true → IsWithin self.old.marks t }
        ensures { OnOk result (Adds self.old self.new (filter (G.is_there graph.now) things.now)) }
    {
        for thing in things {
            self.add_there(graph, *thing)?;
        }
        Ok(())
    }

    /// Adds a thing that is there, where it wasn't added yet.
    fn add_there<G: Graph>(&mut self, graph: &G, thing: Thing) -> Result<(), AllocError>
        requires { (t : Thing) → G.is_there graph.now t ≡ true → IsWithin self.old.marks t }
        ensures { OnOk result (Adds self.old self.new (filter (G.is_there graph.now) (thing ∷ []))) }
    {
        let is_there = graph.is_there(thing);
        if is_there { self.add(thing) } else { Ok(()) }
    }

    /// How many were found.
    pub(crate) fn len(&self) -> usize
        ensures len { result ≡ length self.now.found }
        ensures few { result ≤ room self.now.marks }
        ensures told { (t : Thing) → is_marked self.now.marks t ≡ true → Contains self.now.found t }
    {
        self.list.len()
    }

    /// The thing at a place of those found.
    pub(crate) fn thing(&self, place: usize) -> Thing
        requires { place < length self.now.found }
        ensures { slice_get self.now.found place ≡ Some result }
    {
        self.list[place]
    }

    /// The marks on what was found.
    pub(crate) fn into_marks(self) -> Marks
        ensures { result ≡ self.marks }
    {
        let Found { marks, list: _ } = self;
        marks
    }
}
