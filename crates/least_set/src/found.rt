//! Nodes that were found.
ghost use Rattle.std.specs.Prelude.{◌≡◌, ℕ, ◌<◌, ◌≤◌, [], ◌∷◌, length, replicate, slice_get, slice_set, OnOk, IfOk, All, Contains, Some, true, false};
ghost use Rattle.least_set.specs.Least.{is_marked};
ghost use Rattle.least_set.specs.Found.{Nodes, Adds};

use std::alloc::{AllocError, Global};
use std::marker::Model;

// The nodes that were found so far, each once, in the order in which they were found.
#[derive(Drop)]
pub(crate) struct Found {
    marks: Vec<bool>,
    list: Vec<usize>,
}

impl Model for Found {
    ghost use Rattle.least_set.specs.Found.{Nodes, AreMarked};

    ghost Value = { Nodes };

    ghost view = { λ f. record { marks = f.marks.items; found = f.list.items } };

    ghost invariant = { λ f. AreMarked f.marks.items f.list.items };
}

impl Found {
    // None found yet of so many.
    pub(crate) fn new(alloc: Global, count: usize) -> Result<Found, AllocError>
        ensures { IfOk result (λ f. f ≡ record { marks = replicate count false; found = [] }) }
    {
        Ok(Found {
            marks: no_marks(alloc, count)?,
            list: Vec::new(alloc),
        })
    }

    // Adds a node, where it isn't there yet.
    fn add(&mut self, node: usize) -> Result<(), AllocError>
        requires { node < length self.old.marks }
        ensures { OnOk result (Adds self.old self.new (node ∷ [])) }
    {
        if !mark_at(&self.marks, node) {
            self.list.push(node)?;
            set_at(&mut self.marks, node);
        }
        Ok(())
    }

    // Adds the nodes, each where it isn't there yet.
    pub(crate) fn add_all(&mut self, nodes: &[usize]) -> Result<(), AllocError>
        requires { All (λ node. node < length self.old.marks) nodes.now }
        ensures { OnOk result (Adds self.old self.new nodes.now) }
    {
        for node in nodes {
            self.add(*node)?;
        }
        Ok(())
    }

    // How many were found.
    pub(crate) fn len(&self) -> usize
        ensures len { result ≡ length self.now.found }
        ensures few { result ≤ length self.now.marks }
        ensures told { (node : ℕ) → is_marked self.now.marks node ≡ true → Contains self.now.found node }
    {
        self.list.len()
    }

    // The node at a place of those found.
    pub(crate) fn node(&self, place: usize) -> usize
        requires { place < length self.now.found }
        ensures value { slice_get self.now.found place ≡ Some result }
        ensures within { result < length self.now.marks }
    {
        self.list[place]
    }

    // The marks on what was found.
    pub(crate) fn into_marks(self) -> Vec<bool>
        ensures { result.items ≡ self.marks }
    {
        let Found { marks, list: _ } = self;
        marks
    }
}

// The mark at a place.
fn mark_at(marks: &[bool], place: usize) -> bool
    requires { place < length marks.now }
    ensures { result ≡ is_marked marks.now place }
{
    marks[place]
}

// Marks a place.
fn set_at(marks: &mut Vec<bool>, place: usize)
    requires { place < length marks.old.items }
    ensures { marks.new.items ≡ slice_set marks.old.items place true }
{
    marks[place] = true;
}

// So many places without a mark.
fn no_marks(alloc: Global, count: usize) -> Result<Vec<bool>, AllocError>
    ensures { IfOk result (λ marks. marks.items ≡ replicate count false) }
{
    vec![in alloc; false; count]
}
