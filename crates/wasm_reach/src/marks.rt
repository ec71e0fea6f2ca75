//! Marks on things.

ghost use Rattle.std.specs.Prelude.{◌≡◌, ◌<◌, true, false, length, replicate, slice_index_or, slice_set, IfOk};
ghost use Rattle.wasm_reach.specs.Marks.{is_marked, with_mark, unmarked, IsWithin};

use crate::things::Thing;
use std::alloc::{AllocError, Global};
use std::marker::Model;

/// How many places each list of a module has.
#[derive(Clone, Copy, Debug)]
pub struct Sizes {
    pub types: usize,
    pub funcs: usize,
    pub tables: usize,
    pub memories: usize,
    pub globals: usize,
    pub tags: usize,
    pub elems: usize,
    pub segments: usize,
}

/// A mark, or none, for each place of a module's lists.
#[derive(Debug, Drop)]
pub struct Marks {
    types: Vec<bool>,
    funcs: Vec<bool>,
    tables: Vec<bool>,
    memories: Vec<bool>,
    globals: Vec<bool>,
    tags: Vec<bool>,
    elems: Vec<bool>,
    segments: Vec<bool>,
}

impl Model for Marks {
    ghost use Rattle.wasm_reach.specs.Marks.{Rows};

    ghost Value = { Rows };

    ghost view = { λ m. record { types = m.types.items; funcs = m.funcs.items; tables = m.tables.items; memories = m.memories.items; globals = m.globals.items; tags = m.tags.items; elems = m.elems.items; segments = m.segments.items } };
}

impl Marks {
    /// No mark on any place of lists of these sizes.
    pub(crate) fn new(alloc: Global, sizes: &Sizes) -> Result<Marks, AllocError>
        ensures { IfOk result (λ m. m ≡ unmarked sizes.now) }
    {
        Ok(Marks {
            types: no_marks(alloc, sizes.types)?,
            funcs: no_marks(alloc, sizes.funcs)?,
            tables: no_marks(alloc, sizes.tables)?,
            memories: no_marks(alloc, sizes.memories)?,
            globals: no_marks(alloc, sizes.globals)?,
            tags: no_marks(alloc, sizes.tags)?,
            elems: no_marks(alloc, sizes.elems)?,
            segments: no_marks(alloc, sizes.segments)?,
        })
    }

    /// Whether a thing is marked. One past the end of its list isn't.
    pub fn has(&self, thing: Thing) -> bool
        ensures { result ≡ is_marked self.now thing }
    {
        match thing {
            Thing::Type(place) => mark_at(&self.types, place),
            Thing::Func(place) => mark_at(&self.funcs, place),
            Thing::Table(place) => mark_at(&self.tables, place),
            Thing::Memory(place) => mark_at(&self.memories, place),
            Thing::Global(place) => mark_at(&self.globals, place),
            Thing::Tag(place) => mark_at(&self.tags, place),
            Thing::Elem(place) => mark_at(&self.elems, place),
            Thing::Segment(place) => mark_at(&self.segments, place),
        }
    }

    /// Marks a thing.
    pub(crate) fn set(&mut self, thing: Thing)
        requires { IsWithin self.old thing }
        ensures { self.new ≡ with_mark self.old thing }
    {
        match thing {
            Thing::Type(place) => set_at(&mut self.types, place),
            Thing::Func(place) => set_at(&mut self.funcs, place),
            Thing::Table(place) => set_at(&mut self.tables, place),
            Thing::Memory(place) => set_at(&mut self.memories, place),
            Thing::Global(place) => set_at(&mut self.globals, place),
            Thing::Tag(place) => set_at(&mut self.tags, place),
            Thing::Elem(place) => set_at(&mut self.elems, place),
            Thing::Segment(place) => set_at(&mut self.segments, place),
        }
    }

    /// The marks of the types, by their places.
    pub fn types(&self) -> &[bool]
        ensures { result.now ≡ self.now.types }
    {
        &self.types
    }

    /// The marks of the functions, by their places.
    pub fn funcs(&self) -> &[bool]
        ensures { result.now ≡ self.now.funcs }
    {
        &self.funcs
    }

    /// The marks of the tables, by their places.
    pub fn tables(&self) -> &[bool]
        ensures { result.now ≡ self.now.tables }
    {
        &self.tables
    }

    /// The marks of the memories, by their places.
    pub fn memories(&self) -> &[bool]
        ensures { result.now ≡ self.now.memories }
    {
        &self.memories
    }

    /// The marks of the globals, by their places.
    pub fn globals(&self) -> &[bool]
        ensures { result.now ≡ self.now.globals }
    {
        &self.globals
    }

    /// The marks of the tags, by their places.
    pub fn tags(&self) -> &[bool]
        ensures { result.now ≡ self.now.tags }
    {
        &self.tags
    }

    /// The marks of the element segments, by their places.
    pub fn elems(&self) -> &[bool]
        ensures { result.now ≡ self.now.elems }
    {
        &self.elems
    }

    /// The marks of the data segments, by their places.
    pub fn segments(&self) -> &[bool]
        ensures { result.now ≡ self.now.segments }
    {
        &self.segments
    }
}

/// The mark at a place, none past the end.
fn mark_at(marks: &[bool], place: u32) -> bool
    ensures { result ≡ slice_index_or marks.now place false }
{
    match marks.get(place as usize) {
        Some(mark) => *mark,
        None => false,
    }
}

/// Marks a place.
fn set_at(marks: &mut Vec<bool>, place: u32)
    requires { place < length marks.old.items }
    ensures { marks.new.items ≡ slice_set marks.old.items place true }
{
    marks[place as usize] = true;
}

/// So many places without a mark.
fn no_marks(alloc: Global, count: usize) -> Result<Vec<bool>, AllocError>
    ensures { IfOk result (λ marks. marks.items ≡ replicate count false) }
{
    vec![in alloc; false; count]
}
