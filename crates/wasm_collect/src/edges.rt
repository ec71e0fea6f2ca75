//! What the entries of a module refer to.

ghost use Rattle.std.specs.Prelude.{◌≡◌, ◌<◌, ◌++◌, None, length, map, is_some, slice_index_or, IfOk, OnOk};
ghost use Rattle.std.specs.List.{flat_map};
ghost use Rattle.std.specs.Option.{option_to_list, option_copied};
ghost use Rattle.wasm_reach.specs.declared.things.Thing.TheVariants as things;
ghost use Rattle.wasm_collect.specs.Reach.{stands, names, entry_at, taken_func, taken_declarer, body_op_names, func_names, table_names, memory_names, table_segments, memory_segments, global_names, tag_names, elem_names, segment_names};

use crate::declarers::declarers;
use crate::naming::{push_elem, push_op, push_ops, push_segment, push_thing};
use crate::rows::{row_at, segment_rows};
use packed_ops::Ops;
use std::alloc::{AllocError, Global};
use std::marker::Model;
use values::Seq;
use wasm_core::{GlobalVar, Module, Tag};
use wasm_file::{Elem, Segment};
use wasm_ops::Op;
use wasm_reach::{Graph, Thing};
use wasm_types::FuncId;

/// A module, with what of its references is known beforehand. A contract sees the module.
#[derive(Drop)]
pub(crate) struct Edges<'a> {
    from: &'a Module,
    /// For each table the active segments that go into it.
    table_segments: Vec<Seq<u32>>,
    /// For each memory the active segments that go into it.
    memory_segments: Vec<Seq<u32>>,
    /// For each function what declares it.
    declarers: Vec<Option<Thing>>,
}

impl<'a> Model for Edges<'a> {
    ghost use Rattle.wasm_core.specs.Contents.{Contents};
    ghost use Rattle.wasm_collect.specs.Edges.{AreEdges};

    ghost Value = { Contents };

    ghost view = { λ e. e.from.now };

    ghost invariant = { λ e. AreEdges e.from.now e.table_segments.items e.memory_segments.items e.declarers.items };
}

impl<'a> Edges<'a> {
    /// The references of a module.
    pub(crate) fn new(alloc: Global, from: &'a Module) -> Result<Edges<'a>, AllocError>
        ensures { IfOk result (λ e. e ≡ from.now) }
    {
        Ok(Edges {
            from,
            table_segments: segment_rows(alloc, from.elems(), from.tables().len())?,
            memory_segments: segment_rows(alloc, from.segments(), from.memories().len())?,
            declarers: declarers(alloc, from)?,
        })
    }

    /// The module.
    pub(crate) fn module(&self) -> &Module
        ensures { result.now ≡ self.now }
    {
        self.from
    }

    /// Appends the active segments of a table that has a place.
    pub(crate) fn push_table_segments(
        &self,
        out: &mut Vec<Thing>,
        table: u32,
    ) -> Result<(), AllocError>
        requires { table < length self.now.tables }
        ensures { OnOk result (out.new.items ≡ out.old.items ++ table_segments self.now table) }
    {
        push_segments::<Elem>(out, row_at(&self.table_segments, table))
    }

    /// Appends the active segments of a memory that has a place.
    pub(crate) fn push_memory_segments(
        &self,
        out: &mut Vec<Thing>,
        memory: u32,
    ) -> Result<(), AllocError>
        requires { memory < length self.now.memories }
        ensures { OnOk result (out.new.items ≡ out.old.items ++ memory_segments self.now memory) }
    {
        push_segments::<Segment>(out, row_at(&self.memory_segments, memory))
    }

    /// Appends what declares a function, where it has to be declared.
    fn push_declarer(&self, out: &mut Vec<Thing>, taken: Option<FuncId>) -> Result<(), AllocError>
        ensures { OnOk result (out.new.items ≡ out.old.items ++ taken_declarer self.now taken) }
    {
        match taken {
            Some(func) => push_some(out, declarer_at(&self.declarers, func.0)),
            None => Ok(()),
        }
    }

    /// Appends what an operator of a body names, and what declares the function that it takes.
    fn push_body_op(&self, out: &mut Vec<Thing>, op: &Op) -> Result<(), AllocError>
        ensures { OnOk result (out.new.items ≡ out.old.items ++ body_op_names self.now op.now) }
    {
        push_op(out, op)?;
        self.push_declarer(out, taken_func(op))
    }

    /// Appends what the operators of a body name, and what declares the functions that they take.
    fn push_body(&self, out: &mut Vec<Thing>, ops: &Ops) -> Result<(), AllocError>
        ensures { OnOk result (out.new.items ≡ out.old.items ++ flat_map (body_op_names self.now) ops.now) }
    {
        let mut walk = ops.walk();
        while let Some(op) = walk.next_other()? {
            self.push_body_op(out, &op)?;
        }
        Ok(())
    }

    /// Appends what a function names.
    fn push_func(&self, out: &mut Vec<Thing>, place: u32) -> Result<(), AllocError>
        ensures { OnOk result (out.new.items ≡ out.old.items ++ func_names self.now (entry_at self.now.funcs place)) }
    {
        match entry_at(self.from.funcs(), place) {
            Some(func) => {
                push_thing(out, Thing::Type(func.ty.0))?;
                match &func.body {
                    Some(body) => self.push_body(out, &body.ops),
                    None => Ok(()),
                }
            }
            None => Ok(()),
        }
    }

    /// Appends what a table names.
    fn push_table(&self, out: &mut Vec<Thing>, place: u32) -> Result<(), AllocError>
        ensures { OnOk result (out.new.items ≡ out.old.items ++ table_names self.now place (entry_at self.now.tables place)) }
    {
        match entry_at(self.from.tables(), place) {
            Some(_) => self.push_table_segments(out, place),
            None => Ok(()),
        }
    }

    /// Appends what a memory names.
    fn push_memory(&self, out: &mut Vec<Thing>, place: u32) -> Result<(), AllocError>
        ensures { OnOk result (out.new.items ≡ out.old.items ++ memory_names self.now place (entry_at self.now.memories place)) }
    {
        match entry_at(self.from.memories(), place) {
            Some(_) => self.push_memory_segments(out, place),
            None => Ok(()),
        }
    }
}

impl<'a> Graph for Edges<'a> {
    ghost is_there = { stands };

    ghost names = { names };

    fn is_there(&self, thing: Thing) -> bool {
        match thing {
            Thing::Type(place) => is_entry(self.from.types(), place),
            Thing::Func(place) => is_entry(self.from.funcs(), place),
            Thing::Table(place) => is_entry(self.from.tables(), place),
            Thing::Memory(place) => is_entry(self.from.memories(), place),
            Thing::Global(place) => is_entry(self.from.globals(), place),
            Thing::Tag(place) => is_entry(self.from.tags(), place),
            Thing::Elem(place) => is_entry(self.from.elems(), place),
            Thing::Segment(place) => is_entry(self.from.segments(), place),
        }
    }

    fn push_names(&self, out: &mut Vec<Thing>, thing: Thing) -> Result<(), AllocError> {
        match thing {
            Thing::Type(_) => Ok(()),
            Thing::Func(place) => self.push_func(out, place),
            Thing::Table(place) => self.push_table(out, place),
            Thing::Memory(place) => self.push_memory(out, place),
            Thing::Global(place) => push_global_at(out, self.from.globals(), place),
            Thing::Tag(place) => push_tag_at(out, self.from.tags(), place),
            Thing::Elem(place) => push_elem_at(out, self.from.elems(), place),
            Thing::Segment(place) => push_segment_at(out, self.from.segments(), place),
        }
    }
}

/// The entry at a place, where there is one.
pub(crate) fn entry_at<T>(entries: &[Option<T>], place: u32) -> Option<&T>
    ensures { option_copied result ≡ entry_at entries.now place }
{
    match entries.get(place as usize) {
        Some(Some(entry)) => Some(entry),
        Some(None) | None => None,
    }
}

/// Whether a place has an entry.
fn is_entry<T>(entries: &[Option<T>], place: u32) -> bool
    ensures { result ≡ is_some (entry_at entries.now place) }
{
    entry_at(entries, place).is_some()
}

/// A kind of segment.
trait SegmentKind {
    ghost use Rattle.std.specs.Prelude.{◌≡◌, ℕ};
    ghost use Rattle.wasm_reach.specs.declared.things.Thing.{Thing};

    /// The segment at a place.
    ghost thing: { ℕ → Thing };

    fn thing(place: u32) -> Thing
        ensures { result ≡ thing place };
}

impl SegmentKind for Elem {
    ghost thing = { things.Elem };

    fn thing(place: u32) -> Thing {
        Thing::Elem(place)
    }
}

impl SegmentKind for Segment {
    ghost thing = { things.Segment };

    fn thing(place: u32) -> Thing {
        Thing::Segment(place)
    }
}

/// Appends segments of a kind.
fn push_segments<K: SegmentKind>(out: &mut Vec<Thing>, places: &[u32]) -> Result<(), AllocError>
    ensures { OnOk result (out.new.items ≡ out.old.items ++ map K.thing places.now) }
{
    for place in places {
        push_thing(out, K::thing(*place))?;
    }
    Ok(())
}

/// The function that `ref.func` takes (WebAssembly core specification, 5.4.2).
fn taken_func(op: &Op) -> Option<FuncId>
    ensures { result ≡ taken_func op.now }
{
    match op {
        Op::Func(0xD2, func) => Some(*func),
        _ => None,
    }
}

/// The declarer of a function, none past the end.
fn declarer_at(declarers: &[Option<Thing>], func: u32) -> Option<Thing>
    ensures { result ≡ slice_index_or declarers.now func None }
{
    match declarers.get(func as usize) {
        Some(declarer) => *declarer,
        None => None,
    }
}

/// Appends a thing, if there is one.
fn push_some(out: &mut Vec<Thing>, thing: Option<Thing>) -> Result<(), AllocError>
    ensures { OnOk result (out.new.items ≡ out.old.items ++ option_to_list thing) }
{
    match thing {
        Some(thing) => push_thing(out, thing),
        None => Ok(()),
    }
}

/// Appends what a global names.
fn push_global_at(
    out: &mut Vec<Thing>,
    globals: &[Option<GlobalVar>],
    place: u32,
) -> Result<(), AllocError>
    ensures { OnOk result (out.new.items ≡ out.old.items ++ global_names (entry_at globals.now place)) }
{
    match entry_at(globals, place) {
        Some(global) => push_ops(out, &global.init),
        None => Ok(()),
    }
}

/// Appends what a tag names.
fn push_tag_at(out: &mut Vec<Thing>, tags: &[Option<Tag>], place: u32) -> Result<(), AllocError>
    ensures { OnOk result (out.new.items ≡ out.old.items ++ tag_names (entry_at tags.now place)) }
{
    match entry_at(tags, place) {
        Some(tag) => push_thing(out, Thing::Type(tag.ty.0)),
        None => Ok(()),
    }
}

/// Appends what an element segment names.
fn push_elem_at(out: &mut Vec<Thing>, elems: &[Option<Elem>], place: u32) -> Result<(), AllocError>
    ensures { OnOk result (out.new.items ≡ out.old.items ++ elem_names (entry_at elems.now place)) }
{
    match entry_at(elems, place) {
        Some(elem) => push_elem(out, elem),
        None => Ok(()),
    }
}

/// Appends what a data segment names.
fn push_segment_at(
    out: &mut Vec<Thing>,
    segments: &[Option<Segment>],
    place: u32,
) -> Result<(), AllocError>
    ensures { OnOk result (out.new.items ≡ out.old.items ++ segment_names (entry_at segments.now place)) }
{
    match entry_at(segments, place) {
        Some(segment) => push_segment(out, segment),
        None => Ok(()),
    }
}
