//! The active segments of each table and memory.

ghost use Rattle.std.specs.Prelude.{◌≡◌, [], replicate, slice_index_or, IfOk, OnOk};
ghost use Rattle.wasm_collect.specs.Reach.{elem_target, segment_target};
ghost use Rattle.wasm_collect.specs.Edges.{with_item, with_target, AreRows};

use std::alloc::{AllocError, Global};
use values::Seq;
use wasm_file::{Elem, ElemPlace, Segment};

/// A segment, which may go into a table or a memory.
pub(crate) trait Aimed {
    ghost use Rattle.std.specs.Prelude.{◌≡◌, ℕ, Option};

    /// The place of what it goes into, where it is active.
    ghost target: { Self → Option ℕ };

    fn target(&self) -> Option<u32>
        ensures { result ≡ target self.now };
}

impl Aimed for Elem {
    ghost target = { elem_target };

    fn target(&self) -> Option<u32> {
        match &self.place {
            ElemPlace::Active(id, _) => Some(id.0),
            ElemPlace::Passive | ElemPlace::Declared => None,
        }
    }
}

impl Aimed for Segment {
    ghost target = { segment_target };

    fn target(&self) -> Option<u32> {
        match &self.place {
            Some((id, _)) => Some(id.0),
            None => None,
        }
    }
}

/// For each of so many tables or memories the places of the segments that go into it, in order.
pub(crate) fn segment_rows<T: Aimed>(
    alloc: Global,
    segments: &[Option<T>],
    count: usize,
) -> Result<Vec<Seq<u32>>, AllocError>
    ensures { IfOk result (λ v. AreRows T.target segments.now count v.items) }
{
    if segments.len() > u32::MAX as usize {
        return Err(AllocError);
    }
    let mut rows = empty_rows(alloc, count)?;
    for place in 0..segments.len() {
        push_target(&mut rows, &segments[place], place as u32)?;
    }
    Ok(rows)
}

/// So many rows without items.
fn empty_rows(alloc: Global, count: usize) -> Result<Vec<Seq<u32>>, AllocError>
    ensures { IfOk result (λ v. v.items ≡ replicate count []) }
{
    let mut rows = Vec::new(alloc);
    for _ in 0..count {
        rows.push(Seq::new(alloc))?;
    }
    Ok(rows)
}

/// Puts the place of a segment into the row of what it goes into.
fn push_target<T: Aimed>(
    rows: &mut Vec<Seq<u32>>,
    segment: &Option<T>,
    place: u32,
) -> Result<(), AllocError>
    ensures { OnOk result (rows.new.items ≡ with_target T.target rows.old.items segment.now place) }
{
    match segment {
        Some(segment) => match segment.target() {
            Some(row) => push_item(rows, row, place),
            None => Ok(()),
        },
        None => Ok(()),
    }
}

/// Puts an item behind the others of a row, where there is such a row.
fn push_item(rows: &mut Vec<Seq<u32>>, row: u32, item: u32) -> Result<(), AllocError>
    ensures { OnOk result (rows.new.items ≡ with_item rows.old.items row item) }
{
    match rows.get_mut(row as usize) {
        Some(items) => items.push(item),
        None => Ok(()),
    }
}

/// The items of a row, none past the end.
pub(crate) fn row_at(rows: &[Seq<u32>], row: u32) -> &[u32]
    ensures { result.now ≡ slice_index_or rows.now row [] }
{
    match rows.get(row as usize) {
        Some(items) => items.as_slice(),
        None => &[],
    }
}
