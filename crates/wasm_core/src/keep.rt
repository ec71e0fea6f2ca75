//! Keeping the entries that are marked.

ghost use Rattle.std.specs.Prelude.{◌≡◌, ◌<◌, None, false, length, map, slice_set, slice_index_or, if◌then◌else◌};
ghost use Rattle.wasm_reach.specs.Marks.{is_marked};
ghost use Rattle.wasm_core.specs.Remainder.{remainder, import_thing, kept_import, kept_places};

use crate::module::Module;
use crate::types::{Import, ImportKind};
use wasm_reach::{Marks, Thing};

impl Module {
    /// Drops the entries that aren't marked, and the imports of such entries.
    #[tactic(auto, unfolding(crate::specs::Remainder::remainder))]
    pub fn keep(&mut self, marks: &Marks)
        ensures { self.new ≡ remainder (is_marked marks.now) self.old }
    {
        keep_marked(&mut self.types, marks.types());
        keep_marked(&mut self.funcs, marks.funcs());
        keep_marked(&mut self.tables, marks.tables());
        keep_marked(&mut self.memories, marks.memories());
        keep_marked(&mut self.globals, marks.globals());
        keep_marked(&mut self.tags, marks.tags());
        keep_imports(&mut self.imports, marks);
        keep_marked(&mut self.elems, marks.elems());
        keep_marked(&mut self.segments, marks.segments());
    }
}

/// Drops the entries whose places aren't marked.
fn keep_marked<T: Drop>(entries: &mut Vec<Option<T>>, marks: &[bool])
    ensures { entries.new.items ≡ kept_places (λ i. slice_index_or marks.now i false) 0 entries.old.items }
{
    for place in 0..entries.len() {
        keep_if(entries, place, mark_at(marks, place));
    }
}

/// The mark at a place, none past the end.
fn mark_at(marks: &[bool], place: usize) -> bool
    ensures { result ≡ slice_index_or marks.now place false }
{
    match marks.get(place) {
        Some(mark) => *mark,
        None => false,
    }
}

/// Drops the entry at a place, where it isn't kept.
fn keep_if<T: Drop>(entries: &mut Vec<Option<T>>, place: usize, kept: bool)
    requires { place < length entries.old.items }
    ensures { entries.new.items ≡ (if kept then entries.old.items else slice_set entries.old.items place None) }
{
    if !kept {
        entries[place] = None;
    }
}

/// Drops the imports whose items aren't marked.
fn keep_imports(imports: &mut Vec<Option<Import>>, marks: &Marks)
    ensures { imports.new.items ≡ map (kept_import (is_marked marks.now)) imports.old.items }
{
    for place in 0..imports.len() {
        let kept = is_kept(&imports[place], marks);
        keep_if(imports, place, kept);
    }
}

/// Whether there is an import, and what it brings in is marked.
fn is_kept(entry: &Option<Import>, marks: &Marks) -> bool
    ensures { kept_import (is_marked marks.now) entry.now ≡ (if result then entry.now else None) }
{
    match entry {
        Some(entry) => marks.has(import_thing(entry.kind)),
        None => false,
    }
}

/// What an import brings in.
fn import_thing(kind: ImportKind) -> Thing
    ensures { result ≡ import_thing kind }
{
    match kind {
        ImportKind::Func(id) => Thing::Func(id.0),
        ImportKind::Table(id) => Thing::Table(id.0),
        ImportKind::Memory(id) => Thing::Memory(id.0),
        ImportKind::Global(id) => Thing::Global(id.0),
        ImportKind::Tag(id) => Thing::Tag(id.0),
    }
}
