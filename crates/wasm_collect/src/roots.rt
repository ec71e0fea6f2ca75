//! What is kept of a module beforehand.

ghost use Rattle.std.specs.Prelude.{◌≡◌, ◌<◌, ◌++◌, [], length, map, if◌then◌else◌, OnOk};
ghost use Rattle.std.specs.List.{flat_map};
ghost use Rattle.wasm_collect.specs.Reach.{item_thing, export_things, start_things, entry_at, passes, places, is_imported_table, is_imported_memory, table_segments, memory_segments, root_names};

use crate::edges::{Edges, entry_at};
use crate::naming::push_thing;
use std::alloc::AllocError;
use wasm_file::{Export, ExportItem};
use wasm_reach::Thing;
use wasm_types::FuncId;

impl<'a> Edges<'a> {
    /// Appends the items of the exports, the start function, the roots, and the active segments of imported tables and
    /// memories.
    pub(crate) fn push_roots(
        &self,
        out: &mut Vec<Thing>,
        roots: &[ExportItem],
    ) -> Result<(), AllocError>
        ensures { OnOk result (out.new.items ≡ out.old.items ++ root_names self.now roots.now) }
    {
        push_exports(out, self.module().exports())?;
        push_start(out, self.module().start())?;
        push_items(out, roots)?;
        self.push_imported_tables(out)?;
        self.push_imported_memories(out)
    }

    /// Appends the active segments of imported tables.
    fn push_imported_tables(&self, out: &mut Vec<Thing>) -> Result<(), AllocError>
        ensures { OnOk result (out.new.items ≡ out.old.items ++ flat_map (table_segments self.now) (places is_imported_table 0 self.now.tables)) }
    {
        let count = self.module().tables().len();
        if count > u32::MAX as usize {
            return Err(AllocError);
        }
        for place in 0..count {
            self.push_imported_table(out, place as u32)?;
        }
        Ok(())
    }

    /// Appends the active segments of a table that is imported.
    fn push_imported_table(&self, out: &mut Vec<Thing>, place: u32) -> Result<(), AllocError>
        requires { place < length self.now.tables }
        ensures { OnOk result (out.new.items ≡ out.old.items ++ (if passes is_imported_table (entry_at self.now.tables place) then table_segments self.now place else [])) }
    {
        match entry_at(self.module().tables(), place) {
            Some(table) => {
                if table.import.is_some() {
                    self.push_table_segments(out, place)
                } else {
                    Ok(())
                }
            }
            None => Ok(()),
        }
    }

    /// Appends the active segments of imported memories.
    fn push_imported_memories(&self, out: &mut Vec<Thing>) -> Result<(), AllocError>
        ensures { OnOk result (out.new.items ≡ out.old.items ++ flat_map (memory_segments self.now) (places is_imported_memory 0 self.now.memories)) }
    {
        let count = self.module().memories().len();
        if count > u32::MAX as usize {
            return Err(AllocError);
        }
        for place in 0..count {
            self.push_imported_memory(out, place as u32)?;
        }
        Ok(())
    }

    /// Appends the active segments of a memory that is imported.
    fn push_imported_memory(&self, out: &mut Vec<Thing>, place: u32) -> Result<(), AllocError>
        requires { place < length self.now.memories }
        ensures { OnOk result (out.new.items ≡ out.old.items ++ (if passes is_imported_memory (entry_at self.now.memories place) then memory_segments self.now place else [])) }
    {
        match entry_at(self.module().memories(), place) {
            Some(memory) => {
                if memory.import.is_some() {
                    self.push_memory_segments(out, place)
                } else {
                    Ok(())
                }
            }
            None => Ok(()),
        }
    }
}

/// What an item is.
fn item_thing(item: ExportItem) -> Thing
    ensures { result ≡ item_thing item }
{
    match item {
        ExportItem::Func(id) => Thing::Func(id.0),
        ExportItem::Table(id) => Thing::Table(id.0),
        ExportItem::Memory(id) => Thing::Memory(id.0),
        ExportItem::Global(id) => Thing::Global(id.0),
        ExportItem::Tag(id) => Thing::Tag(id.0),
    }
}

/// Appends items.
fn push_items(out: &mut Vec<Thing>, items: &[ExportItem]) -> Result<(), AllocError>
    ensures { OnOk result (out.new.items ≡ out.old.items ++ map item_thing items.now) }
{
    for item in items {
        push_thing(out, item_thing(*item))?;
    }
    Ok(())
}

/// Appends what an export gives out.
fn push_export(out: &mut Vec<Thing>, entry: &Option<Export>) -> Result<(), AllocError>
    ensures { OnOk result (out.new.items ≡ out.old.items ++ export_things entry.now) }
{
    match entry {
        Some(entry) => push_thing(out, item_thing(entry.item)),
        None => Ok(()),
    }
}

/// Appends what exports give out.
fn push_exports(out: &mut Vec<Thing>, entries: &[Option<Export>]) -> Result<(), AllocError>
    ensures { OnOk result (out.new.items ≡ out.old.items ++ flat_map export_things entries.now) }
{
    for entry in entries {
        push_export(out, entry)?;
    }
    Ok(())
}

/// Appends the start function.
fn push_start(out: &mut Vec<Thing>, start: Option<FuncId>) -> Result<(), AllocError>
    ensures { OnOk result (out.new.items ≡ out.old.items ++ start_things start) }
{
    match start {
        Some(func) => push_thing(out, Thing::Func(func.0)),
        None => Ok(()),
    }
}
