//! The exports after which functions of closures' adapters are named, by the adapters.
ghost use Rattle.std.specs.Prelude.{◌≡◌, IfOk, OnOk};
ghost use Rattle.std.specs.BTreeMap.{insert_entry};
ghost use Rattle.std.specs.Ordering.{nat_cmp};
ghost use Rattle.glue_steps.specs.Callbacks.{GivesExport};
ghost use Rattle.glue_steps.specs.Resolving.{callback_of};

use glue_shared::AdapterId;
use std::alloc::{AllocError, Global};
use std::marker::Model;
use values::Map;
use wasm_core::ExportId;

/// Exports and the adapters of closures that are named after them, with an index of the first export of each adapter. A contract sees the pairs.
#[derive(Drop)]
pub struct Callbacks<'a> {
    entries: &'a [(ExportId, AdapterId)],
    exports: Map<u32, ExportId>,
}

impl<'a> Model for Callbacks<'a> {
    ghost use Rattle.std.specs.Prelude.{ℕ, List};
    ghost use Rattle.wasm_core.specs.ids.ExportId.{ExportId};
    ghost use Rattle.glue_steps.specs.Callbacks.{GivesExport};

    ghost Value = { List (ExportId × ℕ) };

    ghost view = { λ callbacks. callbacks.entries.now };

    ghost invariant = { λ callbacks. GivesExport callbacks.exports callbacks.entries.now };
}

// Puts the export of an entry for its adapter, in place of what stands for it.
fn put(exports: &mut Map<u32, ExportId>, entry: &(ExportId, AdapterId)) -> Result<(), AllocError>
    ensures added { OnOk result (exports.new ≡ insert_entry nat_cmp exports.old entry.now.1 entry.now.0) }
{
    exports.insert(entry.1.0, entry.0)?;
    Ok(())
}

// The export of the first entry of each adapter. From the last entry on, so that earlier ones stand in place of later ones.
fn first_exports(
    alloc: Global,
    entries: &[(ExportId, AdapterId)],
) -> Result<Map<u32, ExportId>, AllocError>
    ensures index { IfOk result (λ exports. GivesExport exports entries.now) }
{
    let mut exports = Map::new(alloc);
    let mut place = entries.len();
    while place > 0 {
        place -= 1;
        put(&mut exports, &entries[place])?;
    }
    Ok(exports)
}

impl<'a> Callbacks<'a> {
    /// These entries, with their index. Want of memory is the only error.
    pub fn new(
        alloc: Global,
        entries: &'a [(ExportId, AdapterId)],
    ) -> Result<Callbacks<'a>, AllocError>
        ensures same { IfOk result (λ callbacks. callbacks ≡ entries.now) }
    {
        let exports = first_exports(alloc, entries)?;
        Ok(Callbacks { entries, exports })
    }

    /// The export of the first entry of an adapter.
    pub fn get(&self, id: AdapterId) -> Option<ExportId>
        ensures found { result ≡ callback_of self.now id }
    {
        match self.exports.get(&id.0) {
            Some(export) => Some(*export),
            None => None,
        }
    }
}
