//! Reading indexes, which are in range below the number of their kind's entries.
ghost use Rattle.std.specs.Prelude.{◌≡◌, IfOk, None, Some};
ghost use Rattle.serde_json.specs.View.{view};
ghost use Rattle.glue_json.specs.Reading as spec;

use crate::counts::Counts;
use crate::reads::{LowerFault, Reads};
use glue_shared::AdapterId;
use serde_json::Value;
use std::alloc::Global;
use wasm_core::{ExportId, FuncId, GlobalId, ImportId, MemoryId, TableId, TagId};

// A place below a number.
fn place(alloc: Global, counts: &Counts, value: &Value, number: usize) -> Result<u32, LowerFault>
    ensures ok { IfOk result (λ place. spec.place_below number (view value.now) ≡ Some place) }
    ensures failed { result ≡ Err LowerFault.Failed → spec.place_below number (view value.now) ≡ None }
{
    let place = u32::read(alloc, counts, value)?;
    if (place as usize) < number {
        Ok(place)
    } else {
        Err(LowerFault::Failed)
    }
}

impl Reads for AdapterId {
    ghost reads = { λ _ d. spec.u32_of d };

    fn read(alloc: Global, counts: &Counts, value: &Value) -> Result<Self, LowerFault> {
        Ok(AdapterId(u32::read(alloc, counts, value)?))
    }
}

impl Reads for ImportId {
    ghost reads = { spec.import_of };

    fn read(alloc: Global, counts: &Counts, value: &Value) -> Result<Self, LowerFault> {
        Ok(ImportId(place(alloc, counts, value, counts.imports)?))
    }
}

impl Reads for ExportId {
    ghost reads = { spec.wasm_export_of };

    fn read(alloc: Global, counts: &Counts, value: &Value) -> Result<Self, LowerFault> {
        Ok(ExportId(place(alloc, counts, value, counts.exports)?))
    }
}

impl Reads for FuncId {
    ghost reads = { spec.func_of };

    fn read(alloc: Global, counts: &Counts, value: &Value) -> Result<Self, LowerFault> {
        Ok(FuncId(place(alloc, counts, value, counts.funcs)?))
    }
}

impl Reads for TableId {
    ghost reads = { spec.table_of };

    fn read(alloc: Global, counts: &Counts, value: &Value) -> Result<Self, LowerFault> {
        Ok(TableId(place(alloc, counts, value, counts.tables)?))
    }
}

impl Reads for MemoryId {
    ghost reads = { spec.memory_of };

    fn read(alloc: Global, counts: &Counts, value: &Value) -> Result<Self, LowerFault> {
        Ok(MemoryId(place(alloc, counts, value, counts.memories)?))
    }
}

impl Reads for GlobalId {
    ghost reads = { spec.global_of };

    fn read(alloc: Global, counts: &Counts, value: &Value) -> Result<Self, LowerFault> {
        Ok(GlobalId(place(alloc, counts, value, counts.globals)?))
    }
}

impl Reads for TagId {
    ghost reads = { spec.tag_of };

    fn read(alloc: Global, counts: &Counts, value: &Value) -> Result<Self, LowerFault> {
        Ok(TagId(place(alloc, counts, value, counts.tags)?))
    }
}
