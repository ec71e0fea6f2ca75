//! What is known of the input of a row.
use glue_json::{Counts, LowerFault, Reads};
use glue_shared::{Description, Lowered};
use rows::RowFault;
use serde_json::Value;
use std::alloc::Global;
use wasm_core::{Module, ParseConfig};

// A module that has to be one.
fn module_of(alloc: Global, bytes: &[u8]) -> Result<Module, RowFault> {
    let config = ParseConfig {
        keep_debug: false,
        names: true,
        producers: true,
    };
    match Module::parse(alloc, bytes, &config) {
        Ok(module) => Ok(module),
        Err(_) => Err(RowFault::Row),
    }
}

/// The module that bytes are with what is described of it; none where nothing is described.
pub fn lowered(
    alloc: Global,
    bytes: Option<&[u8]>,
    described: Option<&Value>,
) -> Result<Option<Lowered>, RowFault> {
    let (Some(bytes), Some(described)) = (bytes, described) else {
        return Ok(None);
    };
    let module = module_of(alloc, bytes)?;
    match Description::read(alloc, &Counts::of(&module), described) {
        Ok(Description { wit, aux }) => Ok(Some(Lowered { module, wit, aux })),
        Err(LowerFault::OutOfMemory) => Err(RowFault::OutOfMemory),
        Err(LowerFault::Failed) => Err(RowFault::Row),
    }
}

/// The numbers of the entries of the module that bytes are; none without bytes.
pub fn counts(alloc: Global, bytes: Option<&[u8]>) -> Result<Option<Counts>, RowFault> {
    match bytes {
        None => Ok(None),
        Some(bytes) => Ok(Some(Counts::of(&module_of(alloc, bytes)?))),
    }
}
