//! Exports that a linker makes for itself.
ghost use Rattle.std.specs.Prelude.{◌≡◌, OnOk};
ghost use Rattle.glue_shared.specs.Names.{is_emscripten};
ghost use Rattle.glue_prepare.specs.Prepared as spec;

use crate::places::id_at;
use glue_shared::{Settings, Target};
use std::alloc::AllocError;
use wasm_core::{Export, ExportId, Module};

fn is_emscripten(target: &Target) -> bool
    ensures test { result ≡ is_emscripten target.now }
{
    matches!(target, Target::Emscripten)
}

fn is_linker_name(name: &str) -> bool
    ensures test { result ≡ spec.is_linker_name name.now }
{
    name == "__heap_base" || name == "__data_end" || name == "__indirect_function_table"
}

fn is_linker_export(export: &Option<Export>) -> bool
    ensures test { result ≡ spec.is_linker_export export.now }
{
    match export {
        None => false,
        Some(export) => is_linker_name(export.name.as_str()),
    }
}

// Drops the export at a place, where it is one that a linker makes for itself.
fn drop_linker_export(module: &mut Module, place: u32)
    ensures dropped { «module».new ≡ spec.without_linker_export_at place «module».old }
{
    if let Some(export) = module.exports().get(place as usize)
        && is_linker_export(export)
    {
        module.delete_export(ExportId(place));
    }
}

// Drops the exports that a linker makes for itself.
fn drop_linker_exports(module: &mut Module) -> Result<(), AllocError>
    ensures dropped { OnOk result («module».new ≡ spec.without_linker_exports «module».old) }
{
    for place in 0..module.exports().len() {
        drop_linker_export(module, id_at(place)?);
    }
    Ok(())
}

/// Drops the exports that a linker makes for itself, unless they are to stay or the files are made for Emscripten. Want of memory is
/// the only error; then some of them may be dropped.
pub(crate) fn drop_unwanted_exports(
    keep_lld_exports: bool,
    settings: &Settings,
    module: &mut Module,
) -> Result<(), AllocError>
    ensures dropped { OnOk result («module».new ≡ spec.with_wanted_exports keep_lld_exports settings.now «module».old) }
{
    if keep_lld_exports || is_emscripten(&settings.target) {
        return Ok(());
    }
    drop_linker_exports(module)
}
