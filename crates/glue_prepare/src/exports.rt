//! Exports by name.
ghost use Rattle.std.specs.Prelude.{◌≡◌};
ghost use Rattle.glue_prepare.specs.Prepared as spec;

use wasm_core::{Export, Module};

fn is_export_named(export: &Option<Export>, name: &str) -> bool
    ensures test { result ≡ spec.is_export_named name.now export.now }
{
    match export {
        None => false,
        Some(export) => export.name.as_str() == name,
    }
}

/// Whether the module has an export of this name.
pub(crate) fn has_export(module: &Module, name: &str) -> bool
    ensures test { result ≡ spec.has_export name.now «module».now }
{
    module
        .exports()
        .iter()
        .any(|export| is_export_named(export, name))
}
