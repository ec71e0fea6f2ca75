//! Copies of the names that imports begin with.
ghost use Rattle.std.specs.Prelude.{◌≡◌, IfOk};

use glue_shared::JsImportName;
use std::alloc::{AllocError, Global};
use values::Duplicate;

/// A copy of the name that an import begins with. Want of memory is the only error.
pub fn copied_import(alloc: Global, import: &JsImportName) -> Result<JsImportName, AllocError>
    ensures equal { IfOk result (λ copy. copy ≡ import.now) }
{
    match import {
        JsImportName::Global { name } => Ok(JsImportName::Global {
            name: name.copy(alloc)?,
        }),
        JsImportName::Module { module, name } => Ok(JsImportName::Module {
            module: module.copy(alloc)?,
            name: name.copy(alloc)?,
        }),
        JsImportName::LocalModule { module, name } => Ok(JsImportName::LocalModule {
            module: module.copy(alloc)?,
            name: name.copy(alloc)?,
        }),
        JsImportName::InlineJs {
            crate_name,
            index,
            name,
        } => Ok(JsImportName::InlineJs {
            crate_name: crate_name.copy(alloc)?,
            index: *index,
            name: name.copy(alloc)?,
        }),
        JsImportName::VendorPrefixed { name, prefixes } => Ok(JsImportName::VendorPrefixed {
            name: name.copy(alloc)?,
            prefixes: prefixes.copy(alloc)?,
        }),
    }
}
