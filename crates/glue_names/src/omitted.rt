//! Names from modules, by which imports are used where the setting leaves them out.
ghost use Rattle.std.specs.Prelude.{◌≡◌, ◌++◌, IfOk, OnOk};
ghost use Rattle.glue_shared.specs.Names as names;
ghost use Rattle.glue_names.specs.Omitted as spec;

use glue_published::copied_import;
use glue_shared::{AdapterId, AuxImport, JsImport, JsImportName, js_import};
use std::alloc::{AllocError, Global};
use values::{Duplicate, Seq, Text};

// Adds what an import begins with, where it begins with a name.
fn push_begun(
    alloc: Global,
    what: &AuxImport,
    list: &mut Seq<JsImportName>,
) -> Result<(), AllocError>
    ensures pushed { OnOk result (list.new ≡ list.old ++ names.names_of (names.js_import what.now)) }
{
    match js_import(what) {
        None => Ok(()),
        Some(js) => {
            list.push(copied_import(alloc, &js.name)?)?;
            Ok(())
        }
    }
}

/// What these imports begin with. Want of memory is the only error.
pub fn begun(
    alloc: Global,
    imports: &[(AdapterId, AuxImport)],
) -> Result<Seq<JsImportName>, AllocError>
    ensures begun { IfOk result (λ list. list ≡ spec.begun imports.now) }
{
    let mut list = Seq::new(alloc);
    for import in imports {
        push_begun(alloc, &import.1, &mut list)?;
    }
    Ok(list)
}

/// Adds what the imports of these re-exports begin with. Want of memory is the only error.
pub fn push_reexported(
    alloc: Global,
    reexports: &[(Text, JsImport, bool)],
    list: &mut Seq<JsImportName>,
) -> Result<(), AllocError>
    ensures pushed { OnOk result (list.new ≡ list.old ++ spec.reexported reexports.now) }
{
    for reexport in reexports {
        list.push(copied_import(alloc, &reexport.1.name)?)?;
    }
    Ok(())
}

/// Adds a name, where it counts. Want of memory is the only error.
pub fn push_where(
    alloc: Global,
    counts: bool,
    name: &Text,
    list: &mut Seq<Text>,
) -> Result<(), AllocError>
    ensures pushed { OnOk result (list.new ≡ list.old ++ spec.name_where counts name.now) }
{
    if counts {
        list.push(name.copy(alloc)?)?;
    }
    Ok(())
}

// Adds the name of a module's export, where imports are left out.
fn push_omitted(
    alloc: Global,
    omitted: bool,
    import: &JsImportName,
    list: &mut Seq<Text>,
) -> Result<(), AllocError>
    ensures pushed { OnOk result (list.new ≡ list.old ++ spec.omitted_name omitted import.now) }
{
    match import {
        JsImportName::Module { name, .. }
        | JsImportName::LocalModule { name, .. }
        | JsImportName::InlineJs { name, .. } => push_where(alloc, omitted, name, list),
        JsImportName::Global { .. } | JsImportName::VendorPrefixed { .. } => Ok(()),
    }
}

/// Adds those of these. Want of memory is the only error.
pub fn push_omitted_names(
    alloc: Global,
    omitted: bool,
    imports: &[JsImportName],
    list: &mut Seq<Text>,
) -> Result<(), AllocError>
    ensures pushed { OnOk result (list.new ≡ list.old ++ spec.omitted_names omitted imports.now) }
{
    for import in imports {
        push_omitted(alloc, omitted, import, list)?;
    }
    Ok(())
}
