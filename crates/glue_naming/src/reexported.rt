//! The imports that re-exports name, and the names that are wanted for them.
ghost use Rattle.std.specs.Prelude.{◌≡◌, ◌++◌, IfOk, OnOk, filter_map, map};
ghost use Rattle.glue_naming.specs.Arranged.{in_order};
ghost use Rattle.glue_naming.specs.Imported.{import_wanted};
ghost use Rattle.glue_naming.specs.Reexported as spec;

use crate::imported::push_each;
use crate::named::Wanted;
use glue_check::each_new;
use glue_published::copied_import;
use glue_shared::{JsImport, JsImportName, Settings, WasmBindgenAux};
use std::alloc::{AllocError, Global};
use values::{Seq, Text};

// A name, its import, and whether it is declared in TypeScript.
type Reexport = (Text, JsImport, bool);

// The re-exports one by one.
fn each_reexport(alloc: Global, reexports: &[Reexport]) -> Result<Vec<&Reexport>, AllocError>
    ensures list { IfOk result (λ list. map (λ r. r.now) list.items ≡ reexports.now) }
{
    reexports.iter().collect(alloc)
}

// The re-exports by the names under which they are published.
fn by_export(alloc: Global, reexports: &[Reexport]) -> Result<Vec<&Reexport>, AllocError>
    ensures sorted { IfOk result (λ sorted. map (λ r. r.now) sorted.items ≡ in_order spec.export_order reexports.now) }
{
    let mut sorted = each_reexport(alloc, reexports)?;
    sorted.sort_by(|a, b| a.0.cmp(&b.0))?;
    Ok(sorted)
}

// What these re-exports name.
fn imports_of(alloc: Global, reexports: &[&Reexport]) -> Result<Seq<JsImportName>, AllocError>
    ensures names { IfOk result (λ names. names ≡ map (λ r. r.1.name) (map (λ r. r.now) reexports.now)) }
{
    let mut names = Seq::new(alloc);
    for reexport in reexports {
        names.push(copied_import(alloc, &reexport.1.name)?)?;
    }
    Ok(names)
}

// What re-exports name, by the names under which they are published.
fn names_reexported(alloc: Global, aux: &WasmBindgenAux) -> Result<Seq<JsImportName>, AllocError>
    ensures names { IfOk result (λ names. names ≡ spec.names_reexported aux.now) }
{
    let sorted = by_export(alloc, aux.reexports.as_slice())?;
    imports_of(alloc, sorted.as_slice())
}

/// What re-exports name besides what is called, each once, by the names under which they are published. Want of memory is the only error.
pub(crate) fn reexported_besides(
    alloc: Global,
    aux: &WasmBindgenAux,
    called: &[JsImportName],
) -> Result<Seq<JsImportName>, AllocError>
    ensures besides { IfOk result (λ besides. besides ≡ spec.reexported_besides aux.now called.now) }
{
    let names = names_reexported(alloc, aux)?;
    each_new(alloc, called, names.as_slice())
}

/// Adds the names that re-exports ask for besides those that are asked for what is called. Want of memory is the only error.
pub(crate) fn push_reexports(
    alloc: Global,
    settings: &Settings,
    aux: &WasmBindgenAux,
    called: &[JsImportName],
    list: &mut Seq<Wanted>,
) -> Result<(), AllocError>
    ensures pushed { OnOk result (list.new ≡ list.old ++ filter_map (import_wanted settings.now.omit_imports settings.now.target) (spec.reexported_besides aux.now called.now)) }
{
    let besides = reexported_besides(alloc, aux, called)?;
    push_each(
        alloc,
        settings.omit_imports,
        &settings.target,
        besides.as_slice(),
        list,
    )
}
