//! What own imports call and re-exports name, listed with the names that were drawn for it.
ghost use Rattle.std.specs.Prelude.{◌≡◌, ◌++◌, ◌∷◌, [], IfOk, OnOk, filter_map};
ghost use Rattle.glue_naming.specs.Listed as spec;

use crate::imported::names_called;
use crate::naming::import_name;
use crate::reexported::reexported_besides;
use glue_check::each_once;
use glue_published::copied_import;
use glue_shared::{AdapterId, JsImportName, Lowered, NameMap, Settings};
use std::alloc::{AllocError, Global};
use values::{Duplicate, Seq, Text};
use wasm_core::ImportId;

// Adds what an import begins with, and its name, where one was drawn.
fn push_drawn(
    alloc: Global,
    names: &NameMap,
    import: &JsImportName,
    list: &mut Seq<(JsImportName, Text)>,
) -> Result<(), AllocError>
    ensures pushed { OnOk result (list.new ≡ list.old ++ filter_map (spec.drawn_import names.now) (import.now ∷ [])) }
{
    match import_name(names, import) {
        None => Ok(()),
        Some(drawn) => {
            list.push((copied_import(alloc, import)?, drawn.copy(alloc)?))?;
            Ok(())
        }
    }
}

// Those of these that have a drawn name, with it.
fn drawn_of(
    alloc: Global,
    names: &NameMap,
    imports: &[JsImportName],
) -> Result<Seq<(JsImportName, Text)>, AllocError>
    ensures drawn { IfOk result (λ list. list ≡ filter_map (spec.drawn_import names.now) imports.now) }
{
    let mut list = Seq::new(alloc);
    for import in imports {
        push_drawn(alloc, names, import, &mut list)?;
    }
    Ok(list)
}

// What own imports among these pairs call, and then what re-exports name besides, each once.
fn imports_named(
    alloc: Global,
    settings: &Settings,
    lowered: &Lowered,
    pairs: &[(ImportId, AdapterId)],
) -> Result<Seq<JsImportName>, AllocError>
    ensures named { IfOk result (λ named. named ≡ spec.imports_named settings.now lowered.now pairs.now) }
{
    let called = names_called(alloc, settings, lowered, pairs)?;
    let besides = reexported_besides(alloc, &lowered.aux, called.as_slice())?;
    let mut named = each_once(alloc, called.as_slice())?;
    named.append(besides)?;
    Ok(named)
}

/// What own imports among these pairs call, and then what re-exports name besides, where it is no name of the host, with the name that was
/// drawn for it: each once, the first in the order in which it is first called, the others by the names under which they are published.
/// Want of memory is the only error.
pub fn drawn_imports(
    alloc: Global,
    settings: &Settings,
    lowered: &Lowered,
    names: &NameMap,
    pairs: &[(ImportId, AdapterId)],
) -> Result<Seq<(JsImportName, Text)>, AllocError>
    ensures listed { IfOk result (λ list. list ≡ spec.drawn_imports settings.now lowered.now names.now pairs.now) }
{
    let named = imports_named(alloc, settings, lowered, pairs)?;
    drawn_of(alloc, names, named.as_slice())
}
