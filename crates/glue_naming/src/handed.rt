//! The imports that the glue file doesn't define although an adapter stands for them, with the described names that are these imports.
ghost use Rattle.std.specs.Prelude.{◌≡◌, ◌++◌, IfOk, OnOk, map};
ghost use Rattle.std.specs.List.{flat_map};
ghost use Rattle.glue_naming.specs.Handed as spec;

use crate::imported::push_code;
use glue_check::own_places;
use glue_published::copied_import;
use glue_shared::{AdapterId, DescribedImports, IdSet, JsImportName, Lowered, Settings, code_of};
use std::alloc::{AllocError, Global};
use values::Seq;
use wasm_core::ImportId;

// Adds an import with each of these names.
fn push_names(
    alloc: Global,
    place: ImportId,
    names: &[JsImportName],
    list: &mut Seq<(ImportId, JsImportName)>,
) -> Result<(), AllocError>
    ensures pushed { OnOk result (list.new ≡ list.old ++ map (λ name. (place, name)) names.now) }
{
    for name in names {
        list.push((place, copied_import(alloc, name)?))?;
    }
    Ok(())
}

// Adds the import of a pair with what its adapter calls, unless the glue file defines it.
fn push_handed(
    alloc: Global,
    own: &IdSet,
    lowered: &Lowered,
    entries: &DescribedImports<'_>,
    pair: &(ImportId, AdapterId),
    list: &mut Seq<(ImportId, JsImportName)>,
) -> Result<(), AllocError>
    requires same { entries.now ≡ lowered.now.aux.imports }
    ensures pushed { OnOk result (list.new ≡ list.old ++ spec.handed_pair own.now lowered.now pair.now) }
{
    if own.has(pair.0.0) {
        return Ok(());
    }
    let mut names = Seq::new(alloc);
    push_code(
        alloc,
        entries,
        code_of(lowered.wit.adapters.get(&pair.1)),
        &mut names,
    )?;
    push_names(alloc, pair.0, names.as_slice(), list)
}

// Those of these pairs.
fn handed_pairs(
    alloc: Global,
    own: &IdSet,
    lowered: &Lowered,
    pairs: &[(ImportId, AdapterId)],
) -> Result<Seq<(ImportId, JsImportName)>, AllocError>
    ensures handed { IfOk result (λ list. list ≡ flat_map (spec.handed_pair own.now lowered.now) pairs.now) }
{
    let entries = DescribedImports::new(alloc, lowered.aux.imports.as_slice())?;
    let mut list = Seq::new(alloc);
    for pair in pairs {
        push_handed(alloc, own, lowered, &entries, pair, &mut list)?;
    }
    Ok(list)
}

/// The imports of pairs that the glue file doesn't define, each with the described name that its adapter calls, in the description's order:
/// in the module that is written the name itself is the import. Want of memory is the only error.
pub fn handed_imports(
    alloc: Global,
    settings: &Settings,
    lowered: &Lowered,
) -> Result<Seq<(ImportId, JsImportName)>, AllocError>
    ensures handed { IfOk result (λ list. list ≡ spec.handed_imports settings.now lowered.now) }
{
    let own = own_places(alloc, settings, lowered)?;
    handed_pairs(alloc, &own, lowered, lowered.wit.implements.as_slice())
}
