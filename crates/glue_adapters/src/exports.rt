//! Exports and entries of imports with their adapters.
ghost use Rattle.std.specs.Prelude.{◌≡◌, IfOk, [], option_map};
ghost use Rattle.std.specs.Option.{option_copied};
ghost use Rattle.std.specs.List.{find};
ghost use Rattle.glue_faults.specs.First.{first_after};
ghost use Rattle.glue_adapters.specs.Pairs as spec;

use crate::adapters::{has_code, is_import, is_local};
use crate::stack::export_type;
use glue_faults::IdSet;
use glue_shared::{
    Adapter, AdapterId, AuxExport, AuxExportKind, AuxExportedMethodKind, AuxReceiverKind, Lowered,
};
use std::alloc::{AllocError, Global};
use values::{Seq, Text};
use wasm_core::ExportId;

// Whether there are no names, or one for each parameter.
fn names_fit(names: &Seq<Text>, count: usize) -> bool
    ensures test { result ≡ spec.names_fit names.now count }
{
    names.is_empty() || names.len() == count
}

fn is_free(receiver: AuxReceiverKind) -> bool
    ensures test { result ≡ spec.is_free receiver }
{
    matches!(receiver, AuxReceiverKind::None)
}

// Whether an adapter takes and gives what a kind of export asks for, and whether that may have a receiver and a class.
fn fits_kind(kind: AuxExportKind, export: &AuxExport, adapter: &Adapter) -> bool
    ensures test { result ≡ spec.fits_kind kind export.now adapter.now }
{
    let free = is_free(export.receiver);
    match kind {
        AuxExportKind::Function | AuxExportKind::FunctionThis => free && export.class.is_none(),
        AuxExportKind::Constructor => free && adapter.results.len() == 1,
        AuxExportKind::Method(AuxExportedMethodKind::Method) => true,
        AuxExportKind::Method(AuxExportedMethodKind::Getter) => {
            !export.variadic && (adapter.args.len() == 0 && adapter.results.len() == 1)
        }
        AuxExportKind::Method(AuxExportedMethodKind::Setter) => {
            !export.variadic && (adapter.args.len() == 1 && adapter.results.len() == 0)
        }
    }
}

fn fits_described(export: &AuxExport, adapter: Option<&Adapter>) -> bool
    ensures test { result ≡ spec.fits_described export.now (option_copied adapter.entry) }
{
    match adapter {
        None => false,
        Some(adapter) => {
            has_code(&adapter.kind)
                && names_fit(&export.args, adapter.args.len())
                && fits_kind(export.kind, export, adapter)
        }
    }
}

// Whether an adapter is what its export is described as.
#[tactic(auto, unfolding(crate::specs::Pairs::fits_export))]
fn fits_export(lowered: &Lowered, export: &AuxExport) -> bool
    ensures test { result ≡ spec.fits_export lowered.now export.now }
{
    fits_described(export, lowered.wit.adapters.get(&export.adapter))
}

// Whether the adapter is one of these, or isn't what the export is described as.
fn is_bad_export(
    lowered: &Lowered,
    pairs: &IdSet,
    callbacks: &IdSet,
    ids: &IdSet,
    export: &AuxExport,
) -> bool
    ensures test { result ≡ spec.is_repeated_export lowered.now pairs.now callbacks.now ids.now export.now }
{
    let id = export.adapter.0;
    ids.has(id) || pairs.has(id) || callbacks.has(id) || !fits_export(lowered, export)
}

/// The adapter of the first export whose adapter stands in an earlier export or in another list, or isn't what the export is
/// described as. `pairs` are the adapters that stand for imports, `callbacks` those that closures call. Want of memory is the only
/// error.
#[tactic(auto, unfolding(crate::specs::Pairs::is_bad_export))]
pub fn bad_export(
    alloc: Global,
    lowered: &Lowered,
    pairs: &IdSet,
    callbacks: &IdSet,
) -> Result<Option<AdapterId>, AllocError>
    ensures bad { IfOk result (λ bad. bad ≡ option_map (λ e. e.adapter) (first_after (spec.is_bad_export lowered.now pairs.now callbacks.now) [] lowered.now.aux.exports)) }
{
    let mut ids = IdSet::new(alloc);
    for export in lowered.aux.exports.as_slice() {
        if is_bad_export(lowered, pairs, callbacks, &ids, export) {
            return Ok(Some(export.adapter));
        }
        ids = ids.with(export.adapter.0)?;
    }
    Ok(None)
}

// Whether an export is no function, or its adapter has no code or stands for an import.
#[tactic(auto, unfolding(crate::specs::Pairs::is_bad_callback))]
fn is_bad_callback(lowered: &Lowered, pairs: &IdSet, pair: &(ExportId, AdapterId)) -> bool
    ensures test { result ≡ spec.is_bad_callback lowered.now pairs.now pair.now }
{
    export_type(&lowered.module, pair.0).is_none()
        || !is_local(lowered, pair.1)
        || pairs.has(pair.1.0)
}

// The adapter of the first such pair.
pub(crate) fn bad_callback(lowered: &Lowered, pairs: &IdSet) -> Option<AdapterId>
    ensures bad { result ≡ option_map (λ pair. pair.1) (find (spec.is_bad_callback lowered.now pairs.now) lowered.now.wit.exports) }
{
    lowered
        .wit
        .exports
        .as_slice()
        .iter()
        .find(|pair| is_bad_callback(lowered, pairs, pair))
        .map(|pair| pair.1)
}

#[tactic(auto, unfolding(crate::specs::Pairs::lacks_code))]
fn lacks_code(lowered: &Lowered, id: AdapterId) -> bool
    ensures test { result ≡ spec.lacks_code lowered.now id }
{
    !is_local(lowered, id)
}

#[tactic(auto, unfolding(crate::specs::Pairs::lacks_call))]
fn lacks_call(lowered: &Lowered, id: AdapterId) -> bool
    ensures test { result ≡ spec.lacks_call lowered.now id }
{
    !is_import(lowered, id)
}

// The first of these adapters that isn't there or has no code.
pub(crate) fn first_not_local(lowered: &Lowered, ids: &[AdapterId]) -> Option<AdapterId>
    ensures bad { result ≡ find (spec.lacks_code lowered.now) ids.now }
{
    for id in ids {
        if lacks_code(lowered, *id) {
            return Some(*id);
        }
    }
    None
}

// The first of these adapters that isn't there or is no call of an import.
pub(crate) fn first_not_import(lowered: &Lowered, ids: &[AdapterId]) -> Option<AdapterId>
    ensures bad { result ≡ find (spec.lacks_call lowered.now) ids.now }
{
    for id in ids {
        if lacks_call(lowered, *id) {
            return Some(*id);
        }
    }
    None
}
