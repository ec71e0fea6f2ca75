//! Imports with the adapters that stand for them.
ghost use Rattle.std.specs.Prelude.{◌≡◌, IfOk, [], map, option_map};
ghost use Rattle.std.specs.Option.{option_copied};
ghost use Rattle.glue_faults.specs.First.{first_after};
ghost use Rattle.glue_adapters.specs.Pairs as spec;

use crate::adapters::fits_inward;
use crate::environment::Environment;
use glue_faults::IdSet;
use glue_shared::{Adapter, AdapterId, Lowered};
use glue_steps::function_type;
use std::alloc::{AllocError, Global};
use wasm_core::{FuncType, ImportId, ImportKind, Module};

// The type of an import, where it is a function.
fn import_type(module: &Module, kind: ImportKind) -> Option<&FuncType>
    ensures found { option_copied result ≡ spec.import_type «module».now kind }
{
    match kind {
        ImportKind::Func(func) => function_type(module, func),
        _ => None,
    }
}

// The type of the function that is imported at a place.
fn imported_type(module: &Module, id: ImportId) -> Option<&FuncType>
    ensures found { option_copied result ≡ spec.imported_type «module».now id.0 }
{
    let import = module.imports().get(id.0 as usize)?.as_ref()?;
    import_type(module, import.kind)
}

fn fits_type(
    alloc: Global,
    lowered: &Lowered,
    environment: &Environment,
    entries: &IdSet,
    ty: Option<&FuncType>,
    adapter: Option<&Adapter>,
) -> Result<bool, AllocError>
    ensures test { IfOk result (λ fits. fits ≡ spec.fits_type lowered.now environment.now entries.now (option_copied ty.entry) (option_copied adapter.entry)) }
{
    match ty {
        None => Ok(false),
        Some(ty) => match adapter {
            None => Ok(false),
            Some(adapter) => fits_inward(alloc, lowered, environment, entries, adapter, ty),
        },
    }
}

// Whether an adapter passes the values of the function that it stands for.
#[tactic(auto, unfolding(crate::specs::Pairs::fits_pair))]
fn fits_pair(
    alloc: Global,
    lowered: &Lowered,
    environment: &Environment,
    entries: &IdSet,
    pair: &(ImportId, AdapterId),
) -> Result<bool, AllocError>
    ensures test { IfOk result (λ fits. fits ≡ spec.fits_pair lowered.now environment.now entries.now pair.now) }
{
    let ty = imported_type(&lowered.module, pair.0);
    fits_type(
        alloc,
        lowered,
        environment,
        entries,
        ty,
        lowered.wit.adapters.get(&pair.1),
    )
}

// Whether the import or the adapter is one of these, or the two don't fit.
fn is_bad_pair(
    alloc: Global,
    lowered: &Lowered,
    environment: &Environment,
    entries: &IdSet,
    imports: &IdSet,
    adapters: &IdSet,
    pair: &(ImportId, AdapterId),
) -> Result<bool, AllocError>
    ensures test { IfOk result (λ bad. bad ≡ spec.is_repeated_pair lowered.now environment.now entries.now imports.now adapters.now pair.now) }
{
    if imports.has(pair.0.0) || adapters.has(pair.1.0) {
        return Ok(true);
    }
    Ok(!fits_pair(alloc, lowered, environment, entries, pair)?)
}

/// The adapter of the first pair whose import or adapter stands in an earlier pair, or whose adapter doesn't fit its import.
/// `entries` are the import adapters that are described. Want of memory is the only error.
#[tactic(auto, unfolding(crate::specs::Pairs::is_bad_pair))]
pub fn bad_pair(
    alloc: Global,
    lowered: &Lowered,
    environment: &Environment,
    entries: &IdSet,
) -> Result<Option<AdapterId>, AllocError>
    ensures bad { IfOk result (λ bad. bad ≡ option_map (λ pair. pair.1) (first_after (spec.is_bad_pair lowered.now environment.now entries.now) [] lowered.now.wit.implements)) }
{
    let mut imports = IdSet::new(alloc);
    let mut adapters = IdSet::new(alloc);
    for pair in lowered.wit.implements.as_slice() {
        if is_bad_pair(
            alloc,
            lowered,
            environment,
            entries,
            &imports,
            &adapters,
            pair,
        )? {
            return Ok(Some(pair.1));
        }
        imports = imports.with(pair.0.0)?;
        adapters = adapters.with(pair.1.0)?;
    }
    Ok(None)
}
