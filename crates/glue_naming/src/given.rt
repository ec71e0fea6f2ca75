//! A scope in which the names are bound that no drawn one may be.
ghost use Rattle.std.specs.Prelude.{◌≡◌, ◌++◌, IfOk, map};
ghost use Rattle.std.specs.List.{flat_map};
ghost use Rattle.std.specs.FinSet as set;
ghost use Rattle.values.specs.TextSet.{with_texts};
ghost use Rattle.glue_shared.specs.Names as names;
ghost use Rattle.glue_names.specs.Given.{values_name};
ghost use Rattle.glue_naming.specs.Given as spec;

use glue_names::{taken_names, values_name, with_name};
use glue_scope::Names;
use glue_shared::{AdapterId, AuxStringEnum, Lowered, Settings, Target, own_imports};
use std::alloc::{AllocError, Global};
use wasm_core::{Export, ExportId, Import, ImportId, Module};

// With the name of an export, where one stands.
fn with_export<N: Names>(
    scope: N,
    exports: &[Option<Export>],
    id: ExportId,
) -> Result<N, AllocError>
    ensures bound { IfOk result (λ more. N.bound more ≡ with_texts (N.bound scope) (spec.export_name_at exports.now id.0)) }
{
    match exports.get(id.0 as usize) {
        Some(Some(export)) => with_name(scope, export.name.as_str()),
        Some(None) | None => Ok(scope),
    }
}

// With the names of the exports that closures call.
fn with_exports<N: Names>(
    scope: N,
    module: &Module,
    entries: &[(ExportId, AdapterId)],
) -> Result<N, AllocError>
    ensures bound { IfOk result (λ more. N.bound more ≡ with_texts (N.bound scope) (flat_map (spec.closure_export «module».now) entries.now)) }
{
    let mut more = scope;
    for entry in entries {
        more = with_export(more, module.exports(), entry.0)?;
    }
    Ok(more)
}

// With the name of the values of an enum of texts.
fn with_values<N: Names>(alloc: Global, scope: N, texts: &AuxStringEnum) -> Result<N, AllocError>
    ensures bound { IfOk result (λ more. N.bound more ≡ set.insert (N.bound scope) (values_name texts.now)) }
{
    let name = values_name(alloc, texts)?;
    with_name(scope, name.as_str())
}

// With those of all.
fn with_enums<N: Names>(alloc: Global, scope: N, enums: &[AuxStringEnum]) -> Result<N, AllocError>
    ensures bound { IfOk result (λ more. N.bound more ≡ with_texts (N.bound scope) (map values_name enums.now)) }
{
    let mut more = scope;
    for texts in enums {
        more = with_values(alloc, more, texts)?;
    }
    Ok(more)
}

// With the name of an import, where one stands.
fn with_import<N: Names>(
    scope: N,
    imports: &[Option<Import>],
    id: ImportId,
) -> Result<N, AllocError>
    ensures bound { IfOk result (λ more. N.bound more ≡ with_texts (N.bound scope) (spec.import_name_at imports.now id.0)) }
{
    match imports.get(id.0 as usize) {
        Some(Some(import)) => with_name(scope, import.name.as_str()),
        Some(None) | None => Ok(scope),
    }
}

// With the names of the imports at these places.
fn with_imports<N: Names>(scope: N, module: &Module, places: &[ImportId]) -> Result<N, AllocError>
    ensures bound { IfOk result (λ more. N.bound more ≡ with_texts (N.bound scope) (flat_map (spec.import_name_at «module».now.imports) (map (λ id. id.0) places.now))) }
{
    let mut more = scope;
    for place in places {
        more = with_import(more, module.imports(), *place)?;
    }
    Ok(more)
}

// With the names of own imports.
#[tactic(auto, using(crate::proofs::Reserved::own_joined))]
fn with_own<N: Names>(
    alloc: Global,
    scope: N,
    settings: &Settings,
    lowered: &Lowered,
) -> Result<N, AllocError>
    ensures bound { IfOk result (λ more. N.bound more ≡ with_texts (N.bound scope) (names.own_names settings.now lowered.now.«module» lowered.now.wit lowered.now.aux)) }
{
    let places = own_imports(alloc, settings, &lowered.module, &lowered.wit, &lowered.aux)?;
    with_imports(scope, &lowered.module, places.as_slice())
}

// With what a bundler's glue file exports beside the description.
fn with_bundled<N: Names>(
    alloc: Global,
    scope: N,
    settings: &Settings,
    lowered: &Lowered,
) -> Result<N, AllocError>
    ensures bound { IfOk result (λ more. N.bound more ≡ with_texts (N.bound scope) (spec.bundled_names settings.now lowered.now)) }
{
    match settings.target {
        Target::Bundler { .. } => with_own(alloc, scope, settings, lowered),
        Target::Web
        | Target::NoModules { .. }
        | Target::Node { .. }
        | Target::Deno
        | Target::Module
        | Target::Emscripten => Ok(scope),
    }
}

/// A scope in which exactly the names are bound that no drawn one may be. Want of memory is the only error.
#[tactic(auto, using(crate::proofs::Reserved::given_joined))]
pub(crate) fn reserved_scope<N: Names>(
    alloc: Global,
    settings: &Settings,
    lowered: &Lowered,
) -> Result<N, AllocError>
    ensures bound { IfOk result (λ scope. N.bound scope ≡ spec.reserved_names settings.now lowered.now) }
{
    let taken: N = taken_names(alloc, settings, lowered)?;
    let exported = with_exports(taken, &lowered.module, lowered.wit.exports.as_slice())?;
    let valued = with_enums(alloc, exported, lowered.aux.string_enums.as_slice())?;
    with_bundled(alloc, valued, settings, lowered)
}
