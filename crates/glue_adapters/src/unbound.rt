//! The first adapter that isn't what its place asks for, and the first import that nothing defines.
ghost use Rattle.std.specs.Prelude.{◌≡◌, IfOk, is_some, find, map, take, option_map};
ghost use Rattle.std.specs.List.{list_any};
ghost use Rattle.glue_steps.specs.Resolving.{entry_at};
ghost use Rattle.glue_adapters.specs.Pairs as spec;

use crate::adapters::bad_code;
use crate::called::bad_entry;
use crate::environment::{Environment, environment_of};
use crate::exports::{bad_callback, bad_export, first_not_import, first_not_local};
use crate::pairs::bad_pair;
use glue_faults::{Fault, IdSet};
use glue_shared::{AdapterId, AuxImport, Lowered, Settings, own_imports};
use std::alloc::{AllocError, Global};
use wasm_core::{FuncId, Import, ImportId, ImportKind, Memory, MemoryId, TagId};

// The adapters that stand for imports.
fn paired(alloc: Global, pairs: &[(ImportId, AdapterId)]) -> Result<IdSet, AllocError>
    ensures ids { IfOk result (λ ids. ids ≡ map (λ pair. pair.1) pairs.now) }
{
    let mut ids = IdSet::new(alloc);
    for pair in pairs {
        ids = ids.with(pair.1.0)?;
    }
    Ok(ids)
}

// The places of the imports that adapters stand for.
fn implemented(alloc: Global, pairs: &[(ImportId, AdapterId)]) -> Result<IdSet, AllocError>
    ensures places { IfOk result (λ places. places ≡ map (λ pair. pair.0.0) pairs.now) }
{
    let mut places = IdSet::new(alloc);
    for pair in pairs {
        places = places.with(pair.0.0)?;
    }
    Ok(places)
}

// The import adapters that are described.
fn described(alloc: Global, entries: &[(AdapterId, AuxImport)]) -> Result<IdSet, AllocError>
    ensures ids { IfOk result (λ ids. ids ≡ map (λ entry. entry.0) entries.now) }
{
    let mut ids = IdSet::new(alloc);
    for entry in entries {
        ids = ids.with(entry.0.0)?;
    }
    Ok(ids)
}

// The first adapter that isn't what its place asks for: of the adapters.
#[tactic(auto, unfolding(crate::specs::Pairs::bad_local))]
fn bad_local(
    alloc: Global,
    lowered: &Lowered,
    environment: &Environment,
) -> Result<Option<AdapterId>, AllocError>
    ensures bad { IfOk result (λ bad. bad ≡ spec.bad_local lowered.now environment.now) }
{
    let pairs = paired(alloc, lowered.wit.implements.as_slice())?;
    bad_code(alloc, lowered, environment, &pairs)
}

// Of the pairs.
#[tactic(auto, unfolding(crate::specs::Pairs::bad_paired))]
fn bad_paired(
    alloc: Global,
    lowered: &Lowered,
    environment: &Environment,
) -> Result<Option<AdapterId>, AllocError>
    ensures bad { IfOk result (λ bad. bad ≡ spec.bad_paired lowered.now environment.now) }
{
    let entries = described(alloc, lowered.aux.imports.as_slice())?;
    bad_pair(alloc, lowered, environment, &entries)
}

// Of the adapters that closures call.
#[tactic(auto, unfolding(crate::specs::Pairs::bad_called))]
fn bad_called(alloc: Global, lowered: &Lowered) -> Result<Option<AdapterId>, AllocError>
    ensures bad { IfOk result (λ bad. bad ≡ spec.bad_called lowered.now) }
{
    let pairs = paired(alloc, lowered.wit.implements.as_slice())?;
    Ok(bad_callback(lowered, &pairs))
}

// Of the exports.
#[tactic(auto, unfolding(crate::specs::Pairs::bad_exported))]
fn bad_exported(
    alloc: Global,
    lowered: &Lowered,
    environment: &Environment,
) -> Result<Option<AdapterId>, AllocError>
    ensures bad { IfOk result (λ bad. bad ≡ spec.bad_exported lowered.now environment.now) }
{
    let pairs = paired(alloc, lowered.wit.implements.as_slice())?;
    bad_export(alloc, lowered, &pairs, &environment.closures)
}

// Of the adapters whose throws are caught, and of those whose last argument is spread.
#[tactic(auto, unfolding(crate::specs::Pairs::bad_listed))]
fn bad_listed(lowered: &Lowered) -> Option<AdapterId>
    ensures bad { result ≡ spec.bad_listed lowered.now }
{
    let caught = first_not_local(lowered, lowered.aux.imports_with_catch.as_slice());
    if caught.is_some() {
        return caught;
    }
    first_not_import(lowered, lowered.aux.imports_with_variadic.as_slice())
}

// The first of all of these, in the description's order.
#[tactic(auto, unfolding(crate::specs::Pairs::bad_id))]
fn bad_id(
    alloc: Global,
    lowered: &Lowered,
    environment: &Environment,
) -> Result<Option<AdapterId>, AllocError>
    ensures bad { IfOk result (λ bad. bad ≡ spec.bad_id lowered.now environment.now) }
{
    let coded = bad_local(alloc, lowered, environment)?;
    if coded.is_some() {
        return Ok(coded);
    }
    let paired = bad_paired(alloc, lowered, environment)?;
    if paired.is_some() {
        return Ok(paired);
    }
    let called = bad_called(alloc, lowered)?;
    if called.is_some() {
        return Ok(called);
    }
    let exported = bad_exported(alloc, lowered, environment)?;
    if exported.is_some() {
        return Ok(exported);
    }
    let described = bad_entry(alloc, lowered)?;
    if described.is_some() {
        return Ok(described);
    }
    Ok(bad_listed(lowered))
}

/// The first adapter that isn't what its place in the description asks for. Want of memory is the only error.
pub fn bad_adapter(alloc: Global, lowered: &Lowered) -> Result<Option<Fault>, AllocError>
    ensures fault { IfOk result (λ fault. fault ≡ spec.bad_adapter lowered.now) }
{
    let environment = environment_of(alloc, lowered)?;
    match bad_id(alloc, lowered, &environment)? {
        Some(adapter) => Ok(Some(Fault::BadAdapter { adapter })),
        None => Ok(None),
    }
}

/// Whether an import is one of the module of placeholders.
pub fn is_placeholder(import: &Option<Import>) -> bool
    ensures test { result ≡ spec.is_placeholder import.now }
{
    match import {
        None => false,
        Some(import) => import.module.as_str() == "__wbindgen_placeholder__",
    }
}

// Whether a memory stands before this one.
fn has_earlier(memories: &[Option<Memory>], memory: MemoryId) -> bool
    ensures test { result ≡ list_any is_some (take memory.0 memories.now) }
{
    memories
        .iter()
        .take(memory.0 as usize)
        .any(|entry| entry.is_some())
}

fn is_tag(tag: TagId, part: Option<TagId>) -> bool
    ensures test { result ≡ spec.is_id tag.0 (option_map (λ (part : TagId). part.0) part) }
{
    match part {
        None => false,
        Some(part) => part.0 == tag.0,
    }
}

fn is_func(func: FuncId, part: Option<FuncId>) -> bool
    ensures test { result ≡ spec.is_id func.0 (option_map (λ (part : FuncId). part.0) part) }
{
    match part {
        None => false,
        Some(part) => part.0 == func.0,
    }
}

// Whether the glue file defines what an import of this name brings in, whatever is described.
fn is_fixed_kind(lowered: &Lowered, name: &str, kind: ImportKind) -> bool
    ensures test { result ≡ spec.is_fixed_kind lowered.now name.now kind }
{
    match kind {
        ImportKind::Memory(memory) => !has_earlier(lowered.module.memories(), memory),
        ImportKind::Tag(tag) => {
            name == "__wbindgen_jstag" || is_tag(tag, lowered.aux.wrapped_js_tag)
        }
        ImportKind::Func(func) => is_func(func, lowered.aux.rethrow_critical),
        ImportKind::Table(_) | ImportKind::Global(_) => false,
    }
}

// The same of the import at a place.
fn is_fixed_import(lowered: &Lowered, place: ImportId) -> bool
    ensures test { result ≡ spec.is_fixed_import lowered.now (entry_at lowered.now.«module».imports place.0) }
{
    match lowered.module.imports().get(place.0 as usize) {
        Some(Some(import)) => is_fixed_kind(lowered, import.name.as_str(), import.kind),
        Some(None) => false,
        None => false,
    }
}

// Whether the place is none of these, and the import there isn't defined whatever is described.
#[tactic(auto, unfolding(crate::specs::Pairs::is_unbound))]
fn is_unbound(lowered: &Lowered, defined: &IdSet, place: ImportId) -> bool
    ensures test { result ≡ spec.is_unbound lowered.now defined.now place.0 }
{
    !defined.has(place.0) && !is_fixed_import(lowered, place)
}

// The first such place of a list.
fn first_unbound(lowered: &Lowered, defined: &IdSet, places: &[ImportId]) -> Option<ImportId>
    ensures found { option_map (λ (id : ImportId). id.0) result ≡ find (spec.is_unbound lowered.now defined.now) (map (λ (id : ImportId). id.0) places.now) }
{
    for place in places {
        if is_unbound(lowered, defined, *place) {
            return Some(*place);
        }
    }
    None
}

/// The first import that the glue file is to define, and that neither an adapter nor the file itself defines. Want of memory is
/// the only error.
pub fn unbound_import(
    alloc: Global,
    settings: &Settings,
    lowered: &Lowered,
) -> Result<Option<Fault>, AllocError>
    ensures fault { IfOk result (λ fault. fault ≡ spec.unbound_import settings.now lowered.now) }
{
    let defined = implemented(alloc, lowered.wit.implements.as_slice())?;
    let own = own_imports(alloc, settings, &lowered.module, &lowered.wit, &lowered.aux)?;
    match first_unbound(lowered, &defined, own.as_slice()) {
        Some(import) => Ok(Some(Fault::UnboundImport { import })),
        None => Ok(None),
    }
}
