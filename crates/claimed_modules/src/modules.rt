//! Modules that are imported from, and those whose names the glue file needs for itself.
ghost use Rattle.std.specs.Prelude.{◌≡◌, ◌++◌, Some, IfOk, find, option_and_then, option_map};
ghost use Rattle.std.specs.List.{flat_map, list_any};
ghost use Rattle.std.specs.Option.{option_copied};
ghost use Rattle.glue_faults.specs.declared.fault.Fault.TheVariants as faults;
ghost use Rattle.glue_faults.specs.First as first;
ghost use Rattle.glue_shared.specs.Names as names;
ghost use Rattle.glue_shared.specs.Names.{described_names, names_of};
ghost use Rattle.claimed_modules.specs.Modules as spec;

use glue_faults::{Fault, IdSet};
use glue_shared::{
    AdapterId, AuxImport, DescribedImports, Instruction, JsImport, JsImportName, Lowered,
    NonstandardWitSection, Settings, WasmBindgenAux, code_of, js_import,
};
use printed_adapters::{own_places, paired_places};
use std::alloc::{AllocError, Global};
use values::{Duplicate, Seq, Text};
use wasm_core::{Import, ImportId};

/// A name that the glue file needs for a module of its own.
#[derive(Drop)]
pub struct Claimed {
    name: Text,
    /// The places of the imports whose adapters call what comes from a module of this name.
    called: IdSet,
}

// ---- described modules

/// Whether nothing can be described to come from a module of this name.
pub fn is_reserved(name: &str) -> bool
    ensures test { result ≡ spec.is_reserved name.now }
{
    name == "__wbindgen_placeholder__" || name == "wasm:js/string-constants"
}

// The name of a module, where nothing can be described to come from it.
fn reserved_or_none(name: &Text) -> Option<&Text>
    ensures name { option_copied result ≡ first.where_true (spec.is_reserved name.now) name.now }
{
    if is_reserved(name.as_str()) {
        Some(name)
    } else {
        None
    }
}

// The module of a described name, where nothing can be described to come from it. One among the snippets can always be described.
fn reserved_in(described: &JsImportName) -> Option<&Text>
    ensures name { option_copied result ≡ spec.reserved_in described.now }
{
    match described {
        JsImportName::Module { module, .. } => reserved_or_none(module),
        JsImportName::Global { .. }
        | JsImportName::LocalModule { .. }
        | JsImportName::InlineJs { .. }
        | JsImportName::VendorPrefixed { .. } => None,
    }
}

// Such a module of what an import evaluates.
fn reserved_import(what: &AuxImport) -> Option<&Text>
    ensures name { option_copied result ≡ first.first_of spec.reserved_in (names_of (names.js_import what.now)) }
{
    match js_import(what) {
        None => None,
        Some(js) => reserved_in(&js.name),
    }
}

// The first such module of the imports.
fn first_import(entries: &[(AdapterId, AuxImport)]) -> Option<&Text>
    ensures first { option_copied result ≡ first.first_of (λ i. first.first_of spec.reserved_in (names_of (names.js_import i.1))) entries.now }
{
    for entry in entries {
        let name = reserved_import(&entry.1);
        if name.is_some() {
            return name;
        }
    }
    None
}

// The first of the re-exports.
fn first_reexport(entries: &[(Text, JsImport, bool)]) -> Option<&Text>
    ensures first { option_copied result ≡ first.first_of (λ r. spec.reserved_in r.1.name) entries.now }
{
    for entry in entries {
        let name = reserved_in(&entry.1.name);
        if name.is_some() {
            return name;
        }
    }
    None
}

// The first of both.
#[tactic(auto, using(crate::proofs::Described::first_described))]
fn first_reserved(aux: &WasmBindgenAux) -> Option<&Text>
    ensures first { option_copied result ≡ first.first_of spec.reserved_in (described_names aux.now) }
{
    let imported = first_import(aux.imports.as_slice());
    if imported.is_some() {
        return imported;
    }
    first_reexport(aux.reexports.as_slice())
}

// ---- foreign modules

// The module that a described name comes from.
fn module_of(alloc: Global, described: &JsImportName) -> Result<Option<Text>, AllocError>
    ensures found { IfOk result (λ found. found ≡ spec.module_of described.now) }
{
    match described {
        JsImportName::Global { .. } | JsImportName::VendorPrefixed { .. } => Ok(None),
        JsImportName::Module { module, .. } => Ok(Some(module.copy(alloc)?)),
        JsImportName::LocalModule { module, .. } => {
            let mut path = Text::from_str(alloc, "./snippets/")?;
            path.push_str(module.as_str())?;
            Ok(Some(path))
        }
        JsImportName::InlineJs {
            crate_name,
            index,
            ..
        } => {
            let (crate_name, index) = (crate_name.as_str(), *index);
            let path = format!(in alloc; "./snippets/{crate_name}/inline{index}.js")?;
            Ok(Some(Text::new(path)))
        }
    }
}

// Whether a described name comes from a module of this name.
fn comes_from(alloc: Global, name: &str, described: &JsImportName) -> Result<bool, AllocError>
    ensures test { IfOk result (λ test. test ≡ spec.comes_from name.now described.now) }
{
    match module_of(alloc, described)? {
        None => Ok(false),
        Some(module) => Ok(module.as_str() == name),
    }
}

// Whether what is described of an import begins with such a name.
fn is_described_from(
    alloc: Global,
    name: &str,
    described: Option<&AuxImport>,
) -> Result<bool, AllocError>
    ensures test { IfOk result (λ test. test ≡ list_any (spec.comes_from name.now) (names_of (option_and_then names.js_import (option_copied described.entry)))) }
{
    match described {
        None => Ok(false),
        Some(what) => match js_import(what) {
            None => Ok(false),
            Some(js) => comes_from(alloc, name, &js.name),
        },
    }
}

// Whether an instruction calls an import that is described as a name of the module.
fn calls_from(
    alloc: Global,
    entries: &DescribedImports<'_>,
    name: &str,
    instruction: &Instruction,
) -> Result<bool, AllocError>
    ensures test { IfOk result (λ test. test ≡ spec.calls_from entries.now name.now instruction.now) }
{
    match instruction {
        Instruction::CallAdapter(id) => is_described_from(alloc, name, entries.get(*id)),
        _ => Ok(false),
    }
}

// Whether one of the instructions does.
fn has_call_from(
    alloc: Global,
    entries: &DescribedImports<'_>,
    name: &str,
    code: &[Instruction],
) -> Result<bool, AllocError>
    ensures test { IfOk result (λ test. test ≡ list_any (spec.calls_from entries.now name.now) code.now) }
{
    for instruction in code {
        if calls_from(alloc, entries, name, instruction)? {
            return Ok(true);
        }
    }
    Ok(false)
}

// These places, with that of an import whose adapter calls what comes from the module.
fn with_called(
    alloc: Global,
    wit: &NonstandardWitSection,
    entries: &DescribedImports<'_>,
    name: &str,
    places: IdSet,
    pair: &(ImportId, AdapterId),
) -> Result<IdSet, AllocError>
    ensures places { IfOk result (λ more. more ≡ places ++ spec.called_place wit.now entries.now name.now pair.now) }
{
    if has_call_from(alloc, entries, name, code_of(wit.adapters.get(&pair.1)))? {
        places.with(pair.0.0)
    } else {
        Ok(places)
    }
}

// The places of such imports.
fn called_places(
    alloc: Global,
    wit: &NonstandardWitSection,
    entries: &DescribedImports<'_>,
    name: &str,
) -> Result<IdSet, AllocError>
    ensures places { IfOk result (λ places. places ≡ flat_map (spec.called_place wit.now entries.now name.now) wit.now.implements) }
{
    let mut places = IdSet::new(alloc);
    for pair in wit.implements.as_slice() {
        places = with_called(alloc, wit, entries, name, places, pair)?;
    }
    Ok(places)
}

// A name that the glue file needs, with the places of the imports that come from there by their adapters.
fn claim_of(alloc: Global, lowered: &Lowered, name: Text) -> Result<Claimed, AllocError>
    ensures claim { IfOk result (λ claim. claim ≡ spec.claim_of lowered.now name) }
{
    let entries = DescribedImports::new(alloc, lowered.aux.imports.as_slice())?;
    let called = called_places(alloc, &lowered.wit, &entries, name.as_str())?;
    Ok(Claimed { name, called })
}

/// The name of the module that the imports which the glue file defines move to, but on Emscripten. Want of memory is the only error.
pub fn glue_module_name(alloc: Global, stem: &str) -> Result<Text, AllocError>
    ensures name { IfOk result (λ name. name ≡ spec.glue_module stem.now) }
{
    let mut name = Text::from_str(alloc, "./")?;
    name.push_str(stem)?;
    name.push_str("_bg.js")?;
    Ok(name)
}

// Both of these names.
fn claims(alloc: Global, settings: &Settings, lowered: &Lowered) -> Result<Seq<Claimed>, AllocError>
    ensures claims { IfOk result (λ claims. claims ≡ spec.claims settings.now lowered.now) }
{
    let file = glue_module_name(alloc, settings.stem.as_str())?;
    let mut claims = Seq::new(alloc);
    claims.push(claim_of(alloc, lowered, file)?)?;
    claims.push(claim_of(alloc, lowered, Text::from_str(alloc, "__proto__")?)?)?;
    Ok(claims)
}

// Whether an import that the glue file doesn't define comes from a module of this name in the module that is written.
#[tactic(auto, unfolding(crate::specs::Modules::is_from))]
fn is_from(paired: &IdSet, place: ImportId, import: &Import, claim: &Claimed) -> bool
    ensures test { result ≡ spec.is_from paired.now place.0 import.now claim.now }
{
    if paired.has(place.0) {
        claim.called.has(place.0)
    } else {
        import.module.as_str() == claim.name.as_str()
    }
}

// The first name that such an import has for its module.
fn first_claim<'a>(
    paired: &IdSet,
    claims: &'a [Claimed],
    place: ImportId,
    import: &Import,
) -> Option<&'a Claimed>
    ensures first { option_copied result ≡ find (spec.is_from paired.now place.0 import.now) claims.now }
{
    claims
        .iter()
        .find(|claim| is_from(paired, place, import, claim))
}

// The same, where the glue file doesn't define the import.
fn foreign_clash<'a>(
    own: &IdSet,
    paired: &IdSet,
    claims: &'a [Claimed],
    place: ImportId,
    import: &Import,
) -> Option<&'a Text>
    ensures name { option_copied result ≡ spec.foreign_clash own.now paired.now claims.now place.0 import.now }
{
    if own.has(place.0) {
        return None;
    }
    match first_claim(paired, claims, place, import) {
        None => None,
        Some(claim) => Some(&claim.name),
    }
}

// The id of a place. Places past the last id stand for want of memory.
fn import_id(place: usize) -> Result<ImportId, AllocError>
    ensures id { IfOk result (λ id. id.0 ≡ place) }
{
    if place < 4_294_967_296 {
        Ok(ImportId(place as u32))
    } else {
        Err(AllocError)
    }
}

// The same of the import at a place, if one stands there.
fn placed_clash<'a>(
    own: &IdSet,
    paired: &IdSet,
    claims: &'a [Claimed],
    place: usize,
    import: &Option<Import>,
) -> Result<Option<&'a Text>, AllocError>
    ensures name { IfOk result (λ name. option_copied name ≡ spec.placed_clash own.now paired.now claims.now place import.now) }
{
    match import {
        None => Ok(None),
        Some(import) => Ok(foreign_clash(own, paired, claims, import_id(place)?, import)),
    }
}

// The first of the imports of a module.
fn first_foreign<'a>(
    own: &IdSet,
    paired: &IdSet,
    claims: &'a [Claimed],
    imports: &[Option<Import>],
) -> Result<Option<&'a Text>, AllocError>
    ensures first { IfOk result (λ name. option_copied name ≡ spec.first_placed (spec.placed_clash own.now paired.now claims.now) 0 imports.now) }
{
    for place in 0..imports.len() {
        let name = placed_clash(own, paired, claims, place, &imports[place])?;
        if name.is_some() {
            return Ok(name);
        }
    }
    Ok(None)
}

// The fault of a module.
fn clash_of(alloc: Global, module: &Text) -> Result<Option<Fault>, AllocError>
    ensures fault { IfOk result (λ fault. fault ≡ Some (faults.ModuleClash «module».now)) }
{
    Ok(Some(Fault::ModuleClash {
        module: module.copy(alloc)?,
    }))
}

// The fault of the first of them.
fn foreign_fault(
    alloc: Global,
    own: &IdSet,
    paired: &IdSet,
    claims: &[Claimed],
    imports: &[Option<Import>],
) -> Result<Option<Fault>, AllocError>
    ensures fault { IfOk result (λ fault. fault ≡ option_map faults.ModuleClash (spec.first_placed (spec.placed_clash own.now paired.now claims.now) 0 imports.now)) }
{
    match first_foreign(own, paired, claims, imports)? {
        None => Ok(None),
        Some(module) => clash_of(alloc, module),
    }
}

// The fault of the first foreign module whose name the glue file needs.
fn foreign_module(
    alloc: Global,
    settings: &Settings,
    lowered: &Lowered,
) -> Result<Option<Fault>, AllocError>
    ensures fault { IfOk result (λ fault. fault ≡ option_map faults.ModuleClash (spec.foreign_module settings.now lowered.now)) }
{
    let own = own_places(alloc, settings, lowered)?;
    let paired = paired_places(alloc, &lowered.wit)?;
    let claims = claims(alloc, settings, lowered)?;
    foreign_fault(
        alloc,
        &own,
        &paired,
        claims.as_slice(),
        lowered.module.imports(),
    )
}

/// The first module that is described although nothing can be described to come from it, or else the first foreign import's
/// module whose name the glue file needs for itself. Want of memory is the only error.
#[tactic(auto, unfolding(crate::specs::Modules::clashing_module))]
pub fn module_clash(
    alloc: Global,
    settings: &Settings,
    lowered: &Lowered,
) -> Result<Option<Fault>, AllocError>
    ensures fault { IfOk result (λ fault. fault ≡ spec.module_clash settings.now lowered.now) }
{
    match first_reserved(&lowered.aux) {
        Some(module) => clash_of(alloc, module),
        None => foreign_module(alloc, settings, lowered),
    }
}
