//! What the glue file hands on beside the imports that it defines: whole modules, with their lines, and string constants.
ghost use Rattle.std.specs.Prelude.{◌≡◌, ◌++◌, ◌<◌, ◌^◌, length, map, fold, true, Some, IfOk, OnOk};
ghost use Rattle.std.specs.List.{list_any};
ghost use Rattle.glue_shared.specs.Names as names;
ghost use Rattle.glue_context.specs.Foreign as spec;

use crate::edits::all_moves;
use glue_check::own_places;
use glue_lines::{LineForm, foreign_line};
use glue_shared::{IdSet, Lowered, Settings};
use glue_words::Item;
use std::alloc::{AllocError, Global};
use values::{Duplicate, Seq, Text};
use wasm_core::{Import, ImportId};

// Whether a module is that of string constants.
fn is_strings(path: &Text) -> bool
    ensures test { result ≡ spec.is_strings path.now }
{
    path.as_str() == "wasm:js/string-constants"
}

// Whether the place is one of these. Places past the last id stand for want of memory.
fn has_place(places: &IdSet, place: usize) -> Result<bool, AllocError>
    ensures test { IfOk result (λ test. test ≡ names.has_number place places.now) }
{
    if place < 4_294_967_296 {
        Ok(places.has(place as u32))
    } else {
        Err(AllocError)
    }
}

// Adds the module of an import at a place, where it is none of the own ones and no string constant.
fn push_path(
    alloc: Global,
    own: &IdSet,
    place: usize,
    path: &Text,
    modules: &mut Seq<Text>,
) -> Result<(), AllocError>
    ensures pushed { OnOk result (modules.new ≡ modules.old ++ spec.module_at own.now place (Some path.now)) }
{
    if has_place(own, place)? || is_strings(path) {
        return Ok(());
    }
    modules.push(path.copy(alloc)?)
}

// The same, where an import stands there.
fn push_module(
    alloc: Global,
    own: &IdSet,
    place: usize,
    path: &Option<Text>,
    modules: &mut Seq<Text>,
) -> Result<(), AllocError>
    ensures pushed { OnOk result (modules.new ≡ modules.old ++ spec.module_at own.now place path.now) }
{
    match path {
        None => Ok(()),
        Some(path) => push_path(alloc, own, place, path, modules),
    }
}

// The modules of such imports.
fn modules_of(alloc: Global, own: &IdSet, paths: &[Option<Text>]) -> Result<Seq<Text>, AllocError>
    ensures modules { IfOk result (λ modules. modules ≡ spec.modules_from own.now 0 paths.now) }
{
    let mut modules = Seq::new(alloc);
    for place in 0..paths.len() {
        push_module(alloc, own, place, &paths[place], &mut modules)?;
    }
    Ok(modules)
}

// The module of an import, where one stands.
fn path_of(alloc: Global, import: &Option<Import>) -> Result<Option<Text>, AllocError>
    ensures path { IfOk result (λ path. path ≡ spec.path_of import.now) }
{
    match import {
        None => Ok(None),
        Some(import) => Ok(Some(import.module.copy(alloc)?)),
    }
}

// The modules of imports.
fn paths_of(alloc: Global, imports: &[Option<Import>]) -> Result<Vec<Option<Text>>, AllocError>
    ensures paths { IfOk result (λ paths. paths.items ≡ map spec.path_of imports.now) }
{
    let mut paths = Vec::new(alloc);
    for import in imports {
        paths.push(path_of(alloc, import)?)?;
    }
    Ok(paths)
}

// Whether an import stands at a place.
fn has_path(paths: &[Option<Text>], place: usize) -> bool
    ensures test { result ≡ spec.has_path paths.now place }
{
    match paths.get(place) {
        Some(Some(_)) => true,
        _ => false,
    }
}

// Another module at a place where an import stands.
#[tactic(auto, using(crate::proofs::Paths::is_within, crate::proofs::Paths::set_there))]
fn put_path(paths: &mut Vec<Option<Text>>, place: usize, path: Text)
    requires stands { spec.has_path paths.old.items place ≡ true }
    ensures put { paths.new.items ≡ spec.with_path paths.old.items place path }
{
    paths[place] = Some(path);
}

// The same, if one stands there.
#[tactic(auto, using(crate::proofs::Paths::none_there))]
fn set_path(
    alloc: Global,
    paths: &mut Vec<Option<Text>>,
    place: ImportId,
    path: &Text,
) -> Result<(), AllocError>
    ensures set { OnOk result (paths.new.items ≡ spec.with_path paths.old.items place.0 path.now) }
{
    let place = place.0 as usize;
    if has_path(paths.as_slice(), place) {
        put_path(paths, place, path.copy(alloc)?);
    }
    Ok(())
}

// The modules of imports with these changes.
fn written_paths(
    alloc: Global,
    imports: &[Option<Import>],
    moves: &[(ImportId, Text, Text)],
) -> Result<Vec<Option<Text>>, AllocError>
    ensures written { IfOk result (λ paths. paths.items ≡ fold spec.with_move (map spec.path_of imports.now) moves.now) }
{
    let mut paths = paths_of(alloc, imports)?;
    for entry in moves {
        set_path(alloc, &mut paths, entry.0, &entry.1)?;
    }
    Ok(paths)
}

// Whether an import is one of a string constant, by its module.
fn is_string_import(path: &Option<Text>) -> bool
    ensures test { result ≡ spec.is_string_import path.now }
{
    match path {
        None => false,
        Some(path) => is_strings(path),
    }
}

// Whether one of them is.
fn has_string_import(paths: &[Option<Text>]) -> bool
    ensures test { result ≡ list_any spec.is_string_import paths.now }
{
    paths.iter().any(|path| is_string_import(path))
}

/// What the glue file hands on beside the imports that it defines.
#[derive(Drop)]
pub(crate) struct HandedOn {
    /// The modules that it hands on whole, as the written module has them: one for each import that it doesn't define.
    pub modules: Seq<Text>,
    /// Whether the written module imports string constants.
    pub strings: bool,
}

/// What the glue file hands on, by the modules of the written module's imports.
pub(crate) fn handed_on(
    alloc: Global,
    settings: &Settings,
    lowered: &Lowered,
) -> Result<HandedOn, AllocError>
    ensures modules { IfOk result (λ handed. handed.modules ≡ spec.foreign_modules settings.now lowered.now) }
    ensures strings { IfOk result (λ handed. handed.strings ≡ spec.has_strings settings.now lowered.now) }
{
    let own = own_places(alloc, settings, lowered)?;
    let moves = all_moves(alloc, settings, lowered)?;
    let paths = written_paths(alloc, lowered.module.imports(), moves.as_slice())?;
    let modules = modules_of(alloc, &own, paths.as_slice())?;
    let strings = has_string_import(paths.as_slice());
    Ok(HandedOn { modules, strings })
}

/// The lines of these modules, numbered from 1 on. More than have a number stand for want of memory.
pub(crate) fn foreign_lines(alloc: Global, modules: &[Text]) -> Result<Seq<Item>, AllocError>
    ensures lines { IfOk result (λ items. items ≡ spec.foreign_lines 1 modules.now) }
    ensures few { IfOk result (λ items. length modules.now < 2 ^ 32) }
{
    if modules.len() >= 4_294_967_296 {
        return Err(AllocError);
    }
    let mut items = Seq::new(alloc);
    for place in 0..modules.len() {
        let number = place as u32 + 1;
        items.push(foreign_line(alloc, LineForm::Es, number, modules[place].as_str())?)?;
    }
    Ok(items)
}
