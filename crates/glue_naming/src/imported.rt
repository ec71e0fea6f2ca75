//! The names that what own imports call begins with, and those that are wanted for them.
ghost use Rattle.std.specs.Prelude.{◌≡◌, ◌++◌, ◌∷◌, [], IfOk, OnOk, filter_map, option_and_then};
ghost use Rattle.std.specs.List.{flat_map};
ghost use Rattle.std.specs.Option.{option_copied};
ghost use Rattle.glue_shared.specs.Names as names;
ghost use Rattle.glue_names.specs.Once as once;
ghost use Rattle.glue_naming.specs.Imported as spec;

use crate::named::{Named, Wanted, WantedName};
use glue_check::{each_once, own_places};
use glue_published::{copied_import, is_outside};
use glue_shared::{
    AdapterId, AuxImport, DescribedImports, IdSet, Instruction, JsImportName, Lowered, Settings,
    Target, code_of, js_import,
};
use std::alloc::{AllocError, Global};
use values::{Duplicate, Seq, Text};
use wasm_core::ImportId;

// ---- names that adapters call

// Adds the name that what is described begins with, where it begins with one.
fn push_described(
    alloc: Global,
    described: Option<&AuxImport>,
    list: &mut Seq<JsImportName>,
) -> Result<(), AllocError>
    ensures pushed { OnOk result (list.new ≡ list.old ++ names.names_of (option_and_then names.js_import (option_copied described.entry))) }
{
    match described {
        None => Ok(()),
        Some(what) => match js_import(what) {
            None => Ok(()),
            Some(js) => {
                list.push(copied_import(alloc, &js.name)?)?;
                Ok(())
            }
        },
    }
}

// Adds what an instruction calls.
fn push_called(
    alloc: Global,
    entries: &DescribedImports<'_>,
    instruction: &Instruction,
    list: &mut Seq<JsImportName>,
) -> Result<(), AllocError>
    ensures pushed { OnOk result (list.new ≡ list.old ++ spec.called_name entries.now instruction.now) }
{
    match instruction {
        Instruction::CallAdapter(id) => push_described(alloc, entries.get(*id), list),
        _ => Ok(()),
    }
}

// Adds what a code calls.
pub(crate) fn push_code(
    alloc: Global,
    entries: &DescribedImports<'_>,
    code: &[Instruction],
    list: &mut Seq<JsImportName>,
) -> Result<(), AllocError>
    ensures pushed { OnOk result (list.new ≡ list.old ++ flat_map (spec.called_name entries.now) code.now) }
{
    for instruction in code {
        push_called(alloc, entries, instruction, list)?;
    }
    Ok(())
}

// Adds what the adapter of a pair calls, where the import is an own one.
fn push_pair(
    alloc: Global,
    own: &IdSet,
    lowered: &Lowered,
    entries: &DescribedImports<'_>,
    pair: &(ImportId, AdapterId),
    list: &mut Seq<JsImportName>,
) -> Result<(), AllocError>
    requires same { entries.now ≡ lowered.now.aux.imports }
    ensures pushed { OnOk result (list.new ≡ list.old ++ spec.pair_names own.now lowered.now pair.now) }
{
    if own.has(pair.0.0) {
        push_code(
            alloc,
            entries,
            code_of(lowered.wit.adapters.get(&pair.1)),
            list,
        )
    } else {
        Ok(())
    }
}

// What the adapters of these pairs call, where the imports are own ones.
fn own_called(
    alloc: Global,
    own: &IdSet,
    lowered: &Lowered,
    pairs: &[(ImportId, AdapterId)],
) -> Result<Seq<JsImportName>, AllocError>
    ensures called { IfOk result (λ called. called ≡ flat_map (spec.pair_names own.now lowered.now) pairs.now) }
{
    let entries = DescribedImports::new(alloc, lowered.aux.imports.as_slice())?;
    let mut list = Seq::new(alloc);
    for pair in pairs {
        push_pair(alloc, own, lowered, &entries, pair, &mut list)?;
    }
    Ok(list)
}

/// What the adapters of own imports among these pairs call. Want of memory is the only error.
pub(crate) fn names_called(
    alloc: Global,
    settings: &Settings,
    lowered: &Lowered,
    pairs: &[(ImportId, AdapterId)],
) -> Result<Seq<JsImportName>, AllocError>
    ensures called { IfOk result (λ called. called ≡ spec.names_called settings.now lowered.now pairs.now) }
{
    let own = own_places(alloc, settings, lowered)?;
    own_called(alloc, &own, lowered, pairs)
}

// ---- the names that are wanted

// What stands before the name of a module's export.
fn local_front(target: &Target) -> &str
    ensures front { result.now ≡ spec.local_front target.now }
{
    match target {
        Target::Emscripten => "__wbg_",
        _ => "",
    }
}

// A text behind another.
fn joined(alloc: Global, front: &str, rest: &Text) -> Result<Text, AllocError>
    ensures text { IfOk result (λ text. text ≡ front.now ++ rest.now) }
{
    let mut text = Text::from_str(alloc, front)?;
    text.push_str(rest.as_str())?;
    Ok(text)
}

// The name that a drawn one is wanted to be.
fn local_name(alloc: Global, target: &Target, import: &JsImportName) -> Result<Text, AllocError>
    ensures name { IfOk result (λ name. name ≡ spec.local_name target.now import.now) }
{
    match import {
        JsImportName::Global { name } => Ok(name.copy(alloc)?),
        JsImportName::Module { name, .. }
        | JsImportName::LocalModule { name, .. }
        | JsImportName::InlineJs { name, .. } => joined(alloc, local_front(target), name),
        JsImportName::VendorPrefixed { name, .. } => joined(alloc, "l", name),
    }
}

// Adds the name that is wanted for what an import begins with, unless it is one of the host.
fn push_import(
    alloc: Global,
    omitted: bool,
    target: &Target,
    import: &JsImportName,
    list: &mut Seq<Wanted>,
) -> Result<(), AllocError>
    ensures pushed { OnOk result (list.new ≡ list.old ++ filter_map (spec.import_wanted omitted target.now) (import.now ∷ [])) }
{
    if is_outside(omitted, import) {
        return Ok(());
    }
    let name = local_name(alloc, target, import)?;
    list.push(Wanted {
        thing: Named::Import(copied_import(alloc, import)?),
        name: WantedName::Plain(name),
    })?;
    Ok(())
}

/// Adds those of these. Want of memory is the only error.
pub(crate) fn push_each(
    alloc: Global,
    omitted: bool,
    target: &Target,
    imports: &[JsImportName],
    list: &mut Seq<Wanted>,
) -> Result<(), AllocError>
    ensures pushed { OnOk result (list.new ≡ list.old ++ filter_map (spec.import_wanted omitted target.now) imports.now) }
{
    for name in imports {
        push_import(alloc, omitted, target, name, list)?;
    }
    Ok(())
}

/// Adds the names that are wanted for what is called, each where it comes first. Want of memory is the only error.
pub(crate) fn push_imports(
    alloc: Global,
    settings: &Settings,
    called: &[JsImportName],
    list: &mut Seq<Wanted>,
) -> Result<(), AllocError>
    ensures pushed { OnOk result (list.new ≡ list.old ++ filter_map (spec.import_wanted settings.now.omit_imports settings.now.target) (once.each_once called.now)) }
{
    let once = each_once(alloc, called)?;
    push_each(
        alloc,
        settings.omit_imports,
        &settings.target,
        once.as_slice(),
        list,
    )
}
