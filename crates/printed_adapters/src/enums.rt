//! String enums that adapters which become functions name.
ghost use Rattle.std.specs.Prelude.{◌≡◌, ◌++◌, IfOk};
ghost use Rattle.std.specs.List.{flat_map};
ghost use Rattle.printed_adapters.specs.Printed as spec;

use crate::closures::used_closures;
use crate::own::own_places;
use glue_faults::IdSet;
use glue_shared::{AdapterId, AuxExport, Instruction, Lowered, Settings, code_of};
use name_set::NameSet;
use std::alloc::{AllocError, Global};
use wasm_core::ImportId;

// With the string enum that an instruction names.
#[tactic(auto, using(crate::proofs::PrintedEnums::none_more))]
fn with_enum(
    alloc: Global,
    names: NameSet,
    instruction: &Instruction,
) -> Result<NameSet, AllocError>
    ensures more { IfOk result (λ more. more ≡ names ++ spec.enum_named instruction.now) }
{
    match instruction {
        Instruction::EnumIndex(name) | Instruction::EnumText(name) => {
            names.with(alloc, name.as_str())
        }
        _ => Ok(names),
    }
}

// With those that a code names.
fn with_code(alloc: Global, names: NameSet, code: &[Instruction]) -> Result<NameSet, AllocError>
    ensures more { IfOk result (λ more. more ≡ names ++ flat_map spec.enum_named code.now) }
{
    let mut more = names;
    for instruction in code {
        more = with_enum(alloc, more, instruction)?;
    }
    Ok(more)
}

// With those that an adapter's code does.
fn with_adapter(
    alloc: Global,
    names: NameSet,
    lowered: &Lowered,
    id: AdapterId,
) -> Result<NameSet, AllocError>
    ensures more { IfOk result (λ more. more ≡ names ++ flat_map spec.enum_named (spec.code_by lowered.now id)) }
{
    with_code(alloc, names, code_of(lowered.wit.adapters.get(&id)))
}

// With those that a pair's does, where its import is one of these.
#[tactic(auto, using(crate::proofs::PrintedEnums::none_more))]
fn with_pair(
    alloc: Global,
    names: NameSet,
    own: &IdSet,
    lowered: &Lowered,
    pair: &(ImportId, AdapterId),
) -> Result<NameSet, AllocError>
    ensures more { IfOk result (λ more. more ≡ names ++ flat_map spec.enum_named (spec.pair_code own.now lowered.now pair.now)) }
{
    if !own.has(pair.0.0) {
        return Ok(names);
    }
    with_adapter(alloc, names, lowered, pair.1)
}

// With those of these exports.
fn with_exports(
    alloc: Global,
    names: NameSet,
    lowered: &Lowered,
    exports: &[AuxExport],
) -> Result<NameSet, AllocError>
    ensures more { IfOk result (λ more. more ≡ names ++ flat_map spec.enum_named (flat_map (spec.export_code lowered.now) exports.now)) }
{
    let mut more = names;
    for export in exports {
        more = with_adapter(alloc, more, lowered, export.adapter)?;
    }
    Ok(more)
}

// With those of these pairs.
fn with_pairs(
    alloc: Global,
    names: NameSet,
    own: &IdSet,
    lowered: &Lowered,
    pairs: &[(ImportId, AdapterId)],
) -> Result<NameSet, AllocError>
    ensures more { IfOk result (λ more. more ≡ names ++ flat_map spec.enum_named (flat_map (spec.pair_code own.now lowered.now) pairs.now)) }
{
    let mut more = names;
    for pair in pairs {
        more = with_pair(alloc, more, own, lowered, pair)?;
    }
    Ok(more)
}

// With those of the adapters of closures.
fn with_closures(
    alloc: Global,
    names: NameSet,
    lowered: &Lowered,
    ids: &[AdapterId],
) -> Result<NameSet, AllocError>
    ensures more { IfOk result (λ more. more ≡ names ++ flat_map spec.enum_named (flat_map (spec.code_by lowered.now) ids.now)) }
{
    let mut more = names;
    for id in ids {
        more = with_adapter(alloc, more, lowered, *id)?;
    }
    Ok(more)
}

/// The string enums that adapters which become functions name, of exports, of own imports and of closures that are used, so that the glue file
/// needs the lists of their texts. Want of memory is the only error.
#[tactic(auto, using(crate::proofs::PrintedEnums::named_by_both))]
pub fn named_enums(
    alloc: Global,
    settings: &Settings,
    lowered: &Lowered,
) -> Result<NameSet, AllocError>
    ensures names { IfOk result (λ names. names ≡ spec.named_enums settings.now lowered.now) }
{
    let own = own_places(alloc, settings, lowered)?;
    let exports = lowered.aux.exports.as_slice();
    let exported = with_exports(alloc, NameSet::new(alloc), lowered, exports)?;
    let pairs = lowered.wit.implements.as_slice();
    let outer = with_pairs(alloc, exported, &own, lowered, pairs)?;
    let used = used_closures(alloc, settings, lowered)?;
    with_closures(alloc, outer, lowered, used.as_slice())
}
