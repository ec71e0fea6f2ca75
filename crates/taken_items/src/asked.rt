//! The items of the module that the adapters which become functions ask for, and those by which what imports throw is handed to the module.
ghost use Rattle.std.specs.Prelude.{◌≡◌, ◌++◌, IfOk, OnOk};
ghost use Rattle.std.specs.List.{flat_map};
ghost use Rattle.glue_shared.specs.Roots.{listed};
ghost use Rattle.glue_steps.specs.Needed.{needed_items, store_item};
ghost use Rattle.printed_adapters.specs.Caught.{handing};
ghost use Rattle.printed_adapters.specs.Printed.{code_by};
ghost use Rattle.taken_items.specs.Asked as spec;

use glue_imports::given_item;
use glue_shared::{AdapterId, AuxExport, IdSet, Instruction, Lowered, Settings, code_of};
use glue_steps::{Indexed, needed_items, store_item};
use printed_adapters::{catches, own_places, used_closures};
use std::alloc::{AllocError, Global};
use values::Seq;
use wasm_core::{ExportItem, ImportId};

// The item that is given by what an instruction calls.
fn called_item(indexed: &Indexed<'_>, instruction: &Instruction) -> Option<ExportItem>
    ensures item { listed result ≡ spec.called_item indexed.now instruction.now }
{
    match instruction {
        Instruction::CallAdapter(id) => {
            given_item(indexed.lowered(), indexed.described_import(*id)?)
        }
        _ => None,
    }
}

// Adds that item.
fn push_called(
    indexed: &Indexed<'_>,
    instruction: &Instruction,
    asked: &mut Seq<ExportItem>,
) -> Result<(), AllocError>
    ensures pushed { OnOk result (asked.new ≡ asked.old ++ spec.called_item indexed.now instruction.now) }
{
    if let Some(item) = called_item(indexed, instruction) {
        asked.push(item)?;
    }
    Ok(())
}

// Adds the items that an instruction takes itself.
fn push_needed(
    alloc: Global,
    settings: &Settings,
    lowered: &Lowered,
    instruction: &Instruction,
    asked: &mut Seq<ExportItem>,
) -> Result<(), AllocError>
    ensures pushed { OnOk result (asked.new ≡ asked.old ++ needed_items settings.now lowered.now instruction.now) }
{
    let needed = needed_items(alloc, settings, lowered, instruction)?;
    asked.append(Seq::from_vec(needed))
}

// Adds the items that an instruction asks for.
fn push_asked(
    alloc: Global,
    settings: &Settings,
    indexed: &Indexed<'_>,
    instruction: &Instruction,
    asked: &mut Seq<ExportItem>,
) -> Result<(), AllocError>
    ensures pushed { OnOk result (asked.new ≡ asked.old ++ spec.instruction_asks settings.now indexed.now instruction.now) }
{
    push_called(indexed, instruction, asked)?;
    push_needed(alloc, settings, indexed.lowered(), instruction, asked)?;
    Ok(())
}

// Adds those that a code asks for.
fn push_code(
    alloc: Global,
    settings: &Settings,
    indexed: &Indexed<'_>,
    code: &[Instruction],
    asked: &mut Seq<ExportItem>,
) -> Result<(), AllocError>
    ensures pushed { OnOk result (asked.new ≡ asked.old ++ spec.code_asks settings.now indexed.now code.now) }
{
    for instruction in code {
        push_asked(alloc, settings, indexed, instruction, asked)?;
    }
    Ok(())
}

// Adds those that an adapter asks for.
fn push_adapter(
    alloc: Global,
    settings: &Settings,
    indexed: &Indexed<'_>,
    id: AdapterId,
    asked: &mut Seq<ExportItem>,
) -> Result<(), AllocError>
    ensures pushed { OnOk result (asked.new ≡ asked.old ++ spec.code_asks settings.now indexed.now (code_by indexed.now id)) }
{
    let code = code_of(indexed.lowered().wit.adapters.get(&id));
    push_code(alloc, settings, indexed, code, asked)
}

// Adds those that the adapter of a pair asks for, where the import is an own one.
fn push_pair(
    alloc: Global,
    settings: &Settings,
    own: &IdSet,
    indexed: &Indexed<'_>,
    pair: &(ImportId, AdapterId),
    asked: &mut Seq<ExportItem>,
) -> Result<(), AllocError>
    ensures pushed { OnOk result (asked.new ≡ asked.old ++ spec.pair_asks settings.now own.now indexed.now pair.now) }
{
    if own.has(pair.0.0) {
        push_adapter(alloc, settings, indexed, pair.1, asked)
    } else {
        Ok(())
    }
}

// Those that the adapters of exports ask for.
fn exports_asked(
    alloc: Global,
    settings: &Settings,
    indexed: &Indexed<'_>,
    exports: &[AuxExport],
) -> Result<Seq<ExportItem>, AllocError>
    ensures asked { IfOk result (λ asked. asked ≡ flat_map (spec.export_asks settings.now indexed.now) exports.now) }
{
    let mut asked = Seq::new(alloc);
    for export in exports {
        push_adapter(alloc, settings, indexed, export.adapter, &mut asked)?;
    }
    Ok(asked)
}

// Those that the adapters of these pairs ask for.
fn pairs_asked(
    alloc: Global,
    settings: &Settings,
    own: &IdSet,
    indexed: &Indexed<'_>,
    pairs: &[(ImportId, AdapterId)],
) -> Result<Seq<ExportItem>, AllocError>
    ensures asked { IfOk result (λ asked. asked ≡ flat_map (spec.pair_asks settings.now own.now indexed.now) pairs.now) }
{
    let mut asked = Seq::new(alloc);
    for pair in pairs {
        push_pair(alloc, settings, own, indexed, pair, &mut asked)?;
    }
    Ok(asked)
}

// Those that the adapters of these closures ask for.
fn closures_asked(
    alloc: Global,
    settings: &Settings,
    indexed: &Indexed<'_>,
    ids: &[AdapterId],
) -> Result<Seq<ExportItem>, AllocError>
    ensures asked { IfOk result (λ asked. asked ≡ flat_map (spec.closure_asks settings.now indexed.now) ids.now) }
{
    let mut asked = Seq::new(alloc);
    for id in ids {
        push_adapter(alloc, settings, indexed, *id, &mut asked)?;
    }
    Ok(asked)
}

// Those that the adapters of exports, of own imports, and of closures that are used ask for.
fn adapters_asked(
    alloc: Global,
    settings: &Settings,
    lowered: &Lowered,
) -> Result<Seq<ExportItem>, AllocError>
    ensures asked { IfOk result (λ asked. asked ≡ spec.adapters_ask settings.now lowered.now) }
{
    let own = own_places(alloc, settings, lowered)?;
    let indexed = Indexed::new(alloc, lowered)?;
    let mut asked = exports_asked(alloc, settings, &indexed, lowered.aux.exports.as_slice())?;
    let others = pairs_asked(
        alloc,
        settings,
        &own,
        &indexed,
        lowered.wit.implements.as_slice(),
    )?;
    let closures = used_closures(alloc, settings, lowered)?;
    let called = closures_asked(alloc, settings, &indexed, closures.as_slice())?;
    asked.append(others)?;
    asked.append(called)?;
    Ok(asked)
}

// Adds the function that takes what imports throw, where it is there.
fn push_store(lowered: &Lowered, asked: &mut Seq<ExportItem>) -> Result<(), AllocError>
    ensures pushed { OnOk result (asked.new ≡ asked.old ++ listed (store_item lowered.now)) }
{
    if let Some(item) = store_item(lowered) {
        asked.push(item)?;
    }
    Ok(())
}

// That function, and what a value goes by that is handed on.
fn handing_items(
    alloc: Global,
    settings: &Settings,
    lowered: &Lowered,
) -> Result<Seq<ExportItem>, AllocError>
    ensures items { IfOk result (λ items. items ≡ listed (store_item lowered.now) ++ needed_items settings.now lowered.now handing) }
{
    let mut items = Seq::new(alloc);
    push_store(lowered, &mut items)?;
    push_needed(
        alloc,
        settings,
        lowered,
        &Instruction::IndexFromOwned,
        &mut items,
    )?;
    Ok(items)
}

// Those by which what imports throw is handed to the module, where it is caught.
fn handing_asked(
    alloc: Global,
    settings: &Settings,
    lowered: &Lowered,
) -> Result<Seq<ExportItem>, AllocError>
    ensures asked { IfOk result (λ asked. asked ≡ spec.handing_asks settings.now lowered.now) }
{
    if catches(alloc, settings, lowered)? {
        handing_items(alloc, settings, lowered)
    } else {
        Ok(Seq::new(alloc))
    }
}

/// Those that the adapters of exports, of own imports, and of closures that are used ask for, and those by which what imports throw is handed to
/// the module. Want of memory is the only error.
pub(crate) fn asked_items(
    alloc: Global,
    settings: &Settings,
    lowered: &Lowered,
) -> Result<Seq<ExportItem>, AllocError>
    ensures asked { IfOk result (λ asked. asked ≡ spec.asked_items settings.now lowered.now) }
{
    let mut asked = adapters_asked(alloc, settings, lowered)?;
    let handed = handing_asked(alloc, settings, lowered)?;
    asked.append(handed)?;
    Ok(asked)
}
