//! Parts that the module or its description lacks: those that instructions need, that imports need, and that are needed to hand on what imports
//! throw.
ghost use Rattle.std.specs.Prelude.{◌≡◌, is_some, IfOk};
ghost use Rattle.std.specs.List.{list_any};
ghost use Rattle.std.specs.Option.{option_copied, option_or};
ghost use Rattle.glue_shared.specs.Roots.{live_item};
ghost use Rattle.glue_steps.specs.Needed as needed;
ghost use Rattle.glue_steps.specs.Resolving.{entry_at};
ghost use Rattle.glue_faults.specs.First.{first_of};
ghost use Rattle.glue_check.specs.Missing as spec;

use glue_faults::Fault;
use glue_shared::{
    Adapter, AdapterId, AdapterKind, AuxImport, Instruction, Intrinsic, Lowered, Settings,
    first_memory, live_item, push_instruction, table_item,
};
use glue_steps::{
    REFERENCE_PARTS, ReferencePart, destroyer_item, goes_by, has_stack, makes_closure, makes_room,
    part_item, store_item,
};
use printed_adapters::catches;
use std::alloc::{AllocError, Global};
use values::Text;
use wasm_core::{ExportItem, Memory, MemoryId};

// Whether an intrinsic goes by an object table, or by a table of references, and values are kept in the other.
fn is_excluded(externref: bool, intrinsic: Intrinsic) -> bool
    ensures test { result ≡ spec.is_excluded externref intrinsic }
{
    match intrinsic {
        Intrinsic::ExternrefHeapLiveCount => externref,
        Intrinsic::InitExternrefTable => !externref,
        _ => false,
    }
}

/// Whether an import is such an intrinsic.
pub(crate) fn excludes(externref: bool, import: &AuxImport) -> bool
    ensures test { result ≡ spec.excludes externref import.now }
{
    match import {
        AuxImport::Intrinsic(intrinsic) => is_excluded(externref, *intrinsic),
        _ => false,
    }
}

fn has_memory(memories: &[Option<Memory>]) -> bool
    ensures test { result ≡ list_any is_some memories.now }
{
    memories.iter().any(|memory| memory.is_some())
}

// Whether one memory stands and no other, and its addresses have 32 bits.
fn has_sole_memory(memories: &[Option<Memory>]) -> bool
    ensures test { result ≡ spec.has_sole_memory memories.now }
{
    for place in 0..memories.len() {
        if let Some(memory) = &memories[place] {
            return !memory.limits.wide && !has_memory(memories.split_at(place + 1).1);
        }
    }
    false
}

// Whether an item is named, and stands.
fn stands(lowered: &Lowered, item: Option<ExportItem>) -> bool
    ensures test { result ≡ is_some (live_item lowered.now.module item) }
{
    live_item(&lowered.module, item).is_some()
}

// Whether there is such a memory, which an id names.
fn memory_there(lowered: &Lowered) -> bool
    ensures test { result ≡ spec.memory_there lowered.now }
{
    let module = &lowered.module;
    has_sole_memory(module.memories()) && stands(lowered, first_memory(module))
}

// A part of this name, where it isn't there.
fn lacked_unless(there: bool, part: &'static str) -> Option<&'static str>
    ensures part { option_copied result ≡ spec.lacked_unless there part.now }
{
    if there { None } else { Some(part) }
}

// The part that an intrinsic needs and lacks.
fn lacked_part(lowered: &Lowered, intrinsic: Intrinsic) -> Option<&'static str>
    ensures part { option_copied result ≡ spec.lacked_part lowered.now intrinsic }
{
    match intrinsic {
        Intrinsic::Memory | Intrinsic::StringFromUtf8Lossy => {
            lacked_unless(memory_there(lowered), "memory")
        }
        Intrinsic::FunctionTable => {
            let table = table_item(lowered.aux.function_table);
            lacked_unless(stands(lowered, table), "function_table")
        }
        Intrinsic::InitExternrefTable => {
            let table = table_item(lowered.aux.externref_table);
            lacked_unless(stands(lowered, table), "externref_table")
        }
        _ => None,
    }
}

// What an import needs and lacks.
fn lacking(settings: &Settings, lowered: &Lowered, import: &AuxImport) -> Option<&'static str>
    ensures part { option_copied result ≡ spec.lacking settings.now lowered.now import.now }
{
    match import {
        AuxImport::Intrinsic(intrinsic) => {
            if is_excluded(settings.externref, *intrinsic) {
                Some("externref")
            } else {
                lacked_part(lowered, *intrinsic)
            }
        }
        _ => None,
    }
}

// The first part that a described import lacks.
fn first_lacked(settings: &Settings, lowered: &Lowered) -> Option<&'static str>
    ensures first { option_copied result ≡ first_of (spec.entry_lacks settings.now lowered.now) lowered.now.aux.imports }
{
    for entry in lowered.aux.imports.as_slice() {
        let part = lacking(settings, lowered, &entry.1);
        if part.is_some() {
            return part;
        }
    }
    None
}

// Whether an object is lent.
fn lends(instruction: &Instruction) -> bool
    ensures test { result ≡ spec.lends instruction.now }
{
    matches!(instruction, Instruction::IndexFromBorrow)
}

// Whether code does that.
fn code_lends(code: &[Instruction]) -> bool
    ensures test { result ≡ list_any spec.lends code.now }
{
    code.iter().any(|instruction| lends(instruction))
}

// The name of a part in a description.
fn part_name(part: ReferencePart) -> &'static str
    ensures name { result.now ≡ spec.part_name part }
{
    match part {
        ReferencePart::Alloc => "externref_alloc",
        ReferencePart::Drop => "externref_drop",
        ReferencePart::DropSlice => "externref_drop_slice",
        ReferencePart::Table => "externref_table",
    }
}

// Whether an instruction goes by a part that isn't there.
fn lacks_part(lowered: &Lowered, part: ReferencePart, instruction: &Instruction) -> bool
    ensures test { result ≡ spec.lacks_part lowered.now part instruction.now }
{
    goes_by(instruction, part) && !part_item(lowered, part).is_some()
}

// Whether code does.
fn code_lacks_part(lowered: &Lowered, part: ReferencePart, code: &[Instruction]) -> bool
    ensures test { result ≡ list_any (spec.lacks_part lowered.now part) code.now }
{
    code.iter()
        .any(|instruction| lacks_part(lowered, part, instruction))
}

// A part that code lacks.
fn part_lacked(lowered: &Lowered, code: &[Instruction], part: ReferencePart) -> Option<&'static str>
    ensures part { option_copied result ≡ spec.part_lacked lowered.now code.now part }
{
    lacked_unless(!code_lacks_part(lowered, part, code), part_name(part))
}

// The first of some parts that code lacks.
fn first_part(
    lowered: &Lowered,
    code: &[Instruction],
    parts: &[ReferencePart],
) -> Option<&'static str>
    ensures first { option_copied result ≡ first_of (spec.part_lacked lowered.now code.now) parts.now }
{
    for part in parts {
        let lacked = part_lacked(lowered, code, *part);
        if lacked.is_some() {
            return lacked;
        }
    }
    None
}

// What code lacks where values are kept in a table of references.
fn reference_lacked(
    externref: bool,
    lowered: &Lowered,
    code: &[Instruction],
) -> Option<&'static str>
    ensures first { option_copied result ≡ spec.reference_lacked externref lowered.now code.now }
{
    if !externref {
        return None;
    }
    if code_lends(code) {
        return Some("externref");
    }
    first_part(lowered, code, &REFERENCE_PARTS)
}

// Whether a memory stands and has addresses of 64 bits.
fn is_wide_memory(memories: &[Option<Memory>], id: MemoryId) -> bool
    ensures test { result ≡ spec.is_wide_memory (entry_at memories.now id.0) }
{
    match memories.get(id.0 as usize) {
        Some(Some(memory)) => memory.limits.wide,
        _ => false,
    }
}

// Whether an item is one.
fn is_wide(lowered: &Lowered, item: ExportItem) -> bool
    ensures test { result ≡ spec.is_wide lowered.now item }
{
    match item {
        ExportItem::Memory(id) => is_wide_memory(lowered.module.memories(), id),
        _ => false,
    }
}

// Whether an id of an instruction names one.
fn names_wide(
    alloc: Global,
    lowered: &Lowered,
    instruction: &Instruction,
) -> Result<bool, AllocError>
    ensures test { IfOk result (λ test. test ≡ spec.names_wide lowered.now instruction.now) }
{
    let mut named = Vec::new(alloc);
    push_instruction(&mut named, instruction)?;
    Ok(named.iter().any(|item| is_wide(lowered, *item)))
}

// Whether an id of code does.
fn code_names_wide(
    alloc: Global,
    lowered: &Lowered,
    code: &[Instruction],
) -> Result<bool, AllocError>
    ensures test { IfOk result (λ test. test ≡ list_any (spec.names_wide lowered.now) code.now) }
{
    for instruction in code {
        if names_wide(alloc, lowered, instruction)? {
            return Ok(true);
        }
    }
    Ok(false)
}

// What code lacks of memories.
fn memory_lacked(
    alloc: Global,
    lowered: &Lowered,
    code: &[Instruction],
) -> Result<Option<&'static str>, AllocError>
    ensures part { IfOk result (λ part. option_copied part ≡ spec.memory_lacked lowered.now code.now) }
{
    let wide = code_names_wide(alloc, lowered, code)?;
    Ok(lacked_unless(!wide, "memory"))
}

// What code lacks of the stack of the module.
fn stack_lacked(lowered: &Lowered, code: &[Instruction]) -> Option<&'static str>
    ensures part { option_copied result ≡ spec.stack_lacked lowered.now code.now }
{
    lacked_unless(!makes_room(code) || has_stack(lowered), "stack_pointer")
}

// Whether code makes a closure.
fn makes_any(code: &[Instruction]) -> bool
    ensures test { result ≡ list_any needed.makes_closure code.now }
{
    code.iter().any(|instruction| makes_closure(instruction))
}

// What code lacks for closures.
fn closure_lacked(lowered: &Lowered, code: &[Instruction]) -> Option<&'static str>
    ensures part { option_copied result ≡ spec.closure_lacked lowered.now code.now }
{
    lacked_unless(
        !makes_any(code) || destroyer_item(lowered).is_some(),
        "destroy_closure",
    )
}

// The first part that code lacks beside closures.
fn passing_lacks(
    alloc: Global,
    settings: &Settings,
    lowered: &Lowered,
    code: &[Instruction],
) -> Result<Option<&'static str>, AllocError>
    ensures first { IfOk result (λ part. option_copied part ≡ option_or (spec.reference_lacked settings.now.externref lowered.now code.now) (option_or (spec.memory_lacked lowered.now code.now) (spec.stack_lacked lowered.now code.now))) }
{
    match reference_lacked(settings.externref, lowered, code) {
        Some(part) => Ok(Some(part)),
        None => match memory_lacked(alloc, lowered, code)? {
            Some(part) => Ok(Some(part)),
            None => Ok(stack_lacked(lowered, code)),
        },
    }
}

// The first part that code lacks.
fn code_lacks(
    alloc: Global,
    settings: &Settings,
    lowered: &Lowered,
    code: &[Instruction],
) -> Result<Option<&'static str>, AllocError>
    ensures first { IfOk result (λ part. option_copied part ≡ spec.code_lacks settings.now lowered.now code.now) }
{
    match closure_lacked(lowered, code) {
        Some(part) => Ok(Some(part)),
        None => passing_lacks(alloc, settings, lowered, code),
    }
}

// The first part that an adapter lacks.
fn adapter_lacks(
    alloc: Global,
    settings: &Settings,
    lowered: &Lowered,
    id: AdapterId,
    adapter: &Adapter,
) -> Result<Option<&'static str>, AllocError>
    ensures first { IfOk result (λ part. option_copied part ≡ spec.adapter_lacks settings.now lowered.now (id, adapter.now)) }
{
    match &adapter.kind {
        AdapterKind::Local(code) => code_lacks(alloc, settings, lowered, code.as_slice()),
        AdapterKind::Import(_) => code_lacks(alloc, settings, lowered, &[]),
    }
}

// The first part that one of the adapters lacks.
fn first_of_adapters(
    alloc: Global,
    settings: &Settings,
    lowered: &Lowered,
) -> Result<Option<&'static str>, AllocError>
    ensures first { IfOk result (λ part. option_copied part ≡ first_of (spec.adapter_lacks settings.now lowered.now) lowered.now.wit.adapters) }
{
    for (id, adapter) in lowered.wit.adapters.iter() {
        let part = adapter_lacks(alloc, settings, lowered, *id, adapter)?;
        if part.is_some() {
            return Ok(part);
        }
    }
    Ok(None)
}

// The first part that is lacking to hand on what an import throws.
fn handing_lacks(
    alloc: Global,
    settings: &Settings,
    lowered: &Lowered,
) -> Result<Option<&'static str>, AllocError>
    ensures first { IfOk result (λ part. option_copied part ≡ spec.handing_lacks settings.now lowered.now) }
{
    match lacked_unless(store_item(lowered).is_some(), "exn_store") {
        Some(part) => Ok(Some(part)),
        None => code_lacks(alloc, settings, lowered, &[Instruction::IndexFromOwned]),
    }
}

// That part, where the glue file catches what an import throws.
fn catch_lacks(
    alloc: Global,
    settings: &Settings,
    lowered: &Lowered,
) -> Result<Option<&'static str>, AllocError>
    ensures first { IfOk result (λ part. option_copied part ≡ spec.catch_lacks settings.now lowered.now) }
{
    if catches(alloc, settings, lowered)? {
        handing_lacks(alloc, settings, lowered)
    } else {
        Ok(None)
    }
}

// The first part that a described import or else what is caught lacks.
fn import_lacks(
    alloc: Global,
    settings: &Settings,
    lowered: &Lowered,
) -> Result<Option<&'static str>, AllocError>
    ensures first { IfOk result (λ part. option_copied part ≡ option_or (first_of (spec.entry_lacks settings.now lowered.now) lowered.now.aux.imports) (spec.catch_lacks settings.now lowered.now)) }
{
    match first_lacked(settings, lowered) {
        Some(part) => Ok(Some(part)),
        None => catch_lacks(alloc, settings, lowered),
    }
}

// The first part that an adapter or else one of these lacks.
fn first_missing(
    alloc: Global,
    settings: &Settings,
    lowered: &Lowered,
) -> Result<Option<&'static str>, AllocError>
    ensures first { IfOk result (λ part. option_copied part ≡ spec.first_missing settings.now lowered.now) }
{
    match first_of_adapters(alloc, settings, lowered)? {
        Some(part) => Ok(Some(part)),
        None => import_lacks(alloc, settings, lowered),
    }
}

/// That an adapter, a described import or what catches what an import throws lacks a part that it needs: a table, a function or a global by the
/// name that it has in the description; `memory`, where a memory has addresses of 64 bits, or the one that an import gives isn't there or isn't
/// the only one; or `externref`, where references would have to be kept in the other way. Want of memory is the only error.
pub(crate) fn missing_part(
    alloc: Global,
    settings: &Settings,
    lowered: &Lowered,
) -> Result<Option<Fault>, AllocError>
    ensures fault { IfOk result (λ fault. fault ≡ spec.missing_part settings.now lowered.now) }
{
    match first_missing(alloc, settings, lowered)? {
        None => Ok(None),
        Some(part) => Ok(Some(Fault::MissingPart {
            part: Text::from_str(alloc, part)?,
        })),
    }
}
