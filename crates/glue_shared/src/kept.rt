//! What a description keeps of a module.
ghost use Rattle.std.specs.Prelude.{◌≡◌, ◌∷◌, [], ◌++◌, option_map, slice_get, Some, IfOk, OnOk};
ghost use Rattle.std.specs.List.{flat_map, filter};
ghost use Rattle.wasm_core.specs.entries.ExportItem.TheVariants as items;
ghost use Rattle.glue_shared.specs.Names.{code_of};
ghost use Rattle.glue_shared.specs.Roots as spec;

use crate::adapter::{Adapter, AdapterId, AdapterKind, Instruction, NonstandardWitSection};
use crate::aux::WasmBindgenAux;
use crate::description::Lowered;
use std::alloc::{AllocError, Global};
use wasm_core::{
    ExportItem, FuncId, ImportId, ImportKind, Memory, MemoryId, Module, TableId, TagId,
};

// Adds an item, if there is one.
fn push_listed(out: &mut Vec<ExportItem>, item: Option<ExportItem>) -> Result<(), AllocError>
    ensures pushed { OnOk result (out.new.items ≡ out.old.items ++ spec.listed item) }
{
    match item {
        None => Ok(()),
        Some(item) => {
            out.push(item)?;
            Ok(())
        }
    }
}

/// A function as an item that may be exported.
pub fn func_item(id: Option<FuncId>) -> Option<ExportItem>
    ensures item { result ≡ option_map items.Func id }
{
    match id {
        None => None,
        Some(id) => Some(ExportItem::Func(id)),
    }
}

/// A table as an item that may be exported.
pub fn table_item(id: Option<TableId>) -> Option<ExportItem>
    ensures item { result ≡ option_map items.Table id }
{
    match id {
        None => None,
        Some(id) => Some(ExportItem::Table(id)),
    }
}

fn tag_item(id: Option<TagId>) -> Option<ExportItem>
    ensures item { result ≡ option_map items.Tag id }
{
    match id {
        None => None,
        Some(id) => Some(ExportItem::Tag(id)),
    }
}

// Adds what a text that is written to memory needs.
fn push_written(
    out: &mut Vec<ExportItem>,
    malloc: FuncId,
    realloc: Option<FuncId>,
    memory: MemoryId,
) -> Result<(), AllocError>
    ensures pushed { OnOk result (out.new.items ≡ out.old.items ++ items.Func malloc ∷ (spec.listed (option_map items.Func realloc) ++ items.Memory memory ∷ [])) }
{
    out.push(ExportItem::Func(malloc))?;
    push_listed(out, func_item(realloc))?;
    out.push(ExportItem::Memory(memory))?;
    Ok(())
}

/// Adds what the ids of an instruction name. Want of memory is the only error.
pub fn push_instruction(
    out: &mut Vec<ExportItem>,
    instruction: &Instruction,
) -> Result<(), AllocError>
    ensures pushed { OnOk result (out.new.items ≡ out.old.items ++ spec.instruction_items instruction.now) }
{
    match instruction {
        Instruction::StringToMemory(malloc, realloc, memory)
        | Instruction::OptionStringToMemory(malloc, realloc, memory) => {
            push_written(out, *malloc, *realloc, *memory)
        }
        Instruction::DeferFree(free, _) => {
            out.push(ExportItem::Func(*free))?;
            Ok(())
        }
        Instruction::MemoryToString(memory)
        | Instruction::LoadRetptr(_, _, memory)
        | Instruction::StoreRetptr(_, _, memory)
        | Instruction::VecFromWasm(_, memory) => {
            out.push(ExportItem::Memory(*memory))?;
            Ok(())
        }
        Instruction::VecToWasm(_, malloc, memory) => {
            out.push(ExportItem::Func(*malloc))?;
            out.push(ExportItem::Memory(*memory))?;
            Ok(())
        }
        _ => Ok(()),
    }
}

// Adds what code names.
fn push_code(out: &mut Vec<ExportItem>, code: &[Instruction]) -> Result<(), AllocError>
    ensures pushed { OnOk result (out.new.items ≡ out.old.items ++ flat_map spec.instruction_items code.now) }
{
    for instruction in code {
        push_instruction(out, instruction)?;
    }
    Ok(())
}

// Adds what an adapter's code names.
fn push_adapter(out: &mut Vec<ExportItem>, adapter: &Adapter) -> Result<(), AllocError>
    ensures pushed { OnOk result (out.new.items ≡ out.old.items ++ flat_map spec.instruction_items (code_of (Some adapter.now))) }
{
    match &adapter.kind {
        AdapterKind::Local(code) => push_code(out, code.as_slice()),
        AdapterKind::Import(_) => Ok(()),
    }
}

// Adds what the adapters name.
fn push_adapters(out: &mut Vec<ExportItem>, wit: &NonstandardWitSection) -> Result<(), AllocError>
    ensures pushed { OnOk result (out.new.items ≡ out.old.items ++ flat_map spec.adapter_items wit.now.adapters) }
{
    for (_, adapter) in wit.adapters.iter() {
        push_adapter(out, adapter)?;
    }
    Ok(())
}

// The entry that an import brings in.
fn kind_item(kind: ImportKind) -> ExportItem
    ensures item { result ≡ spec.kind_item kind }
{
    match kind {
        ImportKind::Func(id) => ExportItem::Func(id),
        ImportKind::Table(id) => ExportItem::Table(id),
        ImportKind::Memory(id) => ExportItem::Memory(id),
        ImportKind::Global(id) => ExportItem::Global(id),
        ImportKind::Tag(id) => ExportItem::Tag(id),
    }
}

// What the import at a place brings in, where it is there.
fn brought_in(module: &Module, id: ImportId) -> Option<ExportItem>
    ensures item { result ≡ spec.brought_in (slice_get «module».now.imports id.0) }
{
    match module.imports().get(id.0 as usize) {
        Some(Some(import)) => Some(kind_item(import.kind)),
        Some(None) => None,
        None => None,
    }
}

// Adds what the imports that adapters define bring in.
fn push_imports(
    out: &mut Vec<ExportItem>,
    module: &Module,
    pairs: &[(ImportId, AdapterId)],
) -> Result<(), AllocError>
    ensures pushed { OnOk result (out.new.items ≡ out.old.items ++ flat_map (spec.import_items «module».now) pairs.now) }
{
    for pair in pairs {
        push_listed(out, brought_in(module, pair.0))?;
    }
    Ok(())
}

// Adds the items of a list, where there are any.
fn push_all(out: &mut Vec<ExportItem>, parts: &[Option<ExportItem>]) -> Result<(), AllocError>
    ensures pushed { OnOk result (out.new.items ≡ out.old.items ++ flat_map spec.listed parts.now) }
{
    for part in parts {
        push_listed(out, *part)?;
    }
    Ok(())
}

// Adds the parts that a description names.
fn push_parts(out: &mut Vec<ExportItem>, aux: &WasmBindgenAux) -> Result<(), AllocError>
    ensures pushed { OnOk result (out.new.items ≡ out.old.items ++ flat_map spec.listed (spec.part_items aux.now)) }
{
    let stack_pointer = match aux.stack_pointer {
        None => None,
        Some(id) => Some(ExportItem::Global(id)),
    };
    push_all(
        out,
        &[
            func_item(aux.exn_store),
            func_item(aux.externref_alloc),
            func_item(aux.externref_drop),
            func_item(aux.externref_drop_slice),
            func_item(aux.destroy_closure),
            func_item(aux.rethrow_critical),
            table_item(aux.externref_table),
            table_item(aux.function_table),
            stack_pointer,
            tag_item(aux.js_tag),
            tag_item(aux.wrapped_js_tag),
        ],
    )
}

// The place of the first memory that is there.
fn place_of_first(memories: &[Option<Memory>]) -> Option<usize>
    ensures place { result ≡ spec.first_place 0 memories.now }
{
    let mut place = 0;
    for memory in memories {
        if memory.is_some() {
            return Some(place);
        }
        place += 1;
    }
    None
}

/// The first memory of a module, where there is one that an id can name.
pub fn first_memory(module: &Module) -> Option<ExportItem>
    ensures item { result ≡ spec.first_memory «module».now }
{
    match place_of_first(module.memories()) {
        Some(place) if place < 4_294_967_296 => Some(ExportItem::Memory(MemoryId(place as u32))),
        _ => None,
    }
}

// Whether there is an entry at a place.
fn has_entry<T>(entries: &[Option<T>], place: u32) -> bool
    ensures test { result ≡ spec.is_entry (slice_get entries.now place) }
{
    match entries.get(place as usize) {
        Some(entry) => entry.is_some(),
        None => false,
    }
}

/// Whether an item is there.
pub fn is_live_item(module: &Module, item: ExportItem) -> bool
    ensures test { result ≡ spec.is_live_item «module».now item }
{
    match item {
        ExportItem::Func(id) => has_entry(module.funcs(), id.0),
        ExportItem::Table(id) => has_entry(module.tables(), id.0),
        ExportItem::Memory(id) => has_entry(module.memories(), id.0),
        ExportItem::Global(id) => has_entry(module.globals(), id.0),
        ExportItem::Tag(id) => has_entry(module.tags(), id.0),
    }
}

/// An item, where it is there.
pub fn live_item(module: &Module, item: Option<ExportItem>) -> Option<ExportItem>
    ensures live { result ≡ spec.live_item «module».now item }
{
    match item {
        Some(item) if is_live_item(module, item) => Some(item),
        _ => None,
    }
}

// What the ids of a description name, and the first memory.
#[tactic(auto, unfolding(crate::specs::Roots::named_items))]
fn named(alloc: Global, lowered: &Lowered) -> Result<Vec<ExportItem>, AllocError>
    ensures named { IfOk result (λ v. v.items ≡ spec.named_items lowered.now.«module» lowered.now.wit lowered.now.aux) }
{
    let mut found = Vec::new(alloc);
    push_adapters(&mut found, &lowered.wit)?;
    push_imports(
        &mut found,
        &lowered.module,
        lowered.wit.implements.as_slice(),
    )?;
    push_parts(&mut found, &lowered.aux)?;
    push_listed(&mut found, first_memory(&lowered.module))?;
    Ok(found)
}

/// Keeps the items that are there.
pub fn keep_live(found: &mut Vec<ExportItem>, module: &Module)
    ensures kept { found.new.items ≡ filter (spec.is_live_item «module».now) found.old.items }
{
    found.retain(|item| is_live_item(module, *item));
}

/// The entries of the module that the ids of the description name, and its first memory. What is reached from them, from
/// the exports and from the start function has to stay in the module.
#[tactic(auto, unfolding(crate::specs::Roots::roots_of))]
pub fn roots(alloc: Global, lowered: &Lowered) -> Result<Vec<ExportItem>, AllocError>
    ensures roots { IfOk result (λ v. v.items ≡ spec.roots_of lowered.now) }
{
    let mut found = named(alloc, lowered)?;
    keep_live(&mut found, &lowered.module);
    Ok(found)
}
