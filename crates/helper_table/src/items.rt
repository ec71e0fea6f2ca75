//! The items of helpers, for the parts that their texts depend on.
ghost use Rattle.std.specs.Prelude.{◌≡◌, ◌+◌, ◌*◌, ◌^◌, ◌<◌, IfOk};
ghost use Rattle.helper_table.specs.Made as spec;

use crate::kinds::{FAMILIES, FAMILY, Family, MemoryHelper, SINGLE, SINGLES, Single, TableHelper};
use crate::parts::{EncoderForm, HelperParts};
use glue_heap::{HeapOptions, heap_item};
use glue_helpers::closures::{ClosureHelper, closure_helper};
use glue_helpers::{PlainHelper, arrays, errors, externref, plain_helper, strings, views};
use glue_words::{Item, Word};
use std::alloc::{AllocError, Global};
use values::Seq;

// The form of a helper without stand-ins.
fn formed(parts: &HelperParts, helper: PlainHelper) -> PlainHelper
    ensures form { result ≡ spec.formed parts.now helper }
{
    match helper {
        PlainHelper::TextDecoder => {
            if parts.browser {
                PlainHelper::BrowserTextDecoder
            } else {
                PlainHelper::TextDecoder
            }
        }
        PlainHelper::TextEncoder => match parts.encoder {
            EncoderForm::Own => PlainHelper::TextEncoder,
            EncoderForm::Tested => PlainHelper::TestedTextEncoder,
            EncoderForm::Copying => PlainHelper::CopyingTextEncoder,
        },
        other => other,
    }
}

// The helper that hands what an import throws to the module.
fn handle_error(alloc: Global, parts: &HelperParts) -> Result<Option<Item>, AllocError>
    ensures item { IfOk result (λ item. item ≡ spec.error_handled parts.now.externref parts.now.table parts.now.exn_store) }
{
    let Some(store) = &parts.exn_store else {
        return Ok(None);
    };
    if parts.externref {
        let Some(table) = &parts.table else {
            return Ok(None);
        };
        let item = errors::handle_error_by_table(alloc, table.place, store.as_str())?;
        Ok(Some(item))
    } else {
        Ok(Some(errors::handle_error_by_heap(alloc, store.as_str())?))
    }
}

// A helper for closures.
fn closure(
    alloc: Global,
    parts: &HelperParts,
    helper: ClosureHelper,
) -> Result<Option<Item>, AllocError>
    ensures item { IfOk result (λ item. item ≡ spec.closure_made helper parts.now.destroy_closure) }
{
    match &parts.destroy_closure {
        None => Ok(None),
        Some(destroy) => Ok(Some(closure_helper(alloc, helper, destroy.as_str())?)),
    }
}

// A helper that goes by no memory and no table.
fn single_item(
    alloc: Global,
    parts: &HelperParts,
    helper: Single,
) -> Result<Option<Item>, AllocError>
    ensures item { IfOk result (λ item. item ≡ spec.single_item parts.now helper) }
{
    match helper {
        Single::Heap(key) => {
            let options = HeapOptions { debug: parts.debug };
            Ok(Some(heap_item(alloc, key, &options)?))
        }
        Single::Plain(helper) => Ok(Some(plain_helper(alloc, formed(parts, helper))?)),
        Single::Closure(helper) => closure(alloc, parts, helper),
        Single::HandleError => handle_error(alloc, parts),
    }
}

// The helper that gives an array of values.
fn get_values(alloc: Global, parts: &HelperParts, memory: u32) -> Result<Option<Item>, AllocError>
    ensures item { IfOk result (λ item. item ≡ spec.values_got parts.now.externref parts.now.table parts.now.externref_drop_slice memory) }
{
    if !parts.externref {
        return Ok(Some(arrays::get_values_by_heap(alloc, memory)?));
    }
    let Some(table) = &parts.table else {
        return Ok(None);
    };
    let Some(free) = &parts.externref_drop_slice else {
        return Ok(None);
    };
    let item = arrays::get_values_by_table(alloc, memory, table.name.as_str(), free.as_str())?;
    Ok(Some(item))
}

// The helper that passes an array of values.
fn pass_values(alloc: Global, parts: &HelperParts, memory: u32) -> Result<Option<Item>, AllocError>
    ensures item { IfOk result (λ item. item ≡ spec.values_passed parts.now.externref parts.now.table memory) }
{
    if !parts.externref {
        return Ok(Some(arrays::pass_values_by_heap(alloc, memory)?));
    }
    match &parts.table {
        None => Ok(None),
        Some(table) => {
            let item = arrays::pass_values_by_table(alloc, memory, table.place)?;
            Ok(Some(item))
        }
    }
}

// A helper that goes by a memory, where it is exported under this name.
fn memory_item(
    alloc: Global,
    parts: &HelperParts,
    helper: MemoryHelper,
    memory: u32,
    export: &str,
) -> Result<Option<Item>, AllocError>
    ensures item { IfOk result (λ item. item ≡ spec.memory_item parts.now helper memory export.now) }
{
    match helper {
        MemoryHelper::ArrayView(element) => {
            Ok(Some(views::array_view(alloc, element, memory, export)?))
        }
        MemoryHelper::DataView => Ok(Some(views::data_view(alloc, memory, export)?)),
        MemoryHelper::GetArray(element) => Ok(Some(arrays::get_array(alloc, element, memory)?)),
        MemoryHelper::PassArray(width) => Ok(Some(arrays::pass_array(alloc, width, memory)?)),
        MemoryHelper::GetString => Ok(Some(strings::get_string(alloc, memory)?)),
        MemoryHelper::PassString => Ok(Some(strings::pass_string(alloc, memory, parts.debug)?)),
        MemoryHelper::GetValues => get_values(alloc, parts, memory),
        MemoryHelper::PassValues => pass_values(alloc, parts, memory),
    }
}

// A helper that goes by the table of references.
fn table_item(
    alloc: Global,
    parts: &HelperParts,
    helper: TableHelper,
    place: u32,
    export: &str,
) -> Result<Option<Item>, AllocError>
    ensures item { IfOk result (λ item. item ≡ spec.table_item parts.now helper place export.now) }
{
    match helper {
        TableHelper::Add => match &parts.externref_alloc {
            None => Ok(None),
            Some(allocate) => {
                let item = externref::add_to_table(alloc, place, export, allocate.as_str())?;
                Ok(Some(item))
            }
        },
        TableHelper::Get => Ok(Some(externref::get_from_table(alloc, place, export)?)),
        TableHelper::Take => match &parts.externref_drop {
            None => Ok(None),
            Some(free) => {
                let item = externref::take_from_table(alloc, place, export, free.as_str())?;
                Ok(Some(item))
            }
        },
    }
}

// A helper that goes by the memory at a place.
fn placed_by_memory(
    alloc: Global,
    parts: &HelperParts,
    helper: MemoryHelper,
    place: u32,
) -> Result<Option<Item>, AllocError>
    ensures item { IfOk result (λ item. item ≡ spec.family_item parts.now (Family.Memory helper) place) }
{
    match parts.memories.get(place as usize) {
        None => Ok(None),
        Some(None) => Ok(None),
        Some(Some(export)) => memory_item(alloc, parts, helper, place, export.as_str()),
    }
}

// A helper that goes by the table of references at a place.
fn placed_by_table(
    alloc: Global,
    parts: &HelperParts,
    helper: TableHelper,
    place: u32,
) -> Result<Option<Item>, AllocError>
    ensures item { IfOk result (λ item. item ≡ spec.family_item parts.now (Family.Table helper) place) }
{
    match &parts.table {
        None => Ok(None),
        Some(table) => {
            if table.place == place {
                table_item(alloc, parts, helper, place, table.name.as_str())
            } else {
                Ok(None)
            }
        }
    }
}

// A helper that goes by the memory or the table at a place.
fn family_item(
    alloc: Global,
    parts: &HelperParts,
    helper: Family,
    place: u32,
) -> Result<Option<Item>, AllocError>
    ensures item { IfOk result (λ item. item ≡ spec.family_item parts.now helper place) }
{
    match helper {
        Family::Memory(helper) => placed_by_memory(alloc, parts, helper, place),
        Family::Table(helper) => placed_by_table(alloc, parts, helper, place),
    }
}

/// The item of the helper with a number, where its parts are there. Want of memory is the only error, as of the call below.
pub fn helper_item(
    alloc: Global,
    parts: &HelperParts,
    node: usize,
) -> Result<Option<Item>, AllocError>
    requires node { node < SINGLES + FAMILIES * 2 ^ 32 }
    ensures item { IfOk result (λ item. item ≡ spec.helper_item parts.now node) }
{
    if node < SINGLES {
        single_item(alloc, parts, SINGLE[node])
    } else {
        let place = node - SINGLES;
        family_item(
            alloc,
            parts,
            FAMILY[place % FAMILIES],
            (place / FAMILIES) as u32,
        )
    }
}

/// Whether it is there.
pub fn is_there(alloc: Global, parts: &HelperParts, node: usize) -> Result<bool, AllocError>
    requires node { node < SINGLES + FAMILIES * 2 ^ 32 }
    ensures there { IfOk result (λ there. there ≡ spec.is_there (spec.helper_item parts.now node)) }
{
    Ok(helper_item(alloc, parts, node)?.is_some())
}

/// Its words; none where it isn't there.
pub fn helper_words(
    alloc: Global,
    parts: &HelperParts,
    node: usize,
) -> Result<Seq<Word>, AllocError>
    requires node { node < SINGLES + FAMILIES * 2 ^ 32 }
    ensures words { IfOk result (λ words. words ≡ spec.helper_words parts.now node) }
{
    match helper_item(alloc, parts, node)? {
        None => Ok(Seq::new(alloc)),
        Some(Item { role: _, words }) => Ok(words),
    }
}

/// How many helpers have a number: each that goes by no memory and no table, and the others for each place.
pub fn count(parts: &HelperParts) -> usize
    ensures count { result ≡ spec.count parts.now }
{
    let memories = parts.memories.len();
    let tables = match &parts.table {
        None => 0,
        Some(table) => table.place as usize + 1,
    };
    SINGLES + FAMILIES * memories.max(tables).min(1 << 32)
}
