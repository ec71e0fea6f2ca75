//! The lists of the texts of string enums: a constant for each string enum that is named by an adapter with a printed
//! function.
ghost use Rattle.std.specs.Prelude.{◌≡◌, IfOk, filter, map};
ghost use Rattle.glue_naming.specs.Arranged.{IsArranged};
ghost use Rattle.glue_context.specs.ListedItems as spec;

use glue_lines::texts_constant;
use glue_names::values_name;
use glue_shared::{AuxStringEnum, Lowered, Settings};
use glue_words::Item;
use printed_adapters::{NameSet, named_enums};
use std::alloc::{AllocError, Global};
use std::cmp::Ordering;
use values::Seq;

// Whether the name of an enum is one of these.
fn is_chosen(named: &NameSet, texts: &AuxStringEnum) -> bool
    ensures test { result ≡ spec.is_chosen named.now texts.now }
{
    named.has(texts.name.as_str())
}

// The enums with one of these names.
fn enums_named<'a>(
    alloc: Global,
    named: &NameSet,
    enums: &'a [AuxStringEnum],
) -> Result<Vec<&'a AuxStringEnum>, AllocError>
    ensures chosen { IfOk result (λ chosen. map (λ e. e.now) chosen.items ≡ filter (spec.is_chosen named.now) enums.now) }
{
    let mut chosen = Vec::new(alloc);
    for texts in enums {
        if is_chosen(named, texts) {
            chosen.push(texts)?;
        }
    }
    Ok(chosen)
}

// Whether an enum comes before another, or after it.
fn enum_order(a: &AuxStringEnum, b: &AuxStringEnum) -> Ordering
    ensures order { result ≡ spec.enum_order a.now b.now }
{
    a.name.cmp(&b.name)
}

// Those by name.
fn enums_by_name<'a>(
    alloc: Global,
    named: &NameSet,
    enums: &'a [AuxStringEnum],
) -> Result<Vec<&'a AuxStringEnum>, AllocError>
    ensures sorted { IfOk result (λ sorted. IsArranged spec.enum_order (filter (spec.is_chosen named.now) enums.now) (map (λ e. e.now) sorted.items)) }
{
    let mut sorted = enums_named(alloc, named, enums)?;
    sorted.sort_by(|a, b| enum_order(a, b))?;
    Ok(sorted)
}

// The list of an enum's texts.
fn list_item(alloc: Global, texts: &AuxStringEnum) -> Result<Item, AllocError>
    ensures item { IfOk result (λ item. item ≡ spec.list_item texts.now) }
{
    let name = values_name(alloc, texts)?;
    texts_constant(alloc, name.as_str(), texts.variants.as_slice())
}

// The lists of these enums.
fn list_items(alloc: Global, enums: &[&AuxStringEnum]) -> Result<Seq<Item>, AllocError>
    ensures items { IfOk result (λ items. items ≡ spec.list_items (map (λ e. e.now) enums.now)) }
{
    let mut items = Seq::new(alloc);
    for texts in enums {
        items.push(list_item(alloc, texts)?)?;
    }
    Ok(items)
}

/// The lists of the texts of the string enums that are named by adapters with a printed function, by name. Want of memory is the only error.
pub(crate) fn enum_lists(
    alloc: Global,
    settings: &Settings,
    lowered: &Lowered,
) -> Result<Seq<Item>, AllocError>
    ensures lists { IfOk result (λ lists. spec.AreLists settings.now lowered.now lists) }
{
    let named = named_enums(alloc, settings, lowered)?;
    let enums = enums_by_name(alloc, &named, lowered.aux.string_enums.as_slice())?;
    let lists = list_items(alloc, enums.as_slice())?;
    Ok(lists)
}
