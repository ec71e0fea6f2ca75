//! Calls that bring helpers into a glue file. `parts` says what their texts depend on.
//!
//! - `helper`: `text` is the text of the helper with the key `key` alone; null where there is none.
//! - `helpers`: `keys` are the keys of the helpers that `needed` ones ask for, or `text` is the text of these helpers.
//! - `asked`: `keys` are those of the helpers for which `items` ask, each a list of names to which an item refers.
use crate::compared::{list_difference, optional_difference, wanted_text};
use crate::parts::parts_of;
use glue_words::{Item, Role, Word, print};
use helper_table::{HelperParts, close, close_over};
use rows::{RowFault, array_at, opt_text_at, text_at, text_difference, text_of};
use serde_json::Value;
use std::alloc::{AllocError, Global};
use std::slice;
use values::{Seq, Text};

/// The first difference of a row with one of these calls.
pub fn difference(alloc: Global, row: &Value) -> Result<Option<String>, RowFault> {
    let parts = parts_of(alloc, row)?;
    match text_at(row, "call")? {
        "helper" => helper_difference(alloc, &parts, row),
        "helpers" => helpers_difference(alloc, &parts, row),
        "asked" => asked_difference(alloc, &parts, row),
        _ => Err(RowFault::Row),
    }
}

// The key of a helper's item.
fn key_of(item: &Item) -> Option<&Text> {
    match &item.role {
        Role::Helper(key) => Some(key),
        _ => None,
    }
}

// The text of the helper with a key, where it is one of these items.
fn text_of_helper(alloc: Global, items: &[Item], key: &Text) -> Result<Option<String>, AllocError> {
    for item in items {
        if key_of(item).is_some_and(|own| own.is_same(key)) {
            return Ok(Some(print(alloc, slice::from_ref(item))?));
        }
    }
    Ok(None)
}

fn helper_difference(
    alloc: Global,
    parts: &HelperParts,
    row: &Value,
) -> Result<Option<String>, RowFault> {
    let want = wanted_text(row)?;
    let needed = [Text::from_str(alloc, text_at(row, "key")?)?];
    let items = close(alloc, parts, &needed)?;
    let text = text_of_helper(alloc, items.as_slice(), &needed[0])?;
    Ok(optional_difference(alloc, "text", text.as_deref(), want)?)
}

// The keys of these items.
fn keys_of(alloc: Global, items: &[Item]) -> Result<Seq<Text>, AllocError> {
    let mut keys = Seq::new(alloc);
    for item in items {
        if let Some(key) = key_of(item) {
            keys.push(Text::from_str(alloc, key.as_str())?)?;
        }
    }
    Ok(keys)
}

fn keys_difference(alloc: Global, items: &[Item], row: &Value) -> Result<Option<String>, RowFault> {
    let keys = keys_of(alloc, items)?;
    list_difference(alloc, row, "keys", keys.as_slice())
}

fn items_difference(
    alloc: Global,
    items: &[Item],
    row: &Value,
) -> Result<Option<String>, RowFault> {
    match opt_text_at(row, "text")? {
        None => keys_difference(alloc, items, row),
        Some(want) => {
            let text = print(alloc, items)?;
            Ok(text_difference(alloc, "text", text.as_str(), want)?)
        }
    }
}

// These texts.
fn names_of(alloc: Global, values: &[Value]) -> Result<Vec<Text>, RowFault> {
    let mut names = Vec::new(alloc);
    for value in values {
        names.push(Text::from_str(alloc, text_of(value)?)?)?;
    }
    Ok(names)
}

fn helpers_difference(
    alloc: Global,
    parts: &HelperParts,
    row: &Value,
) -> Result<Option<String>, RowFault> {
    let needed = names_of(alloc, array_at(row, "needed")?)?;
    let items = close(alloc, parts, needed.as_slice())?;
    items_difference(alloc, items.as_slice(), row)
}

// An item whose words refer to these names, with a local name that a helper binds behind each.
fn referring(alloc: Global, names: &[Value]) -> Result<Item, RowFault> {
    let mut words = Seq::new(alloc);
    for name in names {
        let name = Text::from_str(alloc, text_of(name)?)?;
        words.push(Word::Refer(name, false))?;
        words.push(Word::Local(Text::from_str(alloc, "heap")?))?;
    }
    Ok(Item {
        role: Role::Body,
        words,
    })
}

// The items of these lists.
fn referring_items(alloc: Global, lists: &[Value]) -> Result<Vec<Item>, RowFault> {
    let mut items = Vec::new(alloc);
    for list in lists {
        let Value::Array(names) = list else {
            return Err(RowFault::Row);
        };
        items.push(referring(alloc, names.as_slice())?)?;
    }
    Ok(items)
}

fn asked_difference(
    alloc: Global,
    parts: &HelperParts,
    row: &Value,
) -> Result<Option<String>, RowFault> {
    let items = referring_items(alloc, array_at(row, "items")?)?;
    let group = close_over(alloc, parts, items.as_slice())?;
    keys_difference(alloc, group.as_slice(), row)
}
