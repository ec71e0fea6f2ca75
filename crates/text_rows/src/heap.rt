//! The call `heap`: `text` is the text of the part of the object table with the key `key`, where `debug` says whether arguments are tested; null
//! where no part has this key. The item of a part is that of the helper with its key.
use crate::compared::{optional_difference, wanted_text};
use glue_heap::{HeapKey, HeapOptions, heap_item};
use glue_words::{Item, Role, print};
use rows::{RowFault, flag_at, text_at, truth_difference};
use serde_json::Value;
use std::alloc::{AllocError, Global};
use std::slice;

/// The first difference of a row with this call.
pub fn difference(alloc: Global, row: &Value) -> Result<Option<String>, RowFault> {
    let key = text_at(row, "key")?;
    let want = wanted_text(row)?;
    let options = HeapOptions {
        debug: flag_at(row, "debug")?,
    };
    match HeapKey::from_text(key) {
        None => Ok(optional_difference(alloc, "text", None, want)?),
        Some(part) => {
            let item = heap_item(alloc, part, &options)?;
            Ok(item_difference(alloc, &item, key, want)?)
        }
    }
}

// Whether the item is that of the helper with a key.
fn has_key(item: &Item, key: &str) -> bool {
    match &item.role {
        Role::Helper(own) => own.as_str() == key,
        _ => false,
    }
}

fn item_difference(
    alloc: Global,
    item: &Item,
    key: &str,
    want: Option<&str>,
) -> Result<Option<String>, AllocError> {
    let text = print(alloc, slice::from_ref(item))?;
    let told = optional_difference(alloc, "text", Some(text.as_str()), want)?;
    if told.is_some() {
        return Ok(told);
    }
    truth_difference(alloc, "it has the key", has_key(item, key), true)
}
