//! A whole description.
use crate::entries::keys_fit;
use crate::leaves::{Kind, Leaf, leaf_fits};
use crate::lists::each_fits;
use crate::misfit::{Told, at_key, at_place, said_of};
use crate::objects::{
    ADAPTER, CLASS, ENUM, EXPORT, IMPORT, Item, PARTS, REEXPORT, STRING_ENUM, Table, UNION,
    adapter_fits, export_fits, items_fit, object_fits,
};
use crate::words::{lacking, unfit};
use glue_json::Counts;
use serde_json::Value;
use std::alloc::{AllocError, Global};

// The keys of a description, in the order in which they are read.
const KEYS: &[&str] = &[
    "version",
    "adapters",
    "implements",
    "adapter_exports",
    "exports",
    "imports",
    "catch",
    "variadic",
    "structs",
    "enums",
    "string_enums",
    "unions",
    "reexports",
    "snippets",
    "local_modules",
    "package_jsons",
    "extra_typescript",
    "static_slots",
    "uses_reinit",
    "legacy_exception_handling",
    "parts",
];

const IMPLEMENTS: &[Leaf] = &[Leaf::Place(Kind::Import), Leaf::Number];

const ADAPTER_EXPORTS: &[Leaf] = &[Leaf::Place(Kind::Export), Leaf::Number];

// What an object of this table has to be beside what the table says.
fn rule_fits(alloc: Global, key: &str, value: &Value) -> Result<(), Told> {
    match key {
        "adapters" => adapter_fits(alloc, value),
        "exports" => export_fits(alloc, value),
        _ => Ok(()),
    }
}

// That the value is a list of such objects.
fn objects_fit(
    alloc: Global,
    counts: Option<&Counts>,
    key: &str,
    table: &Table,
    value: &Value,
) -> Result<(), Told> {
    let Value::Array(values) = value else {
        return Err(unfit(alloc, value, "a list"));
    };
    for (place, value) in values.iter().enumerate() {
        at_place(alloc, place, object_fits(alloc, counts, table, value))?;
        at_place(alloc, place, rule_fits(alloc, key, value))?;
    }
    Ok(())
}

// That the value is an object, of which each key holds a list of texts.
fn lists_fit(alloc: Global, value: &Value) -> Result<(), Told> {
    let Value::Object(members) = value else {
        return Err(unfit(
            alloc,
            value,
            "an object, which has a list of texts for each crate",
        ));
    };
    for (key, member) in members.iter() {
        at_key(
            alloc,
            key.as_str(),
            each_fits(alloc, None, Leaf::Text, member),
        )?;
    }
    Ok(())
}

// That the value is an object, of which each key holds a text.
fn texts_fit(alloc: Global, value: &Value) -> Result<(), Told> {
    let Value::Object(members) = value else {
        return Err(unfit(alloc, value, "an object, which has a text for each path"));
    };
    for (key, member) in members.iter() {
        at_key(
            alloc,
            key.as_str(),
            leaf_fits(alloc, None, Leaf::Text, member),
        )?;
    }
    Ok(())
}

// The objects that stand in a list under a key; none where others do.
fn table_of(key: &str) -> Option<Table> {
    match key {
        "adapters" => Some(ADAPTER),
        "exports" => Some(EXPORT),
        "imports" => Some(IMPORT),
        "structs" => Some(CLASS),
        "enums" => Some(ENUM),
        "string_enums" => Some(STRING_ENUM),
        "unions" => Some(UNION),
        "reexports" => Some(REEXPORT),
        _ => None,
    }
}

// That what a key of a description holds fits, where it isn't a list of objects.
fn other_fits(
    alloc: Global,
    counts: Option<&Counts>,
    key: &str,
    value: &Value,
) -> Result<(), Told> {
    match key {
        "version" => leaf_fits(alloc, counts, Leaf::Version, value),
        "implements" => items_fit(alloc, counts, Item::Tuple(IMPLEMENTS), value),
        "adapter_exports" => items_fit(alloc, counts, Item::Tuple(ADAPTER_EXPORTS), value),
        "catch" | "variadic" => each_fits(alloc, counts, Leaf::Number, value),
        "snippets" => lists_fit(alloc, value),
        "local_modules" => texts_fit(alloc, value),
        "static_slots" => each_fits(alloc, counts, Leaf::TextOrNull, value),
        "uses_reinit" | "legacy_exception_handling" => {
            leaf_fits(alloc, counts, Leaf::Truth, value)
        }
        "parts" => object_fits(alloc, counts, &PARTS, value),
        _ => each_fits(alloc, counts, Leaf::Text, value),
    }
}

fn part_fits(alloc: Global, counts: Option<&Counts>, key: &str, value: &Value) -> Result<(), Told> {
    match table_of(key) {
        Some(table) => objects_fit(alloc, counts, key, &table, value),
        None => other_fits(alloc, counts, key, value),
    }
}

// The id of an adapter.
fn id_of(adapter: &Value) -> Option<u64> {
    match adapter.get("id") {
        Some(id) => id.as_u64(),
        None => None,
    }
}

fn twice_words(alloc: Global, id: u64) -> Result<String, AllocError> {
    format!(in alloc; " has the id {id}, which an adapter before it has.")
}

fn twice(alloc: Global, id: u64) -> Told {
    match twice_words(alloc, id) {
        Ok(words) => said_of(alloc, words),
        Err(_) => Told::OutOfMemory,
    }
}

// That no two adapters have one id.
fn ids_differ(alloc: Global, adapters: &[Value]) -> Result<(), Told> {
    let mut seen = values::Map::new(alloc);
    for (place, adapter) in adapters.iter().enumerate() {
        if let Some(id) = id_of(adapter)
            && seen.insert(id, ())?.is_some()
        {
            return at_place(alloc, place, Err(twice(alloc, id)));
        }
    }
    Ok(())
}

/// That the value is a description, as docs/DESCRIPTION.md has it.
pub(crate) fn description_fits(
    alloc: Global,
    counts: Option<&Counts>,
    value: &Value,
) -> Result<(), Told> {
    keys_fit(alloc, value, KEYS, "an object")?;
    if value.get("version").is_none() {
        return Err(lacking(alloc, "version"));
    }
    for key in KEYS {
        if let Some(part) = value.get(*key) {
            at_key(alloc, key, part_fits(alloc, counts, key, part))?;
        }
    }
    match value.get("adapters") {
        Some(Value::Array(adapters)) => {
            at_key(alloc, "adapters", ids_differ(alloc, adapters.as_slice()))
        }
        _ => Ok(()),
    }
}
