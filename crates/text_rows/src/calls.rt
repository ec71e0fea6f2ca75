//! Which module asks which call.
use crate::known::unknown_key;
use crate::{
    declared, heap, helpers, imported, lines, named, names, notation, prepared, public_items,
    published, texts, trees, types, words,
};
use rows::{RowFault, text_at};
use serde_json::Value;
use std::alloc::Global;

/// The first difference between what the row's call answers and what the row wants.
pub fn difference(alloc: Global, row: &Value) -> Result<Option<String>, RowFault> {
    let call = text_at(row, "call")?;
    if let Some(key) = unknown_key(row, call) {
        return Ok(Some(format!(in alloc; "no call {call:?} reads {key:?}")?));
    }
    match call {
        "literal" | "identifier" | "property" | "indented" | "view" => texts::difference(
            alloc, row,
        ),
        "word" => words::difference(alloc, row),
        "marked" | "renamed" | "spread" => notation::difference(alloc, row),
        "known" | "drawn" => names::difference(alloc, row),
        "helper" | "helpers" | "asked" => helpers::difference(alloc, row),
        "heap" => heap::difference(alloc, row),
        "type" | "signature" => types::difference(alloc, row),
        "prepared" => prepared::difference(alloc, row),
        "import_line" | "foreign_line" | "import_lines" | "vendor_constant" | "texts_constant" => {
            lines::difference(alloc, row)
        }
        "qualified_name" | "enum_definition" | "enum_thing" | "exported_item" => {
            declared::difference(alloc, row)
        }
        "define_export" | "tree_items" | "host_names" => trees::difference(alloc, row),
        "described_items" => public_items::difference(alloc, row),
        "thing_clash"
        | "fixed_thing"
        | "bad_reexport"
        | "bad_export_name"
        | "bad_declared_name"
        | "root_names" => published::difference(alloc, row),
        "name_all" | "names_of" | "drawn_imports" => named::difference(alloc, row),
        "import_text" | "import_definition" => imported::difference(alloc, row),
        _ => Err(RowFault::Row),
    }
}
