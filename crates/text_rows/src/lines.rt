//! Calls that print the lines which take names of other modules, and constants. `es` is the text in the form of an ES module, and `commonjs`,
//! where it stands, that in the form of a CommonJS module.
//!
//! - `import_line`: the line of `module`, which takes the `entries`, pairs of a name and the one that it is bound to.
//! - `foreign_line`: the line of `module`, which is taken whole under `number`.
//! - `import_lines`: the lines of `imports`, pairs of what an import begins with and the name that it is bound to.
//! - `vendor_constant`: `text` is the constant `bound` of the name `vendor` and its `prefixes`.
//! - `texts_constant`: `text` is the constant `bound` of the list `texts`.
use crate::described::{bound_import, pair_of, texts_of};
use glue_lines::{
    LineForm, foreign_line, import_line, import_lines, texts_constant, vendor_constant,
};
use glue_shared::JsImportName;
use glue_words::{Item, print};
use rows::{RowFault, array_at, number_at, opt_text_at, text_at, text_difference, text_of};
use serde_json::Value;
use std::alloc::{AllocError, Global};
use std::slice;
use values::{Seq, Text};

/// The first difference of a row with one of these calls.
pub fn difference(alloc: Global, row: &Value) -> Result<Option<String>, RowFault> {
    match text_at(row, "call")? {
        "vendor_constant" => constant_difference(alloc, constant_of_vendor(alloc, row)?, row),
        "texts_constant" => constant_difference(alloc, constant_of_texts(alloc, row)?, row),
        _ => forms_difference(alloc, row),
    }
}

// The text of an item.
fn printed(alloc: Global, item: Item) -> Result<String, AllocError> {
    let text = print(alloc, slice::from_ref(&item));
    drop(item);
    text
}

fn entries_of(alloc: Global, values: &[Value]) -> Result<Seq<(Text, Text)>, RowFault> {
    let mut entries = Seq::new(alloc);
    for value in values {
        let (name, bound) = pair_of(value)?;
        let name = Text::from_str(alloc, text_of(name)?)?;
        entries.push((name, Text::from_str(alloc, text_of(bound)?)?))?;
    }
    Ok(entries)
}

fn line_of_names(alloc: Global, form: LineForm, row: &Value) -> Result<String, RowFault> {
    let module = text_at(row, "module")?;
    let entries = entries_of(alloc, array_at(row, "entries")?)?;
    let item = import_line(alloc, form, module, entries.as_slice())?;
    Ok(printed(alloc, item)?)
}

fn line_of_module(alloc: Global, form: LineForm, row: &Value) -> Result<String, RowFault> {
    let Ok(number) = u32::try_from(number_at(row, "number")?) else {
        return Err(RowFault::Row);
    };
    let item = foreign_line(alloc, form, number, text_at(row, "module")?)?;
    Ok(printed(alloc, item)?)
}

fn imports_of(alloc: Global, values: &[Value]) -> Result<Seq<(JsImportName, Text)>, RowFault> {
    let mut imports = Seq::new(alloc);
    for value in values {
        imports.push(bound_import(alloc, value)?)?;
    }
    Ok(imports)
}

fn lines_of_imports(alloc: Global, form: LineForm, row: &Value) -> Result<String, RowFault> {
    let imports = imports_of(alloc, array_at(row, "imports")?)?;
    let items = import_lines(alloc, form, imports.as_slice())?;
    Ok(print(alloc, items.as_slice())?)
}

fn lines_in(alloc: Global, form: LineForm, row: &Value) -> Result<String, RowFault> {
    match text_at(row, "call")? {
        "import_line" => line_of_names(alloc, form, row),
        "foreign_line" => line_of_module(alloc, form, row),
        _ => lines_of_imports(alloc, form, row),
    }
}

// In the form of an ES module, and where it is wanted in that of a CommonJS module.
fn forms_difference(alloc: Global, row: &Value) -> Result<Option<String>, RowFault> {
    let text = lines_in(alloc, LineForm::Es, row)?;
    let told = text_difference(alloc, "es", text.as_str(), text_at(row, "es")?)?;
    if told.is_some() {
        return Ok(told);
    }
    let Some(want) = opt_text_at(row, "commonjs")? else {
        return Ok(None);
    };
    let text = lines_in(alloc, LineForm::CommonJs, row)?;
    Ok(text_difference(alloc, "commonjs", text.as_str(), want)?)
}

fn constant_of_vendor(alloc: Global, row: &Value) -> Result<Item, RowFault> {
    let prefixes = texts_of(alloc, array_at(row, "prefixes")?)?;
    let (bound, name) = (text_at(row, "bound")?, text_at(row, "vendor")?);
    Ok(vendor_constant(alloc, bound, name, prefixes.as_slice())?)
}

fn constant_of_texts(alloc: Global, row: &Value) -> Result<Item, RowFault> {
    let texts = texts_of(alloc, array_at(row, "texts")?)?;
    let bound = text_at(row, "bound")?;
    Ok(texts_constant(alloc, bound, texts.as_slice())?)
}

fn constant_difference(alloc: Global, item: Item, row: &Value) -> Result<Option<String>, RowFault> {
    let text = printed(alloc, item)?;
    Ok(text_difference(alloc, "text", text.as_str(), text_at(row, "text")?)?)
}
