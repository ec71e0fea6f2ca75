//! The call `described_items`: the items of what `description` publishes. `functions` are the names of its functions, each of which is declared
//! by `function name() {}`, `enums` and `namespaces` pairs of a name and the one that was drawn for it, and `imports` pairs of what an import
//! begins with and its name. What is wanted is `text`, or `clash`, the name of the definition that can't stand beside those before it.
use crate::compared::optional_difference;
use crate::described::{bound_import, lowered_at};
use crate::trees::{function_item, map_of};
use glue_exports::ExportFault;
use glue_public::described_items;
use glue_shared::{JsImportName, NameMap, WasmBindgenAux};
use glue_words::{Item, print};
use rows::{RowFault, array_at, opt_text_at, text_at, text_difference, text_of};
use serde_json::Value;
use std::alloc::Global;
use values::{Map, Seq, Text};

/// The first difference of a row with this call.
pub fn difference(alloc: Global, row: &Value) -> Result<Option<String>, RowFault> {
    let lowered = lowered_at(alloc, row)?;
    aux_difference(alloc, row, &lowered.aux)
}

fn aux_difference(
    alloc: Global,
    row: &Value,
    aux: &WasmBindgenAux,
) -> Result<Option<String>, RowFault> {
    let clash = opt_text_at(row, "clash")?;
    let answer = answer(alloc, row, aux)?;
    match clash {
        Some(want) => clash_difference(alloc, answer, want),
        None => items_difference(alloc, answer, row),
    }
}

fn functions_of(alloc: Global, names: &[Value]) -> Result<Seq<(Text, Seq<Item>)>, RowFault> {
    let mut functions = Seq::new(alloc);
    for name in names {
        let name = text_of(name)?;
        let item = function_item(alloc, name)?;
        let items = Seq::from_vec(vec![in alloc; item]?);
        functions.push((Text::from_str(alloc, name)?, items))?;
    }
    Ok(functions)
}

fn imports_of(alloc: Global, pairs: &[Value]) -> Result<Map<JsImportName, Text>, RowFault> {
    let mut imports = Map::new(alloc);
    for pair in pairs {
        let (name, drawn) = bound_import(alloc, pair)?;
        drop(imports.insert(name, drawn)?);
    }
    Ok(imports)
}

fn put_names(alloc: Global, row: &Value, names: &mut NameMap) -> Result<(), RowFault> {
    names.enums = map_of(alloc, array_at(row, "enums")?)?;
    names.namespaces = map_of(alloc, array_at(row, "namespaces")?)?;
    names.imports = imports_of(alloc, array_at(row, "imports")?)?;
    Ok(())
}

fn names_of(alloc: Global, row: &Value) -> Result<NameMap, RowFault> {
    let mut names = NameMap::new(alloc);
    put_names(alloc, row, &mut names)?;
    Ok(names)
}

fn answer(
    alloc: Global,
    row: &Value,
    aux: &WasmBindgenAux,
) -> Result<Result<Seq<Item>, ExportFault>, RowFault> {
    let functions = functions_of(alloc, array_at(row, "functions")?)?;
    let names = names_of(alloc, row)?;
    Ok(described_items(alloc, aux, &names, &[], functions))
}

// The definition that can't stand, where one is told.
fn clashing(answer: Result<Seq<Item>, ExportFault>) -> Result<Option<Text>, RowFault> {
    match answer {
        Ok(_) => Ok(None),
        Err(ExportFault::OutOfMemory) => Err(RowFault::OutOfMemory),
        Err(ExportFault::Clash { name }) => Ok(Some(name)),
    }
}

// What clashes, where it has to be this.
fn clash_difference(
    alloc: Global,
    answer: Result<Seq<Item>, ExportFault>,
    want: &str,
) -> Result<Option<String>, RowFault> {
    let name = clashing(answer)?;
    let name = name.as_ref().map(|name| name.as_str());
    Ok(optional_difference(alloc, "clash", name, Some(want))?)
}

// The text of the items, where nothing may clash.
fn items_difference(
    alloc: Global,
    answer: Result<Seq<Item>, ExportFault>,
    row: &Value,
) -> Result<Option<String>, RowFault> {
    match answer {
        Ok(items) => text_of_items(alloc, items.as_slice(), row),
        Err(fault) => {
            let name = clashing(Err(fault))?;
            let name = name.as_ref().map(|name| name.as_str());
            Ok(optional_difference(alloc, "clash", name, None)?)
        }
    }
}

fn text_of_items(alloc: Global, items: &[Item], row: &Value) -> Result<Option<String>, RowFault> {
    let want = text_at(row, "text")?;
    let text = print(alloc, items)?;
    Ok(text_difference(alloc, "text", text.as_str(), want)?)
}
