//! Editing calls, as a row names them.
use crate::arguments::{list, list_of, number32, text};
use crate::compare::printed;
use crate::types::types_of;
use rows::RowFault;
use serde_json::Value;
use std::alloc::{AllocError, Global};
use values::Seq;
use wasm_collect::collect;
use wasm_core::{Body, ExportId, ExportItem, FuncId, FuncType, ImportId, ImportKind, Module, Ops};

/// Makes the call, and tells its answer as `{:?}` prints it. An entry that it names has to be there. It is one of
///
/// - `["add_func", name, parameters, results]`, lists of types by name, with a body without locals and operators,
/// - `["add_export", name, ["func", place]]`, `["delete_export", place]`,
/// - `["set_import", place, module, name]`, `["localize_tag", place of the import]`,
/// - `["set_func_name", place, name]`, `["take_start"]`,
/// - `["remove_custom", name]`, `["add_processed_by", tool, version]`,
/// - `["collect", roots]`, where the list of the roots is empty or has one, `["func", place]`.
pub fn edit(alloc: Global, module: &mut Module, call: &[Value]) -> Result<String, RowFault> {
    match text(call, 0)? {
        "add_func" => add_func(alloc, module, call),
        "add_export" => add_export(alloc, module, call),
        "delete_export" => delete_export(alloc, module, call),
        "set_import" => set_import(alloc, module, call),
        "localize_tag" => localize_tag(alloc, module, call),
        "set_func_name" => set_func_name(alloc, module, call),
        "take_start" => Ok(printed(alloc, module.take_start())?),
        "remove_custom" => Ok(printed(alloc, module.remove_custom(text(call, 1)?))?),
        "add_processed_by" => add_processed_by(alloc, module, call),
        "collect" => collect_from(alloc, module, call),
        _ => Err(RowFault::Row),
    }
}

// What a call answers that gives nothing.
fn done(alloc: Global, given: Result<(), AllocError>) -> Result<String, RowFault> {
    given?;
    Ok(printed(alloc, ())?)
}

fn no_body(alloc: Global) -> Body {
    Body {
        locals: Seq::new(alloc),
        ops: Ops::new(alloc),
    }
}

fn func_type(alloc: Global, params: &[Value], results: &[Value]) -> Result<FuncType, RowFault> {
    let params = types_of(alloc, params)?;
    let results = types_of(alloc, results)?;
    Ok(FuncType { params, results })
}

fn add_func(alloc: Global, module: &mut Module, call: &[Value]) -> Result<String, RowFault> {
    let name = text(call, 1)?;
    let ty = func_type(alloc, list(call, 2)?, list(call, 3)?)?;
    let id = module.add_func(alloc, ty, name, no_body(alloc))?;
    Ok(printed(alloc, id)?)
}

// The function that an item names.
fn func_of(item: &[Value]) -> Result<FuncId, RowFault> {
    match text(item, 0)? {
        "func" => Ok(FuncId(number32(item, 1)?)),
        _ => Err(RowFault::Row),
    }
}

fn add_export(alloc: Global, module: &mut Module, call: &[Value]) -> Result<String, RowFault> {
    let name = text(call, 1)?;
    let id = func_of(list(call, 2)?)?;
    let Some(Some(_)) = module.funcs().get(id.0 as usize) else {
        return Err(RowFault::Row);
    };
    let export = module.add_export(alloc, name, ExportItem::Func(id))?;
    Ok(printed(alloc, export)?)
}

fn delete_export(alloc: Global, module: &mut Module, call: &[Value]) -> Result<String, RowFault> {
    let id = ExportId(number32(call, 1)?);
    let Some(Some(_)) = module.exports().get(id.0 as usize) else {
        return Err(RowFault::Row);
    };
    module.delete_export(id);
    done(alloc, Ok(()))
}

fn set_import(alloc: Global, module: &mut Module, call: &[Value]) -> Result<String, RowFault> {
    let id = ImportId(number32(call, 1)?);
    let (from, name) = (text(call, 2)?, text(call, 3)?);
    let Some(Some(_)) = module.imports().get(id.0 as usize) else {
        return Err(RowFault::Row);
    };
    done(alloc, module.set_import(alloc, id, from, name))
}

fn localize_tag(alloc: Global, module: &mut Module, call: &[Value]) -> Result<String, RowFault> {
    let id = ImportId(number32(call, 1)?);
    let kind = match module.imports().get(id.0 as usize) {
        Some(Some(found)) => found.kind,
        Some(None) | None => return Err(RowFault::Row),
    };
    if let ImportKind::Tag(tag) = kind
        && let Some(Some(_)) = module.tags().get(tag.0 as usize)
    {
        module.localize_tag(id);
        return done(alloc, Ok(()));
    }
    Err(RowFault::Row)
}

fn set_func_name(alloc: Global, module: &mut Module, call: &[Value]) -> Result<String, RowFault> {
    let id = FuncId(number32(call, 1)?);
    let name = text(call, 2)?;
    let Some(Some(_)) = module.funcs().get(id.0 as usize) else {
        return Err(RowFault::Row);
    };
    done(alloc, module.set_func_name(alloc, id, name))
}

fn add_processed_by(
    alloc: Global,
    module: &mut Module,
    call: &[Value],
) -> Result<String, RowFault> {
    let (tool, version) = (text(call, 1)?, text(call, 2)?);
    done(alloc, module.add_processed_by(alloc, tool, version))
}

fn collect_from(alloc: Global, module: &mut Module, call: &[Value]) -> Result<String, RowFault> {
    match list(call, 1)? {
        [] => done(alloc, collect(alloc, module, &[])),
        [root] => collect_root(alloc, module, func_of(list_of(root)?)?),
        _ => Err(RowFault::Row),
    }
}

// Collects with one function as the root.
fn collect_root(alloc: Global, module: &mut Module, id: FuncId) -> Result<String, RowFault> {
    let Some(Some(_)) = module.funcs().get(id.0 as usize) else {
        return Err(RowFault::Row);
    };
    done(alloc, collect(alloc, module, &[ExportItem::Func(id)]))
}
