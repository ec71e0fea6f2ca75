//! What is told of a module.
use rows::RowFault;
use std::alloc::{AllocError, Global};
use wasm_core::Module;

fn show<T>(out: &mut String, entries: &[Option<T>]) -> Result<(), AllocError> {
    for entry in entries {
        out.push(if entry.is_some() { 'x' } else { '.' })?;
    }
    out.push(' ')
}

fn show_first(out: &mut String, module: &Module) -> Result<(), AllocError> {
    show(out, module.types())?;
    show(out, module.funcs())?;
    show(out, module.tables())?;
    show(out, module.memories())?;
    show(out, module.globals())
}

fn show_others(out: &mut String, module: &Module) -> Result<(), AllocError> {
    show(out, module.tags())?;
    show(out, module.elems())?;
    show(out, module.segments())?;
    show(out, module.imports())
}

/// Types, functions, tables, memories, globals, tags, element and data segments, and imports: `x` for an entry, `.` for an empty place, and a
/// space behind each list.
pub fn kept(alloc: Global, module: &Module) -> Result<String, AllocError> {
    let mut out = String::new(alloc);
    show_first(&mut out, module)?;
    show_others(&mut out, module).and(Ok(out))
}

/// A list of the module, or another value of it, as `{:?}` prints it.
pub fn shown(alloc: Global, module: &Module, what: &str) -> Result<String, RowFault> {
    let text = match what {
        "types" => format!(in alloc; "{:?}", module.types()),
        "funcs" => format!(in alloc; "{:?}", module.funcs()),
        "imports" => format!(in alloc; "{:?}", module.imports()),
        "exports" => format!(in alloc; "{:?}", module.exports()),
        "tags" => format!(in alloc; "{:?}", module.tags()),
        "start" => format!(in alloc; "{:?}", module.start()),
        "name" => format!(in alloc; "{:?}", module.name()),
        "config" => format!(in alloc; "{:?}", module.config()),
        _ => return Err(RowFault::Row),
    };
    Ok(text?)
}

/// How many entries a list of the module has, empty places too.
pub fn count(module: &Module, list: &str) -> Result<u64, RowFault> {
    match list {
        "exports" => Ok(module.exports().len() as u64),
        "customs" => Ok(module.customs().len() as u64),
        _ => Err(RowFault::Row),
    }
}
