//! The names of a module's functions.
ghost use Rattle.std.specs.Prelude.{◌≡◌, ◌<◌, IfOk, OnOk, length, None, slice_index_or, slice_set, string_bytes};
ghost use Rattle.func_names.specs.Numbered as spec;

use crate::uses::Uses;
use demangle_core::demangle;
use std::alloc::{AllocError, Global};
use values::Text;
use wasm_core::{Func, FuncId, Module};

// The path that the name of a function shows, where it has one that is a symbol.
fn path_of(alloc: Global, func: &Option<Func>) -> Result<Option<Text>, AllocError>
    ensures path { IfOk result (λ path. path ≡ spec.path_of func.now) }
{
    let Some(
        Func {
            name: Some(name),
            ..
        },
    ) = func
    else {
        return Ok(None);
    };
    match demangle(alloc, name.as_str())? {
        Some(path) => Ok(Some(Text::new(path))),
        None => Ok(None),
    }
}

// A path with the number of its earlier uses, where there are some.
fn numbered(alloc: Global, path: &str, uses: usize) -> Result<String, AllocError>
    ensures name { IfOk result (λ name. string_bytes name ≡ spec.numbered path.now uses) }
{
    if uses == 0 {
        String::from_str(alloc, path)
    } else {
        format!(in alloc; "{path}[{uses}]")
    }
}

// Gives the function at a place the name that its own shows.
fn rename(alloc: Global, module: &mut Module, place: FuncId, uses: Uses) -> Result<Uses, AllocError>
    requires place { place.0 < length «module».old.funcs }
    ensures named { IfOk result (λ more. spec.IsStep place.0 uses more «module».old «module».new) }
    ensures left { spec.without_names «module».new ≡ spec.without_names «module».old }
{
    let Some(path) = path_of(alloc, &module.funcs()[place.0 as usize])? else {
        return Ok(uses);
    };
    let name = numbered(alloc, path.as_str(), uses.count(path.as_str()))?;
    module.set_func_name(alloc, place, name.as_str())?;
    uses.with(alloc, path.as_str())
}

/// Gives each function whose name is a symbol of Rust's older form the path that the symbol shows, functions in order of their ids,
/// imported ones too. Where a path was given before, the number of functions that it was given to stands behind it in brackets: the second
/// has `[1]`. Other names stay.
///
/// Want of memory is the only error, and it comes also where a function has a number past 4,294,967,295. Then the names of some
/// functions are changed, and nothing else.
pub fn demangle_names(alloc: Global, module: &mut Module) -> Result<(), AllocError>
    ensures named { OnOk result («module».new ≡ spec.with_demangled_names «module».old) }
    ensures left { spec.without_names «module».new ≡ spec.without_names «module».old }
{
    let mut uses = Uses::new(alloc);
    for place in 0..module.funcs().len() {
        if place > u32::MAX as usize {
            return Err(AllocError);
        }
        uses = rename(alloc, module, FuncId(place as u32), uses)?;
    }
    Ok(())
}
