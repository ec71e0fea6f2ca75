//! Writing the name section (WebAssembly core specification, 7.4.1): the module's name, and those of functions.

ghost use Rattle.std.specs.Prelude.{◌≡◌, ◌++◌, ◌==◌, [], length, map, is_some, if◌then◌else◌, IfOk, OnOk};
ghost use Rattle.std.specs.List.{flat_map};
ghost use Rattle.std.specs.Option.{option_copied};
ghost use Rattle.wasm_ops.specs.Numbers.{number_at};
ghost use Rattle.wasm_bytes.specs.Numbers.{number_bytes};
ghost use Rattle.wasm_file.specs.Spelling.{custom_section, section_bytes, func_name_bytes, module_name_bytes};
ghost use Rattle.wasm_emission.specs.Emission.{some_bytes, name_at, names_among, func_names, file_names, name_customs};

use crate::content::{SectionContent, write_head};
use crate::lists::Plan;
use crate::writing::Sections;
use std::alloc::{AllocError, Global};
use values::Seq;
use wasm_bytes::{push_number, push_u32, write_name};
use wasm_core::Func;

/// The id of the subsection that holds the module's name.
const MODULE_NAME: u8 = 0;

/// The id of the subsection that holds the names of functions.
const FUNCTION_NAMES: u8 = 1;

/// The number of a place, 0 where there is none.
fn number_of(numbers: &Seq<u32>, place: usize) -> u32
    ensures { result ≡ number_at numbers.now place }
{
    match numbers.get(place) {
        Some(number) => *number,
        None => 0,
    }
}

/// Appends the number and the name of a function, where it has one and is imported, or not, as is asked, and tells
/// whether it does.
#[tactic(auto, unfolding(wasm_file::specs::Spelling::func_name_bytes))]
fn write_func_name(
    numbers: &Seq<u32>,
    imported: bool,
    place: usize,
    func: &Option<Func>,
    out: &mut Vec<u8>,
) -> Result<bool, AllocError>
    ensures { IfOk result (λ stands. (stands ≡ is_some (name_at numbers.now imported (place, func.now))) × (out.new.items ≡ out.old.items ++ some_bytes func_name_bytes (name_at numbers.now imported (place, func.now)))) }
{
    match func {
        Some(func) => {
            if func.import.is_some() != imported {
                return Ok(false);
            }
            match &func.name {
                Some(name) => {
                    push_u32(out, number_of(numbers, place))?;
                    write_name(out, name.as_str())?;
                    Ok(true)
                }
                None => Ok(false),
            }
        }
        None => Ok(false),
    }
}

/// Appends the numbers and names of functions that are imported, or aren't, as is asked, and counts them.
fn write_func_names(
    numbers: &Seq<u32>,
    imported: bool,
    funcs: &[Option<Func>],
    out: &mut Vec<u8>,
) -> Result<usize, AllocError>
    ensures { IfOk result (λ n. (n ≡ length (names_among numbers.now imported funcs.now)) × (out.new.items ≡ out.old.items ++ flat_map func_name_bytes (names_among numbers.now imported funcs.now))) }
{
    let mut count = 0;
    for (place, func) in funcs.iter().enumerate() {
        if write_func_name(numbers, imported, place, func, out)? {
            count += 1;
        }
    }
    Ok(count)
}

/// Appends the numbers and names of functions in the order of their numbers, and counts them.
#[tactic(auto, unfolding(crate::specs::Emission::func_names))]
fn write_all_func_names(
    numbers: &Seq<u32>,
    funcs: &[Option<Func>],
    out: &mut Vec<u8>,
) -> Result<usize, AllocError>
    ensures { IfOk result (λ n. (n ≡ length (func_names numbers.now funcs.now)) × (out.new.items ≡ out.old.items ++ flat_map func_name_bytes (func_names numbers.now funcs.now))) }
{
    let imported = write_func_names(numbers, true, funcs, out)?;
    let own = write_func_names(numbers, false, funcs, out)?;
    imported.checked_add(own).ok_or(AllocError)
}

/// Appends the subsection of the module's name, none without one.
#[tactic(auto, unfolding(wasm_bytes::specs::Spelling::name_bytes, wasm_bytes::specs::Spelling::framed_bytes))]
fn write_module_name(alloc: Global, name: Option<&str>, out: &mut Vec<u8>) -> Result<(), AllocError>
    ensures { OnOk result (out.new.items ≡ out.old.items ++ module_name_bytes (option_copied name.entry)) }
{
    match name {
        Some(name) => {
            let bytes = name.as_bytes();
            let mut head = Vec::new(alloc);
            push_number(&mut head, bytes.len() as u64)?;
            write_head(out, MODULE_NAME, &head, bytes)?;
            out.extend_from_slice(bytes)
        }
        None => Ok(()),
    }
}

/// The name section: its front, and behind it the subsection of so many functions' names with these bytes, none without
/// any.
fn with_func_names(
    alloc: Global,
    front: Vec<u8>,
    count: usize,
    names: Vec<u8>,
) -> Result<SectionContent, AllocError>
    ensures { IfOk result (λ s. s ≡ (0, front.items ++ (if count == 0 then [] else section_bytes (1, number_bytes count ++ names.items)))) }
{
    if count == 0 {
        return Ok(SectionContent::new(alloc, 0, front));
    }
    let names = SectionContent::counted(alloc, FUNCTION_NAMES, count, names)?;
    SectionContent::around(0, front, names)
}

/// The name section, where it is wanted and there is a name.
#[tactic(auto, unfolding(crate::specs::Emission::name_customs, wasm_file::specs::Spelling::custom_bytes, wasm_file::specs::Spelling::names_bytes, wasm_bytes::specs::Spelling::list_bytes))]
pub(crate) fn push_names(plan: &Plan<'_>, out: &mut Sections) -> Result<(), AllocError>
    ensures { OnOk result (out.new ≡ out.old ++ map custom_section (name_customs plan.now.module.now.config.names (file_names plan.now.module.now plan.now.numbers.now))) }
{
    let module = plan.module;
    if !module.config().names {
        return Ok(());
    }
    let mut names = Vec::new(plan.alloc);
    let count = write_all_func_names(&plan.numbers.funcs, module.funcs(), &mut names)?;
    if module.name().is_none() && count == 0 {
        return Ok(());
    }
    let mut front = Vec::new(plan.alloc);
    write_name(&mut front, "name")?;
    write_module_name(plan.alloc, module.name(), &mut front)?;
    out.push(with_func_names(plan.alloc, front, count, names)?)
}
