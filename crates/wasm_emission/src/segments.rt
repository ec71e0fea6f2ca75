//! Writing element and data segments with the least flag that fits (WebAssembly core specification, 5.5.12 and 5.5.14).

ghost use Rattle.std.specs.Prelude.{◌≡◌, ◌++◌, map, OnOk};
ghost use Rattle.std.specs.List.{flat_map};
ghost use Rattle.wasm_code.specs.Numbers.{renumbered_ops};
ghost use Rattle.wasm_code.specs.Spelling.{expression_bytes};
ghost use Rattle.wasm_file.specs.Spelling.{is_func_ref, has_exprs, place_flag, place_bytes, elem_kind_bytes, elem_entries_bytes, elem_bytes, segment_bytes, segment_place_bytes, func_id_bytes};
ghost use Rattle.wasm_emission.specs.Emission.{file_func, file_place, file_elem, file_segment_place, file_segment};

use packed_ops::Ops;
use std::alloc::AllocError;
use wasm_bytes::{push_number, push_u32, write_framed};
use wasm_code::write_expression;
use wasm_file::{Elem, ElemPlace, Segment};
use wasm_ops::{Numbering, number_at};
use wasm_types::{FuncId, ValType};

/// Whether the type is that of functions.
fn is_func_ref(ty: ValType) -> bool
    ensures { result ≡ is_func_ref ty }
{
    matches!(ty, ValType::FuncRef)
}

/// Whether the entries are expressions.
fn has_exprs(numbers: &Numbering, elem: &Elem) -> bool
    ensures { result ≡ has_exprs (file_elem numbers.now elem.now) }
{
    !elem.exprs.is_empty() || !is_func_ref(elem.ty)
}

/// The two low bits of the flag.
fn place_flag(numbers: &Numbering, elem: &Elem) -> u8
    ensures { result ≡ place_flag elem.now.ty (file_place numbers.now elem.now.place) }
{
    match &elem.place {
        ElemPlace::Active(table, _) => {
            if number_at(&numbers.tables, table.0) == 0 && is_func_ref(elem.ty) {
                0
            } else {
                2
            }
        }
        ElemPlace::Passive => 1,
        ElemPlace::Declared => 3,
    }
}

/// Appends the table, unless the flag leaves it out, and the expression of the place in it.
fn write_place(out: &mut Vec<u8>, numbers: &Numbering, elem: &Elem) -> Result<(), AllocError>
    ensures { OnOk result (out.new.items ≡ out.old.items ++ place_bytes elem.now.ty (file_place numbers.now elem.now.place)) }
{
    match &elem.place {
        ElemPlace::Active(table, init) => {
            let table = number_at(&numbers.tables, table.0);
            if table != 0 || !is_func_ref(elem.ty) {
                push_u32(out, table)?;
            }
            write_expression(out, numbers, init)
        }
        _ => Ok(()),
    }
}

/// Appends what the entries are, unless the flag leaves it out.
fn write_kind(out: &mut Vec<u8>, numbers: &Numbering, elem: &Elem) -> Result<(), AllocError>
    ensures { OnOk result (out.new.items ≡ out.old.items ++ elem_kind_bytes (file_elem numbers.now elem.now)) }
{
    if place_flag(numbers, elem) == 0 {
        return Ok(());
    }
    if has_exprs(numbers, elem) {
        out.push(elem.ty.code())?;
    } else {
        out.push(0)?;
    }
    Ok(())
}

/// Appends functions by their numbers.
#[tactic(auto, unfolding(wasm_file::specs::Spelling::func_id_bytes))]
fn write_funcs(out: &mut Vec<u8>, numbers: &Numbering, funcs: &[FuncId]) -> Result<(), AllocError>
    ensures { OnOk result (out.new.items ≡ out.old.items ++ flat_map func_id_bytes (map (file_func numbers.now) funcs.now)) }
{
    for func in funcs {
        push_u32(out, number_at(&numbers.funcs, func.0))?;
    }
    Ok(())
}

/// Appends expressions.
fn write_exprs(out: &mut Vec<u8>, numbers: &Numbering, exprs: &[Ops]) -> Result<(), AllocError>
    ensures { OnOk result (out.new.items ≡ out.old.items ++ flat_map expression_bytes (map (renumbered_ops numbers.now) exprs.now)) }
{
    for expr in exprs {
        write_expression(out, numbers, expr)?;
    }
    Ok(())
}

/// Appends the list of expressions or of functions.
#[tactic(auto, unfolding(wasm_bytes::specs::Spelling::list_bytes))]
fn write_entries(out: &mut Vec<u8>, numbers: &Numbering, elem: &Elem) -> Result<(), AllocError>
    ensures { OnOk result (out.new.items ≡ out.old.items ++ elem_entries_bytes (file_elem numbers.now elem.now)) }
{
    if has_exprs(numbers, elem) {
        push_number(out, elem.exprs.len() as u64)?;
        write_exprs(out, numbers, elem.exprs.as_slice())
    } else {
        push_number(out, elem.funcs.len() as u64)?;
        write_funcs(out, numbers, elem.funcs.as_slice())
    }
}

/// Appends an element segment with the numbers of what it names.
#[tactic(auto, unfolding(wasm_file::specs::Spelling::elem_bytes))]
pub(crate) fn write_elem(
    out: &mut Vec<u8>,
    numbers: &Numbering,
    elem: &Elem,
) -> Result<(), AllocError>
    ensures { OnOk result (out.new.items ≡ out.old.items ++ elem_bytes (file_elem numbers.now elem.now)) }
{
    out.push(place_flag(numbers, elem) + 4 * u8::from(has_exprs(numbers, elem)))?;
    write_place(out, numbers, elem)?;
    write_kind(out, numbers, elem)?;
    write_entries(out, numbers, elem)
}

/// Appends the flag, the memory unless it is memory 0, and the expression of the place in it.
fn write_segment_place(
    out: &mut Vec<u8>,
    numbers: &Numbering,
    segment: &Segment,
) -> Result<(), AllocError>
    ensures { OnOk result (out.new.items ≡ out.old.items ++ segment_place_bytes (file_segment_place numbers.now segment.now.place)) }
{
    match &segment.place {
        None => {
            out.push(1)?;
            Ok(())
        }
        Some((memory, init)) => {
            let memory = number_at(&numbers.memories, memory.0);
            if memory == 0 {
                out.push(0)?;
            } else {
                out.push(2)?;
                push_u32(out, memory)?;
            }
            write_expression(out, numbers, init)
        }
    }
}

/// Appends a data segment with the numbers of what it names.
#[tactic(auto, unfolding(wasm_file::specs::Spelling::segment_bytes))]
pub(crate) fn write_segment(
    out: &mut Vec<u8>,
    numbers: &Numbering,
    segment: &Segment,
) -> Result<(), AllocError>
    ensures { OnOk result (out.new.items ≡ out.old.items ++ segment_bytes (file_segment numbers.now segment.now)) }
{
    write_segment_place(out, numbers, segment)?;
    write_framed(out, segment.bytes.as_slice())
}
