//! Value types: by name, and by code.
use crate::arguments::{list_of, number32, only, text};
use crate::compare::printed_difference;
use rows::{RowFault, flag_at, number_at, number_difference, text_of, truth_difference};
use serde_json::Value;
use std::alloc::Global;
use values::Seq;
use wasm_types::ValType;

// The type of this name in the text format (WebAssembly core specification, 6.4.1 and 6.4.2).
fn type_named(name: &str) -> Result<ValType, RowFault> {
    match name {
        "i32" => Ok(ValType::I32),
        "i64" => Ok(ValType::I64),
        "f32" => Ok(ValType::F32),
        "f64" => Ok(ValType::F64),
        "v128" => Ok(ValType::V128),
        "funcref" => Ok(ValType::FuncRef),
        "externref" => Ok(ValType::ExternRef),
        "exnref" => Ok(ValType::ExnRef),
        _ => Err(RowFault::Row),
    }
}

/// The types of these names.
pub fn types_of(alloc: Global, names: &[Value]) -> Result<Seq<ValType>, RowFault> {
    let mut types = Seq::new(alloc);
    for name in names {
        types.push(type_named(text_of(name)?)?)?;
    }
    Ok(types)
}

// A run of locals: how many, and the name of their type.
fn run_of(value: &Value) -> Result<(u32, ValType), RowFault> {
    let run = list_of(value)?;
    Ok((number32(run, 0)?, type_named(text(run, 1)?)?))
}

/// Runs of locals, each a list of how many there are and the name of their type.
pub fn runs_of(alloc: Global, values: &[Value]) -> Result<Seq<(u32, ValType)>, RowFault> {
    let mut runs = Seq::new(alloc);
    for value in values {
        runs.push(run_of(value)?)?;
    }
    Ok(runs)
}

/// The row of the type that a code stands for.
pub fn difference(alloc: Global, row: &Value) -> Result<Option<String>, RowFault> {
    only(row, &["name", "call", "code", "type", "is_reference"])?;
    let code = number_at(row, "code")?;
    let Ok(short) = u8::try_from(code) else {
        return Err(RowFault::Row);
    };
    let found = ValType::from_code(short);
    if let Some(other) = printed_difference(alloc, row, "type", &found)? {
        return Ok(Some(other));
    }
    let Some(ty) = found else {
        return Ok(None);
    };
    if let Some(other) = number_difference(alloc, "code", u64::from(ty.code()), code)? {
        return Ok(Some(other));
    }
    let wanted = flag_at(row, "is_reference")?;
    Ok(truth_difference(alloc, "is_reference", ty.is_reference(), wanted)?)
}
