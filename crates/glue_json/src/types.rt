//! Reading types.
ghost use Rattle.std.specs.Prelude.{◌≡◌, IfOk, None, Some};
ghost use Rattle.serde_json.specs.View.{view};
ghost use Rattle.glue_json.specs.Adapters as spec;

use crate::counts::Counts;
use crate::reads::{LowerFault, Reads};
use glue_shared::{AdapterType, VectorKind};
use serde_json::Value;
use std::alloc::Global;
use values::{Boxed, Text};
use wasm_core::ValType;

// The elements of a vector, by their names.
fn vector_kind(name: &str) -> Option<VectorKind>
    ensures named { result ≡ spec.vector_kind name.now }
{
    match name {
        "I8" => Some(VectorKind::I8),
        "U8" => Some(VectorKind::U8),
        "I16" => Some(VectorKind::I16),
        "U16" => Some(VectorKind::U16),
        "I32" => Some(VectorKind::I32),
        "U32" => Some(VectorKind::U32),
        "I64" => Some(VectorKind::I64),
        "U64" => Some(VectorKind::U64),
        "Value" => Some(VectorKind::Value),
        _ => None,
    }
}

impl Reads for VectorKind {
    ghost reads = { λ _ d. spec.vector_kind_of d };

    fn read(_: Global, _: &Counts, value: &Value) -> Result<Self, LowerFault> {
        match value.as_str() {
            Some(name) => vector_kind(name).ok_or(LowerFault::Failed),
            None => Err(LowerFault::Failed),
        }
    }
}

// The type of a slot, by its name.
fn slot_type(name: &str) -> Option<ValType>
    ensures named { result ≡ spec.slot_type name.now }
{
    match name {
        "i32" => Some(ValType::I32),
        "i64" => Some(ValType::I64),
        _ => None,
    }
}

/// `i32` or `i64`.
impl Reads for ValType {
    ghost reads = { λ _ d. spec.slot_type_of d };

    fn read(_: Global, _: &Counts, value: &Value) -> Result<Self, LowerFault> {
        match value.as_str() {
            Some(name) => slot_type(name).ok_or(LowerFault::Failed),
            None => Err(LowerFault::Failed),
        }
    }
}

// A type that is one word.
fn plain_type(name: &str) -> Option<AdapterType>
    ensures named { result ≡ spec.plain_type name.now }
{
    match name {
        "i32" => Some(AdapterType::I32),
        "s32" => Some(AdapterType::S32),
        "u32" => Some(AdapterType::U32),
        "i64" => Some(AdapterType::I64),
        "s64" => Some(AdapterType::S64),
        "u64" => Some(AdapterType::U64),
        "bool" => Some(AdapterType::Bool),
        "string" => Some(AdapterType::String),
        "externref" => Some(AdapterType::Externref),
        _ => None,
    }
}

// A type that is an object with one key, other than an option.
fn keyed_type(
    alloc: Global,
    counts: &Counts,
    key: &str,
    value: &Value,
) -> Result<AdapterType, LowerFault>
    ensures ok { IfOk result (λ t. spec.keyed_type key.now (view value.now) ≡ Some t) }
    ensures failed { result ≡ Err LowerFault.Failed → spec.keyed_type key.now (view value.now) ≡ None }
{
    match key {
        "class" => Ok(AdapterType::Class(Text::read(alloc, counts, value)?)),
        "enum" => Ok(AdapterType::Enum(Text::read(alloc, counts, value)?)),
        "string_enum" => Ok(AdapterType::StringEnum(Text::read(alloc, counts, value)?)),
        "union" => Ok(AdapterType::Union(Text::read(alloc, counts, value)?)),
        "vec" => Ok(AdapterType::Vector(VectorKind::read(alloc, counts, value)?)),
        _ => Err(LowerFault::Failed),
    }
}

// A word, or an object with one key.
#[tactic(auto, unfolding(crate::specs::Adapters::type_of))]
fn read_type(alloc: Global, counts: &Counts, value: &Value) -> Result<AdapterType, LowerFault>
    ensures ok { IfOk result (λ t. spec.type_of (view value.now) ≡ Some t) }
    ensures failed { result ≡ Err LowerFault.Failed → spec.type_of (view value.now) ≡ None }
{
    match value {
        Value::String(name) => plain_type(name.as_str()).ok_or(LowerFault::Failed),
        Value::Object(members) => {
            if members.len() != 1 {
                return Err(LowerFault::Failed);
            }
            match members.iter().next() {
                Some((key, member)) => {
                    if key.as_str() == "option" {
                        let inner = read_type(alloc, counts, member)?;
                        return Ok(AdapterType::Option(Boxed::new(alloc, inner)?));
                    }
                    keyed_type(alloc, counts, key.as_str(), member)
                }
                None => Err(LowerFault::Failed),
            }
        }
        _ => Err(LowerFault::Failed),
    }
}

impl Reads for AdapterType {
    ghost reads = { λ _ d. spec.type_of d };

    fn read(alloc: Global, counts: &Counts, value: &Value) -> Result<Self, LowerFault> {
        read_type(alloc, counts, value)
    }
}
