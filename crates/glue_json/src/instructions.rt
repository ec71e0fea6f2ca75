//! Reading instructions.
ghost use Rattle.std.specs.Prelude.{◌≡◌, IfOk, None, Some, map};
ghost use Rattle.serde_json.specs.View.{view};
ghost use Rattle.glue_json.specs.Adapters as spec;

use crate::counts::Counts;
use crate::parts::{none, one, three, two};
use crate::reads::{LowerFault, Reads};
use glue_shared::Instruction;
use serde_json::Value;
use std::alloc::Global;
use values::Text;

// Instructions over memory, and those of any other name.
#[tactic(auto, unfolding(crate::specs::Adapters::memory_row))]
fn memory_row(
    alloc: Global,
    counts: &Counts,
    name: &str,
    parts: &[Value],
) -> Result<Instruction, LowerFault>
    ensures ok { IfOk result (λ i. spec.memory_row counts.now name.now (map view parts.now) ≡ Some i) }
    ensures failed { result ≡ Err LowerFault.Failed → spec.memory_row counts.now name.now (map view parts.now) ≡ None }
{
    match name {
        "StringToMemory" => {
            let (malloc, realloc, memory) = three(alloc, counts, parts)?;
            Ok(Instruction::StringToMemory(malloc, realloc, memory))
        }
        "OptionStringToMemory" => {
            let (malloc, realloc, memory) = three(alloc, counts, parts)?;
            Ok(Instruction::OptionStringToMemory(malloc, realloc, memory))
        }
        "MemoryToString" => Ok(Instruction::MemoryToString(one(alloc, counts, parts)?)),
        "DeferFree" => {
            let (free, align) = two(alloc, counts, parts)?;
            Ok(Instruction::DeferFree(free, align))
        }
        "Retptr" => Ok(Instruction::Retptr(one(alloc, counts, parts)?)),
        "LoadRetptr" => {
            let (offset, slot, memory) = three(alloc, counts, parts)?;
            Ok(Instruction::LoadRetptr(offset, slot, memory))
        }
        "StoreRetptr" => {
            let (offset, slot, memory) = three(alloc, counts, parts)?;
            Ok(Instruction::StoreRetptr(offset, slot, memory))
        }
        "VecFromWasm" => {
            let (kind, memory) = two(alloc, counts, parts)?;
            Ok(Instruction::VecFromWasm(kind, memory))
        }
        "VecToWasm" => {
            let (kind, malloc, memory) = three(alloc, counts, parts)?;
            Ok(Instruction::VecToWasm(kind, malloc, memory))
        }
        _ => Ok(Instruction::Other(Text::from_str(alloc, name)?)),
    }
}

// Instructions over objects, classes, enums and closures.
#[tactic(auto, unfolding(crate::specs::Adapters::object_row))]
fn object_row(
    alloc: Global,
    counts: &Counts,
    name: &str,
    parts: &[Value],
) -> Result<Instruction, LowerFault>
    ensures ok { IfOk result (λ i. spec.object_row counts.now name.now (map view parts.now) ≡ Some i) }
    ensures failed { result ≡ Err LowerFault.Failed → spec.object_row counts.now name.now (map view parts.now) ≡ None }
{
    match name {
        "IndexFromOwned" => none(Instruction::IndexFromOwned, parts),
        "IndexFromBorrow" => none(Instruction::IndexFromBorrow, parts),
        "TakeIndex" => none(Instruction::TakeIndex, parts),
        "GetIndex" => none(Instruction::GetIndex, parts),
        "ClassIntoPtr" => Ok(Instruction::ClassIntoPtr(one(alloc, counts, parts)?)),
        "ClassPtr" => Ok(Instruction::ClassPtr(one(alloc, counts, parts)?)),
        "ClassFromPtr" => Ok(Instruction::ClassFromPtr(one(alloc, counts, parts)?)),
        "EnumIndex" => Ok(Instruction::EnumIndex(one(alloc, counts, parts)?)),
        "EnumText" => Ok(Instruction::EnumText(one(alloc, counts, parts)?)),
        "Closure" => {
            let (adapter, mutable) = two(alloc, counts, parts)?;
            Ok(Instruction::Closure(adapter, mutable))
        }
        _ => memory_row(alloc, counts, name, parts),
    }
}

// An instruction by its name and its parts.
fn read_row(
    alloc: Global,
    counts: &Counts,
    name: &str,
    parts: &[Value],
) -> Result<Instruction, LowerFault>
    ensures ok { IfOk result (λ i. spec.row counts.now name.now (map view parts.now) ≡ Some i) }
    ensures failed { result ≡ Err LowerFault.Failed → spec.row counts.now name.now (map view parts.now) ≡ None }
{
    match name {
        "ArgGet" => Ok(Instruction::ArgGet(one(alloc, counts, parts)?)),
        "Int32ToWasm" => none(Instruction::Int32ToWasm, parts),
        "Int64ToWasm" => none(Instruction::Int64ToWasm, parts),
        "I32FromBool" => none(Instruction::I32FromBool, parts),
        "WasmToInt32" => Ok(Instruction::WasmToInt32(one(alloc, counts, parts)?)),
        "WasmToInt64" => Ok(Instruction::WasmToInt64(one(alloc, counts, parts)?)),
        "BoolFromI32" => none(Instruction::BoolFromI32, parts),
        "CallExport" => Ok(Instruction::CallExport(one(alloc, counts, parts)?)),
        "CallAdapter" => Ok(Instruction::CallAdapter(one(alloc, counts, parts)?)),
        "UnwrapResult" => none(Instruction::UnwrapResult, parts),
        _ => object_row(alloc, counts, name, parts),
    }
}

// A list whose first entry is the name.
fn read_headed(alloc: Global, counts: &Counts, items: &[Value]) -> Result<Instruction, LowerFault>
    ensures ok { IfOk result (λ i. spec.headed counts.now (map view items.now) ≡ Some i) }
    ensures failed { result ≡ Err LowerFault.Failed → spec.headed counts.now (map view items.now) ≡ None }
{
    match items.split_first() {
        Some((head, parts)) => match head.as_str() {
            Some(name) => read_row(alloc, counts, name, parts),
            None => Err(LowerFault::Failed),
        },
        None => Err(LowerFault::Failed),
    }
}

impl Reads for Instruction {
    ghost reads = { spec.instruction_of };

    #[tactic(auto, using(crate::proofs::Lists::instruction_of_items))]
    fn read(alloc: Global, counts: &Counts, value: &Value) -> Result<Self, LowerFault> {
        match value.as_array() {
            Some(items) => read_headed(alloc, counts, items.as_slice()),
            None => Err(LowerFault::Failed),
        }
    }
}
