//! Steps of what passes through a memory of the module: strings, vectors, results in room that is taken for them, and what is freed.
ghost use Rattle.std.specs.Prelude.{◌≡◌, ◌++◌, ◌∷◌, [], Some, IfOk, OnOk, codes};
ghost use Rattle.std.specs.Fmt.{decimal};
ghost use Rattle.wasm_core.specs.entries.ExportItem.TheVariants as items;
ghost use Rattle.glue_steps.specs.Resolving as spec;
ghost use Rattle.glue_steps.specs.declared.step.Step.TheVariants as steps;

use crate::resolving::export_named;
use crate::step::Step;
use glue_shared::{NameMap, VectorKind};
use std::alloc::{AllocError, Global};
use values::{Seq, Text};
use wasm_core::{ExportItem, FuncId, MemoryId, ValType};

// What the names of helpers call the elements of vectors.
fn element_letters(kind: VectorKind) -> &'static str
    ensures letters { result.now ≡ spec.element_letters kind }
{
    match kind {
        VectorKind::I8 => "I8",
        VectorKind::U8 => "U8",
        VectorKind::I16 => "I16",
        VectorKind::U16 => "U16",
        VectorKind::I32 => "I32",
        VectorKind::U32 => "U32",
        VectorKind::I64 => "I64",
        VectorKind::U64 => "U64",
        VectorKind::Value => "JsValue",
    }
}

// What they call them where a sign doesn't matter.
fn width_letters(kind: VectorKind) -> &'static str
    ensures letters { result.now ≡ spec.width_letters kind }
{
    match kind {
        VectorKind::I8 | VectorKind::U8 => "8",
        VectorKind::I16 | VectorKind::U16 => "16",
        VectorKind::I32 | VectorKind::U32 => "32",
        VectorKind::I64 | VectorKind::U64 => "64",
        VectorKind::Value => "JsValue",
    }
}

// The helper that gives a vector that stands in a memory.
fn reading_helper(alloc: Global, kind: VectorKind, memory: MemoryId) -> Result<Text, AllocError>
    ensures name { IfOk result (λ name. name ≡ spec.reading_helper kind memory) }
{
    let letters = element_letters(kind);
    let place = memory.0;
    Ok(Text::new(format!(in alloc; "getArray{letters}FromWasm{place}")?))
}

// The helper that writes one there.
fn writing_helper(alloc: Global, kind: VectorKind, memory: MemoryId) -> Result<Text, AllocError>
    ensures name { IfOk result (λ name. name ≡ spec.writing_helper kind memory) }
{
    let letters = width_letters(kind);
    let place = memory.0;
    Ok(Text::new(format!(in alloc; "passArray{letters}ToWasm{place}")?))
}

/// The step of a vector that is read: it is copied, and one of any values is made by the helper.
pub fn vector_read(
    alloc: Global,
    kind: VectorKind,
    memory: MemoryId,
) -> Result<Option<Step>, AllocError>
    ensures step { IfOk result (λ step. step ≡ Some (spec.vector_read kind memory)) }
{
    let helper = reading_helper(alloc, kind, memory)?;
    match kind {
        VectorKind::Value => Ok(Some(Step::CallHelper { helper, params: 2 })),
        _ => Ok(Some(Step::CopyOut { helper })),
    }
}

// Adds the name of the export that gives a function.
fn push_function(
    alloc: Global,
    names: &NameMap,
    function: FuncId,
    exports: &mut Seq<Text>,
) -> Result<(), AllocError>
    ensures pushed { OnOk result (exports.new ≡ exports.old ++ spec.export_named names.now (Some (items.Func function)) ∷ []) }
{
    let name = export_named(names, Some(ExportItem::Func(function)));
    exports.push(Text::from_str(alloc, name)?)?;
    Ok(())
}

// The names of the exports that give a function, and another where there is one.
fn functions_named(
    alloc: Global,
    names: &NameMap,
    first: FuncId,
    second: Option<FuncId>,
) -> Result<Seq<Text>, AllocError>
    ensures names { IfOk result (λ exports. exports ≡ spec.functions_named names.now (first ∷ spec.listed_id second)) }
{
    let mut exports = Seq::new(alloc);
    push_function(alloc, names, first, &mut exports)?;
    if let Some(second) = second {
        push_function(alloc, names, second, &mut exports)?;
    }
    Ok(exports)
}

/// The step of a string that is written.
pub fn string_written(
    alloc: Global,
    names: &NameMap,
    optional: bool,
    malloc: FuncId,
    realloc: Option<FuncId>,
    memory: MemoryId,
) -> Result<Option<Step>, AllocError>
    ensures step { IfOk result (λ step. step ≡ Some (spec.string_written names.now optional malloc realloc memory)) }
{
    let place = memory.0;
    Ok(Some(Step::PassToMemory {
        helper: Text::new(format!(in alloc; "passStringToWasm{place}")?),
        exports: functions_named(alloc, names, malloc, realloc)?,
        optional,
    }))
}

/// The step of a string that is read.
pub fn string_read(alloc: Global, memory: MemoryId) -> Result<Option<Step>, AllocError>
    ensures step { IfOk result (λ step. step ≡ Some (steps.CallHelper (codes "getStringFromWasm" ++ decimal memory.0) 2)) }
{
    let place = memory.0;
    Ok(Some(Step::CallHelper {
        helper: Text::new(format!(in alloc; "getStringFromWasm{place}")?),
        params: 2,
    }))
}

/// The step of a vector that is written.
pub fn vector_written(
    alloc: Global,
    names: &NameMap,
    kind: VectorKind,
    malloc: FuncId,
    memory: MemoryId,
) -> Result<Option<Step>, AllocError>
    ensures step { IfOk result (λ step. step ≡ Some (spec.vector_written names.now kind malloc memory)) }
{
    Ok(Some(Step::PassToMemory {
        helper: writing_helper(alloc, kind, memory)?,
        exports: functions_named(alloc, names, malloc, None)?,
        optional: false,
    }))
}

/// The step of what is freed in the end.
pub fn freed(
    alloc: Global,
    names: &NameMap,
    free: FuncId,
    align: u32,
) -> Result<Option<Step>, AllocError>
    ensures step { IfOk result (λ step. step ≡ Some (steps.DeferFree (spec.export_named names.now (Some (items.Func free))) align)) }
{
    let name = export_named(names, Some(ExportItem::Func(free)));
    Ok(Some(Step::DeferFree {
        free: Text::from_str(alloc, name)?,
        align,
    }))
}

// The helper that gives a view of a memory.
fn view_helper(alloc: Global, memory: MemoryId) -> Result<Text, AllocError>
    ensures name { IfOk result (λ name. name ≡ spec.view_helper memory) }
{
    let place = memory.0;
    Ok(Text::new(format!(in alloc; "getDataViewMemory{place}")?))
}

// Whether a type is that of integers of 64 bits.
fn is_wide(ty: ValType) -> bool
    ensures test { result ≡ spec.is_wide ty }
{
    matches!(ty, ValType::I64)
}

/// The step of a result that is read from the room that was taken for it.
pub fn result_read(
    alloc: Global,
    offset: u32,
    ty: ValType,
    memory: MemoryId,
) -> Result<Option<Step>, AllocError>
    ensures step { IfOk result (λ step. step ≡ Some (spec.result_read offset ty memory)) }
{
    Ok(Some(Step::LoadReturn {
        view: view_helper(alloc, memory)?,
        offset,
        is_wide: is_wide(ty),
    }))
}

/// The step of a result that is written to the room that a caller took.
pub fn result_written(
    alloc: Global,
    offset: u32,
    ty: ValType,
    memory: MemoryId,
) -> Result<Option<Step>, AllocError>
    ensures step { IfOk result (λ step. step ≡ Some (spec.result_written offset ty memory)) }
{
    Ok(Some(Step::StoreReturn {
        view: view_helper(alloc, memory)?,
        offset,
        is_wide: is_wide(ty),
    }))
}
