//! What an instruction takes of the module: what its ids name, and parts of the description, for values that are kept in a table of references
//! and for closures. And the part that takes what an import threw.
ghost use Rattle.std.specs.Prelude.{◌≡◌, ◌++◌, if◌then◌else◌, [], IfOk, OnOk};
ghost use Rattle.glue_shared.specs.Roots.{live_item};
ghost use Rattle.glue_steps.specs.Needed as spec;

use glue_shared::{
    Instruction, Lowered, Settings, VectorKind, WasmBindgenAux, func_item, keep_live, live_item,
    push_instruction, table_item,
};
use std::alloc::{AllocError, Global};
use wasm_core::ExportItem;

/// A part of the module for values that are kept in a table of references.
#[derive(Clone, Copy)]
pub enum ReferencePart {
    /// The function that gives a free place.
    Alloc,
    /// The function that frees a place.
    Drop,
    /// The function that frees a run of places.
    DropSlice,
    /// The table.
    Table,
}

/// All parts, in the order of the bytes of their names in a description.
pub const REFERENCE_PARTS: [ReferencePart; 4] = [
    ReferencePart::Alloc,
    ReferencePart::Drop,
    ReferencePart::DropSlice,
    ReferencePart::Table,
];

// Whether values are added by a part.
fn adds_by(part: ReferencePart) -> bool
    ensures test { result ≡ spec.adds_by part }
{
    matches!(part, ReferencePart::Alloc | ReferencePart::Table)
}

// Whether values are taken out by it.
fn takes_by(part: ReferencePart) -> bool
    ensures test { result ≡ spec.takes_by part }
{
    matches!(part, ReferencePart::Drop | ReferencePart::Table)
}

// Whether many of them are.
fn takes_all_by(part: ReferencePart) -> bool
    ensures test { result ≡ spec.takes_all_by part }
{
    matches!(part, ReferencePart::DropSlice | ReferencePart::Table)
}

// Whether values are read by it.
fn gets_by(part: ReferencePart) -> bool
    ensures test { result ≡ spec.gets_by part }
{
    matches!(part, ReferencePart::Table)
}

/// Whether an instruction goes by a part, where values are kept in a table of references.
pub fn goes_by(instruction: &Instruction, part: ReferencePart) -> bool
    ensures test { result ≡ spec.goes_by instruction.now part }
{
    match instruction {
        Instruction::IndexFromOwned | Instruction::VecToWasm(VectorKind::Value, _, _) => {
            adds_by(part)
        }
        Instruction::TakeIndex | Instruction::UnwrapResult => takes_by(part),
        Instruction::VecFromWasm(VectorKind::Value, _) => takes_all_by(part),
        Instruction::GetIndex => gets_by(part),
        _ => false,
    }
}

// What a description names as a part.
fn part_named(aux: &WasmBindgenAux, part: ReferencePart) -> Option<ExportItem>
    ensures item { result ≡ spec.part_named aux.now part }
{
    match part {
        ReferencePart::Alloc => func_item(aux.externref_alloc),
        ReferencePart::Drop => func_item(aux.externref_drop),
        ReferencePart::DropSlice => func_item(aux.externref_drop_slice),
        ReferencePart::Table => table_item(aux.externref_table),
    }
}

/// The item of the module that is a part, where the description names one and it is there.
pub fn part_item(lowered: &Lowered, part: ReferencePart) -> Option<ExportItem>
    ensures item { result ≡ spec.part_item lowered.now part }
{
    live_item(&lowered.module, part_named(&lowered.aux, part))
}

// Adds what a description names as a part, where an instruction goes by it.
fn push_part(
    out: &mut Vec<ExportItem>,
    aux: &WasmBindgenAux,
    instruction: &Instruction,
    part: ReferencePart,
) -> Result<(), AllocError>
    ensures pushed { OnOk result (out.new.items ≡ out.old.items ++ spec.part_taken aux.now instruction.now part) }
{
    if goes_by(instruction, part) {
        if let Some(item) = part_named(aux, part) {
            out.push(item)?;
        }
    }
    Ok(())
}

// Adds what it names as each of the parts.
fn push_parts(
    out: &mut Vec<ExportItem>,
    aux: &WasmBindgenAux,
    instruction: &Instruction,
) -> Result<(), AllocError>
    ensures pushed { OnOk result (out.new.items ≡ out.old.items ++ spec.parts_taken aux.now instruction.now) }
{
    push_part(out, aux, instruction, ReferencePart::Alloc)?;
    push_part(out, aux, instruction, ReferencePart::Drop)?;
    push_part(out, aux, instruction, ReferencePart::DropSlice)?;
    push_part(out, aux, instruction, ReferencePart::Table)
}

/// Whether an instruction makes a closure.
pub fn makes_closure(instruction: &Instruction) -> bool
    ensures test { result ≡ spec.makes_closure instruction.now }
{
    matches!(instruction, Instruction::Closure(_, _))
}

/// The item of the module that is the function that destroys closures, where the description names one and it is there.
pub fn destroyer_item(lowered: &Lowered) -> Option<ExportItem>
    ensures item { result ≡ spec.destroyer_item lowered.now }
{
    live_item(&lowered.module, func_item(lowered.aux.destroy_closure))
}

// Adds the function that destroys closures, where an instruction makes one.
fn push_destroyer(
    out: &mut Vec<ExportItem>,
    aux: &WasmBindgenAux,
    instruction: &Instruction,
) -> Result<(), AllocError>
    ensures pushed { OnOk result (out.new.items ≡ out.old.items ++ spec.destroyer_taken aux.now instruction.now) }
{
    if makes_closure(instruction) {
        if let Some(item) = func_item(aux.destroy_closure) {
            out.push(item)?;
        }
    }
    Ok(())
}

/// The item of the module that is the function which takes what an import threw, where the description names one and it is there.
pub fn store_item(lowered: &Lowered) -> Option<ExportItem>
    ensures item { result ≡ spec.store_item lowered.now }
{
    live_item(&lowered.module, func_item(lowered.aux.exn_store))
}

// What an instruction names, by its ids and as parts.
fn named_by(
    alloc: Global,
    settings: &Settings,
    aux: &WasmBindgenAux,
    instruction: &Instruction,
) -> Result<Vec<ExportItem>, AllocError>
    ensures named { IfOk result (λ v. v.items ≡ spec.named_by settings.now.externref aux.now instruction.now) }
{
    let mut named = Vec::new(alloc);
    push_instruction(&mut named, instruction)?;
    if settings.externref {
        push_parts(&mut named, aux, instruction)?;
    }
    push_destroyer(&mut named, aux, instruction)?;
    Ok(named)
}

/// The items of the module that an instruction takes, as far as they are there: those that its ids name, where values are kept in a table
/// of references the parts that it goes by, and where it makes a closure the function that destroys closures. Want of memory is the only error.
pub fn needed_items(
    alloc: Global,
    settings: &Settings,
    lowered: &Lowered,
    instruction: &Instruction,
) -> Result<Vec<ExportItem>, AllocError>
    ensures needed { IfOk result (λ v. v.items ≡ spec.needed_items settings.now lowered.now instruction.now) }
{
    let mut needed = named_by(alloc, settings, &lowered.aux, instruction)?;
    keep_live(&mut needed, &lowered.module);
    Ok(needed)
}
