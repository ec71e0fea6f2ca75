//! What instructions pop and push, what a whole code leaves, and the room for results that it takes.
ghost use Rattle.std.specs.Prelude.{◌≡◌, [], ◌∷◌, Some, None, IfOk, false, if◌then◌else◌, option_map, option_and_then};
ghost use Rattle.std.specs.List.{list_all};
ghost use Rattle.std.specs.Option.{option_copied};
ghost use Rattle.glue_shared.specs.Roots.{instruction_items, is_live_item};
ghost use Rattle.glue_adapters.specs.Stack as spec;

use crate::environment::Environment;
use crate::kind::{Kind, are_same, argument_kinds, js_kinds, kinds_of, number_kind};
use glue_faults::IdSet;
use glue_shared::{
    Adapter, AdapterId, AdapterKind, AdapterType, Instruction, Lowered, is_live_item,
    push_instruction,
};
use glue_steps::{function_type, is_room};
use name_set::NameSet;
use std::alloc::{AllocError, Global};
use values::{Seq, Text};
use wasm_core::{ExportId, ExportItem, FuncType, Module, ValType};

/// What an instruction does to the stack: the kinds that it pops and those that it pushes, the top last.
#[derive(Drop)]
pub(crate) struct Effect {
    pops: Seq<Kind>,
    pushes: Seq<Kind>,
}

// Pops and pushes, and answers whether the stack ended in the kinds that are popped.
fn apply(stack: &mut Vec<Kind>, effect: &Effect) -> Result<bool, AllocError>
    ensures after { IfOk result (λ fits. spec.after effect.now stack.old.items ≡ (if fits then Some stack.new.items else None)) }
{
    let depth = stack.len().saturating_sub(effect.pops.len());
    let (_, top) = stack.as_slice().split_at(depth);
    if !are_same(top, effect.pops.as_slice()) {
        return Ok(false);
    }
    stack.truncate(depth);
    stack.extend_from_slice(effect.pushes.as_slice())?;
    Ok(true)
}

// The type of an exported item, where it is a function.
fn item_type(module: &Module, item: ExportItem) -> Option<&FuncType>
    ensures found { option_copied result ≡ spec.item_type «module».now item }
{
    match item {
        ExportItem::Func(func) => function_type(module, func),
        _ => None,
    }
}

/// The type of the function that is exported at a place.
pub fn export_type(module: &Module, id: ExportId) -> Option<&FuncType>
    ensures found { option_copied result ≡ spec.export_type «module».now id.0 }
{
    let export = module.exports().get(id.0 as usize)?.as_ref()?;
    item_type(module, export.item)
}

// That these are popped, and those are pushed.
fn effect_of(alloc: Global, pops: &[Kind], pushes: &[Kind]) -> Result<Option<Effect>, AllocError>
    ensures made { IfOk result (λ e. e ≡ Some (spec.effect_of pops.now pushes.now)) }
{
    Ok(Some(Effect {
        pops: Seq::from_vec(Vec::from_slice(alloc, pops)?),
        pushes: Seq::from_vec(Vec::from_slice(alloc, pushes)?),
    }))
}

// What a call of a function pops and pushes.
fn call_effect(alloc: Global, ty: &FuncType) -> Result<Option<Effect>, AllocError>
    ensures effect { IfOk result (λ e. e ≡ spec.call_effect ty.now) }
{
    if ty.results.len() > 1 {
        return Ok(None);
    }
    match kinds_of(alloc, ty.params.as_slice())? {
        None => Ok(None),
        Some(pops) => match kinds_of(alloc, ty.results.as_slice())? {
            None => Ok(None),
            Some(pushes) => Ok(Some(Effect { pops, pushes })),
        },
    }
}

// One JavaScript value, where there are results.
fn answer_kinds(alloc: Global, results: &[AdapterType]) -> Result<Seq<Kind>, AllocError>
    ensures kinds { IfOk result (λ kinds. kinds ≡ spec.answer_kinds results.now) }
{
    let mut kinds = Seq::new(alloc);
    if results.split_first().is_some() {
        kinds.push(Kind::Js)?;
    }
    Ok(kinds)
}

// What a call of an adapter pops and pushes.
fn adapter_effect(alloc: Global, adapter: Option<&Adapter>) -> Result<Option<Effect>, AllocError>
    ensures effect { IfOk result (λ e. e ≡ option_map spec.adapter_effect (option_copied adapter.entry)) }
{
    match adapter {
        None => Ok(None),
        Some(adapter) => Ok(Some(Effect {
            pops: Seq::from_vec(argument_kinds(alloc, adapter.args.as_slice())?),
            pushes: answer_kinds(alloc, adapter.results.as_slice())?,
        })),
    }
}

// What a call of an export pops and pushes.
fn export_effect(alloc: Global, ty: Option<&FuncType>) -> Result<Option<Effect>, AllocError>
    ensures effect { IfOk result (λ e. e ≡ option_and_then spec.call_effect (option_copied ty.entry)) }
{
    match ty {
        None => Ok(None),
        Some(ty) => call_effect(alloc, ty),
    }
}

// What is pushed for a parameter.
fn parameter_effect(alloc: Global, kind: Option<&Kind>) -> Result<Option<Effect>, AllocError>
    ensures effect { IfOk result (λ e. e ≡ option_map (λ k. spec.effect_of [] (k ∷ [])) (option_copied kind.entry)) }
{
    match kind {
        None => Ok(None),
        Some(kind) => effect_of(alloc, &[], &[*kind]),
    }
}

// Whether what the ids of an instruction name is there.
fn names_live(alloc: Global, module: &Module, instruction: &Instruction) -> Result<bool, AllocError>
    ensures test { IfOk result (λ test. test ≡ list_all (is_live_item «module».now) (instruction_items instruction.now)) }
{
    let mut named = Vec::new(alloc);
    push_instruction(&mut named, instruction)?;
    Ok(named.iter().all(|item| is_live_item(module, *item)))
}

// What a result pushes that is read from room.
fn loaded(alloc: Global, ty: ValType) -> Result<Option<Effect>, AllocError>
    ensures effect { IfOk result (λ e. e ≡ spec.loaded ty) }
{
    match number_kind(ty) {
        None => Ok(None),
        Some(kind) => effect_of(alloc, &[], &[kind]),
    }
}

// Whether the first parameter is an address.
fn is_addressed(params: &[Kind]) -> bool
    ensures test { result ≡ spec.is_addressed params.now }
{
    matches!(params.first(), Some(Kind::I32))
}

// What a result pops that is written to room that a caller took.
fn stored(alloc: Global, params: &[Kind], ty: ValType) -> Result<Option<Effect>, AllocError>
    ensures effect { IfOk result (λ e. e ≡ spec.stored params.now ty) }
{
    if !is_addressed(params) {
        return Ok(None);
    }
    match number_kind(ty) {
        None => Ok(None),
        Some(kind) => effect_of(alloc, &[kind], &[]),
    }
}

// What passes through memory.
fn memory_effect(
    alloc: Global,
    params: &[Kind],
    instruction: &Instruction,
) -> Result<Option<Effect>, AllocError>
    ensures effect { IfOk result (λ e. e ≡ spec.memory_effect params.now instruction.now) }
{
    match instruction {
        Instruction::StringToMemory(..)
        | Instruction::OptionStringToMemory(..)
        | Instruction::VecToWasm(..) => effect_of(alloc, &[Kind::Js], &[Kind::I32, Kind::I32]),
        Instruction::MemoryToString(_) | Instruction::VecFromWasm(..) => {
            effect_of(alloc, &[Kind::I32, Kind::I32], &[Kind::Js])
        }
        Instruction::DeferFree(..) => {
            effect_of(alloc, &[Kind::I32, Kind::I32], &[Kind::I32, Kind::I32])
        }
        Instruction::LoadRetptr(_, ty, _) => loaded(alloc, *ty),
        Instruction::StoreRetptr(_, ty, _) => stored(alloc, params, *ty),
        _ => Ok(None),
    }
}

// What is popped and pushed where a text of a string enum is passed for its place, or the other way.
fn enum_effect(
    alloc: Global,
    enums: &NameSet,
    name: &Text,
    popped: Kind,
    pushed: Kind,
) -> Result<Option<Effect>, AllocError>
    ensures effect { IfOk result (λ e. e ≡ spec.enum_effect enums.now name.now popped pushed) }
{
    if !enums.has(name.as_str()) {
        return Ok(None);
    }
    effect_of(alloc, &[popped], &[pushed])
}

// Whether an adapter can be called by a closure: it has code, and takes the two numbers that a closure holds.
fn is_callback(adapter: Option<&Adapter>) -> bool
    ensures test { result ≡ spec.is_callback (option_copied adapter.entry) }
{
    match adapter {
        None => false,
        Some(adapter) => match adapter.kind {
            AdapterKind::Local(_) => adapter.args.len() >= 2,
            AdapterKind::Import(_) => false,
        },
    }
}

// What is popped and pushed where a closure is made of an adapter.
fn closure_effect(
    alloc: Global,
    lowered: &Lowered,
    closures: &IdSet,
    id: AdapterId,
) -> Result<Option<Effect>, AllocError>
    ensures effect { IfOk result (λ e. e ≡ spec.closure_effect lowered.now closures.now id) }
{
    if !(closures.has(id.0) && is_callback(lowered.wit.adapters.get(&id))) {
        return Ok(None);
    }
    effect_of(alloc, &[Kind::I32, Kind::I32], &[Kind::Js])
}

// What passes through memory, where all that the instruction names is there.
fn named_effect(
    alloc: Global,
    lowered: &Lowered,
    params: &[Kind],
    instruction: &Instruction,
) -> Result<Option<Effect>, AllocError>
    ensures effect { IfOk result (λ e. e ≡ (if spec.names_live lowered.now instruction.now then spec.memory_effect params.now instruction.now else None)) }
{
    if !names_live(alloc, &lowered.module, instruction)? {
        return Ok(None);
    }
    memory_effect(alloc, params, instruction)
}

// What an instruction pops and pushes, where the parameters are of these kinds.
#[tactic(auto, unfolding(crate::specs::Stack::effect))]
fn instruction_effect(
    alloc: Global,
    lowered: &Lowered,
    environment: &Environment,
    params: &[Kind],
    instruction: &Instruction,
) -> Result<Option<Effect>, AllocError>
    ensures effect { IfOk result (λ e. e ≡ spec.effect lowered.now environment.now params.now instruction.now) }
{
    let Environment { enums, closures } = environment;
    match instruction {
        Instruction::ArgGet(n) => parameter_effect(alloc, params.get(*n as usize)),
        Instruction::Int32ToWasm
        | Instruction::I32FromBool
        | Instruction::IndexFromOwned
        | Instruction::IndexFromBorrow
        | Instruction::ClassIntoPtr(_)
        | Instruction::ClassPtr(_) => effect_of(alloc, &[Kind::Js], &[Kind::I32]),
        Instruction::WasmToInt32(_)
        | Instruction::BoolFromI32
        | Instruction::TakeIndex
        | Instruction::GetIndex
        | Instruction::ClassFromPtr(_) => effect_of(alloc, &[Kind::I32], &[Kind::Js]),
        Instruction::Int64ToWasm => effect_of(alloc, &[Kind::Js], &[Kind::I64]),
        Instruction::WasmToInt64(_) => effect_of(alloc, &[Kind::I64], &[Kind::Js]),
        Instruction::UnwrapResult => effect_of(alloc, &[Kind::I32, Kind::I32], &[]),
        Instruction::CallExport(id) => export_effect(alloc, export_type(&lowered.module, *id)),
        Instruction::CallAdapter(id) => adapter_effect(alloc, lowered.wit.adapters.get(id)),
        Instruction::Retptr(_) => effect_of(alloc, &[], &[Kind::I32]),
        Instruction::EnumIndex(name) => enum_effect(alloc, enums, name, Kind::Js, Kind::I32),
        Instruction::EnumText(name) => enum_effect(alloc, enums, name, Kind::I32, Kind::Js),
        Instruction::Closure(id, _) => closure_effect(alloc, lowered, closures, *id),
        other => named_effect(alloc, lowered, params, other),
    }
}

// Carries out an instruction on the kinds, and answers whether it could.
fn step(
    alloc: Global,
    lowered: &Lowered,
    environment: &Environment,
    params: &[Kind],
    stack: &mut Vec<Kind>,
    instruction: &Instruction,
) -> Result<bool, AllocError>
    ensures after { IfOk result (λ fits. option_and_then (λ e. spec.after e stack.old.items) (spec.effect lowered.now environment.now params.now instruction.now) ≡ (if fits then Some stack.new.items else None)) }
{
    match instruction_effect(alloc, lowered, environment, params, instruction)? {
        None => Ok(false),
        Some(effect) => apply(stack, &effect),
    }
}

// Whether the stack never lacks a value nor has another kind, and holds the results in the end.
fn keeps_stack(
    alloc: Global,
    lowered: &Lowered,
    environment: &Environment,
    params: &[Kind],
    results: &[Kind],
    code: &[Instruction],
) -> Result<bool, AllocError>
    ensures test { IfOk result (λ test. test ≡ spec.keeps_stack lowered.now environment.now params.now results.now code.now) }
{
    let mut stack = Vec::new(alloc);
    for instruction in code {
        if !step(alloc, lowered, environment, params, &mut stack, instruction)? {
            return Ok(false);
        }
    }
    Ok(are_same(stack.as_slice(), results))
}

// Whether an instruction takes room where none was taken, or reads a result from it where some was.
fn fits_room(taken: bool, instruction: &Instruction) -> bool
    ensures test { result ≡ spec.fits_room taken instruction.now }
{
    match instruction {
        Instruction::Retptr(_) => !taken,
        Instruction::LoadRetptr(_, _, _) => taken,
        _ => true,
    }
}

// Whether room is taken at most once, and results are read from it only behind that.
fn uses_room(code: &[Instruction]) -> bool
    ensures test { result ≡ spec.uses_room false code.now }
{
    let mut taken = false;
    for instruction in code {
        if !fits_room(taken, instruction) {
            return false;
        }
        taken = taken || is_room(instruction);
    }
    true
}

/// Whether the stack never lacks a value nor has another kind, and holds the results in the end, and room for results is taken at most once and
/// read only behind that. Want of memory is the only error.
pub fn is_well_stacked(
    alloc: Global,
    lowered: &Lowered,
    environment: &Environment,
    params: &[Kind],
    results: &[Kind],
    code: &[Instruction],
) -> Result<bool, AllocError>
    ensures test { IfOk result (λ test. test ≡ spec.is_well_stacked lowered.now environment.now params.now results.now code.now) }
{
    if !uses_room(code) {
        return Ok(false);
    }
    keeps_stack(alloc, lowered, environment, params, results, code)
}
