//! Adapters by themselves: what they call, and what they pass.
ghost use Rattle.std.specs.Prelude.{◌≡◌, IfOk, option_map};
ghost use Rattle.std.specs.Option.{option_copied};
ghost use Rattle.std.specs.List.{count_by, list_all, list_any, find};
ghost use Rattle.glue_faults.specs.First.{first_of};
ghost use Rattle.glue_adapters.specs.Adapters as spec;
ghost use Rattle.glue_adapters.specs.Pairs as pairs_spec;

use crate::environment::Environment;
use crate::kind::{Kind, closure_kinds, js_kinds, kinds_of};
use crate::stack::is_well_stacked;
use glue_faults::{Fault, IdSet};
use glue_shared::{
    Adapter, AdapterId, AdapterKind, AdapterType, Instruction, Lowered, NonstandardWitSection,
};
use std::alloc::{AllocError, Global};
use values::{Duplicate, Seq, Text};
use wasm_core::FuncType;

// The instructions of an adapter, none where it is a call.
fn code_of(kind: &AdapterKind) -> &[Instruction]
    ensures code { result.now ≡ spec.code_of kind.now }
{
    match kind {
        AdapterKind::Local(code) => code.as_slice(),
        AdapterKind::Import(_) => &[],
    }
}

// Whether an adapter has code.
pub(crate) fn has_code(kind: &AdapterKind) -> bool
    ensures test { result ≡ spec.has_code kind.now }
{
    matches!(kind, AdapterKind::Local(_))
}

// Whether an adapter is there and has code.
pub(crate) fn is_local(lowered: &Lowered, id: AdapterId) -> bool
    ensures test { result ≡ spec.is_local (spec.adapter_at lowered.now id) }
{
    match lowered.wit.adapters.get(&id) {
        None => false,
        Some(adapter) => has_code(&adapter.kind),
    }
}

// Whether an adapter is there and is the call of an import.
pub(crate) fn is_import(lowered: &Lowered, id: AdapterId) -> bool
    ensures test { result ≡ spec.is_import (spec.adapter_at lowered.now id) }
{
    match lowered.wit.adapters.get(&id) {
        None => false,
        Some(adapter) => !has_code(&adapter.kind),
    }
}

// The name of an instruction that nothing carries out.
fn unsupported_name(instruction: &Instruction) -> Option<&Text>
    ensures name { option_copied result ≡ spec.unsupported_name instruction.now }
{
    match instruction {
        Instruction::Other(name) => Some(name),
        _ => None,
    }
}

// The first instruction of a code that nothing carries out.
fn first_unsupported(code: &[Instruction]) -> Option<&Text>
    ensures name { option_copied result ≡ first_of spec.unsupported_name code.now }
{
    for instruction in code {
        let name = unsupported_name(instruction);
        if name.is_some() {
            return name;
        }
    }
    None
}

/// The first adapter with an instruction that nothing carries out, and the first of these. Want of memory is the only error.
pub fn unsupported(alloc: Global, wit: &NonstandardWitSection) -> Result<Option<Fault>, AllocError>
    ensures fault { IfOk result (λ fault. fault ≡ spec.unsupported wit.now) }
{
    for (id, adapter) in wit.adapters.iter() {
        match first_unsupported(code_of(&adapter.kind)) {
            None => {}
            Some(name) => {
                return Ok(Some(Fault::UnsupportedInstr {
                    adapter: *id,
                    name: name.copy(alloc)?,
                }));
            }
        }
    }
    Ok(None)
}

#[tactic(auto, unfolding(crate::specs::Adapters::is_export_call))]
fn is_export_call(instruction: &Instruction) -> bool
    ensures test { result ≡ spec.is_export_call instruction.now }
{
    matches!(instruction, Instruction::CallExport(_))
}

#[tactic(auto, unfolding(crate::specs::Adapters::is_import_call))]
fn is_import_call(instruction: &Instruction) -> bool
    ensures test { result ≡ spec.is_import_call instruction.now }
{
    matches!(instruction, Instruction::CallAdapter(_))
}

// How many exports are called.
fn export_calls(code: &[Instruction]) -> u64
    ensures count { result ≡ count_by spec.is_export_call code.now }
{
    let mut count = 0;
    for instruction in code {
        count += u64::from(is_export_call(instruction));
    }
    count
}

// How many imports are called.
fn import_calls(code: &[Instruction]) -> u64
    ensures count { result ≡ count_by spec.is_import_call code.now }
{
    let mut count = 0;
    for instruction in code {
        count += u64::from(is_import_call(instruction));
    }
    count
}

// Whether an export is called.
fn has_export_call(code: &[Instruction]) -> bool
    ensures test { result ≡ list_any spec.is_export_call code.now }
{
    code.iter().any(|instruction| is_export_call(instruction))
}

// Whether an import is called.
fn has_import_call(code: &[Instruction]) -> bool
    ensures test { result ≡ list_any spec.is_import_call code.now }
{
    code.iter().any(|instruction| is_import_call(instruction))
}

// Whether what is called is an import adapter that is described.
fn is_described_call(lowered: &Lowered, entries: &IdSet, instruction: &Instruction) -> bool
    ensures test { result ≡ spec.is_described_call lowered.now entries.now instruction.now }
{
    match instruction {
        Instruction::CallAdapter(id) => is_import(lowered, *id) && entries.has(id.0),
        _ => true,
    }
}

// Whether each import that is called is described.
fn calls_described(lowered: &Lowered, entries: &IdSet, code: &[Instruction]) -> bool
    ensures test { result ≡ list_all (spec.is_described_call lowered.now entries.now) code.now }
{
    code.iter().all(|instruction| is_described_call(lowered, entries, instruction))
}

// Whether one export is called, and no import.
fn calls_export(code: &[Instruction]) -> bool
    ensures test { result ≡ spec.calls_export code.now }
{
    export_calls(code) == 1 && !has_import_call(code)
}

// Whether one import is called, and no export.
#[tactic(auto, unfolding(crate::specs::Adapters::calls_one_import))]
fn calls_one_import(code: &[Instruction]) -> bool
    ensures test { result ≡ spec.calls_one_import code.now }
{
    import_calls(code) == 1 && !has_export_call(code)
}

// Whether one import is called, which is described, and no export.
fn calls_import(lowered: &Lowered, entries: &IdSet, code: &[Instruction]) -> bool
    ensures test { result ≡ spec.calls_import lowered.now entries.now code.now }
{
    calls_one_import(code) && calls_described(lowered, entries, code)
}

#[tactic(auto, unfolding(crate::specs::Adapters::writes_result))]
fn writes_result(instruction: &Instruction) -> bool
    ensures test { result ≡ spec.writes_result instruction.now }
{
    matches!(instruction, Instruction::StoreRetptr(_, _, _))
}

// Whether a result is written to room that a caller took.
fn has_written_result(code: &[Instruction]) -> bool
    ensures test { result ≡ list_any spec.writes_result code.now }
{
    code.iter().any(|instruction| writes_result(instruction))
}

// Whether one export is called, and no import, and no result is written to room of a caller.
fn is_outward(code: &[Instruction]) -> bool
    ensures test { result ≡ spec.is_outward code.now }
{
    calls_export(code) && !has_written_result(code)
}

// Whether an adapter passes values of these kinds to an export, and its result back as a JavaScript value.
#[tactic(auto, unfolding(crate::specs::Adapters::fits_outward))]
fn fits_outward(
    alloc: Global,
    lowered: &Lowered,
    environment: &Environment,
    params: &[Kind],
    adapter: &Adapter,
) -> Result<bool, AllocError>
    ensures test { IfOk result (λ fits. fits ≡ spec.fits_outward lowered.now environment.now params.now adapter.now) }
{
    let code = code_of(&adapter.kind);
    if !(adapter.results.len() <= 1 && is_outward(code)) {
        return Ok(false);
    }
    let results = js_kinds(alloc, adapter.results.as_slice())?;
    is_well_stacked(
        alloc,
        lowered,
        environment,
        params,
        results.as_slice(),
        code,
    )
}

// Whether a code passes values of these kinds.
fn passes_kinds(
    alloc: Global,
    lowered: &Lowered,
    environment: &Environment,
    code: &[Instruction],
    params: Option<Seq<Kind>>,
    results: Option<Seq<Kind>>,
) -> Result<bool, AllocError>
    ensures test { IfOk result (λ fits. fits ≡ spec.passes_kinds lowered.now environment.now code.now params results) }
{
    match params {
        None => Ok(false),
        Some(params) => match results {
            None => Ok(false),
            Some(results) => is_well_stacked(
                alloc,
                lowered,
                environment,
                params.as_slice(),
                results.as_slice(),
                code,
            ),
        },
    }
}

// Whether an adapter has as many arguments and results as a type.
fn has_counts(adapter: &Adapter, ty: &FuncType) -> bool
    ensures test { result ≡ spec.has_counts adapter.now ty.now }
{
    adapter.args.len() == ty.params.len()
        && adapter.results.len() == ty.results.len()
        && ty.results.len() <= 1
}

// Whether an adapter passes the values of an import's type to what is described.
#[tactic(auto, unfolding(crate::specs::Adapters::fits_inward))]
pub(crate) fn fits_inward(
    alloc: Global,
    lowered: &Lowered,
    environment: &Environment,
    entries: &IdSet,
    adapter: &Adapter,
    ty: &FuncType,
) -> Result<bool, AllocError>
    ensures test { IfOk result (λ fits. fits ≡ spec.fits_inward lowered.now environment.now entries.now adapter.now ty.now) }
{
    let code = code_of(&adapter.kind);
    if !(has_code(&adapter.kind)
        && has_counts(adapter, ty)
        && calls_import(lowered, entries, code))
    {
        return Ok(false);
    }
    let params = kinds_of(alloc, ty.params.as_slice())?;
    let results = kinds_of(alloc, ty.results.as_slice())?;
    passes_kinds(alloc, lowered, environment, code, params, results)
}

// The kinds of the parameters of an adapter with code that stands for no import: of one that closures call or not.
fn outward_kinds(
    alloc: Global,
    is_called_back: bool,
    types: &[AdapterType],
) -> Result<Vec<Kind>, AllocError>
    ensures kinds { IfOk result (λ kinds. kinds.items ≡ pairs_spec.outward_kinds is_called_back types.now) }
{
    if is_called_back {
        closure_kinds(alloc, types)
    } else {
        js_kinds(alloc, types)
    }
}

// Whether an adapter has code, stands for no import, and isn't fit for a closure, where closures call it, or for an export else.
#[tactic(auto, unfolding(crate::specs::Pairs::is_bad_code))]
fn is_bad_code(
    alloc: Global,
    lowered: &Lowered,
    environment: &Environment,
    pairs: &IdSet,
    id: AdapterId,
    adapter: &Adapter,
) -> Result<bool, AllocError>
    ensures test { IfOk result (λ bad. bad ≡ pairs_spec.is_bad_code lowered.now environment.now pairs.now (id, adapter.now)) }
{
    if !has_code(&adapter.kind) || pairs.has(id.0) {
        return Ok(false);
    }
    let is_called_back = environment.closures.has(id.0);
    let params = outward_kinds(alloc, is_called_back, adapter.args.as_slice())?;
    Ok(!fits_outward(alloc, lowered, environment, params.as_slice(), adapter)?)
}

// The first such adapter.
pub(crate) fn bad_code(
    alloc: Global,
    lowered: &Lowered,
    environment: &Environment,
    pairs: &IdSet,
) -> Result<Option<AdapterId>, AllocError>
    ensures bad { IfOk result (λ bad. bad ≡ option_map (λ entry. entry.0) (find (pairs_spec.is_bad_code lowered.now environment.now pairs.now) lowered.now.wit.adapters)) }
{
    for (id, adapter) in lowered.wit.adapters.iter() {
        if is_bad_code(alloc, lowered, environment, pairs, *id, adapter)? {
            return Ok(Some(*id));
        }
    }
    Ok(None)
}
