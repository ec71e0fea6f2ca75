//! Imports whose adapters do nothing but hand on to a described name of a module.
ghost use Rattle.std.specs.Prelude.{◌≡◌};
ghost use Rattle.std.specs.Option.{option_copied};
ghost use Rattle.std.specs.List.{list_all};
ghost use Rattle.glue_shared.specs.Names as spec;

use crate::adapter::{
    Adapter, AdapterId, AdapterJsImportKind, AdapterKind, Instruction, NonstandardWitSection,
};
use crate::import::{AuxImport, AuxValue, JsImport, JsImportName};
use crate::indexed::IndexedAux;
use crate::settings::{Settings, Target};

// Whether a step changes no value.
fn is_plain_cast(step: &Instruction) -> bool
    ensures test { result ≡ spec.is_plain_cast step.now }
{
    match step {
        Instruction::Int32ToWasm | Instruction::Int64ToWasm | Instruction::I32FromBool => true,
        Instruction::WasmToInt32(unsigned) | Instruction::WasmToInt64(unsigned) => !*unsigned,
        _ => false,
    }
}

// Whether each of the steps changes no value.
fn are_plain_casts(steps: &[Instruction]) -> bool
    ensures test { result ≡ list_all spec.is_plain_cast steps.now }
{
    steps.iter().all(|step| is_plain_cast(step))
}

// The adapter that a code calls, where it does nothing else but hand its arguments on in order.
fn plain_call(code: &[Instruction]) -> Option<AdapterId>
    ensures callee { result ≡ spec.plain_call 0 code.now }
{
    let mut rest = code;
    let mut met = 0;
    'steps: while let Some((step, others)) = rest.split_first() {
        match step {
            Instruction::ArgGet(place) => {
                if *place as usize != met {
                    return None;
                }
                met += 1;
            }
            Instruction::CallAdapter(id) => {
                return if are_plain_casts(others) {
                    Some(*id)
                } else {
                    None
                };
            }
            step => {
                if !is_plain_cast(step) {
                    return None;
                }
            }
        }
        rest = others;
    }
    None
}

/// Whether a described name is one of a module.
pub fn is_from_module(name: &JsImportName) -> bool
    ensures test { result ≡ spec.is_from_module name.now }
{
    match name {
        JsImportName::Module { .. }
        | JsImportName::LocalModule { .. }
        | JsImportName::InlineJs { .. } => true,
        JsImportName::Global { .. } | JsImportName::VendorPrefixed { .. } => false,
    }
}

// The name of a module that an import is described as, with the properties that are read from it.
fn module_name(import: Option<&AuxImport>) -> Option<&JsImport>
    ensures name { option_copied result ≡ spec.module_name (option_copied import.entry) }
{
    match import {
        Some(AuxImport::Value(AuxValue::Bare(js))) => {
            if is_from_module(&js.name) {
                Some(js)
            } else {
                None
            }
        }
        _ => None,
    }
}

// Whether an adapter is a call of the kind `Normal`.
fn is_normal_call(adapter: Option<&Adapter>) -> bool
    ensures test { result ≡ spec.is_normal_call (option_copied adapter.entry) }
{
    match adapter {
        Some(adapter) => matches!(
            adapter.kind,
            AdapterKind::Import(AdapterJsImportKind::Normal)
        ),
        None => false,
    }
}

// The name of a module that a called adapter is described as, where it is called as a function with its arguments as they are.
fn callee_name<'a>(
    wit: &NonstandardWitSection,
    aux: &'a IndexedAux<'_>,
    callee: Option<AdapterId>,
) -> Option<&'a JsImport>
    ensures name { option_copied result ≡ spec.callee_name wit.now aux.now callee }
{
    match callee {
        None => None,
        Some(id) => {
            if is_normal_call(wit.adapters.get(&id)) && !aux.is_variadic(id) {
                module_name(aux.import(id))
            } else {
                None
            }
        }
    }
}

/// The code of an adapter, none where it is a call or isn't there.
pub fn code_of(adapter: Option<&Adapter>) -> &[Instruction]
    ensures code { result.now ≡ spec.code_of (option_copied adapter.entry) }
{
    match adapter {
        None => &[],
        Some(adapter) => match &adapter.kind {
            AdapterKind::Local(code) => code.as_slice(),
            AdapterKind::Import(_) => &[],
        },
    }
}

pub(crate) fn is_emscripten(target: &Target) -> bool
    ensures test { result ≡ spec.is_emscripten target.now }
{
    matches!(target, Target::Emscripten)
}

// The name of a module that the adapter of an import does nothing but hand on to.
fn handed_name<'a>(
    settings: &Settings,
    wit: &NonstandardWitSection,
    aux: &'a IndexedAux<'_>,
    adapter: AdapterId,
) -> Option<&'a JsImport>
    ensures name { option_copied result ≡ spec.handed_name settings.now wit.now aux.now adapter }
{
    if is_emscripten(&settings.target) || aux.is_caught(adapter) || aux.is_legacy() {
        None
    } else {
        callee_name(wit, aux, plain_call(code_of(wit.adapters.get(&adapter))))
    }
}

// Whether an import that this adapter implements can be the described name itself.
pub(crate) fn is_direct(
    settings: &Settings,
    wit: &NonstandardWitSection,
    aux: &IndexedAux<'_>,
    adapter: AdapterId,
) -> bool
    ensures test { result ≡ spec.is_direct settings.now wit.now aux.now adapter }
{
    match handed_name(settings, wit, aux, adapter) {
        None => false,
        Some(js) => js.fields.is_empty(),
    }
}

/// The name of a module and the properties that are read from it, at least one, where the adapter of an import does nothing but hand
/// on to it. The glue file defines such an import by the property, and not by a function of its own.
pub fn handed_part<'a>(
    settings: &Settings,
    wit: &NonstandardWitSection,
    aux: &'a IndexedAux<'_>,
    adapter: AdapterId,
) -> Option<&'a JsImport>
    ensures part { option_copied result ≡ spec.handed_part settings.now wit.now aux.now adapter }
{
    match handed_name(settings, wit, aux, adapter) {
        None => None,
        Some(js) => { if js.fields.is_empty() { None } else { Some(js) } }
    }
}
