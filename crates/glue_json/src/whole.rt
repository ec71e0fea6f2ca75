//! Reading a whole description.
ghost use Rattle.std.specs.Prelude.{◌≡◌, IfOk, OnOk, None, Some, codes};
ghost use Rattle.serde_json.specs.Find.{get};
ghost use Rattle.serde_json.specs.View.{view};
ghost use Rattle.glue_json.specs.Reading as read_by;
ghost use Rattle.glue_json.specs.Description as spec;

use crate::adapters::read_adapters;
use crate::counts::Counts;
use crate::fields::{flag, has_keys_alone, list, maybe, optional, required};
use crate::parts::read_pair;
use crate::reads::{LowerFault, Reads};
use glue_shared::{AdapterId, Description, NonstandardWitSection, WasmBindgenAux};
use serde_json::Value;
use std::alloc::Global;
use values::Map;
use wasm_core::{ExportId, ImportId};

/// An import, and the adapter that defines it.
impl Reads for (ImportId, AdapterId) {
    ghost reads = { λ c d. read_by.pair_of (read_by.import_of c) read_by.u32_of d };

    fn read(alloc: Global, counts: &Counts, value: &Value) -> Result<Self, LowerFault> {
        read_pair(alloc, counts, value)
    }
}

/// A wasm export, and the adapter that a closure calls it by.
impl Reads for (ExportId, AdapterId) {
    ghost reads = { λ c d. read_by.pair_of (read_by.wasm_export_of c) read_by.u32_of d };

    fn read(alloc: Global, counts: &Counts, value: &Value) -> Result<Self, LowerFault> {
        read_pair(alloc, counts, value)
    }
}

// The adapters, and what they stand for.
#[tactic(auto, unfolding(crate::specs::Description::wit_of))]
fn read_wit(
    alloc: Global,
    counts: &Counts,
    value: &Value,
) -> Result<NonstandardWitSection, LowerFault>
    ensures ok { IfOk result (λ w. spec.wit_of counts.now (view value.now) ≡ Some w) }
    ensures failed { result ≡ Err LowerFault.Failed → spec.wit_of counts.now (view value.now) ≡ None }
{
    let adapters = read_adapters(alloc, counts, value)?;
    let implements = list(alloc, counts, value, "implements")?;
    let exports = list(alloc, counts, value, "adapter_exports")?;
    Ok(NonstandardWitSection {
        adapters,
        implements,
        exports,
    })
}

// What is called from either side.
#[tactic(auto, unfolding(crate::specs::Description::calls_of))]
fn read_calls(
    alloc: Global,
    counts: &Counts,
    value: &Value,
    aux: &mut WasmBindgenAux,
) -> Result<(), LowerFault>
    ensures ok { OnOk result (spec.calls_of (view value.now) aux.old ≡ Some aux.new) }
    ensures failed { result ≡ Err LowerFault.Failed → spec.calls_of (view value.now) aux.old ≡ None }
{
    aux.exports = list(alloc, counts, value, "exports")?;
    aux.imports = list(alloc, counts, value, "imports")?;
    aux.imports_with_catch = list(alloc, counts, value, "catch")?;
    aux.imports_with_variadic = list(alloc, counts, value, "variadic")?;
    Ok(())
}

// What is declared.
#[tactic(auto, unfolding(crate::specs::Description::types_of))]
fn read_types(
    alloc: Global,
    counts: &Counts,
    value: &Value,
    aux: &mut WasmBindgenAux,
) -> Result<(), LowerFault>
    ensures ok { OnOk result (spec.types_of (view value.now) aux.old ≡ Some aux.new) }
    ensures failed { result ≡ Err LowerFault.Failed → spec.types_of (view value.now) aux.old ≡ None }
{
    aux.structs = list(alloc, counts, value, "structs")?;
    aux.enums = list(alloc, counts, value, "enums")?;
    aux.string_enums = list(alloc, counts, value, "string_enums")?;
    aux.unions = list(alloc, counts, value, "unions")?;
    aux.reexports = list(alloc, counts, value, "reexports")?;
    Ok(())
}

// Texts that are handed on, and two truths.
#[tactic(auto, unfolding(crate::specs::Description::texts_of))]
fn read_texts(
    alloc: Global,
    counts: &Counts,
    value: &Value,
    aux: &mut WasmBindgenAux,
) -> Result<(), LowerFault>
    ensures ok { OnOk result (spec.texts_of (view value.now) aux.old ≡ Some aux.new) }
    ensures failed { result ≡ Err LowerFault.Failed → spec.texts_of (view value.now) aux.old ≡ None }
{
    aux.snippets = optional(alloc, counts, value, "snippets", Map::new(alloc))?;
    aux.local_modules = optional(alloc, counts, value, "local_modules", Map::new(alloc))?;
    aux.package_jsons = list(alloc, counts, value, "package_jsons")?;
    aux.extra_typescript = list(alloc, counts, value, "extra_typescript")?;
    aux.static_slots = list(alloc, counts, value, "static_slots")?;
    aux.uses_reinit = flag(alloc, counts, value, "uses_reinit")?;
    aux.legacy_exception_handling = flag(alloc, counts, value, "legacy_exception_handling")?;
    Ok(())
}

// The parts of the module that the glue file's own code needs.
#[tactic(auto, unfolding(crate::specs::Description::parts_of))]
fn read_parts(
    alloc: Global,
    counts: &Counts,
    parts: &Value,
    aux: &mut WasmBindgenAux,
) -> Result<(), LowerFault>
    ensures ok { OnOk result (spec.parts_of counts.now (view parts.now) aux.old ≡ Some aux.new) }
    ensures failed { result ≡ Err LowerFault.Failed → spec.parts_of counts.now (view parts.now) aux.old ≡ None }
{
    if !has_keys_alone(
        parts,
        &[
            "exn_store",
            "externref_alloc",
            "externref_drop",
            "externref_drop_slice",
            "destroy_closure",
            "rethrow_critical",
            "externref_table",
            "function_table",
            "stack_pointer",
            "js_tag",
            "wrapped_js_tag",
        ],
    ) {
        return Err(LowerFault::Failed);
    }
    aux.exn_store = maybe(alloc, counts, parts, "exn_store")?;
    aux.externref_alloc = maybe(alloc, counts, parts, "externref_alloc")?;
    aux.externref_drop = maybe(alloc, counts, parts, "externref_drop")?;
    aux.externref_drop_slice = maybe(alloc, counts, parts, "externref_drop_slice")?;
    aux.destroy_closure = maybe(alloc, counts, parts, "destroy_closure")?;
    aux.rethrow_critical = maybe(alloc, counts, parts, "rethrow_critical")?;
    aux.externref_table = maybe(alloc, counts, parts, "externref_table")?;
    aux.function_table = maybe(alloc, counts, parts, "function_table")?;
    aux.stack_pointer = maybe(alloc, counts, parts, "stack_pointer")?;
    aux.js_tag = maybe(alloc, counts, parts, "js_tag")?;
    aux.wrapped_js_tag = maybe(alloc, counts, parts, "wrapped_js_tag")?;
    Ok(())
}

// Parts where there are some.
fn read_parts_or_none(
    alloc: Global,
    counts: &Counts,
    value: &Value,
    aux: &mut WasmBindgenAux,
) -> Result<(), LowerFault>
    ensures ok { OnOk result (spec.parts_or_none counts.now (get (codes "parts") (view value.now)) aux.old ≡ Some aux.new) }
    ensures failed { result ≡ Err LowerFault.Failed → spec.parts_or_none counts.now (get (codes "parts") (view value.now)) aux.old ≡ None }
{
    match value.get("parts") {
        Some(parts) => read_parts(alloc, counts, parts, aux),
        None => Ok(()),
    }
}

// All that is said beside the adapters.
#[tactic(auto, unfolding(crate::specs::Description::aux_of))]
fn read_aux(alloc: Global, counts: &Counts, value: &Value) -> Result<WasmBindgenAux, LowerFault>
    ensures ok { IfOk result (λ a. spec.aux_of counts.now (view value.now) ≡ Some a) }
    ensures failed { result ≡ Err LowerFault.Failed → spec.aux_of counts.now (view value.now) ≡ None }
{
    let mut aux = WasmBindgenAux::empty(alloc);
    read_calls(alloc, counts, value, &mut aux)?;
    read_types(alloc, counts, value, &mut aux)?;
    read_texts(alloc, counts, value, &mut aux)?;
    read_parts_or_none(alloc, counts, value, &mut aux)?;
    Ok(aux)
}

impl Reads for Description {
    ghost reads = { spec.description_of };

    #[tactic(auto, unfolding(crate::specs::Description::description_of))]
    fn read(alloc: Global, counts: &Counts, value: &Value) -> Result<Self, LowerFault> {
        if !has_keys_alone(
            value,
            &[
                "version",
                "adapters",
                "implements",
                "adapter_exports",
                "exports",
                "imports",
                "catch",
                "variadic",
                "structs",
                "enums",
                "string_enums",
                "unions",
                "reexports",
                "snippets",
                "local_modules",
                "package_jsons",
                "extra_typescript",
                "static_slots",
                "parts",
                "uses_reinit",
                "legacy_exception_handling",
            ],
        ) {
            return Err(LowerFault::Failed);
        }
        let version: u32 = required(alloc, counts, value, "version")?;
        if version != 1 {
            return Err(LowerFault::Failed);
        }
        let wit = read_wit(alloc, counts, value)?;
        let aux = read_aux(alloc, counts, value)?;
        Ok(Description { wit, aux })
    }
}
