//! Reading adapters.
ghost use Rattle.std.specs.Prelude.{◌≡◌, [], IfOk, None, Some, codes};
ghost use Rattle.serde_json.specs.Find.{get};
ghost use Rattle.serde_json.specs.View.{view};
ghost use Rattle.glue_json.specs.Adapters as spec;

use crate::counts::Counts;
use crate::fields::{has_keys_alone, list, required};
use crate::reads::{LowerFault, Reads};
use glue_shared::{Adapter, AdapterId, AdapterJsImportKind, AdapterKind};
use serde_json::Value;
use std::alloc::Global;
use values::{Map, Seq};

// How an import is called, by its name.
fn call_kind(name: &str) -> Option<AdapterJsImportKind>
    ensures named { result ≡ spec.call_kind name.now }
{
    match name {
        "normal" => Some(AdapterJsImportKind::Normal),
        "method" => Some(AdapterJsImportKind::Method),
        "constructor" => Some(AdapterJsImportKind::Constructor),
        _ => None,
    }
}

impl Reads for AdapterJsImportKind {
    ghost reads = { λ _ d. spec.call_kind_of d };

    fn read(_: Global, _: &Counts, value: &Value) -> Result<Self, LowerFault> {
        match value.as_str() {
            Some(name) => call_kind(name).ok_or(LowerFault::Failed),
            None => Err(LowerFault::Failed),
        }
    }
}

// Code, or the call of an import.
fn read_kind(alloc: Global, counts: &Counts, object: &Value) -> Result<AdapterKind, LowerFault>
    ensures ok { IfOk result (λ k. spec.kind_of counts.now (get (codes "code") (view object.now)) (get (codes "import") (view object.now)) ≡ Some k) }
    ensures failed { result ≡ Err LowerFault.Failed → spec.kind_of counts.now (get (codes "code") (view object.now)) (get (codes "import") (view object.now)) ≡ None }
{
    let call = object.get("import");
    match object.get("code") {
        Some(code) => match call {
            Some(_) => Err(LowerFault::Failed),
            None => Ok(AdapterKind::Local(Seq::read(alloc, counts, code)?)),
        },
        None => match call {
            Some(call) => Ok(AdapterKind::Import(AdapterJsImportKind::read(alloc, counts, call)?)),
            None => Err(LowerFault::Failed),
        },
    }
}

impl Reads for (AdapterId, Adapter) {
    ghost reads = { spec.adapter_of };

    #[tactic(auto, unfolding(crate::specs::Adapters::adapter_of))]
    fn read(alloc: Global, counts: &Counts, value: &Value) -> Result<Self, LowerFault> {
        if !has_keys_alone(value, &["id", "args", "results", "code", "import"]) {
            return Err(LowerFault::Failed);
        }
        let id = required(alloc, counts, value, "id")?;
        let args = list(alloc, counts, value, "args")?;
        let results = list(alloc, counts, value, "results")?;
        let kind = read_kind(alloc, counts, value)?;
        Ok((
            id,
            Adapter {
                args,
                results,
                kind,
            },
        ))
    }
}

// The adapters by id. Fails where an id stands twice.
fn by_id(
    alloc: Global,
    rows: Seq<(AdapterId, Adapter)>,
) -> Result<Map<AdapterId, Adapter>, LowerFault>
    ensures ok { IfOk result (λ m. spec.put_all [] rows ≡ Some m) }
    ensures failed { result ≡ Err LowerFault.Failed → spec.put_all [] rows ≡ None }
{
    let mut adapters = Map::new(alloc);
    for (id, adapter) in rows.into_vec() {
        if adapters.insert(id, adapter)?.is_some() {
            return Err(LowerFault::Failed);
        }
    }
    Ok(adapters)
}

/// The adapters, of which no two have one id.
pub fn read_adapters(
    alloc: Global,
    counts: &Counts,
    value: &Value,
) -> Result<Map<AdapterId, Adapter>, LowerFault>
    ensures ok { IfOk result (λ m. spec.adapters_of counts.now (view value.now) ≡ Some m) }
    ensures failed { result ≡ Err LowerFault.Failed → spec.adapters_of counts.now (view value.now) ≡ None }
{
    let rows = list(alloc, counts, value, "adapters")?;
    by_id(alloc, rows)
}
