//! Reading what a call of an import evaluates.
ghost use Rattle.std.specs.Prelude.{◌≡◌, IfOk, None, Some, map};
ghost use Rattle.serde_json.specs.View.{view};
ghost use Rattle.glue_json.specs.Imports as spec;

use crate::counts::Counts;
use crate::fields::{has_keys_alone, list, required};
use crate::parts::{none, one, two};
use crate::reads::{LowerFault, Reads};
use glue_shared::{AdapterId, AuxImport, AuxValue, JsImport, JsImportName};
use serde_json::Value;
use std::alloc::Global;
use values::Text;

// A name of the global scope.
#[tactic(auto, unfolding(crate::specs::Imports::global_name))]
fn global_name(alloc: Global, counts: &Counts, value: &Value) -> Result<JsImportName, LowerFault>
    ensures ok { IfOk result (λ n. spec.global_name (view value.now) ≡ Some n) }
    ensures failed { result ≡ Err LowerFault.Failed → spec.global_name (view value.now) ≡ None }
{
    if !has_keys_alone(value, &["global", "fields"]) {
        return Err(LowerFault::Failed);
    }
    let name = required(alloc, counts, value, "global")?;
    Ok(JsImportName::Global { name })
}

// A name that a module exports.
#[tactic(auto, unfolding(crate::specs::Imports::module_name))]
fn module_name(alloc: Global, counts: &Counts, value: &Value) -> Result<JsImportName, LowerFault>
    ensures ok { IfOk result (λ n. spec.module_name (view value.now) ≡ Some n) }
    ensures failed { result ≡ Err LowerFault.Failed → spec.module_name (view value.now) ≡ None }
{
    if !has_keys_alone(value, &["module", "name", "fields"]) {
        return Err(LowerFault::Failed);
    }
    let path = required(alloc, counts, value, "module")?;
    let name = required(alloc, counts, value, "name")?;
    Ok(JsImportName::Module { module: path, name })
}

// A name that a module handed in with the description exports.
#[tactic(auto, unfolding(crate::specs::Imports::local_name))]
fn local_name(alloc: Global, counts: &Counts, value: &Value) -> Result<JsImportName, LowerFault>
    ensures ok { IfOk result (λ n. spec.local_name (view value.now) ≡ Some n) }
    ensures failed { result ≡ Err LowerFault.Failed → spec.local_name (view value.now) ≡ None }
{
    if !has_keys_alone(value, &["local", "name", "fields"]) {
        return Err(LowerFault::Failed);
    }
    let path = required(alloc, counts, value, "local")?;
    let name = required(alloc, counts, value, "name")?;
    Ok(JsImportName::LocalModule { module: path, name })
}

// A name that a piece of JavaScript of a crate exports.
#[tactic(auto, unfolding(crate::specs::Imports::inline_name))]
fn inline_name(alloc: Global, counts: &Counts, value: &Value) -> Result<JsImportName, LowerFault>
    ensures ok { IfOk result (λ n. spec.inline_name (view value.now) ≡ Some n) }
    ensures failed { result ≡ Err LowerFault.Failed → spec.inline_name (view value.now) ≡ None }
{
    if !has_keys_alone(value, &["inline", "index", "name", "fields"]) {
        return Err(LowerFault::Failed);
    }
    let crate_name = required(alloc, counts, value, "inline")?;
    let index = required(alloc, counts, value, "index")?;
    let name = required(alloc, counts, value, "name")?;
    Ok(JsImportName::InlineJs {
        crate_name,
        index,
        name,
    })
}

// A name of the global scope, with or without a prefix.
#[tactic(auto, unfolding(crate::specs::Imports::vendor_name))]
fn vendor_name(alloc: Global, counts: &Counts, value: &Value) -> Result<JsImportName, LowerFault>
    ensures ok { IfOk result (λ n. spec.vendor_name (view value.now) ≡ Some n) }
    ensures failed { result ≡ Err LowerFault.Failed → spec.vendor_name (view value.now) ≡ None }
{
    if !has_keys_alone(value, &["vendor", "prefixes", "fields"]) {
        return Err(LowerFault::Failed);
    }
    let name = required(alloc, counts, value, "vendor")?;
    let prefixes = list(alloc, counts, value, "prefixes")?;
    Ok(JsImportName::VendorPrefixed { name, prefixes })
}

impl Reads for JsImportName {
    ghost reads = { λ _ d. spec.name_of d };

    fn read(alloc: Global, counts: &Counts, value: &Value) -> Result<Self, LowerFault> {
        if value.get("global").is_some() {
            return global_name(alloc, counts, value);
        }
        if value.get("module").is_some() {
            return module_name(alloc, counts, value);
        }
        if value.get("local").is_some() {
            return local_name(alloc, counts, value);
        }
        if value.get("inline").is_some() {
            return inline_name(alloc, counts, value);
        }
        vendor_name(alloc, counts, value)
    }
}

impl Reads for JsImport {
    ghost reads = { λ _ d. spec.js_of d };

    #[tactic(auto, unfolding(crate::specs::Imports::js_of))]
    fn read(alloc: Global, counts: &Counts, value: &Value) -> Result<Self, LowerFault> {
        let name = JsImportName::read(alloc, counts, value)?;
        let fields = list(alloc, counts, value, "fields")?;
        Ok(JsImport { name, fields })
    }
}

// Properties by name and by key.
#[tactic(auto, unfolding(crate::specs::Imports::property_row))]
fn property_row(
    alloc: Global,
    counts: &Counts,
    name: &str,
    parts: &[Value],
) -> Result<AuxImport, LowerFault>
    ensures ok { IfOk result (λ i. spec.property_row name.now (map view parts.now) ≡ Some i) }
    ensures failed { result ≡ Err LowerFault.Failed → spec.property_row name.now (map view parts.now) ≡ None }
{
    match name {
        "StructuralMethod" => Ok(AuxImport::StructuralMethod(one(alloc, counts, parts)?)),
        "StructuralGetter" => Ok(AuxImport::StructuralGetter(one(alloc, counts, parts)?)),
        "StructuralSetter" => Ok(AuxImport::StructuralSetter(one(alloc, counts, parts)?)),
        "StructuralClassGetter" => {
            let (class, name) = two(alloc, counts, parts)?;
            Ok(AuxImport::StructuralClassGetter(class, name))
        }
        "StructuralClassSetter" => {
            let (class, name) = two(alloc, counts, parts)?;
            Ok(AuxImport::StructuralClassSetter(class, name))
        }
        "IndexingGetterOfClass" => Ok(AuxImport::IndexingGetterOfClass(one(alloc, counts, parts)?)),
        "IndexingSetterOfClass" => Ok(AuxImport::IndexingSetterOfClass(one(alloc, counts, parts)?)),
        "IndexingDeleterOfClass" => {
            Ok(AuxImport::IndexingDeleterOfClass(one(alloc, counts, parts)?))
        }
        "IndexingGetterOfObject" => none(AuxImport::IndexingGetterOfObject, parts),
        "IndexingSetterOfObject" => none(AuxImport::IndexingSetterOfObject, parts),
        "IndexingDeleterOfObject" => none(AuxImport::IndexingDeleterOfObject, parts),
        _ => Err(LowerFault::Failed),
    }
}

// What is wrapped, linked or built in.
#[tactic(auto, unfolding(crate::specs::Imports::made_row))]
fn made_row(
    alloc: Global,
    counts: &Counts,
    name: &str,
    parts: &[Value],
) -> Result<AuxImport, LowerFault>
    ensures ok { IfOk result (λ i. spec.made_row name.now (map view parts.now) ≡ Some i) }
    ensures failed { result ≡ Err LowerFault.Failed → spec.made_row name.now (map view parts.now) ≡ None }
{
    match name {
        "String" => Ok(AuxImport::String(one(alloc, counts, parts)?)),
        "Cast" => Ok(AuxImport::Cast(one(alloc, counts, parts)?)),
        "WrapInExportedClass" => Ok(AuxImport::WrapInExportedClass(one(alloc, counts, parts)?)),
        "UnwrapExportedClass" => Ok(AuxImport::UnwrapExportedClass(one(alloc, counts, parts)?)),
        "LinkTo" => {
            let (path, content) = two(alloc, counts, parts)?;
            Ok(AuxImport::LinkTo(path, content))
        }
        "Intrinsic" => Ok(AuxImport::Intrinsic(one(alloc, counts, parts)?)),
        _ => property_row(alloc, counts, name, parts),
    }
}

// An expression by its kind and its parts.
fn what_row(
    alloc: Global,
    counts: &Counts,
    name: &str,
    parts: &[Value],
) -> Result<AuxImport, LowerFault>
    ensures ok { IfOk result (λ i. spec.what_row name.now (map view parts.now) ≡ Some i) }
    ensures failed { result ≡ Err LowerFault.Failed → spec.what_row name.now (map view parts.now) ≡ None }
{
    match name {
        "Bare" => Ok(AuxImport::Value(AuxValue::Bare(one(alloc, counts, parts)?))),
        "Getter" => {
            let (object, field) = two(alloc, counts, parts)?;
            Ok(AuxImport::Value(AuxValue::Getter(object, field)))
        }
        "ClassGetter" => {
            let (class, field) = two(alloc, counts, parts)?;
            Ok(AuxImport::Value(AuxValue::ClassGetter(class, field)))
        }
        "Setter" => {
            let (object, field) = two(alloc, counts, parts)?;
            Ok(AuxImport::Value(AuxValue::Setter(object, field)))
        }
        "ClassSetter" => {
            let (class, field) = two(alloc, counts, parts)?;
            Ok(AuxImport::Value(AuxValue::ClassSetter(class, field)))
        }
        "ValueWithThis" => {
            let (object, name) = two(alloc, counts, parts)?;
            Ok(AuxImport::ValueWithThis(object, name))
        }
        "Instanceof" => Ok(AuxImport::Instanceof(one(alloc, counts, parts)?)),
        "Static" => {
            let (value, optional) = two(alloc, counts, parts)?;
            Ok(AuxImport::Static(value, optional))
        }
        _ => made_row(alloc, counts, name, parts),
    }
}

// A list whose first entry is the kind.
fn read_named(alloc: Global, counts: &Counts, items: &[Value]) -> Result<AuxImport, LowerFault>
    ensures ok { IfOk result (λ i. spec.named_what (map view items.now) ≡ Some i) }
    ensures failed { result ≡ Err LowerFault.Failed → spec.named_what (map view items.now) ≡ None }
{
    match items.split_first() {
        Some((head, parts)) => match head.as_str() {
            Some(name) => what_row(alloc, counts, name, parts),
            None => Err(LowerFault::Failed),
        },
        None => Err(LowerFault::Failed),
    }
}

impl Reads for AuxImport {
    ghost reads = { λ _ d. spec.what_of d };

    #[tactic(auto, using(crate::proofs::Lists::what_of_items))]
    fn read(alloc: Global, counts: &Counts, value: &Value) -> Result<Self, LowerFault> {
        match value.as_array() {
            Some(items) => read_named(alloc, counts, items.as_slice()),
            None => Err(LowerFault::Failed),
        }
    }
}

impl Reads for (AdapterId, AuxImport) {
    ghost reads = { λ _ d. spec.described_import_of d };

    #[tactic(auto, unfolding(crate::specs::Imports::described_import_of))]
    fn read(alloc: Global, counts: &Counts, value: &Value) -> Result<Self, LowerFault> {
        if !has_keys_alone(value, &["adapter", "what"]) {
            return Err(LowerFault::Failed);
        }
        let adapter = required(alloc, counts, value, "adapter")?;
        let what = required(alloc, counts, value, "what")?;
        Ok((adapter, what))
    }
}
