//! The computed property keys that a description holds, as a list.
ghost use Rattle.std.specs.Prelude.{◌≡◌, ◌∷◌, ◌++◌, [], IfOk, OnOk, filter};
ghost use Rattle.std.specs.List.{flat_map};
ghost use Rattle.glue_words.specs.Limits.{is_computed};
ghost use Rattle.glue_context.specs.Keys as spec;
ghost use Rattle.cli_support.specs.Listed.{IsSortedSet};

use crate::sorted::sorted_set;
use glue_shared::{AdapterId, AuxExport, AuxImport, AuxValue, JsImport, WasmBindgenAux};
use glue_words::is_computed_key;
use std::alloc::{AllocError, Global};
use values::{Seq, Text};

// Appends a property, where it is a computed key.
fn push_key(alloc: Global, out: &mut Vec<Text>, name: &Text) -> Result<(), AllocError>
    ensures pushed { OnOk result (out.new.items ≡ out.old.items ++ filter is_computed (name.now ∷ [])) }
{
    if is_computed_key(name.as_str()) {
        out.push(Text::from_str(alloc, name.as_str())?)?;
    }
    Ok(())
}

// Appends the computed keys among properties.
fn push_keys(alloc: Global, out: &mut Vec<Text>, names: &[Text]) -> Result<(), AllocError>
    ensures pushed { OnOk result (out.new.items ≡ out.old.items ++ filter is_computed names.now) }
{
    for name in names {
        push_key(alloc, out, name)?;
    }
    Ok(())
}

// Appends those among the properties that lead to a value, and of the one that is named behind them.
#[tactic(auto, using(crate::proofs::Listed::filter_behind))]
fn push_path(
    alloc: Global,
    out: &mut Vec<Text>,
    js: &JsImport,
    name: &Text,
) -> Result<(), AllocError>
    ensures pushed { OnOk result (out.new.items ≡ out.old.items ++ filter is_computed (js.now.fields ++ name.now ∷ [])) }
{
    push_keys(alloc, out, js.fields.as_slice())?;
    push_key(alloc, out, name)
}

// Appends those that a value's import names.
fn push_value(alloc: Global, out: &mut Vec<Text>, value: &AuxValue) -> Result<(), AllocError>
    ensures pushed { OnOk result (out.new.items ≡ out.old.items ++ filter is_computed (spec.value_properties value.now)) }
{
    match value {
        AuxValue::Bare(js) => push_keys(alloc, out, js.fields.as_slice()),
        AuxValue::Getter(js, name)
        | AuxValue::ClassGetter(js, name)
        | AuxValue::Setter(js, name)
        | AuxValue::ClassSetter(js, name) => push_path(alloc, out, js, name),
    }
}

// Appends those that an import names.
fn push_import(alloc: Global, out: &mut Vec<Text>, import: &AuxImport) -> Result<(), AllocError>
    ensures pushed { OnOk result (out.new.items ≡ out.old.items ++ filter is_computed (spec.import_properties import.now)) }
{
    match import {
        AuxImport::Value(value) => push_value(alloc, out, value),
        AuxImport::ValueWithThis(js, name)
        | AuxImport::StructuralClassGetter(js, name)
        | AuxImport::StructuralClassSetter(js, name) => push_path(alloc, out, js, name),
        AuxImport::Instanceof(js)
        | AuxImport::Static(js, _)
        | AuxImport::IndexingGetterOfClass(js)
        | AuxImport::IndexingSetterOfClass(js)
        | AuxImport::IndexingDeleterOfClass(js) => push_keys(alloc, out, js.fields.as_slice()),
        AuxImport::StructuralMethod(name)
        | AuxImport::StructuralGetter(name)
        | AuxImport::StructuralSetter(name) => push_key(alloc, out, name),
        AuxImport::String(_)
        | AuxImport::Cast(_)
        | AuxImport::IndexingGetterOfObject
        | AuxImport::IndexingSetterOfObject
        | AuxImport::IndexingDeleterOfObject
        | AuxImport::WrapInExportedClass(_)
        | AuxImport::UnwrapExportedClass(_)
        | AuxImport::LinkTo(_, _)
        | AuxImport::Intrinsic(_) => Ok(()),
    }
}

// Appends those that imports name.
fn push_imports(
    alloc: Global,
    out: &mut Vec<Text>,
    imports: &[(AdapterId, AuxImport)],
) -> Result<(), AllocError>
    ensures pushed { OnOk result (out.new.items ≡ out.old.items ++ flat_map (λ e. filter is_computed (spec.import_properties e.1)) imports.now) }
{
    for import in imports {
        push_import(alloc, out, &import.1)?;
    }
    Ok(())
}

// Appends those that re-exports name.
fn push_reexports(
    alloc: Global,
    out: &mut Vec<Text>,
    reexports: &[(Text, JsImport, bool)],
) -> Result<(), AllocError>
    ensures pushed { OnOk result (out.new.items ≡ out.old.items ++ flat_map (λ r. filter is_computed r.1.fields) reexports.now) }
{
    for reexport in reexports {
        push_keys(alloc, out, reexport.1.fields.as_slice())?;
    }
    Ok(())
}

// Appends the name of a member of a class, where it is a computed key.
fn push_member(alloc: Global, out: &mut Vec<Text>, export: &AuxExport) -> Result<(), AllocError>
    ensures pushed { OnOk result (out.new.items ≡ out.old.items ++ filter is_computed (spec.member_name export.now.class export.now)) }
{
    match &export.class {
        None => Ok(()),
        Some(_) => push_key(alloc, out, &export.name),
    }
}

// Appends those among the names of members.
fn push_members(alloc: Global, out: &mut Vec<Text>, exports: &[AuxExport]) -> Result<(), AllocError>
    ensures pushed { OnOk result (out.new.items ≡ out.old.items ++ flat_map (λ e. filter is_computed (spec.member_name e.class e)) exports.now) }
{
    for export in exports {
        push_member(alloc, out, export)?;
    }
    Ok(())
}

// Appends the computed keys of a description.
#[tactic(auto, using(crate::proofs::Listed::keys_joined))]
fn push_described(
    alloc: Global,
    out: &mut Vec<Text>,
    aux: &WasmBindgenAux,
) -> Result<(), AllocError>
    ensures pushed { OnOk result (out.new.items ≡ out.old.items ++ spec.described_keys aux.now) }
{
    push_imports(alloc, out, aux.imports.as_slice())?;
    push_reexports(alloc, out, aux.reexports.as_slice())?;
    push_members(alloc, out, aux.exports.as_slice())
}

/// The computed keys of a description, in order of bytes and each once.
pub(crate) fn key_set(alloc: Global, aux: &WasmBindgenAux) -> Result<Seq<Text>, AllocError>
    ensures keys { IfOk result (λ keys. IsSortedSet (spec.described_keys aux.now) keys) }
{
    let mut keys = Vec::new(alloc);
    push_described(alloc, &mut keys, aux)?;
    Ok(sorted_set(keys))
}
