//! The names of the outside, as a list.
ghost use Rattle.std.specs.Prelude.{◌≡◌, ◌∷◌, ◌++◌, [], IfOk, OnOk, map};
ghost use Rattle.std.specs.List.{flat_map, list_any};
ghost use Rattle.glue_names.specs.Taken.{brought};
ghost use Rattle.glue_shared.specs.Names as names;
ghost use Rattle.cli_support.specs.Listed.{IsSortedSet};

use crate::sorted::sorted_set;
use glue_shared::{
    AdapterId, AuxImport, AuxStruct, EMSCRIPTEN_HOSTS, HOSTS, JsImport, JsImportName, Settings,
    Target, WasmBindgenAux, js_import,
};
use std::alloc::{AllocError, Global};
use values::{Seq, Text};

// Appends a name.
fn push_name(alloc: Global, out: &mut Vec<Text>, name: &str) -> Result<(), AllocError>
    ensures pushed { OnOk result (out.new.items ≡ out.old.items ++ name.now ∷ []) }
{
    out.push(Text::from_str(alloc, name)?)?;
    Ok(())
}

// Appends each of these names.
fn push_names(alloc: Global, out: &mut Vec<Text>, words: &[&str]) -> Result<(), AllocError>
    ensures pushed { OnOk result (out.new.items ≡ out.old.items ++ map (λ w. w.now) words.now) }
{
    for word in words {
        push_name(alloc, out, word)?;
    }
    Ok(())
}

// Appends a name of two parts.
fn push_joined(
    alloc: Global,
    out: &mut Vec<Text>,
    front: &str,
    rest: &str,
) -> Result<(), AllocError>
    ensures pushed { OnOk result (out.new.items ≡ out.old.items ++ (front.now ++ rest.now) ∷ []) }
{
    let mut joined = Text::from_str(alloc, front)?;
    joined.push_str(rest)?;
    out.push(joined)?;
    Ok(())
}

// Appends a name behind each of these.
fn push_prefixed(
    alloc: Global,
    out: &mut Vec<Text>,
    prefixes: &[Text],
    name: &str,
) -> Result<(), AllocError>
    ensures pushed { OnOk result (out.new.items ≡ out.old.items ++ map (λ prefix. prefix ++ name.now) prefixes.now) }
{
    for prefix in prefixes {
        push_joined(alloc, out, prefix.as_str(), name)?;
    }
    Ok(())
}

// Appends the names of the outside that a described name brings.
fn push_described(
    alloc: Global,
    out: &mut Vec<Text>,
    omitted: bool,
    described: &JsImportName,
) -> Result<(), AllocError>
    ensures pushed { OnOk result (out.new.items ≡ out.old.items ++ names.described_hosts omitted described.now) }
{
    match described {
        JsImportName::Global { name } => push_name(alloc, out, name.as_str()),
        JsImportName::Module { name, .. }
        | JsImportName::LocalModule { name, .. }
        | JsImportName::InlineJs { name, .. } => {
            if omitted {
                push_name(alloc, out, name.as_str())?;
            }
            Ok(())
        }
        JsImportName::VendorPrefixed { name, prefixes } => {
            push_name(alloc, out, name.as_str())?;
            push_prefixed(alloc, out, prefixes.as_slice(), name.as_str())
        }
    }
}

// Appends those that what an import evaluates brings.
#[tactic(auto, using(crate::proofs::Listed::brought_none, crate::proofs::Listed::brought_some))]
fn push_brought(
    alloc: Global,
    out: &mut Vec<Text>,
    omitted: bool,
    what: &AuxImport,
) -> Result<(), AllocError>
    ensures pushed { OnOk result (out.new.items ≡ out.old.items ++ brought omitted what.now) }
{
    match js_import(what) {
        None => Ok(()),
        Some(js) => push_described(alloc, out, omitted, &js.name),
    }
}

// Appends those that imports bring.
fn push_imported(
    alloc: Global,
    out: &mut Vec<Text>,
    omitted: bool,
    imports: &[(AdapterId, AuxImport)],
) -> Result<(), AllocError>
    ensures pushed { OnOk result (out.new.items ≡ out.old.items ++ flat_map (λ i. brought omitted i.1) imports.now) }
{
    for import in imports {
        push_brought(alloc, out, omitted, &import.1)?;
    }
    Ok(())
}

// Appends those that re-exports bring.
fn push_reexported(
    alloc: Global,
    out: &mut Vec<Text>,
    omitted: bool,
    reexports: &[(Text, JsImport, bool)],
) -> Result<(), AllocError>
    ensures pushed { OnOk result (out.new.items ≡ out.old.items ++ flat_map (λ r. names.described_hosts omitted r.1.name) reexports.now) }
{
    for reexport in reexports {
        push_described(alloc, out, omitted, &reexport.1.name)?;
    }
    Ok(())
}

// Appends those that a target has beside those of each target.
fn push_target_hosts(alloc: Global, out: &mut Vec<Text>, target: &Target) -> Result<(), AllocError>
    ensures pushed { OnOk result (out.new.items ≡ out.old.items ++ names.target_hosts target.now) }
{
    match target {
        Target::Emscripten => push_names(alloc, out, &EMSCRIPTEN_HOSTS),
        Target::Bundler { .. }
        | Target::Web
        | Target::NoModules { .. }
        | Target::Node { .. }
        | Target::Deno
        | Target::Module => Ok(()),
    }
}

fn is_node(target: &Target) -> bool
    ensures test { result ≡ names.is_node target.now }
{
    matches!(target, Target::Node { .. })
}

fn has_inspectable(structs: &[AuxStruct]) -> bool
    ensures test { result ≡ list_any (λ s. s.inspectable) structs.now }
{
    structs.iter().any(|class| class.inspectable)
}

// Appends `inspect`, where an inspectable class uses it.
fn push_inspect(
    alloc: Global,
    out: &mut Vec<Text>,
    settings: &Settings,
    aux: &WasmBindgenAux,
) -> Result<(), AllocError>
    ensures pushed { OnOk result (out.new.items ≡ out.old.items ++ names.inspect_names settings.now aux.now) }
{
    if settings.omit_imports
        && is_node(&settings.target)
        && has_inspectable(aux.structs.as_slice())
    {
        push_name(alloc, out, "inspect")?;
    }
    Ok(())
}

// Appends the names of the outside.
fn push_hosts(
    alloc: Global,
    out: &mut Vec<Text>,
    settings: &Settings,
    aux: &WasmBindgenAux,
) -> Result<(), AllocError>
    ensures pushed { OnOk result (out.new.items ≡ out.old.items ++ names.host_names settings.now aux.now) }
{
    let omitted = settings.omit_imports;
    push_names(alloc, out, &HOSTS)?;
    push_target_hosts(alloc, out, &settings.target)?;
    push_imported(alloc, out, omitted, aux.imports.as_slice())?;
    push_reexported(alloc, out, omitted, aux.reexports.as_slice())?;
    push_inspect(alloc, out, settings, aux)
}

/// The names of the outside, in order of bytes and each once.
pub(crate) fn host_set(
    alloc: Global,
    settings: &Settings,
    aux: &WasmBindgenAux,
) -> Result<Seq<Text>, AllocError>
    ensures hosts { IfOk result (λ hosts. IsSortedSet (names.host_names settings.now aux.now) hosts) }
{
    let mut hosts = Vec::new(alloc);
    push_hosts(alloc, &mut hosts, settings, aux)?;
    Ok(sorted_set(hosts))
}
