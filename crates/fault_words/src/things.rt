//! What the module and the description call a thing.
use crate::known::Known;
use glue_shared::{AdapterId, AuxExport, Lowered};
use shown_names::shown;
use std::alloc::{AllocError, Global};
use values::Text;
use wasm_core::{Import, ImportId, Module, ParseConfig};

// An import by its module and its name.
fn import_name(alloc: Global, import: &Import) -> Result<String, AllocError> {
    let module = shown(alloc, import.module.as_str())?;
    let name = shown(alloc, import.name.as_str())?;
    let (module, name) = (module.as_str(), name.as_str());
    format!(in alloc; "{name} of {module}")
}

// The import with this id, where it stands.
fn import_at(imports: &[Option<Import>], id: ImportId) -> Option<&Import> {
    match imports.get(id.0 as usize) {
        Some(Some(import)) => Some(import),
        _ => None,
    }
}

// The import with this id in words, with a comma before; nothing where it doesn't stand.
fn import_in(alloc: Global, module: &Module, id: ImportId) -> Result<String, AllocError> {
    match import_at(module.imports(), id) {
        Some(import) => {
            let name = import_name(alloc, import)?;
            let name = name.as_str();
            format!(in alloc; ", {name},")
        }
        None => Ok(String::new(alloc)),
    }
}

// The import with this id of the module that bytes are; nothing where they are none.
fn import_of_bytes(alloc: Global, bytes: &[u8], id: ImportId) -> Result<String, AllocError> {
    let config = ParseConfig {
        keep_debug: false,
        names: false,
        producers: false,
    };
    match Module::parse(alloc, bytes, &config) {
        Ok(module) => import_in(alloc, &module, id),
        Err(_) => Ok(String::new(alloc)),
    }
}

/// What the module calls an import, with a comma before; nothing where that isn't known.
pub(crate) fn import_told(
    alloc: Global,
    known: &Known<'_>,
    id: ImportId,
) -> Result<String, AllocError> {
    if let Some(lowered) = known.lowered {
        return import_in(alloc, &lowered.module, id);
    }
    match known.bytes {
        Some(bytes) => import_of_bytes(alloc, bytes, id),
        None => Ok(String::new(alloc)),
    }
}

// A path of names, with points between.
fn path_name(alloc: Global, namespace: &[Text], name: &str) -> Result<String, AllocError> {
    let mut out = String::new(alloc);
    for segment in namespace {
        let segment = shown(alloc, segment.as_str())?;
        out.push_str(segment.as_str())?;
        out.push_str(".")?;
    }
    let name = shown(alloc, name)?;
    out.push_str(name.as_str())?;
    Ok(out)
}

// The first export that an adapter is given for.
fn export_of(exports: &[AuxExport], id: AdapterId) -> Option<&AuxExport> {
    exports.iter().find(|export| export.adapter.0 == id.0)
}

// The first import that an adapter is given for in `implements`.
fn implemented(pairs: &[(ImportId, AdapterId)], id: AdapterId) -> Option<ImportId> {
    for pair in pairs {
        if pair.1.0 == id.0 {
            return Some(pair.0);
        }
    }
    None
}

fn exported_words(alloc: Global, export: &AuxExport) -> Result<String, AllocError> {
    let path = path_name(alloc, export.namespace.as_slice(), export.name.as_str())?;
    let path = path.as_str();
    format!(in alloc; ", that of the export {path},")
}

fn implementing_words(
    alloc: Global,
    lowered: &Lowered,
    id: ImportId,
) -> Result<String, AllocError> {
    let name = import_in(alloc, &lowered.module, id)?;
    let (number, name) = (id.0, name.as_str());
    if name.is_empty() {
        format!(in alloc; ", which defines import {number},")
    } else {
        format!(in alloc; ", which defines import {number}{name}")
    }
}

// What the description says of an adapter.
fn described_adapter(
    alloc: Global,
    lowered: &Lowered,
    id: AdapterId,
) -> Result<String, AllocError> {
    if lowered.wit.adapters.get(&id).is_none() {
        return String::from_str(alloc, ", which isn't described,");
    }
    if let Some(export) = export_of(lowered.aux.exports.as_slice(), id) {
        return exported_words(alloc, export);
    }
    match implemented(lowered.wit.implements.as_slice(), id) {
        Some(import) => implementing_words(alloc, lowered, import),
        None => Ok(String::new(alloc)),
    }
}

/// What the description calls an adapter, with commas around; nothing where that isn't known.
pub(crate) fn adapter_told(
    alloc: Global,
    known: &Known<'_>,
    id: AdapterId,
) -> Result<String, AllocError> {
    match known.lowered {
        Some(lowered) => described_adapter(alloc, lowered, id),
        None => Ok(String::new(alloc)),
    }
}
