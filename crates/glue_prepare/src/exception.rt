//! The tag of C++ exceptions.
ghost use Rattle.std.specs.Prelude.{◌≡◌, IfOk, IfSome, OnOk, option_map, slice_get};
ghost use Rattle.glue_shared.specs.Roots.{is_entry};
ghost use Rattle.glue_prepare.specs.Prepared as spec;

use crate::places::id_at;
use std::alloc::{AllocError, Global};
use wasm_core::{ExportItem, Import, ImportId, ImportKind, Module, Tag, TagId};

fn is_exception_name(import: &Import) -> bool
    ensures test { result ≡ spec.is_exception_name «import».now }
{
    import.module.as_str() == "env" && import.name.as_str() == "__cpp_exception"
}

fn has_tag(tags: &[Option<Tag>], tag: TagId) -> bool
    ensures test { result ≡ is_entry (slice_get tags.now tag.0) }
{
    match tags.get(tag.0 as usize) {
        Some(entry) => entry.is_some(),
        None => false,
    }
}

// The tag that is brought in, where it is an entry.
fn live_tag(tags: &[Option<Tag>], kind: ImportKind) -> Option<TagId>
    ensures tag { result ≡ spec.live_tag tags.now kind }
{
    match kind {
        ImportKind::Tag(tag) if has_tag(tags, tag) => Some(tag),
        _ => None,
    }
}

// The tag of C++ exceptions that an import brings in.
fn exception_tag(tags: &[Option<Tag>], import: &Option<Import>) -> Option<TagId>
    ensures tag { result ≡ spec.exception_tag tags.now «import».now }
{
    match import {
        Some(import) if is_exception_name(import) => live_tag(tags, import.kind),
        _ => None,
    }
}

// The first import of the tag of C++ exceptions, and that tag.
fn first_exception(module: &Module) -> Result<Option<(ImportId, TagId)>, AllocError>
    ensures first { IfOk result (λ found. option_map (λ e. (e.0.0, e.1)) found ≡ spec.first_exception «module».now.tags 0 «module».now.imports) }
    ensures tag { IfOk result (λ found. IfSome found (λ e. spec.IsTagOf «module».now e.0.0 e.1.0)) }
{
    for (place, import) in module.imports().iter().enumerate() {
        if let Some(tag) = exception_tag(module.tags(), import) {
            return Ok(Some((ImportId(id_at(place)?), tag)));
        }
    }
    Ok(None)
}

// Makes a tag that is brought in the module's own, and exports it.
#[tactic(auto, using(std::proofs::lemmas::Grind::common_steps, std::proofs::lemmas::Option::slice_get_cases), unfolding(wasm_core::specs::Edits::localized))]
fn own_tag(
    alloc: Global,
    module: &mut Module,
    import: ImportId,
    tag: TagId,
) -> Result<(), AllocError>
    requires stands { spec.IsTagOf «module».old «import».0 tag.0 }
    ensures owned { OnOk result («module».new ≡ spec.with_tag_owned (Some («import».0, tag)) «module».old) }
{
    module.localize_tag(import);
    module.add_export(alloc, "__cpp_exception", ExportItem::Tag(tag))?;
    Ok(())
}

/// Makes the tag of the first import of C++ exceptions the module's own, and exports it. Want of memory is the only error; then the
/// tag may not be exported.
#[tactic(auto, unfolding(crate::specs::Prepared::with_own_exception))]
pub(crate) fn own_exception(alloc: Global, module: &mut Module) -> Result<(), AllocError>
    ensures owned { OnOk result («module».new ≡ spec.with_own_exception «module».old) }
{
    match first_exception(module)? {
        Some((import, tag)) => own_tag(alloc, module, import, tag),
        None => Ok(()),
    }
}
