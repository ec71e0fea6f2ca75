//! Links to files that can't be embedded.
ghost use Rattle.std.specs.Prelude.{◌≡◌, IfOk};
ghost use Rattle.std.specs.Option.{option_copied};
ghost use Rattle.glue_faults.specs.First.{first_of};
ghost use Rattle.glue_check.specs.Links as spec;

use glue_faults::Fault;
use glue_shared::{AdapterId, AuxImport, Lowered, Settings};
use std::alloc::{AllocError, Global};
use values::{Duplicate, Text};

// The path of a link without content.
fn bare_link(import: &AuxImport) -> Option<&Text>
    ensures path { option_copied result ≡ spec.bare_link import.now }
{
    match import {
        AuxImport::LinkTo(path, None) => Some(path),
        _ => None,
    }
}

/// The path of a link without content, where linked modules aren't split off.
pub(crate) fn unembedded(split: bool, entry: &(AdapterId, AuxImport)) -> Option<&Text>
    ensures path { option_copied result ≡ spec.unembedded split entry.now }
{
    if split { None } else { bare_link(&entry.1) }
}

// The first such path.
fn first_unembedded(split: bool, entries: &[(AdapterId, AuxImport)]) -> Option<&Text>
    ensures first { option_copied result ≡ first_of (spec.unembedded split) entries.now }
{
    for entry in entries {
        let path = unembedded(split, entry);
        if path.is_some() {
            return path;
        }
    }
    None
}

/// The first link without content, where linked modules aren't split off. Want of memory is the only error.
pub(crate) fn link_not_embedded(
    alloc: Global,
    settings: &Settings,
    lowered: &Lowered,
) -> Result<Option<Fault>, AllocError>
    ensures fault { IfOk result (λ fault. fault ≡ spec.link_not_embedded settings.now lowered.now) }
{
    let split = settings.split_linked_modules;
    match first_unembedded(split, lowered.aux.imports.as_slice()) {
        None => Ok(None),
        Some(path) => Ok(Some(Fault::LinkNotEmbedded {
            path: path.copy(alloc)?,
        })),
    }
}
