//! Intrinsics whose value the target doesn't have.
ghost use Rattle.std.specs.Prelude.{◌≡◌};
ghost use Rattle.std.specs.List.{list_any};
ghost use Rattle.glue_check.specs.TargetValues as spec;

use glue_faults::{Fault, where_true};
use glue_imports::lacks_value;
use glue_shared::{AdapterId, AuxImport, Lowered, Settings, Target};

// Whether an import is an intrinsic that the target has no value for.
fn lacks(target: &Target, import: &AuxImport) -> bool
    ensures test { result ≡ spec.lacks target.now import.now }
{
    match import {
        AuxImport::Intrinsic(intrinsic) => lacks_value(target, *intrinsic),
        _ => false,
    }
}

/// Whether an entry is one.
pub(crate) fn is_absent(target: &Target, entry: &(AdapterId, AuxImport)) -> bool
    ensures test { result ≡ spec.is_absent target.now entry.now }
{
    lacks(target, &entry.1)
}

fn has_absent(target: &Target, entries: &[(AdapterId, AuxImport)]) -> bool
    ensures test { result ≡ list_any (spec.is_absent target.now) entries.now }
{
    entries.iter().any(|entry| is_absent(target, entry))
}

/// That an intrinsic is described for whose value the glue file has a name on other targets, and not on this one.
pub fn intrinsic_target(settings: &Settings, lowered: &Lowered) -> Option<Fault>
    ensures fault { result ≡ spec.intrinsic_target settings.now lowered.now }
{
    let absent = has_absent(&settings.target, lowered.aux.imports.as_slice());
    where_true(absent, Fault::IntrinsicTarget)
}
