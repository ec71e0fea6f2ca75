//! What instructions may refer to.
ghost use Rattle.std.specs.Prelude.{◌≡◌, IfOk, map};
ghost use Rattle.glue_adapters.specs.Pairs as spec;

use glue_faults::IdSet;
use glue_shared::{AdapterId, AuxStringEnum, Lowered};
use name_set::NameSet;
use std::alloc::{AllocError, Global};
use wasm_core::ExportId;

/// What instructions may refer to beside the entries of the module and the adapters by themselves: the string enums that are described, by
/// their names, and the adapters that closures call, by their ids. A contract sees both as lists.
#[derive(Drop)]
pub struct Environment {
    pub enums: NameSet,
    pub closures: IdSet,
}

// The names of the string enums that are described.
fn enum_names(alloc: Global, enums: &[AuxStringEnum]) -> Result<NameSet, AllocError>
    ensures names { IfOk result (λ names. names ≡ map (λ e. e.name) enums.now) }
{
    let mut names = NameSet::new(alloc);
    for texts in enums {
        names = names.with(alloc, texts.name.as_str())?;
    }
    Ok(names)
}

// The adapters that closures call.
fn called_back(alloc: Global, pairs: &[(ExportId, AdapterId)]) -> Result<IdSet, AllocError>
    ensures ids { IfOk result (λ ids. ids ≡ map (λ pair. pair.1) pairs.now) }
{
    let mut ids = IdSet::new(alloc);
    for pair in pairs {
        ids = ids.with(pair.1.0)?;
    }
    Ok(ids)
}

/// All string enums that are described, and all adapters that closures call. Want of memory is the only error.
pub fn environment_of(alloc: Global, lowered: &Lowered) -> Result<Environment, AllocError>
    ensures environment { IfOk result (λ environment. environment ≡ spec.environment_of lowered.now) }
{
    Ok(Environment {
        enums: enum_names(alloc, lowered.aux.string_enums.as_slice())?,
        closures: called_back(alloc, lowered.wit.exports.as_slice())?,
    })
}
