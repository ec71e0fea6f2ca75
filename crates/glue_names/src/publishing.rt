//! Qualified names of exports, and what is published under a name that the glue file publishes itself.
ghost use Rattle.std.specs.Prelude.{◌≡◌, IfOk};
ghost use Rattle.glue_published.specs.Fixed as fixed;
ghost use Rattle.glue_shared.specs.Names as names;
ghost use Rattle.glue_names.specs.Publishing as spec;

use glue_exports::qualified_name;
use glue_faults::Fault;
use glue_published::fixed_thing;
use glue_shared::{AuxExport, Lowered, Settings};
use printed_adapters::own_names;
use std::alloc::{AllocError, Global};
use values::Text;

/// The qualified name of an export. Want of memory is the only error.
pub fn qualified(alloc: Global, export: &AuxExport) -> Result<Text, AllocError>
    ensures name { IfOk result (λ name. name ≡ spec.qualified export.now) }
{
    qualified_name(alloc, export.namespace.as_slice(), export.name.as_str())
}

/// The first thing that is published under a name that the glue file publishes itself, or that stands already where it publishes: one of
/// the target's, `__wasm` where it is asked for, on a bundler that of an import that the glue file defines. Want of memory is the only
/// error.
pub fn fixed_export(
    alloc: Global,
    settings: &Settings,
    lowered: &Lowered,
) -> Result<Option<Fault>, AllocError>
    ensures fault { IfOk result (λ fault. fault ≡ fixed.fixed_thing settings.now (names.own_names settings.now lowered.now.«module» lowered.now.wit lowered.now.aux) lowered.now.aux) }
{
    let own = own_names(alloc, settings, lowered)?;
    fixed_thing(alloc, settings, own.as_slice(), &lowered.aux)
}
