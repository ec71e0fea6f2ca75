//! What a target can't have.
ghost use Rattle.std.specs.Prelude.{◌≡◌};
ghost use Rattle.glue_prepare.specs.Prepared as spec;

use crate::exports::has_export;
use glue_faults::Fault;
use glue_shared::{Settings, Target};
use wasm_core::Module;

fn is_web(target: &Target) -> bool
    ensures test { result ≡ spec.is_web target.now }
{
    matches!(target, Target::Web)
}

// Whether a target's files can start the module anew.
fn can_reset(target: &Target) -> bool
    ensures test { result ≡ spec.can_reset target.now }
{
    match target {
        Target::Web | Target::Module => true,
        Target::Node { module } => !*module,
        Target::Bundler { .. } | Target::NoModules { .. } | Target::Deno | Target::Emscripten =>
            false,
    }
}

/// Refuses what the target can't have: first an export `default` of a browser's module, then that the module is to be started anew.
#[tactic(auto, unfolding(crate::specs::Prepared::target_tests))]
pub(crate) fn check_target(settings: &Settings, module: &Module) -> Result<(), Fault>
    ensures first { result ≡ spec.target_tests settings.now «module».now }
{
    if is_web(&settings.target) && has_export(module, "default") {
        return Err(Fault::DefaultExport);
    }
    if settings.reset_state && !can_reset(&settings.target) {
        return Err(Fault::ResetStateTarget);
    }
    Ok(())
}
