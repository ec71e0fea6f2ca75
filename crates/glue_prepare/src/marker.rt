//! The marker of a module that is made for Emscripten.
ghost use Rattle.std.specs.Prelude.{◌≡◌};
ghost use Rattle.wasm_core.specs.Edits.{without_custom};
ghost use Rattle.glue_prepare.specs.Prepared as spec;

use glue_shared::{Settings, Target};
use wasm_core::Module;

/// Takes the marker out of the module; where one stood, the files are made for Emscripten.
#[tactic(auto, unfolding(crate::specs::Prepared::with_marked_target))]
pub(crate) fn take_marker(settings: &mut Settings, module: &mut Module)
    ensures target { settings.new ≡ spec.with_marked_target «module».old settings.old }
    ensures taken { «module».new ≡ without_custom spec.marker «module».old }
{
    if module.remove_custom("__wasm_bindgen_emscripten_marker") {
        settings.target = Target::Emscripten;
    }
}
