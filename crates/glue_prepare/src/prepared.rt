//! The settings and the module of a call as the lowering is handed them.
ghost use Rattle.std.specs.Prelude.{◌≡◌, ◌≢◌, Ok, Err, IfOk, IfErr};
ghost use Rattle.glue_faults.specs.declared.fault.Fault.TheVariants as faults;
ghost use Rattle.glue_prepare.specs.Prepared as spec;

use crate::exception::own_exception;
use crate::features::{are_features_missing, turn_on_features};
use crate::linker::drop_unwanted_exports;
use crate::marker::take_marker;
use crate::targets::check_target;
use glue_faults::Fault;
use glue_shared::Settings;
use std::alloc::Global;
use wasm_core::Module;

/// The settings and the module of a call as the lowering is handed them.
#[derive(Drop)]
pub struct Prepared {
    /// The settings of this call.
    pub settings: Settings,
    pub module: Module,
    /// Whether no section says which features the module uses, so that its use of reference types was told by an export.
    pub features_missing: bool,
}

/// The settings and the module of a call as the lowering is handed them. In this order:
///
/// - Each custom section `__wasm_bindgen_emscripten_marker` goes. Where one stood, the target is Emscripten.
/// - What the first custom section `target_features` lists is on: `externref` for `+reference-types`, `multi_value` for `+multivalue`.
///   Without such a section an export `__externref_table_alloc` turns `externref` on, and the features are missing. What is on stays so.
/// - `DefaultExport` where the target is `Web` and an export is named `default`.
/// - `ResetStateTarget` where `reset_state` is on and the target is neither `Web` nor `Module` nor Node by CommonJS.
/// - The exports `__heap_base`, `__data_end` and `__indirect_function_table` go, unless `keep_lld_exports` is true or the target is
///   Emscripten.
/// - The tag of the first tag import `__cpp_exception` of the module `env` becomes the module's own, and is exported under that name.
/// - `wasm-bindgen` with the version `0.2.130` joins the producers in `processed-by`.
///
/// Want of memory, `OutOfMemory`, may replace any answer.
#[tactic(auto, unfolding(crate::specs::Prepared::prepared))]
pub fn prepare(
    alloc: Global,
    keep_lld_exports: bool,
    settings: Settings,
    module: Module,
) -> Result<Prepared, Fault>
    ensures ok { IfOk result (λ p. spec.prepared keep_lld_exports settings «module» ≡ Ok p) }
    ensures fault { IfErr result (λ f. f ≢ faults.OutOfMemory → spec.prepared keep_lld_exports settings «module» ≡ Err f) }
{
    let mut settings = settings;
    let mut module = module;
    take_marker(&mut settings, &mut module);
    turn_on_features(&mut settings, &module);
    check_target(&settings, &module)?;
    let features_missing = are_features_missing(&module);
    drop_unwanted_exports(keep_lld_exports, &settings, &mut module)?;
    own_exception(alloc, &mut module)?;
    module.add_processed_by(alloc, "wasm-bindgen", "0.2.130")?;
    Ok(Prepared {
        settings,
        module,
        features_missing,
    })
}
