//! The features that a module uses.
ghost use Rattle.std.specs.Prelude.{◌≡◌};
ghost use Rattle.glue_prepare.specs.Prepared as spec;

use crate::exports::has_export;
use glue_shared::Settings;
use wasm_core::{Custom, Module};

// Whether a section says which features the module uses.
fn has_features(customs: &[Custom]) -> bool
    ensures test { result ≡ spec.has_features customs.now }
{
    customs
        .iter()
        .any(|custom| custom.name.as_str() == "target_features")
}

/// Whether no section says which features the module uses, though it exports what one with reference types does.
#[tactic(auto, unfolding(crate::specs::Prepared::are_features_missing))]
pub(crate) fn are_features_missing(module: &Module) -> bool
    ensures test { result ≡ spec.are_features_missing «module».now }
{
    !has_features(module.customs()) && has_export(module, "__externref_table_alloc")
}

// Whether a section says that the module uses the feature.
fn uses(module: &Module, feature: &str) -> bool
    ensures test { result ≡ spec.uses feature.now «module».now }
{
    module.target_feature(feature).unwrap_or(false)
}

fn uses_references(module: &Module) -> bool
    ensures test { result ≡ spec.uses_references «module».now }
{
    uses(module, "reference-types") || are_features_missing(module)
}

/// Turns on what the module uses. What is on stays so.
#[tactic(auto, unfolding(crate::specs::Prepared::with_features))]
pub(crate) fn turn_on_features(settings: &mut Settings, module: &Module)
    ensures features { settings.new ≡ spec.with_features «module».now settings.old }
{
    settings.externref = settings.externref || uses_references(module);
    settings.multi_value = settings.multi_value || uses(module, "multivalue");
}
