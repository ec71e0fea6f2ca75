//! Lowering a module.
ghost use Rattle.std.specs.Prelude.{◌≡◌, ◌≢◌, ◌≤◌, ◌++◌, [], ◌∷◌, ℕ, IfOk, IfSome, None, Some, option_map};
ghost use Rattle.std.specs.declared.option.Option.{Option};
ghost use Rattle.wasm_core.specs.Contents.{Contents};
ghost use Rattle.glue_shared.specs.Count.{Rose};
ghost use Rattle.glue_shared.specs.declared.description.Lowered.{Lowered};
ghost use Rattle.glue_shared.specs.declared.settings.Settings.{Settings};
ghost use Rattle.wasm_core.specs.Edits.{without_custom};
ghost use Rattle.glue_lower.specs.Lowering.{described_by, glue_sections, listed, lowered, lowered_of, section_name};

use crate::document::read_description;
use glue_json::{Counts, LowerFault};
use glue_shared::{Description, Lowered, Settings};
use std::alloc::Global;
use wasm_core::{Custom, Module};

/// What gives a module its description.
pub trait Lowering {
    /// What it would give now for these settings and this module, or nothing; where it tells.
    ghost told: { Self → Settings → Contents → Option (Option Lowered) };

    /// How often it has failed. It never falls.
    ghost faults: { Self → ℕ };

    /// The module, from which the description was taken, and the description. `Failed` where there is none.
    fn lower(
        &mut self,
        alloc: Global,
        settings: &Settings,
        module: Module,
    ) -> Result<Lowered, LowerFault>
        ensures ok { IfOk result (λ l. IfSome (told self.old settings.now «module») (λ t. t ≡ Some l)) }
        ensures failed { result ≡ Err LowerFault.Failed → Rose (faults self.old) (faults self.new) }
        ensures nothing { result ≡ Err LowerFault.Failed → IfSome (told self.old settings.now «module») (λ t. t ≡ None) }
        ensures later { faults self.old ≤ faults self.new };
}

/// Reads the description as JSON in the custom section `__wbg_glue`, and tells what it gives.
#[derive(Drop)]
pub struct JsonLowering {
    faults: u64,
}

impl JsonLowering {
    /// It has not failed yet.
    pub fn new() -> JsonLowering
        ensures { result ≡ record { faults = 0 } }
    {
        JsonLowering { faults: 0 }
    }
}

impl Lowering for JsonLowering {
    ghost told = { λ _ settings m. Some (lowered_of settings m) };

    ghost faults = { λ s. s.faults };

    fn lower(
        &mut self,
        alloc: Global,
        settings: &Settings,
        module: Module,
    ) -> Result<Lowered, LowerFault>
        ensures ok { IfOk result (λ l. lowered_of settings.now «module» ≡ Some l) }
        ensures failed { result ≡ Err LowerFault.Failed → Rose self.old.faults self.new.faults }
        ensures nothing { result ≡ Err LowerFault.Failed → lowered_of settings.now «module» ≡ None }
        ensures later { self.old.faults ≤ self.new.faults }

        // The count stays at any other answer.
        ensures still { result ≢ Err LowerFault.Failed → self.new.faults ≡ self.old.faults }
    {
        let lowered = read_module(alloc, settings, module);
        if let Err(LowerFault::Failed) = lowered {
            self.faults = self.faults.saturating_add(1);
        }
        lowered
    }
}

// The section that holds the description, or none. Fails where there are two.
fn glue_section(customs: &[Custom]) -> Result<Option<&Custom>, LowerFault>
    ensures ok { IfOk result (λ s. glue_sections customs.now ≡ listed (option_map (λ c. c.now) s)) }
    ensures failed { result ≡ Err LowerFault.Failed → (c : _) → described_by c (glue_sections customs.now) ≡ None }
    ensures memory { result ≢ Err LowerFault.OutOfMemory }
{
    let mut found = None;
    for custom in customs {
        if custom.name.as_str() == "__wbg_glue" {
            if found.is_some() {
                return Err(LowerFault::Failed);
            }
            found = Some(custom);
        }
    }
    Ok(found)
}

// What the custom sections describe, of a module with so many entries.
fn read_customs(
    alloc: Global,
    counts: &Counts,
    customs: &[Custom],
) -> Result<Description, LowerFault>
    ensures ok { IfOk result (λ d. described_by counts.now (glue_sections customs.now) ≡ Some d) }
    ensures failed { result ≡ Err LowerFault.Failed → described_by counts.now (glue_sections customs.now) ≡ None }
{
    match glue_section(customs)? {
        Some(section) => read_description(alloc, counts, section.bytes.as_slice()),
        None => Ok(Description::empty(alloc)),
    }
}

// The module without the section, with its description.
fn with_description(module: Module, description: Description) -> Lowered
    ensures { result ≡ lowered (without_custom section_name «module») description }
{
    let mut module = module;
    module.remove_custom("__wbg_glue");
    let Description { wit, aux } = description;
    Lowered { module, wit, aux }
}

// The module without the section, and its description.
#[tactic(auto, unfolding(crate::specs::Lowering::lowered_of))]
fn read_module(alloc: Global, settings: &Settings, module: Module) -> Result<Lowered, LowerFault>
    ensures ok { IfOk result (λ l. lowered_of settings.now «module» ≡ Some l) }
    ensures failed { result ≡ Err LowerFault.Failed → lowered_of settings.now «module» ≡ None }
{
    match read_customs(alloc, &Counts::of(&module), module.customs()) {
        Ok(description) => Ok(with_description(module, description)),
        Err(fault) => {
            drop(module);
            Err(fault)
        }
    }
}
