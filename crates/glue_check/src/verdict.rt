//! The first fault of a description, and descriptions that have none.
ghost use Rattle.std.specs.Prelude.{◌≡◌, ◌∷◌, [], None, Some, IfOk, IfErr, ◌≢◌};
ghost use Rattle.std.specs.List.{list_any};
ghost use Rattle.glue_faults.specs.declared.fault.Fault.TheVariants as faults;
ghost use Rattle.glue_faults.specs.First.{first_of, first_some};
ghost use Rattle.glue_check.specs.Answers as answers;
ghost use Rattle.glue_check.specs.Verdict as spec;

use crate::classes::unknown_class;
use crate::files::FileFlags;
use crate::links::link_not_embedded;
use crate::missing::missing_part;
use crate::target_values::intrinsic_target;
use crate::unbuilt::{
    unbuilt_classes, unbuilt_files, unbuilt_imports, unbuilt_lifecycle, unbuilt_settings,
    unbuilt_target,
};
use claimed_modules::module_clash;
use glue_adapters::{bad_adapter, unbound_import, unsupported};
use glue_faults::{Fault, where_true};
use glue_names::{bad_name, fixed_export, global_twice, name_clash};
use glue_published::{bad_reexport, thing_clash};
use glue_shared::{Lowered, NonstandardWitSection, Settings, WasmBindgenAux};
use std::alloc::{AllocError, Global};
use values::Duplicate;
use wasm_core::{Memory, Module};

/// The conditions, each of which can give a fault.
#[derive(Clone, Copy)]
enum Condition {
    UnbuiltTarget,
    UnbuiltImports,
    UnbuiltClasses,
    UnbuiltSettings,
    UnbuiltLifecycle,
    UnbuiltFiles,
    Threads,
    PackageJson,
    UnsupportedInstr,
    BadAdapter,
    UnboundImport,
    BadName,
    GlobalTwice,
    NameClash,
    ModuleClash,
    UnknownClass,
    ExportClash,
    FixedExport,
    BadReexport,
    IntrinsicTarget,
    LinkNotEmbedded,
    MissingPart,
}

/// What isn't built yet, in its order.
const UNBUILT: [Condition; 6] = [
    Condition::UnbuiltTarget,
    Condition::UnbuiltImports,
    Condition::UnbuiltClasses,
    Condition::UnbuiltSettings,
    Condition::UnbuiltLifecycle,
    Condition::UnbuiltFiles,
];

/// The conditions in their order: the first that gives a fault decides.
const CONDITIONS: [Condition; 16] = [
    Condition::Threads,
    Condition::PackageJson,
    Condition::UnsupportedInstr,
    Condition::BadAdapter,
    Condition::UnboundImport,
    Condition::BadName,
    Condition::GlobalTwice,
    Condition::NameClash,
    Condition::ModuleClash,
    Condition::UnknownClass,
    Condition::ExportClash,
    Condition::FixedExport,
    Condition::BadReexport,
    Condition::IntrinsicTarget,
    Condition::LinkNotEmbedded,
    Condition::MissingPart,
];

fn is_shared(memory: &Option<Memory>) -> bool
    ensures test { result ≡ spec.is_shared memory.now }
{
    match memory {
        None => false,
        Some(memory) => memory.limits.shared,
    }
}

fn has_shared(memories: &[Option<Memory>]) -> bool
    ensures test { result ≡ list_any spec.is_shared memories.now }
{
    memories.iter().any(|memory| is_shared(memory))
}

// That threads share a memory.
fn threads(module: &Module) -> Option<Fault>
    ensures fault { result ≡ spec.threads «module».now }
{
    where_true(has_shared(module.memories()), Fault::Threads)
}

// That a package file is described.
fn package_json(aux: &WasmBindgenAux) -> Option<Fault>
    ensures fault { result ≡ spec.package_json aux.now }
{
    where_true(!aux.package_jsons.is_empty(), Fault::PackageJson)
}

// What a condition answers.
#[tactic(auto, unfolding(crate::specs::Answers::answer))]
fn answer(
    alloc: Global,
    files: FileFlags,
    settings: &Settings,
    lowered: &Lowered,
    condition: Condition,
) -> Result<Option<Fault>, AllocError>
    ensures fault { IfOk result (λ fault. fault ≡ answers.answer files settings.now lowered.now condition) }
{
    let Lowered {
        module,
        wit,
        aux,
        ..
    } = lowered;
    match condition {
        Condition::UnbuiltTarget => unbuilt_target(alloc, settings),
        Condition::UnbuiltImports => unbuilt_imports(alloc, settings, lowered),
        Condition::UnbuiltClasses => unbuilt_classes(alloc, lowered),
        Condition::UnbuiltSettings => unbuilt_settings(alloc, settings),
        Condition::UnbuiltLifecycle => unbuilt_lifecycle(alloc, lowered),
        Condition::UnbuiltFiles => unbuilt_files(alloc, files, lowered),
        Condition::Threads => Ok(threads(module)),
        Condition::PackageJson => Ok(package_json(aux)),
        Condition::UnsupportedInstr => unsupported(alloc, wit),
        Condition::BadAdapter => bad_adapter(alloc, lowered),
        Condition::UnboundImport => unbound_import(alloc, settings, lowered),
        Condition::BadName => bad_name(alloc, settings, lowered),
        Condition::GlobalTwice => global_twice(alloc, settings, lowered),
        Condition::NameClash => name_clash(alloc, settings, lowered),
        Condition::ModuleClash => module_clash(alloc, settings, lowered),
        Condition::UnknownClass => unknown_class(alloc, lowered),
        Condition::ExportClash => thing_clash(alloc, settings, aux),
        Condition::FixedExport => fixed_export(alloc, settings, lowered),
        Condition::BadReexport => bad_reexport(alloc, settings, aux),
        Condition::IntrinsicTarget => Ok(intrinsic_target(settings, lowered)),
        Condition::LinkNotEmbedded => link_not_embedded(alloc, settings, lowered),
        Condition::MissingPart => missing_part(alloc, settings, lowered),
    }
}

// The first fault that one of these conditions gives.
fn first_answer(
    alloc: Global,
    files: FileFlags,
    settings: &Settings,
    lowered: &Lowered,
    conditions: &[Condition],
) -> Result<Option<Fault>, AllocError>
    ensures fault { IfOk result (λ fault. fault ≡ first_of (answers.answer files settings.now lowered.now) conditions.now) }
{
    for condition in conditions {
        let found = answer(alloc, files, settings, lowered, *condition)?;
        if found.is_some() {
            return Ok(found);
        }
    }
    Ok(None)
}

// The first kind of what is asked for and isn't built.
fn first_unbuilt(
    alloc: Global,
    files: FileFlags,
    settings: &Settings,
    lowered: &Lowered,
) -> Result<Option<Fault>, AllocError>
    ensures fault { IfOk result (λ fault. fault ≡ spec.unbuilt files settings.now lowered.now) }
{
    first_answer(alloc, files, settings, lowered, &UNBUILT)
}

// The first of the conditions that is met.
fn first_met(
    alloc: Global,
    files: FileFlags,
    settings: &Settings,
    lowered: &Lowered,
) -> Result<Option<Fault>, AllocError>
    ensures fault { IfOk result (λ fault. fault ≡ spec.verdict settings.now lowered.now) }
{
    first_answer(alloc, files, settings, lowered, &CONDITIONS)
}

// What isn't built first, else the first fault.
fn first_fault(
    alloc: Global,
    files: FileFlags,
    settings: &Settings,
    lowered: &Lowered,
) -> Result<Option<Fault>, AllocError>
    ensures fault { IfOk result (λ fault. fault ≡ first_some (spec.unbuilt files settings.now lowered.now ∷ spec.verdict settings.now lowered.now ∷ [])) }
{
    let unbuilt = first_unbuilt(alloc, files, settings, lowered)?;
    if unbuilt.is_some() {
        return Ok(unbuilt);
    }
    first_met(alloc, files, settings, lowered)
}

/// A module with its description that is built and has none of the faults, and what it was checked for.
#[derive(Drop)]
pub struct Checked {
    files: FileFlags,
    settings: Settings,
    lowered: Lowered,
    ghost built: { spec.unbuilt files settings lowered ≡ None },
    ghost passed: { spec.verdict settings lowered ≡ None },
}

impl Checked {
    /// What was asked for of the files.
    pub fn files(&self) -> FileFlags
        ensures { result ≡ self.now.files }
    {
        self.files
    }

    /// The settings that it was checked for.
    pub fn settings(&self) -> &Settings
        ensures { result.now ≡ self.now.settings }
    {
        &self.settings
    }

    /// The module with its description.
    pub fn lowered(&self) -> &Lowered
        ensures { result.now ≡ self.now.lowered }
    {
        &self.lowered
    }

    /// The module.
    pub fn module(&self) -> &Module
        ensures { result.now ≡ self.now.lowered.«module» }
    {
        &self.lowered.module
    }

    /// The adapters.
    pub fn wit(&self) -> &NonstandardWitSection
        ensures { result.now ≡ self.now.lowered.wit }
    {
        &self.lowered.wit
    }

    /// What is said beside the adapters.
    pub fn aux(&self) -> &WasmBindgenAux
        ensures { result.now ≡ self.now.lowered.aux }
    {
        &self.lowered.aux
    }

    /// Takes the module out.
    pub fn into_module(self) -> Module
        ensures { result ≡ self.lowered.«module» }
    {
        let Checked { lowered, .. } = self;
        let Lowered { module, .. } = lowered;
        module
    }
}

/// The module with its description, where all of it is built and it has no fault. Else the first kind of what isn't built
/// (`NotBuilt`), and without one the first fault; what a fault names is the first that meets it in the description's order, and of
/// two things that clash the later. Want of memory may replace any of these.
pub fn check(
    alloc: Global,
    files: FileFlags,
    settings: &Settings,
    lowered: Lowered,
) -> Result<Checked, Fault>
    ensures files { IfOk result (λ checked. checked.files ≡ files) }
    ensures settings { IfOk result (λ checked. checked.settings ≡ settings.now) }
    ensures lowered { IfOk result (λ checked. checked.lowered ≡ lowered) }
    ensures fault { IfErr result (λ fault. fault ≢ faults.OutOfMemory → first_some (spec.unbuilt files settings.now lowered ∷ spec.verdict settings.now lowered ∷ []) ≡ Some fault) }
{
    match first_fault(alloc, files, settings, &lowered) {
        Err(_) => Err(Fault::OutOfMemory),
        Ok(Some(fault)) => Err(fault),
        Ok(None) => match settings.copy(alloc) {
            Err(_) => Err(Fault::OutOfMemory),
            Ok(settings) => Ok(Checked {
                files,
                settings,
                lowered,
            }),
        },
    }
}
