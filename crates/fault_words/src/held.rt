//! What a fault holds.
ghost use Rattle.std.specs.Prelude.{◌≡◌, ◌++◌, IfOk, option_map, codes};
ghost use Rattle.std.specs.String.{string_bytes};
ghost use Rattle.std.specs.Fmt.{decimal};
ghost use Rattle.glue_faults.specs.Named.{fault_name};
ghost use Rattle.fault_words.specs.Answers as spec;
ghost use Rattle.shown_names.specs.Shown as shown_spec;

use crate::sections::section_words;
use glue_faults::Fault;
use shown_names::shown;
use std::alloc::{AllocError, Global};

// Where a place lies, between commas, where the bytes are known.
fn known_section(alloc: Global, bytes: Option<&[u8]>, place: u64) -> Result<String, AllocError>
    ensures words { IfOk result (λ s. string_bytes s ≡ spec.known_section (option_map (λ b. b.now) bytes.entry) place) }
{
    match bytes {
        None => Ok(String::new(alloc)),
        Some(bytes) => {
            let mut words = section_words(alloc, bytes, place)?;
            words.push_str(",")?;
            Ok(words)
        }
    }
}

// A byte, and the section that it lies in.
fn place_words(alloc: Global, bytes: Option<&[u8]>, place: u64) -> Result<String, AllocError>
    ensures words { IfOk result (λ s. string_bytes s ≡ codes "byte " ++ (decimal place ++ spec.known_section (option_map (λ b. b.now) bytes.entry) place)) }
{
    let section = known_section(alloc, bytes, place)?;
    let section = section.as_str();
    format!(in alloc; "byte {place}{section}")
}

// An adapter, and the name of an instruction.
fn instruction_words(alloc: Global, adapter: u32, name: &str) -> Result<String, AllocError>
    ensures words { IfOk result (λ s. string_bytes s ≡ codes "adapter " ++ (decimal adapter ++ (codes ": " ++ shown_spec.shown name.now))) }
{
    let name = shown(alloc, name)?;
    let name = name.as_str();
    format!(in alloc; "adapter {adapter}: {name}")
}

fn adapter_words(alloc: Global, adapter: u32) -> Result<String, AllocError>
    ensures words { IfOk result (λ s. string_bytes s ≡ codes "adapter " ++ decimal adapter) }
{
    format!(in alloc; "adapter {adapter}")
}

fn import_words(alloc: Global, import: u32) -> Result<String, AllocError>
    ensures words { IfOk result (λ s. string_bytes s ≡ codes "import " ++ decimal import) }
{
    format!(in alloc; "import {import}")
}

// A class, and a name.
fn member_words(alloc: Global, class: &str, name: &str) -> Result<String, AllocError>
    ensures words { IfOk result (λ s. string_bytes s ≡ shown_spec.shown class.now ++ (codes ", " ++ shown_spec.shown name.now)) }
{
    let class = shown(alloc, class)?;
    let class = class.as_str();
    let name = shown(alloc, name)?;
    let name = name.as_str();
    format!(in alloc; "{class}, {name}")
}

// The numbers and names that a fault holds.
#[tactic(auto, unfolding(crate::specs::Answers::held))]
fn held(alloc: Global, bytes: Option<&[u8]>, fault: &Fault) -> Result<String, AllocError>
    ensures words { IfOk result (λ s. string_bytes s ≡ spec.held (option_map (λ b. b.now) bytes.entry) fault.now) }
{
    match fault {
        Fault::Parse { place } => place_words(alloc, bytes, *place),
        Fault::UnsupportedInstr { adapter, name } => {
            instruction_words(alloc, adapter.0, name.as_str())
        }
        Fault::BadAdapter { adapter } => adapter_words(alloc, adapter.0),
        Fault::UnboundImport { import } => import_words(alloc, import.0),
        Fault::DuplicateAccessor { class, name } => {
            member_words(alloc, class.as_str(), name.as_str())
        }
        Fault::NotBuilt { what: name }
        | Fault::BadName { name }
        | Fault::GlobalTwice { name }
        | Fault::NameClash { name }
        | Fault::ModuleClash { module: name }
        | Fault::UnknownClass { name }
        | Fault::UnknownParent { name }
        | Fault::FixedMember { name }
        | Fault::DuplicateConstructor { class: name }
        | Fault::ExportClash { name }
        | Fault::FixedExport { name }
        | Fault::BadReexport { name }
        | Fault::ParentLater { class: name }
        | Fault::NoModulesImport { module: name }
        | Fault::LinkNotEmbedded { path: name }
        | Fault::MissingPart { part: name } => shown(alloc, name.as_str()),
        Fault::DebugUrlWithoutSplit
        | Fault::NoInput
        | Fault::InputSpent
        | Fault::BadStem
        | Fault::DefaultExport
        | Fault::ResetStateTarget
        | Fault::Lower
        | Fault::Threads
        | Fault::PackageJson
        | Fault::StringConstantsEmscripten
        | Fault::IntrinsicTarget
        | Fault::ReinitTarget
        | Fault::OutOfMemory => Ok(String::new(alloc)),
    }
}

/// A fault's name, a colon, and the numbers and names that it holds. The bytes are those of the module, where they are known.
pub(crate) fn opening(
    alloc: Global,
    bytes: Option<&[u8]>,
    fault: &Fault,
) -> Result<String, AllocError>
    ensures opening { IfOk result (λ s. string_bytes s ≡ spec.head fault.now ++ spec.held (option_map (λ b. b.now) bytes.entry) fault.now) }
{
    let held = held(alloc, bytes, fault)?;
    let mut out = String::from_str(alloc, fault.name())?;
    out.push_str(": ")?;
    out.push_str(held.as_str())?;
    Ok(out)
}
