//! Why a call makes nothing.
ghost use Rattle.std.specs.Prelude.{◌≡◌, IfOk};
ghost use Rattle.glue_faults.specs.declared.fault.Fault.TheVariants as faults;
ghost use Rattle.glue_faults.specs.First as first;
ghost use Rattle.glue_faults.specs.Named.{fault_name};

use glue_shared::AdapterId;
use std::alloc::{AllocError, AllocFailed, Global};
use thiserror::Error;
use values::Text;
use wasm_core::ImportId;

/// Why a call makes nothing. The names of exports, enums and classes are qualified: the segments of the namespace and the name,
/// joined by `__`; other names are as they are written. A message is the name of its variant.
#[derive(Debug, PartialEq, Eq, Drop, Error)]
pub enum Fault {
    /// A URL of debug information is set, but not that debug information is split off.
    #[error("DebugUrlWithoutSplit")]
    DebugUrlWithoutSplit,
    /// No input was handed in.
    #[error("NoInput")]
    NoInput,
    /// The module that was handed in was taken by an earlier call.
    #[error("InputSpent")]
    InputSpent,
    /// The name of the files is empty, or holds anything beside ASCII letters, digits, `_`, `-` and `.`.
    #[error("BadStem")]
    BadStem,
    /// The input is no module; `place` is the offset of the first fault, in bytes.
    #[error("Parse")]
    Parse { place: u64 },
    /// The module exports `default`, which a browser's module can't.
    #[error("DefaultExport")]
    DefaultExport,
    /// The target has no function that starts the module anew.
    #[error("ResetStateTarget")]
    ResetStateTarget,
    /// The lowering gives no description.
    #[error("Lower")]
    Lower,
    /// What is asked for isn't built yet; `what` names its kind.
    #[error("NotBuilt")]
    NotBuilt { what: Text },
    /// A memory is shared between threads.
    #[error("Threads")]
    Threads,
    /// A package file is described.
    #[error("PackageJson")]
    PackageJson,
    /// An instruction of an adapter that nothing carries out.
    #[error("UnsupportedInstr")]
    UnsupportedInstr { adapter: AdapterId, name: Text },
    /// An adapter doesn't do what its place in the description asks for, or an id names no adapter.
    #[error("BadAdapter")]
    BadAdapter { adapter: AdapterId },
    /// An import that the glue file has to define, and that nothing defines.
    #[error("UnboundImport")]
    UnboundImport { import: ImportId },
    /// String constants are imported, which Emscripten can't give.
    #[error("StringConstantsEmscripten")]
    StringConstantsEmscripten,
    /// A name that can't stand where it would have to; of an export's path it is the segment itself.
    #[error("BadName")]
    BadName { name: Text },
    /// A name of the global scope that the glue file may bind itself, or that is a module's export too, where imports are left out.
    #[error("GlobalTwice")]
    GlobalTwice { name: Text },
    /// Two things of one name; where imports are left out also a module's export whose name the glue file may bind, or the host has for
    /// another reason.
    #[error("NameClash")]
    NameClash { name: Text },
    /// A module that is imported, whose name the glue file needs for itself; or one that is described, though nothing can be described
    /// to come from it: that of placeholders or of string constants.
    #[error("ModuleClash")]
    ModuleClash { module: Text },
    /// A class that isn't described.
    #[error("UnknownClass")]
    UnknownClass { name: Text },
    /// A parent that names no class, or more than one.
    #[error("UnknownParent")]
    UnknownParent { name: Text },
    /// A member whose name each class has already.
    #[error("FixedMember")]
    FixedMember { name: Text },
    /// A second constructor of a class.
    #[error("DuplicateConstructor")]
    DuplicateConstructor { class: Text },
    /// A second getter or a second setter of one name.
    #[error("DuplicateAccessor")]
    DuplicateAccessor { class: Text, name: Text },
    /// Two exports of one path or one qualified name, or one whose path runs through another.
    #[error("ExportClash")]
    ExportClash { name: Text },
    /// An export of a name that the glue file publishes itself, or that stands already where it publishes.
    #[error("FixedExport")]
    FixedExport { name: Text },
    /// A re-export of something that can't be exported again.
    #[error("BadReexport")]
    BadReexport { name: Text },
    /// A class that would have to stand before its parent.
    #[error("ParentLater")]
    ParentLater { class: Text },
    /// An import of a module, on a target without modules.
    #[error("NoModulesImport")]
    NoModulesImport { module: Text },
    /// An intrinsic that the target doesn't have.
    #[error("IntrinsicTarget")]
    IntrinsicTarget,
    /// The module is to be made anew, on a target that can't.
    #[error("ReinitTarget")]
    ReinitTarget,
    /// A link to a file whose content isn't handed in.
    #[error("LinkNotEmbedded")]
    LinkNotEmbedded { path: Text },
    /// A part that something needs is absent, or isn't as it has to be: `memory` where there are several or its addresses have 64 bits,
    /// `externref` where references are kept in the other way.
    #[error("MissingPart")]
    MissingPart { part: Text },
    /// Memory ran out.
    #[error("OutOfMemory")]
    OutOfMemory,
}

impl Fault {
    /// The name of the variant.
    pub fn name(&self) -> &'static str
        ensures { result.now ≡ fault_name self.now }
    {
        match self {
            Fault::DebugUrlWithoutSplit => "DebugUrlWithoutSplit",
            Fault::NoInput => "NoInput",
            Fault::InputSpent => "InputSpent",
            Fault::BadStem => "BadStem",
            Fault::Parse { .. } => "Parse",
            Fault::DefaultExport => "DefaultExport",
            Fault::ResetStateTarget => "ResetStateTarget",
            Fault::Lower => "Lower",
            Fault::NotBuilt { .. } => "NotBuilt",
            Fault::Threads => "Threads",
            Fault::PackageJson => "PackageJson",
            Fault::UnsupportedInstr { .. } => "UnsupportedInstr",
            Fault::BadAdapter { .. } => "BadAdapter",
            Fault::UnboundImport { .. } => "UnboundImport",
            Fault::StringConstantsEmscripten => "StringConstantsEmscripten",
            Fault::BadName { .. } => "BadName",
            Fault::GlobalTwice { .. } => "GlobalTwice",
            Fault::NameClash { .. } => "NameClash",
            Fault::ModuleClash { .. } => "ModuleClash",
            Fault::UnknownClass { .. } => "UnknownClass",
            Fault::UnknownParent { .. } => "UnknownParent",
            Fault::FixedMember { .. } => "FixedMember",
            Fault::DuplicateConstructor { .. } => "DuplicateConstructor",
            Fault::DuplicateAccessor { .. } => "DuplicateAccessor",
            Fault::ExportClash { .. } => "ExportClash",
            Fault::FixedExport { .. } => "FixedExport",
            Fault::BadReexport { .. } => "BadReexport",
            Fault::ParentLater { .. } => "ParentLater",
            Fault::NoModulesImport { .. } => "NoModulesImport",
            Fault::IntrinsicTarget => "IntrinsicTarget",
            Fault::ReinitTarget => "ReinitTarget",
            Fault::LinkNotEmbedded { .. } => "LinkNotEmbedded",
            Fault::MissingPart { .. } => "MissingPart",
            Fault::OutOfMemory => "OutOfMemory",
        }
    }
}

impl From<AllocError> for Fault {
    ghost use Rattle.std.specs.Prelude.{◌≡◌};
    ghost use Rattle.glue_faults.specs.declared.fault.Fault.TheVariants.{OutOfMemory};

    ghost from_gives = { λ _ e. e ≡ OutOfMemory };

    fn from(_: AllocError) -> Self {
        Fault::OutOfMemory
    }
}

impl<T: Drop> From<AllocFailed<T>> for Fault {
    ghost use Rattle.std.specs.Prelude.{◌≡◌};
    ghost use Rattle.glue_faults.specs.declared.fault.Fault.TheVariants.{OutOfMemory};

    ghost from_gives = { λ _ e. e ≡ OutOfMemory };

    fn from(_: AllocFailed<T>) -> Self {
        Fault::OutOfMemory
    }
}

/// The fault, where the test holds.
pub fn where_true(test: bool, fault: Fault) -> Option<Fault>
    ensures { result ≡ first.where_true test fault }
{
    if test { Some(fault) } else { None }
}

/// That a kind of thing isn't built, where it is asked for. Want of memory is the only error.
pub fn not_built(alloc: Global, asked: bool, what: &str) -> Result<Option<Fault>, AllocError>
    ensures fault { IfOk result (λ fault. fault ≡ first.where_true asked (faults.NotBuilt what.now)) }
{
    if !asked {
        return Ok(None);
    }
    Ok(Some(Fault::NotBuilt {
        what: Text::from_str(alloc, what)?,
    }))
}
