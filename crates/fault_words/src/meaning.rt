//! Why a fault comes.
use crate::unbuilt::unbuilt_words;
use glue_faults::Fault;

// Why a part is missing.
fn part_words(part: &str) -> &'static str {
    match part {
        "memory" => {
            " is needed: one memory with addresses of 32 bits, and the module has none, more than one where it isn't said which, or one whose addresses have 64 bits."
        }
        "externref" => {
            " is needed in the other state: references are kept in a table of the module where they would have to be in the glue file's own, or the other way round."
        }
        _ => {
            " is needed, and the description's `parts` doesn't name it, or names what isn't in the module."
        }
    }
}

// The most bytes of a module that are read.
const MOST: u64 = 268_435_456;

// Why the bytes are no module.
fn place_meaning(place: u64) -> &'static str {
    if place < MOST {
        " can't stand there in a module, or the bytes end too early."
    } else {
        " is past the end of the longest module that is read, which has 268435456 bytes."
    }
}

// Why a fault comes that has to do with the input as a whole.
fn input_meaning(fault: &Fault) -> &'static str {
    match fault {
        Fault::DebugUrlWithoutSplit => {
            "a URL of debug information is set, but debug information isn't split off. Split it off, or leave the URL out."
        }
        Fault::NoInput => "no module was handed in. Hand one in before files are asked for.",
        Fault::InputSpent => {
            "the module that was handed in was taken by an earlier call. Hand it in anew."
        }
        Fault::BadStem => {
            "the name of the files is empty, or has something in it beside ASCII letters, digits, `_`, `-` and `.`."
        }
        Fault::Parse { place } => place_meaning(*place),
        Fault::DefaultExport => {
            "the module exports `default`, which a module for browsers has for another thing. Rename the export, or choose another target."
        }
        Fault::ResetStateTarget => {
            "a function that starts the module anew is asked for, and the target can't have it: browsers' modules, module imports and Node with CommonJS can. Leave it out, or choose such a target."
        }
        Fault::Lower => {
            "the custom section `__wbg_glue` stands twice, or doesn't read as a description: docs/DESCRIPTION.md says what one is."
        }
        Fault::Threads => {
            "a memory of the module is shared between threads. Make the module without threads."
        }
        Fault::PackageJson => {
            "the description has package files, and nothing reads them. Leave `package_jsons` out."
        }
        Fault::StringConstantsEmscripten => {
            "the module imports string constants, which Emscripten can't give. Choose another target."
        }
        Fault::IntrinsicTarget => {
            "the description asks for the module or its instance, and the target has no name for it. Leave `Module` and `Instance` out, or choose another target."
        }
        Fault::ReinitTarget => {
            "the description says `uses_reinit`, and the target can't make the module anew. Choose another target."
        }
        _ => "memory ran out.",
    }
}

/// Why a fault comes, and what to do instead, as it stands behind what the fault holds.
pub(crate) fn meaning(fault: &Fault) -> &'static str {
    match fault {
        Fault::NotBuilt { what } => unbuilt_words(what.as_str()),
        Fault::MissingPart { part } => part_words(part.as_str()),
        Fault::UnsupportedInstr { .. } => {
            " is an instruction that nothing carries out. docs/DESCRIPTION.md lists those that are."
        }
        Fault::BadAdapter { .. } => {
            " doesn't do what its place in the description asks for. docs/DESCRIPTION.md says what each place asks for."
        }
        Fault::UnboundImport { .. } => {
            " has to be defined by the glue file, and nothing defines it. Give it an adapter in `implements`."
        }
        Fault::BadName { .. } => {
            " can't be a name where it stands: it is `__proto__`, or no identifier of JavaScript where one is needed. Choose another name."
        }
        Fault::GlobalTwice { .. } => {
            " is described as a name of the global scope, and is also one that the glue file may bind itself, or that of something else in the description. Choose another name for one of them."
        }
        Fault::NameClash { .. } => {
            " is the name of two things, or one that the glue file may bind itself or that the host has. Choose another name for one of them."
        }
        Fault::ModuleClash { .. } => {
            " is a module that nothing can be imported from: the glue file needs its name for itself, or it is that of placeholders or of string constants."
        }
        Fault::UnknownClass { .. } => " is no class of the description. Describe it in `structs`.",
        Fault::UnknownParent { .. } => {
            " is the parent of a class, and names no class of the description, or more than one. Describe it in `structs`, or name it with its namespace."
        }
        Fault::FixedMember { .. } => {
            " is a member that each class has already. Choose another name."
        }
        Fault::DuplicateConstructor { .. } => {
            " is a class with a second constructor. Leave one of them out."
        }
        Fault::DuplicateAccessor { .. } => {
            " are a class and a property that has a second getter or a second setter there. Leave one of them out."
        }
        Fault::ExportClash { .. } => {
            " is exported twice, or its path runs through another export or another's through it. Choose another name or another namespace for one of them."
        }
        Fault::FixedExport { .. } => {
            " is a name that the glue file exports itself. Choose another name for the export."
        }
        Fault::BadReexport { .. } => {
            " re-exports something that can't be exported again: a property, a name of the global scope, a name of a module where imports are left out, or an import that is re-exported twice."
        }
        Fault::ParentLater { .. } => {
            " is a class that would have to stand before its parent. Let no class be its own ancestor."
        }
        Fault::NoModulesImport { .. } => {
            " is a module that something is imported from, and the target is a script without modules. Choose another target."
        }
        Fault::LinkNotEmbedded { .. } => {
            " is linked to, and its content isn't handed in. Hand it in, or split linked modules off."
        }
        _ => input_meaning(fault),
    }
}
