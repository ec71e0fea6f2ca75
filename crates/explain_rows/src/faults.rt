//! A row of a fault.
use crate::inputs::lowered;
use crate::known::only_known;
use fault_words::{Known, fault_words};
use glue_faults::Fault;
use glue_shared::AdapterId;
use rows::{RowFault, number_at, opt_bytes_at, text_at, text_difference, texts_at};
use serde_json::Value;
use std::alloc::Global;
use values::Text;
use wasm_core::ImportId;

// The keys of a row.
const KEYS: &[&str] = &[
    "name",
    "want",
    "fault",
    "place",
    "adapter",
    "import",
    "names",
    "module",
    "description",
    "bytes",
];

// The number of 32 bits under a key.
fn id_at(row: &Value, key: &str) -> Result<u32, RowFault> {
    match u32::try_from(number_at(row, key)?) {
        Ok(number) => Ok(number),
        Err(_) => Err(RowFault::Row),
    }
}

// The name that the fault holds at a place.
fn held_name(alloc: Global, row: &Value, place: usize) -> Result<Text, RowFault> {
    let names = texts_at(alloc, row, "names")?;
    match names.get(place) {
        Some(name) => Ok(Text::from_str(alloc, name.as_str())?),
        None => Err(RowFault::Row),
    }
}

// The faults that hold nothing.
const BARE: &[&str] = &[
    "DebugUrlWithoutSplit",
    "NoInput",
    "InputSpent",
    "BadStem",
    "DefaultExport",
    "ResetStateTarget",
    "Lower",
    "Threads",
    "PackageJson",
    "StringConstantsEmscripten",
    "IntrinsicTarget",
    "ReinitTarget",
    "OutOfMemory",
];

// The faults that hold one name.
const NAMED: &[&str] = &[
    "NotBuilt",
    "BadName",
    "GlobalTwice",
    "NameClash",
    "ModuleClash",
    "UnknownClass",
    "UnknownParent",
    "FixedMember",
    "DuplicateConstructor",
    "ExportClash",
    "FixedExport",
    "BadReexport",
    "ParentLater",
    "NoModulesImport",
    "LinkNotEmbedded",
    "MissingPart",
];

// The place of a fault's name among these.
fn place_of(names: &[&str], variant: &str) -> Option<usize> {
    names.iter().position(|name| *name == variant)
}

// The fault that holds nothing, by the place of its name.
fn bare_fault(place: usize) -> Option<Fault> {
    match place {
        0 => Some(Fault::DebugUrlWithoutSplit),
        1 => Some(Fault::NoInput),
        2 => Some(Fault::InputSpent),
        3 => Some(Fault::BadStem),
        4 => Some(Fault::DefaultExport),
        5 => Some(Fault::ResetStateTarget),
        6 => Some(Fault::Lower),
        7 => Some(Fault::Threads),
        8 => Some(Fault::PackageJson),
        9 => Some(Fault::StringConstantsEmscripten),
        10 => Some(Fault::IntrinsicTarget),
        11 => Some(Fault::ReinitTarget),
        12 => Some(Fault::OutOfMemory),
        _ => None,
    }
}

// The fault that holds one name, by the place of its own among the first of these.
fn early_fault(place: usize, name: Text) -> Fault {
    match place {
        0 => Fault::NotBuilt { what: name },
        1 => Fault::BadName { name },
        2 => Fault::GlobalTwice { name },
        3 => Fault::NameClash { name },
        4 => Fault::ModuleClash { module: name },
        5 => Fault::UnknownClass { name },
        6 => Fault::UnknownParent { name },
        _ => Fault::FixedMember { name },
    }
}

// The same, among the others.
fn late_fault(place: usize, name: Text) -> Fault {
    match place {
        8 => Fault::DuplicateConstructor { class: name },
        9 => Fault::ExportClash { name },
        10 => Fault::FixedExport { name },
        11 => Fault::BadReexport { name },
        12 => Fault::ParentLater { class: name },
        13 => Fault::NoModulesImport { module: name },
        14 => Fault::LinkNotEmbedded { path: name },
        _ => Fault::MissingPart { part: name },
    }
}

// The fault that holds one name.
fn named_fault(variant: &str, name: Text) -> Result<Fault, RowFault> {
    match place_of(NAMED, variant) {
        None => Err(RowFault::Row),
        Some(place) if place < 8 => Ok(early_fault(place, name)),
        Some(place) => Ok(late_fault(place, name)),
    }
}

// The fault that says which import or adapter it is, or where.
fn numbered_fault(row: &Value, variant: &str) -> Result<Fault, RowFault> {
    if variant == "Parse" {
        let place = number_at(row, "place")?;
        return Ok(Fault::Parse { place });
    }
    if variant == "BadAdapter" {
        let adapter = AdapterId(id_at(row, "adapter")?);
        return Ok(Fault::BadAdapter { adapter });
    }
    let import = ImportId(id_at(row, "import")?);
    Ok(Fault::UnboundImport { import })
}

// The fault of an adapter with an instruction that isn't supported.
fn unsupported_fault(alloc: Global, row: &Value) -> Result<Fault, RowFault> {
    let adapter = AdapterId(id_at(row, "adapter")?);
    let name = held_name(alloc, row, 0)?;
    Ok(Fault::UnsupportedInstr { adapter, name })
}

// The fault of two accessors of one name.
fn accessor_fault(alloc: Global, row: &Value) -> Result<Fault, RowFault> {
    let name = held_name(alloc, row, 1)?;
    let class = held_name(alloc, row, 0)?;
    Ok(Fault::DuplicateAccessor { class, name })
}

// The fault that a row names.
fn fault_of(alloc: Global, row: &Value) -> Result<Fault, RowFault> {
    let variant = text_at(row, "fault")?;
    if let Some(place) = place_of(BARE, variant) {
        return bare_fault(place).ok_or(RowFault::Row);
    }
    match variant {
        "Parse" | "BadAdapter" | "UnboundImport" => numbered_fault(row, variant),
        "UnsupportedInstr" => unsupported_fault(alloc, row),
        "DuplicateAccessor" => accessor_fault(alloc, row),
        _ => named_fault(variant, held_name(alloc, row, 0)?),
    }
}

// Whether the bytes are known; an absent key says that they are.
fn are_bytes_known(row: &Value) -> bool {
    !matches!(row.get("bytes"), Some(Value::Bool(false)))
}

// The words of a fault beside those that are wanted.
fn known_difference(
    alloc: Global,
    row: &Value,
    fault: &Fault,
    known: &Known<'_>,
) -> Result<Option<String>, RowFault> {
    let want = text_at(row, "want")?;
    let got = fault_words(alloc, fault, known)?;
    Ok(text_difference(alloc, "words", got.as_str(), want)?)
}

// The same, where these are the bytes of the module.
fn module_difference(
    alloc: Global,
    row: &Value,
    fault: &Fault,
    bytes: Option<&[u8]>,
) -> Result<Option<String>, RowFault> {
    let lowered = lowered(alloc, bytes, row.get("description"))?;
    let known = Known {
        bytes: if are_bytes_known(row) { bytes } else { None },
        lowered: lowered.as_ref(),
    };
    known_difference(alloc, row, fault, &known)
}

// The same, with the module of the row.
fn fault_difference(alloc: Global, row: &Value, fault: &Fault) -> Result<Option<String>, RowFault> {
    let held = opt_bytes_at(alloc, row, "module")?;
    module_difference(
        alloc,
        row,
        fault,
        held.as_ref().map(|bytes| bytes.as_slice()),
    )
}

/// The words of the row's fault beside those that are wanted.
pub fn difference(alloc: Global, row: &Value) -> Result<Option<String>, RowFault> {
    only_known(row, KEYS)?;
    let fault = fault_of(alloc, row)?;
    fault_difference(alloc, row, &fault)
}
