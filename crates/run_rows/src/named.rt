//! Faults in words.
use cli_support::Fault;
use std::alloc::{AllocError, Global};

// The name that a fault names.
fn name_in(fault: &Fault) -> Option<&str> {
    match fault {
        Fault::UnsupportedInstr { name, .. }
        | Fault::NotBuilt { what: name }
        | Fault::BadName { name }
        | Fault::GlobalTwice { name }
        | Fault::NameClash { name }
        | Fault::ModuleClash { module: name }
        | Fault::UnknownClass { name }
        | Fault::ExportClash { name }
        | Fault::FixedExport { name }
        | Fault::BadReexport { name }
        | Fault::LinkNotEmbedded { path: name }
        | Fault::MissingPart { part: name } => Some(name.as_str()),
        _ => None,
    }
}

// The number that a fault names.
fn number_in(fault: &Fault) -> Option<u64> {
    match fault {
        Fault::Parse { place } => Some(*place),
        Fault::UnsupportedInstr { adapter, .. } | Fault::BadAdapter { adapter } => {
            Some(u64::from(adapter.0))
        }
        Fault::UnboundImport { import } => Some(u64::from(import.0)),
        _ => None,
    }
}

/// A fault's name and what it names.
pub fn fault_text(alloc: Global, fault: &Fault) -> Result<String, AllocError> {
    let variant = fault.name();
    match (number_in(fault), name_in(fault)) {
        (None, None) => String::from_str(alloc, variant),
        (Some(number), None) => format!(in alloc; "{variant} {number}"),
        (None, Some(name)) => format!(in alloc; "{variant} {name}"),
        (Some(number), Some(name)) => format!(in alloc; "{variant} {number} {name}"),
    }
}
