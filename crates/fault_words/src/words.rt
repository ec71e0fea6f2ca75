//! Faults in words.
ghost use Rattle.std.specs.Prelude.{◌++◌, IfOk, option_map};
ghost use Rattle.std.specs.String.{string_bytes};
ghost use Rattle.fault_words.specs.Answers as spec;

use crate::held::opening;
use crate::known::Known;
use crate::meaning::meaning;
use crate::things::{adapter_told, import_told};
use glue_faults::Fault;
use std::alloc::{AllocError, Global};

// What is known beside of that which a fault names.
fn known_words(alloc: Global, fault: &Fault, known: &Known<'_>) -> Result<String, AllocError> {
    match fault {
        Fault::BadAdapter { adapter } | Fault::UnsupportedInstr { adapter, .. } => {
            adapter_told(alloc, known, *adapter)
        }
        Fault::UnboundImport { import } => import_told(alloc, known, *import),
        _ => Ok(String::new(alloc)),
    }
}

// The sentences behind what a fault holds.
fn sentences(alloc: Global, fault: &Fault, known: &Known<'_>) -> Result<String, AllocError> {
    let mut out = known_words(alloc, fault, known)?;
    out.push_str(meaning(fault))?;
    Ok(out)
}

/// What a fault names, why it came, and where there is something, what to do instead: its name as `run` prints it, a colon, the numbers
/// and names that it holds, and sentences in plain English, in one line without a line feed at its end.
///
/// Numbers are in decimal. Names are between quotes; quotes and backslashes have a backslash before them, characters that show nothing
/// are `\u{..}` with their number, and of a name with more than 60 characters the first 60 stand there, with `..` behind. A byte of the
/// module is told with the section that it lies in, where the module's bytes are known, and imports and adapters with what the module and
/// the description call them, where these are known. Want of memory is the only error.
pub fn fault_words(alloc: Global, fault: &Fault, known: &Known<'_>) -> Result<String, AllocError>
    // It begins with the fault's name and a colon.
    ensures headed { IfOk result (λ s. spec.Begins (spec.head fault.now) (string_bytes s)) }

    // Behind these it begins with the numbers and names that the fault holds.
    ensures named { IfOk result (λ s. spec.Begins (spec.head fault.now ++ spec.held (option_map (λ b. b.now) known.now.bytes) fault.now) (string_bytes s)) }
{
    let mut out = opening(alloc, known.bytes, fault)?;
    let rest = sentences(alloc, fault, known)?;
    out.push_str(rest.as_str())?;
    Ok(out)
}
