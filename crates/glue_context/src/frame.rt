//! What the frame of imports goes by, beside the names of files.
ghost use Rattle.std.specs.Prelude.{◌≡◌, IfOk};
ghost use Rattle.glue_context.specs.Items as spec;

use crate::defined::has_unpaired;
use crate::foreign::handed_on;
use glue_check::own_ids;
use glue_shared::{Lowered, Settings};
use std::alloc::{AllocError, Global};
use values::{Seq, Text};

/// What the frame of imports goes by.
#[derive(Drop)]
pub(crate) struct FrameParts {
    /// Whether the first memory is imported.
    pub memory: bool,
    /// The modules of the imports that the glue file doesn't define, one for each.
    pub modules: Seq<Text>,
    /// Whether string constants are imported.
    pub strings: bool,
}

/// What the frame of a description goes by. Want of memory is the only error.
pub(crate) fn frame_parts(
    alloc: Global,
    settings: &Settings,
    lowered: &Lowered,
) -> Result<FrameParts, AllocError>
    ensures parts { IfOk result (λ parts. spec.frame_by parts ≡ spec.frame_of settings.now lowered.now) }
{
    let own = own_ids(alloc, settings, lowered)?;
    let memory = has_unpaired(alloc, lowered, own.as_slice())?;
    let handed = handed_on(alloc, settings, lowered)?;
    Ok(FrameParts {
        memory,
        modules: handed.modules,
        strings: handed.strings,
    })
}
