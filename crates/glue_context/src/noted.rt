//! The lines of the note before a function: those of its comment, and behind them those that tell its types.
ghost use Rattle.std.specs.Prelude.{◌≡◌, IfOk};
ghost use Rattle.std.specs.Option.{option_copied};
ghost use Rattle.glue_context.specs.ExportedItems as spec;

use glue_exports::lines_of;
use glue_imports::Basis;
use glue_shared::{Adapter, AuxExport, Lowered};
use std::alloc::{AllocError, Global};
use type_texts::signature_lines;
use values::{Seq, Text};

// The lines of the types of an adapter's function, none where there is no adapter.
fn adapter_lines(
    alloc: Global,
    basis: &Basis<'_>,
    export: &AuxExport,
    adapter: Option<&Adapter>,
    params: &[Text],
) -> Result<Seq<Text>, AllocError>
    ensures lines { IfOk result (λ lines. lines ≡ spec.adapter_lines basis.now.settings.now basis.now.names.now export.now (option_copied adapter.entry) params.now) }
{
    match adapter {
        None => Ok(Seq::new(alloc)),
        Some(adapter) => {
            let buffers = basis.settings.ts_typed_array_buffers;
            signature_lines(alloc, buffers, basis.names, export, adapter, params)
        }
    }
}

// These lines, where the description asks for them.
fn type_lines(
    alloc: Global,
    basis: &Basis<'_>,
    lowered: &Lowered,
    export: &AuxExport,
    params: &[Text],
) -> Result<Seq<Text>, AllocError>
    ensures lines { IfOk result (λ lines. lines ≡ spec.type_lines basis.now.settings.now basis.now.names.now lowered.now export.now params.now export.now.jsdoc) }
{
    match export.jsdoc {
        false => Ok(Seq::new(alloc)),
        true => {
            let adapter = lowered.wit.adapters.get(&export.adapter);
            adapter_lines(alloc, basis, export, adapter, params)
        }
    }
}

/// The lines of the note before an export's function, whose parameters have these names. Want of memory is the only error.
pub(crate) fn note_lines(
    alloc: Global,
    basis: &Basis<'_>,
    lowered: &Lowered,
    export: &AuxExport,
    params: &[Text],
) -> Result<Seq<Text>, AllocError>
    ensures lines { IfOk result (λ lines. lines ≡ spec.note_lines basis.now.settings.now basis.now.names.now lowered.now export.now params.now) }
{
    let mut lines = lines_of(alloc, &export.comments)?;
    lines.append(type_lines(alloc, basis, lowered, export, params)?)?;
    Ok(lines)
}
