//! What the texts of helpers depend on.
ghost use Rattle.std.specs.Prelude.{◌≡◌, ◌<◌, ◌≤◌, ◌^◌, true, length, IfOk};
ghost use Rattle.glue_context.specs.Parts as spec;

use glue_shared::{EncodeInto, Lowered, NameMap, Settings, Target};
use glue_steps::{ReferencePart, destroyer_item, part_item, store_item};
use helper_table::{EncoderForm, HelperParts, TableExport};
use std::alloc::{AllocError, Global};
use values::{Duplicate, Seq, Text};
use wasm_core::{ExportItem, Memory, MemoryId, Module};

/// More memories or tables come to want of memory.
const MOST: usize = 4_294_967_296;

fn is_for_browsers(target: &Target) -> bool
    ensures test { result ≡ spec.is_for_browsers target.now }
{
    matches!(target, Target::Bundler { .. } | Target::Web)
}

fn encoder_of(encode_into: EncodeInto) -> EncoderForm
    ensures form { result ≡ spec.encoder_of encode_into }
{
    match encode_into {
        EncodeInto::Test => EncoderForm::Tested,
        EncodeInto::Always => EncoderForm::Own,
        EncodeInto::Never => EncoderForm::Copying,
    }
}

// The name of the export that gives an item, where there is an item, and one was drawn.
fn export_at(
    alloc: Global,
    names: &NameMap,
    item: Option<ExportItem>,
) -> Result<Option<Text>, AllocError>
    ensures name { IfOk result (λ name. name ≡ spec.export_at names.now item) }
{
    let Some(item) = item else {
        return Ok(None);
    };
    match names.wasm.get(&item) {
        None => Ok(None),
        Some(name) => Ok(Some(name.copy(alloc)?)),
    }
}

// The memory at a place as an item, where it stands.
fn memory_item(memory: &Option<Memory>, place: usize) -> Option<ExportItem>
    requires few { place < 2 ^ 32 }
    ensures item { result ≡ spec.memory_item memory.now place }
{
    match memory {
        None => None,
        Some(_) => Some(ExportItem::Memory(MemoryId(place as u32))),
    }
}

// The export of each memory that stands, by its place.
fn memory_exports(
    alloc: Global,
    names: &NameMap,
    memories: &[Option<Memory>],
) -> Result<Seq<Option<Text>>, AllocError>
    requires few { length memories.now ≤ 2 ^ 32 }
    ensures exports { IfOk result (λ exports. exports ≡ spec.memory_exports names.now 0 memories.now) }
{
    let mut exports = Seq::new(alloc);
    for place in 0..memories.len() {
        let item = memory_item(&memories[place], place);
        exports.push(export_at(alloc, names, item)?)?;
    }
    Ok(exports)
}

// The table of references with its export, where it has one.
fn table_export(
    alloc: Global,
    names: &NameMap,
    item: Option<ExportItem>,
) -> Result<Option<TableExport>, AllocError>
    ensures export { IfOk result (λ export. export ≡ spec.table_export names.now item) }
{
    let Some(ExportItem::Table(id)) = item else {
        return Ok(None);
    };
    match export_at(alloc, names, item)? {
        None => Ok(None),
        Some(name) => Ok(Some(TableExport { place: id.0, name })),
    }
}

// A part of the module, where values are kept in a table of references.
fn reference_item(settings: &Settings, lowered: &Lowered, part: ReferencePart) -> Option<ExportItem>
    ensures item { result ≡ spec.reference_item settings.now lowered.now part }
{
    if settings.externref {
        part_item(lowered, part)
    } else {
        None
    }
}

// Whether ids can name all memories and tables.
fn are_few(module: &Module) -> bool
    ensures test { result ≡ spec.are_few «module».now }
{
    module.memories().len() <= MOST && module.tables().len() <= MOST
}

/// What the texts of helpers depend on: the settings, and the names of the exports that give memories, the table of references and its
/// functions, the function that takes what imports throw, and the one that destroys closures. Want of memory is the only error; more than 4,294,967,296 memories or tables come to it
/// too.
pub(crate) fn helper_parts(
    alloc: Global,
    settings: &Settings,
    lowered: &Lowered,
    names: &NameMap,
) -> Result<HelperParts, AllocError>
    ensures parts { IfOk result (λ parts. parts ≡ spec.helper_parts settings.now lowered.now names.now) }
    ensures few { IfOk result (λ parts. spec.are_few lowered.now.«module» ≡ true) }
{
    let module = &lowered.module;
    if !are_few(module) {
        return Err(AllocError);
    }
    let table = reference_item(settings, lowered, ReferencePart::Table);
    let allocate = reference_item(settings, lowered, ReferencePart::Alloc);
    let free = reference_item(settings, lowered, ReferencePart::Drop);
    let free_all = reference_item(settings, lowered, ReferencePart::DropSlice);
    Ok(HelperParts {
        debug: settings.debug,
        externref: settings.externref,
        browser: is_for_browsers(&settings.target),
        encoder: encoder_of(settings.encode_into),
        memories: memory_exports(alloc, names, module.memories())?,
        table: table_export(alloc, names, table)?,
        exn_store: export_at(alloc, names, store_item(lowered))?,
        externref_alloc: export_at(alloc, names, allocate)?,
        externref_drop: export_at(alloc, names, free)?,
        externref_drop_slice: export_at(alloc, names, free_all)?,
        destroy_closure: export_at(alloc, names, destroyer_item(lowered))?,
    })
}
