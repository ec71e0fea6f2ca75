//! The import lines of described names, one a module.
ghost use Rattle.std.specs.Prelude.{◌≡◌, ◌++◌, ◌∷◌, [], IfOk, OnOk, map};
ghost use Rattle.std.specs.BTreeMap.{insert_entry};
ghost use Rattle.glue_lines.specs.Grouped.{text_order};
ghost use Rattle.glue_lines.specs.Grouped as spec;

use crate::form::LineForm;
use crate::lines::import_line;
use glue_shared::JsImportName;
use glue_words::Item;
use std::alloc::{AllocError, Global};
use values::{Duplicate, Map, Seq, Text};

// The module of a piece of JavaScript of a crate.
fn inline_path(alloc: Global, crate_name: &str, index: u32) -> Result<Text, AllocError>
    ensures path { IfOk result (λ path. path ≡ spec.inline_path crate_name.now index) }
{
    let path = format!(in alloc; "./snippets/{crate_name}/inline{index}.js")?;
    Ok(Text::new(path))
}

// The module that is handed in with the description under a name.
fn local_path(alloc: Global, module: &str) -> Result<Text, AllocError>
    ensures path { IfOk result (λ path. path ≡ spec.local_path «module».now) }
{
    let mut path = Text::from_str(alloc, "./snippets/")?;
    path.push_str(module)?;
    Ok(path)
}

/// The module that a described name comes from, and its name there; none of a name of the host. Want of memory is the only error.
pub fn source_of(
    alloc: Global,
    described: &JsImportName,
) -> Result<Option<(Text, Text)>, AllocError>
    ensures source { IfOk result (λ source. source ≡ spec.source_of described.now) }
{
    match described {
        JsImportName::Global { .. } | JsImportName::VendorPrefixed { .. } => Ok(None),
        JsImportName::Module { module, name } => {
            let path = module.copy(alloc)?;
            Ok(Some((path, name.copy(alloc)?)))
        }
        JsImportName::LocalModule { module, name } => {
            let path = local_path(alloc, module.as_str())?;
            Ok(Some((path, name.copy(alloc)?)))
        }
        JsImportName::InlineJs {
            crate_name,
            index,
            name,
        } => {
            let path = inline_path(alloc, crate_name.as_str(), *index)?;
            Ok(Some((path, name.copy(alloc)?)))
        }
    }
}

// The entry of a described name, with its module; none of a name of the host.
fn placed_entry(
    alloc: Global,
    import: &(JsImportName, Text),
) -> Result<Option<(Text, (Text, Text))>, AllocError>
    ensures entry { IfOk result (λ entry. entry ≡ spec.placed_entry import.now) }
{
    match source_of(alloc, &import.0)? {
        None => Ok(None),
        Some((path, name)) => Ok(Some((path, (name, import.1.copy(alloc)?)))),
    }
}

// Takes the entries of a module out, and leaves none at its text.
fn take_entries(
    alloc: Global,
    lines: &mut Map<Text, Seq<(Text, Text)>>,
    path: &Text,
) -> Result<Seq<(Text, Text)>, AllocError>
    ensures entries { IfOk result (λ entries. entries ≡ spec.found_entries lines.old path.now) }
    ensures left { OnOk result (lines.new ≡ insert_entry text_order lines.old path.now []) }
{
    let found = lines.insert(path.copy(alloc)?, Seq::new(alloc))?;
    Ok(found.unwrap_or(Seq::new(alloc)))
}

// Puts an entry behind those of its module.
fn put_entry(
    alloc: Global,
    lines: &mut Map<Text, Seq<(Text, Text)>>,
    path: Text,
    entry: (Text, Text),
) -> Result<(), AllocError>
    ensures added { OnOk result (spec.AddsEntries ((path, entry) ∷ []) lines.old lines.new) }
{
    let mut entries = take_entries(alloc, lines, &path)?;
    entries.push(entry)?;
    drop(lines.insert(path, entries)?);
    Ok(())
}

// Puts the entry of a described name behind those of its module, where it comes from one.
fn add_import(
    alloc: Global,
    lines: &mut Map<Text, Seq<(Text, Text)>>,
    import: &(JsImportName, Text),
) -> Result<(), AllocError>
    ensures added { OnOk result (spec.AddsEntries (spec.placed_entries (import.now ∷ [])) lines.old lines.new) }
{
    match placed_entry(alloc, import)? {
        None => Ok(()),
        Some((path, entry)) => put_entry(alloc, lines, path, entry),
    }
}

// The entries of described names, by their modules.
fn by_module(
    alloc: Global,
    imports: &[(JsImportName, Text)],
) -> Result<Map<Text, Seq<(Text, Text)>>, AllocError>
    ensures lines { IfOk result (λ lines. spec.AreByModule (spec.placed_entries imports.now) lines) }
{
    let mut lines = Map::new(alloc);
    for import in imports {
        add_import(alloc, &mut lines, import)?;
    }
    Ok(lines)
}

// An import line for each module.
fn line_items(
    alloc: Global,
    form: LineForm,
    lines: &Map<Text, Seq<(Text, Text)>>,
) -> Result<Seq<Item>, AllocError>
    ensures items { IfOk result (λ items. items ≡ map (spec.line_of form) lines.now) }
{
    let mut items = Seq::new(alloc);
    for (path, entries) in lines.iter() {
        items.push(import_line(alloc, form, path.as_str(), entries.as_slice())?)?;
    }
    Ok(items)
}

/// The import lines of described names, each given with the name that the glue file has for it: one line for each
/// module that one of them comes from, in the order of the bytes of the modules' texts, and in it the names of the
/// module in the order in which they are given.
///
/// A module that is handed in with the description has the text `./snippets/` and its name, a piece of JavaScript of a
/// crate `./snippets/`, the crate's name, `/inline`, the piece's number and `.js`. A name of the host has no line. Want
/// of memory is the only error.
pub fn import_lines(
    alloc: Global,
    form: LineForm,
    imports: &[(JsImportName, Text)],
) -> Result<Seq<Item>, AllocError>
    ensures lines { IfOk result (λ items. spec.AreImportLines form imports.now items) }
{
    let lines = by_module(alloc, imports)?;
    line_items(alloc, form, &lines)
}
