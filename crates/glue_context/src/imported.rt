//! The items that bind the names which imports take of modules and vendors.
ghost use Rattle.std.specs.Prelude.{◌≡◌, ◌++◌, IfOk, OnOk};
ghost use Rattle.glue_lines.specs.Grouped.{AreImportLines};
ghost use Rattle.glue_context.specs.ImportedItems as spec;

use glue_lines::{LineForm, import_lines, vendor_constant};
use glue_shared::{JsImportName, Settings, Target};
use glue_words::Item;
use std::alloc::{AllocError, Global};
use values::{Seq, Text};

// The form of the lines that take modules.
fn line_form(target: &Target) -> LineForm
    ensures form { result ≡ spec.line_form target.now }
{
    match target {
        Target::Node { module: false } => LineForm::CommonJs,
        _ => LineForm::Es,
    }
}

/// The import lines of described names of modules, each given with the name that the glue file has for it. Want of memory is the only error.
pub(crate) fn imported_lines(
    alloc: Global,
    settings: &Settings,
    imports: &[(JsImportName, Text)],
) -> Result<Seq<Item>, AllocError>
    ensures lines { IfOk result (λ lines. AreImportLines (spec.line_form settings.now.target) imports.now lines) }
{
    import_lines(alloc, line_form(&settings.target), imports)
}

// Adds the constant of a name, where it has vendor prefixes.
fn push_constant(
    alloc: Global,
    import: &(JsImportName, Text),
    items: &mut Seq<Item>,
) -> Result<(), AllocError>
    ensures pushed { OnOk result (items.new ≡ items.old ++ spec.vendor_item import.now) }
{
    match &import.0 {
        JsImportName::VendorPrefixed { name, prefixes } => {
            let bound = import.1.as_str();
            items.push(vendor_constant(alloc, bound, name.as_str(), prefixes.as_slice())?)?;
            Ok(())
        }
        _ => Ok(()),
    }
}

/// The constants of names with vendor prefixes, in the order in which they are given. Want of memory is the only error.
pub(crate) fn vendor_constants(
    alloc: Global,
    imports: &[(JsImportName, Text)],
) -> Result<Seq<Item>, AllocError>
    ensures constants { IfOk result (λ items. items ≡ spec.vendor_items imports.now) }
{
    let mut items = Seq::new(alloc);
    for import in imports {
        push_constant(alloc, import, &mut items)?;
    }
    Ok(items)
}
