//! The names of what a description declares.
ghost use Rattle.std.specs.Prelude.{◌≡◌, IfOk, true};
ghost use Rattle.std.specs.List.{list_all};
ghost use Rattle.std.specs.Option.{option_copied};
ghost use Rattle.glue_naming.specs.Naming as spec;

use crate::asked::wanted;
use crate::drawing::name_all;
use crate::given::reserved_scope;
use crate::named::{Named, name_in};
use glue_check::{Checked, qualified};
use glue_scope::Names;
use glue_shared::{AuxExport, JsImportName, Lowered, NameMap, Settings};
use std::alloc::{AllocError, Global};
use taken_items::{item_map, item_names};
use values::Text;

/// The names that are drawn for what is described, and those of the exports that give items of the module. Want of memory is the only error.
pub fn names_of<N: Names>(
    alloc: Global,
    settings: &Settings,
    lowered: &Lowered,
) -> Result<NameMap, AllocError>
    ensures names { IfOk result (λ map. spec.AreNames settings.now lowered.now map) }
{
    let list = wanted(alloc, settings, lowered)?;
    let scope: N = reserved_scope(alloc, settings, lowered)?;
    let items = item_names::<N>(alloc, settings, lowered)?;
    let mut map = name_all(alloc, scope, list.as_slice())?;
    map.wasm = item_map(alloc, items.as_slice())?;
    Ok(map)
}

/// The names of what a checked description declares. Each exported function has one: its own where that is an identifier, not reserved and
/// not drawn earlier. Want of memory is the only error.
pub fn draw_names<N: Names>(alloc: Global, checked: &Checked) -> Result<NameMap, AllocError>
    ensures names { IfOk result (λ map. spec.AreNames checked.now.settings checked.now.lowered map) }
    ensures named { IfOk result (λ map. list_all (spec.is_named map) checked.now.lowered.aux.exports ≡ true) }
{
    names_of::<N>(alloc, checked.settings(), checked.lowered())
}

/// The name that the function of an export was given. Want of memory is the only error.
pub fn function_name<'a>(
    alloc: Global,
    map: &'a NameMap,
    export: &AuxExport,
) -> Result<Option<&'a Text>, AllocError>
    ensures name { IfOk result (λ name. option_copied name ≡ spec.function_name map.now export.now) }
{
    let thing = Named::Function(qualified(alloc, export)?);
    Ok(name_in(map, &thing))
}

/// The name that stands for what an import begins with: that of a module's export, or of the constant that a vendor's name becomes.
/// None where none was drawn, as for a name of the host.
pub fn import_name<'a>(map: &'a NameMap, name: &JsImportName) -> Option<&'a Text>
    ensures name { option_copied result ≡ spec.import_name map.now name.now }
{
    map.imports.get(name)
}
