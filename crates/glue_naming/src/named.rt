//! What names are drawn for, and how they are kept.
ghost use Rattle.std.specs.Prelude.{◌≡◌, IfOk, OnOk};
ghost use Rattle.std.specs.BTreeMap.{insert_entry};
ghost use Rattle.std.specs.Option.{option_copied};
ghost use Rattle.glue_naming.specs.Drawing as spec;

use glue_published::copied_import;
use glue_shared::{JsImportName, NameMap};
use std::alloc::{AllocError, Global};
use values::{Duplicate, Map, Text};

/// What a name is drawn for: what is declared by its qualified name, and what is imported by the name that it begins with.
#[derive(Debug, Drop)]
pub enum Named {
    Class(Text),
    /// The registry of finalizers of the class of this name.
    Registry(Text),
    Enum(Text),
    /// The export of a module, or the constant that a vendor's name becomes. For a global no name is drawn, nor for a module's export where imports
    /// are left out.
    Import(JsImportName),
    Function(Text),
    /// The object of the namespace that is published under this name.
    Namespace(Text),
}

/// The name that is wanted.
#[derive(Debug, Drop)]
pub enum WantedName {
    /// This name.
    Plain(Text),
    /// The name that was drawn last, followed by this.
    After(Text),
}

/// A thing, and the name that is wanted for it.
#[derive(Debug, Drop)]
pub struct Wanted {
    pub thing: Named,
    pub name: WantedName,
}

// Keeps a name at a key.
fn put_at<K: Ord + Drop>(map: &mut Map<K, Text>, key: K, name: Text) -> Result<(), AllocError>
    ensures put { OnOk result (map.new ≡ insert_entry K.cmp map.old key name) }
{
    drop(map.insert(key, name)?);
    Ok(())
}

/// Keeps a thing's name. Want of memory is the only error.
pub(crate) fn put_name(
    alloc: Global,
    map: &mut NameMap,
    thing: &Named,
    name: Text,
) -> Result<(), AllocError>
    ensures put { OnOk result (map.new ≡ spec.put_name map.old thing.now name) }
{
    match thing {
        Named::Class(key) => put_at(&mut map.classes, key.copy(alloc)?, name),
        Named::Registry(key) => put_at(&mut map.registries, key.copy(alloc)?, name),
        Named::Enum(key) => put_at(&mut map.enums, key.copy(alloc)?, name),
        Named::Import(key) => put_at(&mut map.imports, copied_import(alloc, key)?, name),
        Named::Function(key) => put_at(&mut map.functions, key.copy(alloc)?, name),
        Named::Namespace(key) => put_at(&mut map.namespaces, key.copy(alloc)?, name),
    }
}

/// The name that a thing was given.
pub fn name_in<'a>(map: &'a NameMap, thing: &Named) -> Option<&'a Text>
    ensures name { option_copied result ≡ spec.name_in map.now thing.now }
{
    match thing {
        Named::Class(key) => map.classes.get(key),
        Named::Registry(key) => map.registries.get(key),
        Named::Enum(key) => map.enums.get(key),
        Named::Import(key) => map.imports.get(key),
        Named::Function(key) => map.functions.get(key),
        Named::Namespace(key) => map.namespaces.get(key),
    }
}
