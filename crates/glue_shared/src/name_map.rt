//! The names that are handed out.
ghost use Rattle.std.specs.Prelude.{◌≡◌};
ghost use Rattle.glue_shared.specs.NameMap.{no_names};

use crate::import::JsImportName;
use std::alloc::Global;
use values::{Map, Text};
use wasm_core::ExportItem;

/// The names that the glue file gives to what a description and a module name.
#[derive(Drop)]
pub struct NameMap {
    /// Each class by its qualified name.
    pub classes: Map<Text, Text>,
    /// The registry of finalizers of each class, by the class's qualified name.
    pub registries: Map<Text, Text>,
    /// Each enum by its qualified name.
    pub enums: Map<Text, Text>,
    /// Each function by its qualified name.
    pub functions: Map<Text, Text>,
    /// Each namespace at the root.
    pub namespaces: Map<Text, Text>,
    /// Each described import.
    pub imports: Map<JsImportName, Text>,
    /// Each item of the module by the name of its export.
    pub wasm: Map<ExportItem, Text>,
}

impl NameMap {
    /// No name is handed out.
    pub fn new(alloc: Global) -> NameMap
        ensures { result ≡ no_names }
    {
        NameMap {
            classes: Map::new(alloc),
            registries: Map::new(alloc),
            enums: Map::new(alloc),
            functions: Map::new(alloc),
            namespaces: Map::new(alloc),
            imports: Map::new(alloc),
            wasm: Map::new(alloc),
        }
    }
}
