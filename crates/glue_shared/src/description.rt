//! A whole description, and a module with it.
ghost use Rattle.std.specs.Prelude.{◌≡◌};
ghost use Rattle.glue_shared.specs.Description.{empty_description};

use crate::adapter::NonstandardWitSection;
use crate::aux::WasmBindgenAux;
use std::alloc::Global;
use values::{Map, Seq};
use wasm_core::Module;

/// What is described of a module.
#[derive(Drop)]
pub struct Description {
    pub wit: NonstandardWitSection,
    pub aux: WasmBindgenAux,
}

/// A module with its description, as a lowering gives them.
#[derive(Drop)]
pub struct Lowered {
    pub module: Module,
    pub wit: NonstandardWitSection,
    pub aux: WasmBindgenAux,
}

impl NonstandardWitSection {
    /// No adapters.
    pub fn empty(alloc: Global) -> NonstandardWitSection
        ensures { result ≡ empty_description.wit }
    {
        NonstandardWitSection {
            adapters: Map::new(alloc),
            implements: Seq::new(alloc),
            exports: Seq::new(alloc),
        }
    }
}

impl WasmBindgenAux {
    /// Nothing is said.
    pub fn empty(alloc: Global) -> WasmBindgenAux
        ensures { result ≡ empty_description.aux }
    {
        WasmBindgenAux {
            exports: Seq::new(alloc),
            imports: Seq::new(alloc),
            imports_with_catch: Seq::new(alloc),
            imports_with_variadic: Seq::new(alloc),
            structs: Seq::new(alloc),
            enums: Seq::new(alloc),
            string_enums: Seq::new(alloc),
            unions: Seq::new(alloc),
            reexports: Seq::new(alloc),
            snippets: Map::new(alloc),
            local_modules: Map::new(alloc),
            package_jsons: Seq::new(alloc),
            extra_typescript: Seq::new(alloc),
            static_slots: Seq::new(alloc),
            exn_store: None,
            externref_alloc: None,
            externref_drop: None,
            externref_drop_slice: None,
            destroy_closure: None,
            rethrow_critical: None,
            externref_table: None,
            function_table: None,
            stack_pointer: None,
            js_tag: None,
            wrapped_js_tag: None,
            uses_reinit: false,
            legacy_exception_handling: false,
        }
    }
}

impl Description {
    /// Nothing is described.
    pub fn empty(alloc: Global) -> Description
        ensures { result ≡ empty_description }
    {
        Description {
            wit: NonstandardWitSection::empty(alloc),
            aux: WasmBindgenAux::empty(alloc),
        }
    }
}
