//! The description of a module's imports and exports, and the settings of a call.
//!
//! A description says by adapters how values pass between JavaScript and WebAssembly. Contracts see each of these
//! types by its fields, with texts as their UTF-8 bytes and lists as lists.
//!
//! Stands on `wasm_core` and `values`.
#![tactic(auto)]

mod adapter;
mod aux;
mod description;
mod direct;
mod ids;
mod implementers;
mod import;
mod indexed;
mod kept;
mod name_map;
mod name_tests;
mod names;
mod own;
mod settings;

pub use adapter::{
    Adapter, AdapterId, AdapterJsImportKind, AdapterKind, AdapterType, Instruction,
    NonstandardWitSection, VectorKind,
};
pub use aux::{
    AuxDynamicUnion, AuxDynamicUnionVariant, AuxEnum, AuxExport, AuxExportKind,
    AuxExportedMethodKind, AuxReceiverKind, AuxStringEnum, AuxStruct, StaticSlot, WasmBindgenAux,
};
pub use description::{Description, Lowered};
pub use direct::{code_of, handed_part, is_from_module};
pub use ids::IdSet;
pub use implementers::Implementers;
pub use import::{AuxImport, AuxValue, Intrinsic, JsImport, JsImportName};
pub use indexed::{DescribedImports, IndexedAux};
pub use kept::{
    first_memory, func_item, is_live_item, keep_live, live_item, push_instruction, roots,
    table_item,
};
pub use name_map::NameMap;
pub use name_tests::{is_fixed_name, is_host_name, js_import, live_count};
pub use names::{EMSCRIPTEN_HOSTS, HELPER_NAMES, HOSTS, MEMORY_NAMES, TABLE_NAMES, TARGET_NAMES};
pub use own::own_imports;
pub use settings::{EncodeInto, Settings, Target};
