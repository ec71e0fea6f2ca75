//! What the adapters alone don't say: names, kinds, classes, enums and texts of the public side.
use crate::adapter::{AdapterId, AdapterType};
use crate::import::{AuxImport, JsImport};
use values::{Map, Seq, Text};
use wasm_core::{FuncId, GlobalId, TableId, TagId};

/// What an accessor or a method of a class is.
#[derive(Clone, Copy)]
pub enum AuxExportedMethodKind {
    Method,
    Getter,
    Setter,
}

/// What an export is.
#[derive(Clone, Copy)]
pub enum AuxExportKind {
    Function,
    /// A function that is given `this` as its first argument.
    FunctionThis,
    Constructor,
    Method(AuxExportedMethodKind),
}

/// How a method takes its object.
#[derive(Clone, Copy)]
pub enum AuxReceiverKind {
    None,
    Borrowed,
    Owned,
}

/// A function, constructor, method or accessor that is published.
#[derive(Drop)]
pub struct AuxExport {
    pub adapter: AdapterId,
    pub kind: AuxExportKind,
    pub name: Text,
    pub class: Option<Text>,
    pub receiver: AuxReceiverKind,
    /// The path of the namespace that it stands in.
    pub namespace: Seq<Text>,
    /// The names of the parameters, or none.
    pub args: Seq<Text>,
    pub comments: Option<Text>,
    /// The name by which members are ordered.
    pub debug: Text,
    pub typescript: bool,
    pub jsdoc: bool,
    pub variadic: bool,
    pub asyncness: bool,
}

/// A class.
#[derive(Drop)]
pub struct AuxStruct {
    pub name: Text,
    pub namespace: Seq<Text>,
    pub extends: Option<Text>,
    pub extends_js_class: Option<Text>,
    pub extends_js_namespace: Option<Seq<Text>>,
    pub comments: Option<Text>,
    pub inspectable: bool,
    pub typescript: bool,
    pub private: bool,
}

/// An enum of numbers: each variant with its number and its comment.
#[derive(Drop)]
pub struct AuxEnum {
    pub name: Text,
    pub namespace: Seq<Text>,
    pub variants: Seq<(Text, i64, Text)>,
    pub comments: Option<Text>,
    pub typescript: bool,
    pub private: bool,
}

/// An enum of texts.
#[derive(Drop)]
pub struct AuxStringEnum {
    pub name: Text,
    pub variants: Seq<Text>,
    pub comments: Option<Text>,
    pub typescript: bool,
    pub private: bool,
}

/// One of the types of a union.
#[derive(Drop)]
pub enum AuxDynamicUnionVariant {
    Literal(Text),
    Typed(AdapterType),
}

/// A union of types.
#[derive(Drop)]
pub struct AuxDynamicUnion {
    pub name: Text,
    pub variants: Seq<AuxDynamicUnionVariant>,
    pub comments: Option<Text>,
    pub typescript: bool,
    pub private: bool,
}

/// A slot of the module's statics.
#[derive(Drop)]
pub enum StaticSlot {
    Null,
    Text(Text),
}

/// All that a description says beside its adapters.
#[derive(Drop)]
pub struct WasmBindgenAux {
    pub exports: Seq<AuxExport>,
    pub imports: Seq<(AdapterId, AuxImport)>,
    /// The local adapters whose throws are caught.
    pub imports_with_catch: Seq<AdapterId>,
    /// The import adapters whose last argument is spread.
    pub imports_with_variadic: Seq<AdapterId>,
    pub structs: Seq<AuxStruct>,
    pub enums: Seq<AuxEnum>,
    pub string_enums: Seq<AuxStringEnum>,
    pub unions: Seq<AuxDynamicUnion>,
    /// Each re-export: its name, its import, and whether it is declared in TypeScript.
    pub reexports: Seq<(Text, JsImport, bool)>,
    pub snippets: Map<Text, Seq<Text>>,
    pub local_modules: Map<Text, Text>,
    pub package_jsons: Seq<Text>,
    pub extra_typescript: Seq<Text>,
    pub static_slots: Seq<StaticSlot>,
    pub exn_store: Option<FuncId>,
    pub externref_alloc: Option<FuncId>,
    pub externref_drop: Option<FuncId>,
    pub externref_drop_slice: Option<FuncId>,
    pub destroy_closure: Option<FuncId>,
    pub rethrow_critical: Option<FuncId>,
    pub externref_table: Option<TableId>,
    pub function_table: Option<TableId>,
    pub stack_pointer: Option<GlobalId>,
    pub js_tag: Option<TagId>,
    pub wrapped_js_tag: Option<TagId>,
    pub uses_reinit: bool,
    pub legacy_exception_handling: bool,
}
