//! Imports: what a call of an import evaluates in JavaScript.
use values::{Seq, Text};

/// The name that an import begins with.
#[derive(Debug, PartialEq, Eq, PartialOrd, Ord, Hash, Drop)]
pub enum JsImportName {
    /// A name of the global scope.
    Global {
        name: Text,
    },
    /// A name that a module exports.
    Module {
        module: Text,
        name: Text,
    },
    /// A name that a module handed in with the description exports.
    LocalModule {
        module: Text,
        name: Text,
    },
    /// A name that a piece of JavaScript of a crate exports.
    InlineJs {
        crate_name: Text,
        index: u32,
        name: Text,
    },
    /// A name of the global scope, with or without one of these prefixes.
    VendorPrefixed {
        name: Text,
        prefixes: Seq<Text>,
    },
}

/// A name, and the properties that are read from it in order.
#[derive(Drop)]
pub struct JsImport {
    pub name: JsImportName,
    pub fields: Seq<Text>,
}

/// An import that is a value, or a property of one.
#[derive(Drop)]
pub enum AuxValue {
    Bare(JsImport),
    Getter(JsImport, Text),
    ClassGetter(JsImport, Text),
    Setter(JsImport, Text),
    ClassSetter(JsImport, Text),
}

/// An operation that the glue file carries out itself.
#[derive(Clone, Copy)]
pub enum Intrinsic {
    Add,
    BigIntGetAsI64,
    BitAnd,
    BitNot,
    BitOr,
    BitXor,
    BooleanGet,
    CheckedDiv,
    CopyToTypedArray,
    DebugString,
    Div,
    Exports,
    ExternrefHeapLiveCount,
    FunctionTable,
    GE,
    GT,
    InOperator,
    InitExternrefTable,
    Instance,
    IsBigInt,
    IsFalsy,
    IsFunction,
    IsNull,
    IsNullOrUndefined,
    IsObject,
    IsString,
    IsSymbol,
    IsUndefined,
    JsvalEq,
    JsvalLooseEq,
    LE,
    LT,
    Memory,
    Module,
    Mul,
    Neg,
    NumberGet,
    ObjectCloneRef,
    ObjectDropRef,
    PanicError,
    Pow,
    Reinit,
    Rem,
    Rethrow,
    Shl,
    Shr,
    StringFromUtf8Lossy,
    StringGet,
    Sub,
    Throw,
    TryIntoNumber,
    Typeof,
    UnsignedShr,
}

/// What an import evaluates.
#[derive(Drop)]
pub enum AuxImport {
    Value(AuxValue),
    ValueWithThis(JsImport, Text),
    Instanceof(JsImport),
    Static(JsImport, bool),
    String(Text),
    Cast(Text),
    StructuralMethod(Text),
    StructuralGetter(Text),
    StructuralSetter(Text),
    StructuralClassGetter(JsImport, Text),
    StructuralClassSetter(JsImport, Text),
    IndexingGetterOfClass(JsImport),
    IndexingSetterOfClass(JsImport),
    IndexingDeleterOfClass(JsImport),
    IndexingGetterOfObject,
    IndexingSetterOfObject,
    IndexingDeleterOfObject,
    WrapInExportedClass(Text),
    UnwrapExportedClass(Text),
    /// A path, and the content of the file there.
    LinkTo(Text, Option<Text>),
    Intrinsic(Intrinsic),
}
