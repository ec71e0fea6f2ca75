//! The helpers, in one order, with their keys and the names that they bind.
use glue_heap::HeapKey;
use glue_helpers::closures::ClosureHelper;
use glue_helpers::{ElementKind, PlainHelper, Width};

/// A helper that goes by no memory and no table.
#[derive(Clone, Copy, Debug, PartialEq, Eq)]
pub enum Single {
    Heap(HeapKey),
    /// One without stand-ins; of text decoders and encoders the first form stands for all.
    Plain(PlainHelper),
    Closure(ClosureHelper),
    HandleError,
}

/// A helper that goes by a memory.
#[derive(Clone, Copy, Debug, PartialEq, Eq)]
pub enum MemoryHelper {
    ArrayView(ElementKind),
    DataView,
    GetArray(ElementKind),
    PassArray(Width),
    GetString,
    PassString,
    GetValues,
    PassValues,
}

/// A helper that goes by a table of references.
#[derive(Clone, Copy, Debug, PartialEq, Eq)]
pub enum TableHelper {
    Add,
    Get,
    Take,
}

/// A helper that goes by a memory or a table.
#[derive(Clone, Copy, Debug, PartialEq, Eq)]
pub enum Family {
    Memory(MemoryHelper),
    Table(TableHelper),
}

/// How many helpers go by no memory and no table.
pub const SINGLES: usize = 25;

/// How many names they bind.
pub const SINGLE_BINDS: usize = 28;

/// The helpers that go by no memory and no table.
pub const SINGLE: [Single; SINGLES] = [
    Single::Heap(HeapKey::Heap),
    Single::Heap(HeapKey::HeapNext),
    Single::Heap(HeapKey::StackPointer),
    Single::Heap(HeapKey::AddHeapObject),
    Single::Heap(HeapKey::BorrowedObjects),
    Single::Heap(HeapKey::DropRef),
    Single::Heap(HeapKey::GetObject),
    Single::Heap(HeapKey::TakeObject),
    Single::Plain(PlainHelper::AssertBigint),
    Single::Plain(PlainHelper::AssertBool),
    Single::Plain(PlainHelper::AssertClass),
    Single::Plain(PlainHelper::AssertNum),
    Single::Plain(PlainHelper::DebugString),
    Single::Plain(PlainHelper::GetInheritedDescriptor),
    Single::Plain(PlainHelper::IsLikeNone),
    Single::Plain(PlainHelper::LogError),
    Single::Plain(PlainHelper::NotDefined),
    Single::Plain(PlainHelper::PanicError),
    Single::Plain(PlainHelper::TextDecoder),
    Single::Plain(PlainHelper::TextEncoder),
    Single::Plain(PlainHelper::WasmVectorLen),
    Single::Closure(ClosureHelper::ClosureFinalization),
    Single::Closure(ClosureHelper::MakeClosure),
    Single::Closure(ClosureHelper::MakeMutClosure),
    Single::HandleError,
];

/// Their keys.
pub const SINGLE_KEYS: [&str; SINGLES] = [
    "heap",
    "heap_next",
    "stack_pointer",
    "add_heap_object",
    "borrowed_objects",
    "drop_ref",
    "get_object",
    "take_object",
    "assert_bigint",
    "assert_bool",
    "assert_class",
    "assert_num",
    "debug_string",
    "get_inherited_descriptor",
    "is_like_none",
    "log_error",
    "not_defined",
    "panic_error",
    "text_decoder",
    "text_encoder",
    "wasm_vector_len",
    "closure_finalization",
    "make_closure",
    "make_mut_closure",
    "handle_error",
];

/// The place of the text decoder among them.
pub const DECODER: usize = 18;

/// The names that they bind: the first name of each, and then the further names of the text decoder.
pub const SINGLE_NAMES: [&str; SINGLE_BINDS] = [
    "heap",
    "heap_next",
    "stack_pointer",
    "addHeapObject",
    "addBorrowedObject",
    "dropObject",
    "getObject",
    "takeObject",
    "_assertBigInt",
    "_assertBoolean",
    "_assertClass",
    "_assertNum",
    "debugString",
    "GetOwnOrInheritedPropertyDescriptor",
    "isLikeNone",
    "logError",
    "notDefined",
    "PanicError",
    "cachedTextDecoder",
    "cachedTextEncoder",
    "WASM_VECTOR_LEN",
    "CLOSURE_DTORS",
    "makeClosure",
    "makeMutClosure",
    "handleError",
    "decodeText",
    "MAX_SAFARI_DECODE_BYTES",
    "numBytesDecoded",
];

/// How many helpers go by a memory or a table.
pub const FAMILIES: usize = 28;

/// How many names they bind.
pub const FAMILY_BINDS: usize = 37;

/// The helpers that go by a memory or a table.
pub const FAMILY: [Family; FAMILIES] = [
    Family::Memory(MemoryHelper::ArrayView(ElementKind::I8)),
    Family::Memory(MemoryHelper::ArrayView(ElementKind::U8)),
    Family::Memory(MemoryHelper::ArrayView(ElementKind::I16)),
    Family::Memory(MemoryHelper::ArrayView(ElementKind::U16)),
    Family::Memory(MemoryHelper::ArrayView(ElementKind::I32)),
    Family::Memory(MemoryHelper::ArrayView(ElementKind::U32)),
    Family::Memory(MemoryHelper::ArrayView(ElementKind::I64)),
    Family::Memory(MemoryHelper::ArrayView(ElementKind::U64)),
    Family::Memory(MemoryHelper::DataView),
    Family::Memory(MemoryHelper::GetArray(ElementKind::I8)),
    Family::Memory(MemoryHelper::GetArray(ElementKind::U8)),
    Family::Memory(MemoryHelper::GetArray(ElementKind::I16)),
    Family::Memory(MemoryHelper::GetArray(ElementKind::U16)),
    Family::Memory(MemoryHelper::GetArray(ElementKind::I32)),
    Family::Memory(MemoryHelper::GetArray(ElementKind::U32)),
    Family::Memory(MemoryHelper::GetArray(ElementKind::I64)),
    Family::Memory(MemoryHelper::GetArray(ElementKind::U64)),
    Family::Memory(MemoryHelper::PassArray(Width::Bits8)),
    Family::Memory(MemoryHelper::PassArray(Width::Bits16)),
    Family::Memory(MemoryHelper::PassArray(Width::Bits32)),
    Family::Memory(MemoryHelper::PassArray(Width::Bits64)),
    Family::Memory(MemoryHelper::GetString),
    Family::Memory(MemoryHelper::PassString),
    Family::Memory(MemoryHelper::GetValues),
    Family::Memory(MemoryHelper::PassValues),
    Family::Table(TableHelper::Add),
    Family::Table(TableHelper::Get),
    Family::Table(TableHelper::Take),
];

/// The names that they bind, without the place of the memory or table: the own name of each, which is also its key, and then the variables
/// that keep the views, in the order of the views.
pub const FAMILY_NAMES: [&str; FAMILY_BINDS] = [
    "getInt8ArrayMemory",
    "getUint8ArrayMemory",
    "getInt16ArrayMemory",
    "getUint16ArrayMemory",
    "getInt32ArrayMemory",
    "getUint32ArrayMemory",
    "getBigInt64ArrayMemory",
    "getBigUint64ArrayMemory",
    "getDataViewMemory",
    "getArrayI8FromWasm",
    "getArrayU8FromWasm",
    "getArrayI16FromWasm",
    "getArrayU16FromWasm",
    "getArrayI32FromWasm",
    "getArrayU32FromWasm",
    "getArrayI64FromWasm",
    "getArrayU64FromWasm",
    "passArray8ToWasm",
    "passArray16ToWasm",
    "passArray32ToWasm",
    "passArray64ToWasm",
    "getStringFromWasm",
    "passStringToWasm",
    "getArrayJsValueFromWasm",
    "passArrayJsValueToWasm",
    "addToExternrefTable",
    "getFromExternrefTable",
    "takeFromExternrefTable",
    "cachedInt8ArrayMemory",
    "cachedUint8ArrayMemory",
    "cachedInt16ArrayMemory",
    "cachedUint16ArrayMemory",
    "cachedInt32ArrayMemory",
    "cachedUint32ArrayMemory",
    "cachedBigInt64ArrayMemory",
    "cachedBigUint64ArrayMemory",
    "cachedDataViewMemory",
];
