//! Instructions, names and expressions.
use crate::leaves::{Kind, Leaf, leaf_fits};
use crate::lists::{each_fits, leaves_fit, miscounted};
use crate::misfit::{Told, at_key, at_place, said_of};
use crate::types::{VECTORS, type_fits};
use crate::words::{lacking, unfit, unknown_key};
use glue_json::Counts;
use serde_json::Value;
use shown_names::shown;
use std::alloc::{AllocError, Global};

// The types of what stands in room on the stack.
const SLOTS: &[&str] = &["i32", "i64"];

// The parts of a text that is written.
const WRITTEN: &[Leaf] = &[
    Leaf::Place(Kind::Func),
    Leaf::PlaceOrNull(Kind::Func),
    Leaf::Place(Kind::Memory),
];

// The parts of a result in room.
const IN_ROOM: &[Leaf] = &[Leaf::Number, Leaf::Word(SLOTS), Leaf::Place(Kind::Memory)];

// The parts of other instructions.
const NUMBER: &[Leaf] = &[Leaf::Number];

const NO_LEAF: &[Leaf] = &[];

const TRUTH: &[Leaf] = &[Leaf::Truth];

const EXPORT: &[Leaf] = &[Leaf::Place(Kind::Export)];

const TEXT: &[Leaf] = &[Leaf::Text];

const CLOSURE: &[Leaf] = &[Leaf::Number, Leaf::Truth];

const MEMORY: &[Leaf] = &[Leaf::Place(Kind::Memory)];

const FREED: &[Leaf] = &[Leaf::Place(Kind::Func), Leaf::Number];

const VECTOR_READ: &[Leaf] = &[Leaf::Word(VECTORS), Leaf::Place(Kind::Memory)];

const VECTOR_WRITTEN: &[Leaf] = &[
    Leaf::Word(VECTORS),
    Leaf::Place(Kind::Func),
    Leaf::Place(Kind::Memory),
];

// The parts of the instruction of this name; none where any may stand.
fn instruction_parts(name: &str) -> Option<&'static [Leaf]> {
    match name {
        "ArgGet" | "CallAdapter" | "Retptr" => Some(NUMBER),
        "Int32ToWasm"
        | "Int64ToWasm"
        | "I32FromBool"
        | "BoolFromI32"
        | "UnwrapResult"
        | "IndexFromOwned"
        | "IndexFromBorrow"
        | "TakeIndex"
        | "GetIndex" => Some(NO_LEAF),
        "WasmToInt32" | "WasmToInt64" => Some(TRUTH),
        "CallExport" => Some(EXPORT),
        "ClassIntoPtr" | "ClassPtr" | "ClassFromPtr" | "EnumIndex" | "EnumText" => { Some(TEXT) }
        "Closure" => Some(CLOSURE),
        "StringToMemory" | "OptionStringToMemory" => Some(WRITTEN),
        "MemoryToString" => Some(MEMORY),
        "DeferFree" => Some(FREED),
        "LoadRetptr" | "StoreRetptr" => Some(IN_ROOM),
        "VecFromWasm" => Some(VECTOR_READ),
        "VecToWasm" => Some(VECTOR_WRITTEN),
        _ => None,
    }
}

// The name that a list begins with, and its parts.
fn headed<'a>(
    alloc: Global,
    value: &'a Value,
    wanted: &str,
) -> Result<(&'a Value, &'a [Value]), Told> {
    match value {
        Value::Array(values) => match values.as_slice() {
            [head, parts @ ..] => Ok((head, parts)),
            [] => Err(unfit(alloc, value, wanted)),
        },
        _ => Err(unfit(alloc, value, wanted)),
    }
}

/// That the value is an instruction.
pub(crate) fn instruction_fits(
    alloc: Global,
    counts: Option<&Counts>,
    value: &Value,
) -> Result<(), Told> {
    let (head, parts) = headed(
        alloc,
        value,
        "an instruction: a list of its name and its parts",
    )?;
    let Value::String(name) = head else {
        let found = unfit(alloc, head, "the name of an instruction");
        return at_place(alloc, 0, Err(found));
    };
    match instruction_parts(name.as_str()) {
        Some(leaves) => leaves_fit(alloc, counts, leaves, 1, parts),
        None => Ok(()),
    }
}

// The keys of a name, by the first of them that says what kind of name it is.
fn name_keys(value: &Value) -> &'static [&'static str] {
    if value.get("global").is_some() {
        return &["global", "fields"];
    }
    if value.get("module").is_some() {
        return &["module", "name", "fields"];
    }
    if value.get("local").is_some() {
        return &["local", "name", "fields"];
    }
    if value.get("inline").is_some() {
        return &["inline", "index", "name", "fields"];
    }
    &["vendor", "prefixes", "fields"]
}

// That the value of a name's key fits.
fn name_part_fits(alloc: Global, object: &Value, key: &str) -> Result<(), Told> {
    let value = object.get(key);
    match (key, value) {
        ("fields" | "prefixes", None) => Ok(()),
        ("fields" | "prefixes", Some(value)) => {
            at_key(alloc, key, each_fits(alloc, None, Leaf::Text, value))
        }
        (_, None) => Err(lacking(alloc, key)),
        ("index", Some(value)) => at_key(alloc, key, leaf_fits(alloc, None, Leaf::Number, value)),
        (_, Some(value)) => at_key(alloc, key, leaf_fits(alloc, None, Leaf::Text, value)),
    }
}

/// That an object has no key beside these.
pub(crate) fn keys_fit(
    alloc: Global,
    value: &Value,
    keys: &[&str],
    wanted: &str,
) -> Result<(), Told> {
    let Value::Object(members) = value else {
        return Err(unfit(alloc, value, wanted));
    };
    for (key, _) in members.iter() {
        if !(&*keys).contains(&key.as_str()) {
            return Err(unknown_key(alloc, key.as_str(), keys));
        }
    }
    Ok(())
}

const NAME: &str =
    "a name: an object with one of the keys `global`, `module`, `local`, `inline`, `vendor`";

/// That the value is a name of JavaScript.
pub(crate) fn name_fits(alloc: Global, value: &Value) -> Result<(), Told> {
    let keys = name_keys(value);
    keys_fit(alloc, value, keys, NAME)?;
    for key in keys {
        name_part_fits(alloc, value, key)?;
    }
    Ok(())
}

/// A part of an expression.
#[derive(Clone, Copy)]
enum Part {
    Name,
    Leaf(Leaf),
}

// The operations that the glue file carries out itself.
const INTRINSICS: &[&str] = &[
    "Add",
    "BigIntGetAsI64",
    "BitAnd",
    "BitNot",
    "BitOr",
    "BitXor",
    "BooleanGet",
    "CheckedDiv",
    "CopyToTypedArray",
    "DebugString",
    "Div",
    "Exports",
    "ExternrefHeapLiveCount",
    "FunctionTable",
    "GE",
    "GT",
    "In",
    "InitExternrefTable",
    "Instance",
    "IsBigInt",
    "IsFalsy",
    "IsFunction",
    "IsNull",
    "IsNullOrUndefined",
    "IsObject",
    "IsString",
    "IsSymbol",
    "IsUndefined",
    "JsvalEq",
    "JsvalLooseEq",
    "LE",
    "LT",
    "Memory",
    "Module",
    "Mul",
    "Neg",
    "NumberGet",
    "ObjectCloneRef",
    "ObjectDropRef",
    "PanicError",
    "Pow",
    "Reinit",
    "Rem",
    "Rethrow",
    "Shl",
    "Shr",
    "StringFromUtf8Lossy",
    "StringGet",
    "Sub",
    "Throw",
    "TryIntoNumber",
    "Typeof",
    "UnsignedShr",
];

// The parts of other expressions.
const NAME_ALONE: &[Part] = &[Part::Name];

const NAME_AND_TEXT: &[Part] = &[Part::Name, Part::Leaf(Leaf::Text)];

const NAME_AND_TRUTH: &[Part] = &[Part::Name, Part::Leaf(Leaf::Truth)];

const TEXT_ALONE: &[Part] = &[Part::Leaf(Leaf::Text)];

const NO_PART: &[Part] = &[];

const LINK: &[Part] = &[Part::Leaf(Leaf::Text), Part::Leaf(Leaf::TextOrNull)];

// The part of an operation that the glue file carries out itself.
const INTRINSIC: &[Part] = &[Part::Leaf(Leaf::Word(INTRINSICS))];

// The parts of the expression of this kind; none where there is no such kind.
fn expression_parts(name: &str) -> Option<&'static [Part]> {
    match name {
        "Bare"
        | "Instanceof"
        | "IndexingGetterOfClass"
        | "IndexingSetterOfClass"
        | "IndexingDeleterOfClass" => Some(NAME_ALONE),
        "Getter"
        | "ClassGetter"
        | "Setter"
        | "ClassSetter"
        | "ValueWithThis"
        | "StructuralClassGetter"
        | "StructuralClassSetter" => Some(NAME_AND_TEXT),
        "Static" => Some(NAME_AND_TRUTH),
        "String"
        | "Cast"
        | "WrapInExportedClass"
        | "UnwrapExportedClass"
        | "StructuralMethod"
        | "StructuralGetter"
        | "StructuralSetter" => Some(TEXT_ALONE),
        "IndexingGetterOfObject" | "IndexingSetterOfObject" | "IndexingDeleterOfObject" => {
            Some(NO_PART)
        }
        "LinkTo" => Some(LINK),
        "Intrinsic" => Some(INTRINSIC),
        _ => None,
    }
}

fn part_fits(alloc: Global, part: Part, value: &Value) -> Result<(), Told> {
    match part {
        Part::Name => name_fits(alloc, value),
        Part::Leaf(leaf) => leaf_fits(alloc, None, leaf, value),
    }
}

// That the parts of an expression fit.
fn parts_fit(alloc: Global, parts: &[Part], values: &[Value]) -> Result<(), Told> {
    if values.len() != parts.len() {
        let found = values.len().saturating_add(1);
        let wanted = parts.len().saturating_add(1);
        return Err(miscounted(alloc, found, wanted));
    }
    let mut place = 1usize;
    for (part, value) in parts.iter().zip(values) {
        at_place(alloc, place, part_fits(alloc, *part, value))?;
        place = place.saturating_add(1);
    }
    Ok(())
}

fn unknown_kind_words(alloc: Global, name: &str) -> Result<String, AllocError> {
    let name = shown(alloc, name)?;
    let name = name.as_str();
    format!(in alloc; " is {name}, which is no kind of expression.")
}

fn unknown_kind(alloc: Global, name: &str) -> Told {
    match unknown_kind_words(alloc, name) {
        Ok(words) => said_of(alloc, words),
        Err(_) => Told::OutOfMemory,
    }
}

/// That the value is an expression.
pub(crate) fn expression_fits(alloc: Global, value: &Value) -> Result<(), Told> {
    let (head, values) = headed(
        alloc,
        value,
        "an expression: a list of its kind and its parts",
    )?;
    let Value::String(name) = head else {
        let found = unfit(alloc, head, "the kind of an expression");
        return at_place(alloc, 0, Err(found));
    };
    match expression_parts(name.as_str()) {
        Some(parts) => parts_fit(alloc, parts, values),
        None => at_place(alloc, 0, Err(unknown_kind(alloc, name.as_str()))),
    }
}

/// That the value is a variant of a union: an object with the key `literal`, or a type.
pub(crate) fn union_variant_fits(alloc: Global, value: &Value) -> Result<(), Told> {
    let Some(literal) = value.get("literal") else {
        return type_fits(alloc, value);
    };
    keys_fit(alloc, value, &["literal"], "an object")?;
    at_key(
        alloc,
        "literal",
        leaf_fits(alloc, None, Leaf::Text, literal),
    )
}
