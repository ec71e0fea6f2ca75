//! The text of a type.
ghost use Rattle.std.specs.Prelude.{◌≡◌, ◌++◌, IfOk};
ghost use Rattle.type_texts.specs.TypeTexts as spec;

use glue_shared::{AdapterType, NameMap, VectorKind};
use std::alloc::{AllocError, Global};
use values::{Duplicate, Map, Text};

// The name that a qualified name was given, or itself.
fn identifier(alloc: Global, given: &Map<Text, Text>, qualified: &Text) -> Result<Text, AllocError>
    ensures name { IfOk result (λ name. name ≡ spec.identifier given.now qualified.now) }
{
    match given.get(qualified) {
        Some(name) => name.copy(alloc),
        None => qualified.copy(alloc),
    }
}

// A typed array of this name, with its buffer's type where that is told.
fn array_text(alloc: Global, buffers: bool, name: &str) -> Result<Text, AllocError>
    ensures text { IfOk result (λ text. text ≡ name.now ++ spec.buffer_text buffers) }
{
    let mut text = Text::from_str(alloc, name)?;
    match buffers {
        true => {
            text.push_str("<ArrayBuffer>")?;
            Ok(text)
        }
        false => Ok(text),
    }
}

// The array of these elements.
fn vector_text(alloc: Global, buffers: bool, kind: VectorKind) -> Result<Text, AllocError>
    ensures text { IfOk result (λ text. text ≡ spec.vector_text buffers kind) }
{
    match kind {
        VectorKind::I8 => array_text(alloc, buffers, "Int8Array"),
        VectorKind::U8 => array_text(alloc, buffers, "Uint8Array"),
        VectorKind::I16 => array_text(alloc, buffers, "Int16Array"),
        VectorKind::U16 => array_text(alloc, buffers, "Uint16Array"),
        VectorKind::I32 => array_text(alloc, buffers, "Int32Array"),
        VectorKind::U32 => array_text(alloc, buffers, "Uint32Array"),
        VectorKind::I64 => array_text(alloc, buffers, "BigInt64Array"),
        VectorKind::U64 => array_text(alloc, buffers, "BigUint64Array"),
        VectorKind::Value => Text::from_str(alloc, "any[]"),
    }
}

/// The TypeScript text of a type, where these names are given to classes and enums. Typed arrays tell the type of their buffers where `buffers` is true.
/// A class or an enum that was given no name goes by its qualified name. Want of memory is the only error.
pub fn type_text(
    alloc: Global,
    buffers: bool,
    names: &NameMap,
    ty: &AdapterType,
) -> Result<Text, AllocError>
    ensures text { IfOk result (λ text. text ≡ spec.type_text buffers names.now ty.now) }
{
    match ty {
        AdapterType::I32 | AdapterType::S32 | AdapterType::U32 => Text::from_str(alloc, "number"),
        AdapterType::I64 | AdapterType::S64 | AdapterType::U64 => Text::from_str(alloc, "bigint"),
        AdapterType::Bool => Text::from_str(alloc, "boolean"),
        AdapterType::String => Text::from_str(alloc, "string"),
        AdapterType::Externref => Text::from_str(alloc, "any"),
        AdapterType::Class(name) => identifier(alloc, &names.classes, name),
        AdapterType::Enum(name) => identifier(alloc, &names.enums, name),
        AdapterType::StringEnum(name) | AdapterType::Union(name) => name.copy(alloc),
        AdapterType::Vector(kind) => vector_text(alloc, buffers, *kind),
        AdapterType::Option(inner) => {
            let mut text = type_text(alloc, buffers, names, inner.get())?;
            text.push_str(" | undefined")?;
            Ok(text)
        }
    }
}
