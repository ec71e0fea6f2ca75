//! The kinds of values on a stack, and those of types.
ghost use Rattle.std.specs.Prelude.{◌≡◌, IfOk, map};
ghost use Rattle.std.specs.Option.{option_copied};
ghost use Rattle.glue_adapters.specs.Stack as spec;

use glue_shared::AdapterType;
use std::alloc::{AllocError, Global};
use values::Seq;
use wasm_core::ValType;

/// The kind of a value on the stack.
#[derive(Clone, Copy)]
pub enum Kind {
    I32,
    I64,
    /// A JavaScript value.
    Js,
}

// Whether both are one kind.
fn is_same(a: Kind, b: Kind) -> bool
    ensures test { result ≡ spec.same_kind a b }
{
    match a {
        Kind::I32 => matches!(b, Kind::I32),
        Kind::I64 => matches!(b, Kind::I64),
        Kind::Js => matches!(b, Kind::Js),
    }
}

/// Whether both lists have the same kinds in the same order.
pub(crate) fn are_same(a: &[Kind], b: &[Kind]) -> bool
    ensures test { result ≡ spec.same_kinds a.now b.now }
{
    let mut left = a;
    let mut right = b;
    'comparing: while let Some((x, xs)) = left.split_first() {
        match right.split_first() {
            None => return false,
            Some((y, ys)) => {
                if !is_same(*x, *y) {
                    return false;
                }
                left = xs;
                right = ys;
            }
        }
    }
    right.is_empty()
}

// The kind of a WebAssembly type, where JavaScript can pass it.
fn kind_of(ty: ValType) -> Option<Kind>
    ensures kind { result ≡ spec.kind_of ty }
{
    match ty {
        ValType::I32 => Some(Kind::I32),
        ValType::I64 => Some(Kind::I64),
        ValType::ExternRef => Some(Kind::Js),
        _ => None,
    }
}

// The kind of a result that is passed in room.
pub(crate) fn number_kind(ty: ValType) -> Option<Kind>
    ensures kind { result ≡ spec.number_kind ty }
{
    match ty {
        ValType::I32 => Some(Kind::I32),
        ValType::I64 => Some(Kind::I64),
        _ => None,
    }
}

/// The kinds of WebAssembly types, where JavaScript can pass each. Want of memory is the only error.
pub fn kinds_of(alloc: Global, types: &[ValType]) -> Result<Option<Seq<Kind>>, AllocError>
    ensures kinds { IfOk result (λ kinds. kinds ≡ spec.kinds_of types.now) }
{
    let mut kinds = Seq::new(alloc);
    for ty in types {
        match kind_of(*ty) {
            None => return Ok(None),
            Some(kind) => kinds.push(kind)?,
        }
    }
    Ok(Some(kinds))
}

// The kind that an import adapter takes for an argument of a type.
fn argument_kind(ty: &AdapterType) -> Kind
    ensures kind { result ≡ spec.argument_kind ty.now }
{
    match ty {
        AdapterType::I32 => Kind::I32,
        AdapterType::I64 => Kind::I64,
        _ => Kind::Js,
    }
}

/// The kinds that an import adapter takes for arguments of these types. Want of memory is the only error.
pub(crate) fn argument_kinds(alloc: Global, types: &[AdapterType]) -> Result<Vec<Kind>, AllocError>
    ensures kinds { IfOk result (λ kinds. kinds.items ≡ map spec.argument_kind types.now) }
{
    types.iter().map(|ty| argument_kind(ty)).collect(alloc)
}

/// A JavaScript value for each of the types. Want of memory is the only error.
pub fn js_kinds(alloc: Global, types: &[AdapterType]) -> Result<Vec<Kind>, AllocError>
    ensures kinds { IfOk result (λ kinds. kinds.items ≡ spec.js_kinds types.now) }
{
    types.iter().map(|_ty| Kind::Js).collect(alloc)
}

/// The kinds of the parameters of a closure's adapter: the two numbers that a closure holds, and a JavaScript value for each of the others.
/// Want of memory is the only error.
pub fn closure_kinds(alloc: Global, types: &[AdapterType]) -> Result<Vec<Kind>, AllocError>
    ensures kinds { IfOk result (λ kinds. kinds.items ≡ spec.closure_kinds types.now) }
{
    let Some((_, later)) = types.split_first() else {
        return Ok(Vec::new(alloc));
    };
    let Some((_, others)) = later.split_first() else {
        return Vec::from_slice(alloc, &[Kind::I32]);
    };
    let mut kinds = Vec::from_slice(alloc, &[Kind::I32, Kind::I32])?;
    kinds.extend_from_slice(js_kinds(alloc, others)?.as_slice())?;
    Ok(kinds)
}
