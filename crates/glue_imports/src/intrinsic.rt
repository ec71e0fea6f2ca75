//! The expressions of intrinsics.
ghost use Rattle.std.specs.Prelude.{◌≡◌, ◌∷◌, [], false, is_some, IfOk, option_map};
ghost use Rattle.glue_imports.specs.declared.part.Part.TheVariants as p;
ghost use Rattle.glue_imports.specs.Expressions as exprs;
ghost use Rattle.glue_imports.specs.Given as given;
ghost use Rattle.glue_imports.specs.Intrinsics as spec;

use crate::part::Part;
use glue_shared::{Intrinsic, Target};
use glue_words::{key, punct};
use std::alloc::{AllocError, Global};
use values::{Seq, Text};

// The operator that stands between two operands.
fn between_operator(intrinsic: Intrinsic) -> Option<u8>
    ensures operator { result ≡ spec.between_operator intrinsic }
{
    match intrinsic {
        Intrinsic::JsvalEq => Some(punct::EQUAL),
        Intrinsic::JsvalLooseEq => Some(punct::LOOSE_EQUAL),
        Intrinsic::BitAnd => Some(punct::BIT_AND),
        Intrinsic::BitOr => Some(punct::BIT_OR),
        Intrinsic::BitXor => Some(punct::BIT_XOR),
        Intrinsic::Shl => Some(punct::SHIFT_LEFT),
        Intrinsic::Shr => Some(punct::SHIFT_RIGHT),
        Intrinsic::UnsignedShr => Some(punct::SHIFT_RIGHT_UNSIGNED),
        Intrinsic::Add => Some(punct::PLUS),
        Intrinsic::Sub => Some(punct::MINUS),
        Intrinsic::Div => Some(punct::DIVIDE),
        Intrinsic::Mul => Some(punct::TIMES),
        Intrinsic::Rem => Some(punct::REMAINDER),
        Intrinsic::Pow => Some(punct::POWER),
        Intrinsic::LT => Some(punct::LESS),
        Intrinsic::LE => Some(punct::AT_MOST),
        Intrinsic::GE => Some(punct::AT_LEAST),
        Intrinsic::GT => Some(punct::GREATER),
        _ => None,
    }
}

// The operator that stands before one operand.
fn front_operator(intrinsic: Intrinsic) -> Option<u8>
    ensures operator { result ≡ spec.front_operator intrinsic }
{
    match intrinsic {
        Intrinsic::IsFalsy => Some(punct::NOT),
        Intrinsic::Neg => Some(punct::MINUS),
        Intrinsic::BitNot => Some(punct::BIT_NOT),
        _ => None,
    }
}

// The type that the operator `typeof` is to give of one operand.
fn tested_type(alloc: Global, intrinsic: Intrinsic) -> Result<Option<Text>, AllocError>
    ensures name { IfOk result (λ name. name ≡ spec.tested_type intrinsic) }
{
    match intrinsic {
        Intrinsic::IsFunction => Ok(Some(Text::from_str(alloc, "function")?)),
        Intrinsic::IsSymbol => Ok(Some(Text::from_str(alloc, "symbol")?)),
        Intrinsic::IsString => Ok(Some(Text::from_str(alloc, "string")?)),
        Intrinsic::IsBigInt => Ok(Some(Text::from_str(alloc, "bigint")?)),
        _ => Ok(None),
    }
}

// `a op b`
fn between(alloc: Global, op: u8) -> Result<Seq<Part>, AllocError>
    ensures parts { IfOk result (λ parts. parts ≡ spec.between op) }
{
    compared(alloc, op, Part::Operand(1))
}

// `op a`, without a space
fn before_one(alloc: Global, op: u8) -> Result<Seq<Part>, AllocError>
    ensures parts { IfOk result (λ parts. parts ≡ spec.before_one op) }
{
    let parts = vec![in alloc; Part::Punct(op), Part::Operand(0)]?;
    Ok(Seq::from_vec(parts))
}

// `typeof(a) === "type"`
fn type_test(alloc: Global, name: Text) -> Result<Seq<Part>, AllocError>
    ensures parts { IfOk result (λ parts. parts ≡ spec.type_test name) }
{
    let parts = vec![in alloc;
        Part::Key(key::TYPEOF),
        Part::Punct(punct::OPEN_PAREN),
        Part::Whole(0),
        Part::Punct(punct::CLOSE_PAREN),
        Part::Space,
        Part::Punct(punct::EQUAL),
        Part::Space,
        Part::Literal(name),
    ]?;
    Ok(Seq::from_vec(parts))
}

// `a op ` before what it is compared with
fn compared(alloc: Global, op: u8, other: Part) -> Result<Seq<Part>, AllocError>
    ensures parts { IfOk result (λ parts. parts ≡ spec.compared op other) }
{
    let parts = vec![in alloc;
        Part::Operand(0),
        Part::Space,
        Part::Punct(op),
        Part::Space,
        other,
    ]?;
    Ok(Seq::from_vec(parts))
}

/// A name of the host, without a property.
pub fn host(alloc: Global, name: &str) -> Result<Part, AllocError>
    ensures part { IfOk result (λ part. part ≡ spec.host name.now) }
{
    Ok(Part::Host(Text::from_str(alloc, name)?, Seq::new(alloc)))
}

// A property by its name.
fn property(alloc: Global, name: &str) -> Result<Part, AllocError>
    ensures part { IfOk result (λ part. part ≡ p.Property name.now) }
{
    Ok(Part::Property(Text::from_str(alloc, name)?))
}

// One part by itself.
fn one(alloc: Global, part: Part) -> Result<Seq<Part>, AllocError>
    ensures parts { IfOk result (λ parts. parts ≡ part ∷ []) }
{
    Ok(Seq::from_vec(vec![in alloc; part]?))
}

/// An operand by itself: as it is on the right side of `=`.
pub fn same(alloc: Global, bound: bool) -> Result<Seq<Part>, AllocError>
    ensures parts { IfOk result (λ parts. parts ≡ spec.same bound) }
{
    one(
        alloc,
        if bound {
            Part::Whole(0)
        } else {
            Part::Operand(0)
        },
    )
}

// `new Uint8Array(b.buffer, b.byteOffset, b.byteLength).set(a)`
fn copy_to_array(alloc: Global) -> Result<Seq<Part>, AllocError>
    ensures parts { IfOk result (λ parts. parts ≡ spec.copy_to_array) }
{
    let parts = vec![in alloc;
        Part::Key(key::NEW),
        Part::Space,
        host(alloc, "Uint8Array")?,
        Part::Punct(punct::OPEN_PAREN),
        Part::Operand(1),
        property(alloc, "buffer")?,
        Part::Punct(punct::COMMA),
        Part::Space,
        Part::Operand(1),
        property(alloc, "byteOffset")?,
        Part::Punct(punct::COMMA),
        Part::Space,
        Part::Operand(1),
        property(alloc, "byteLength")?,
        Part::Punct(punct::CLOSE_PAREN),
        property(alloc, "set")?,
        Part::Punct(punct::OPEN_PAREN),
        Part::Whole(0),
        Part::Punct(punct::CLOSE_PAREN),
    ]?;
    Ok(Seq::from_vec(parts))
}

// `debugString(a)`
fn debug_text(alloc: Global) -> Result<Seq<Part>, AllocError>
    ensures parts { IfOk result (λ parts. parts ≡ spec.debug_text) }
{
    let parts = vec![in alloc;
        Part::Name(Text::from_str(alloc, "debugString")?),
        Part::Punct(punct::OPEN_PAREN),
        Part::Whole(0),
        Part::Punct(punct::CLOSE_PAREN),
    ]?;
    Ok(Seq::from_vec(parts))
}

// `decodeText(a)`
fn decoded_text(alloc: Global) -> Result<Seq<Part>, AllocError>
    ensures parts { IfOk result (λ parts. parts ≡ spec.decoded_text) }
{
    let parts = vec![in alloc;
        Part::Name(Text::from_str(alloc, "decodeText")?),
        Part::Punct(punct::OPEN_PAREN),
        Part::Whole(0),
        Part::Punct(punct::CLOSE_PAREN),
    ]?;
    Ok(Seq::from_vec(parts))
}

// `new PanicError(a)`
fn panic_error(alloc: Global) -> Result<Seq<Part>, AllocError>
    ensures parts { IfOk result (λ parts. parts ≡ spec.panic_error) }
{
    let parts = vec![in alloc;
        Part::Key(key::NEW),
        Part::Space,
        Part::Name(Text::from_str(alloc, "PanicError")?),
        Part::Punct(punct::OPEN_PAREN),
        Part::Whole(0),
        Part::Punct(punct::CLOSE_PAREN),
    ]?;
    Ok(Seq::from_vec(parts))
}

// `throw new Error(a)`
fn thrown_error(alloc: Global) -> Result<Seq<Part>, AllocError>
    ensures parts { IfOk result (λ parts. parts ≡ spec.thrown_error) }
{
    let parts = vec![in alloc;
        Part::Key(key::THROW),
        Part::Space,
        Part::Key(key::NEW),
        Part::Space,
        host(alloc, "Error")?,
        Part::Punct(punct::OPEN_PAREN),
        Part::Whole(0),
        Part::Punct(punct::CLOSE_PAREN),
    ]?;
    Ok(Seq::from_vec(parts))
}

// `keyword a`
fn keyword_before(alloc: Global, keyword: u8) -> Result<Seq<Part>, AllocError>
    ensures parts { IfOk result (λ parts. parts ≡ p.Key keyword ∷ p.Space ∷ p.Operand 0 ∷ []) }
{
    let parts = vec![in alloc; Part::Key(keyword), Part::Space, Part::Operand(0)]?;
    Ok(Seq::from_vec(parts))
}

// `a keyword b`
fn keyword_between(alloc: Global, keyword: u8) -> Result<Seq<Part>, AllocError>
    ensures parts { IfOk result (λ parts. parts ≡ p.Operand 0 ∷ p.Space ∷ p.Key keyword ∷ p.Space ∷ p.Operand 1 ∷ []) }
{
    let parts = vec![in alloc;
        Part::Operand(0),
        Part::Space,
        Part::Key(keyword),
        Part::Space,
        Part::Operand(1),
    ]?;
    Ok(Seq::from_vec(parts))
}

// The expressions of other intrinsics.
fn other_intrinsic(
    alloc: Global,
    bound: bool,
    intrinsic: Intrinsic,
) -> Result<Option<Seq<Part>>, AllocError>
    ensures parts { IfOk result (λ parts. parts ≡ spec.other_intrinsic bound intrinsic) }
{
    let parts = match intrinsic {
        Intrinsic::IsUndefined => compared(alloc, punct::EQUAL, host(alloc, "undefined")?)?,
        Intrinsic::IsNull => compared(alloc, punct::EQUAL, Part::Key(key::NULL))?,
        Intrinsic::IsNullOrUndefined => compared(alloc, punct::LOOSE_EQUAL, Part::Key(key::NULL))?,
        Intrinsic::Typeof => keyword_before(alloc, key::TYPEOF)?,
        Intrinsic::InOperator => keyword_between(alloc, key::IN)?,
        Intrinsic::ObjectCloneRef | Intrinsic::ObjectDropRef => same(alloc, bound)?,
        Intrinsic::Exports => one(alloc, Part::Exports)?,
        Intrinsic::Reinit => one(alloc, host(alloc, "undefined")?)?,
        Intrinsic::CopyToTypedArray => copy_to_array(alloc)?,
        Intrinsic::DebugString => debug_text(alloc)?,
        Intrinsic::StringFromUtf8Lossy => decoded_text(alloc)?,
        Intrinsic::PanicError => panic_error(alloc)?,
        Intrinsic::Throw => thrown_error(alloc)?,
        Intrinsic::Rethrow => keyword_before(alloc, key::THROW)?,
        _ => return Ok(None),
    };
    Ok(Some(parts))
}

// The expression of an intrinsic that tests a type, or of another one.
fn tested_or_other(
    alloc: Global,
    bound: bool,
    intrinsic: Intrinsic,
) -> Result<Option<Seq<Part>>, AllocError>
    ensures parts { IfOk result (λ parts. parts ≡ spec.or_else (option_map spec.type_test (spec.tested_type intrinsic)) (spec.other_intrinsic bound intrinsic)) }
{
    match tested_type(alloc, intrinsic)? {
        Some(name) => Ok(Some(type_test(alloc, name)?)),
        None => other_intrinsic(alloc, bound, intrinsic),
    }
}

/// The expression of an intrinsic, where it has one here.
pub fn intrinsic_parts(
    alloc: Global,
    bound: bool,
    intrinsic: Intrinsic,
) -> Result<Option<Seq<Part>>, AllocError>
    ensures parts { IfOk result (λ parts. parts ≡ spec.intrinsic_parts bound intrinsic) }
{
    match (between_operator(intrinsic), front_operator(intrinsic)) {
        (Some(op), _) => Ok(Some(between(alloc, op)?)),
        (None, Some(op)) => Ok(Some(before_one(alloc, op)?)),
        (None, None) => tested_or_other(alloc, bound, intrinsic),
    }
}

// Whether the glue file has the name `wasmModule`.
fn declares_module(target: &Target) -> bool
    ensures test { result ≡ spec.declares_module target.now }
{
    matches!(
        target,
        Target::Web | Target::NoModules { .. } | Target::Node { .. } | Target::Module
    )
}

// Whether the glue file has the name `wasmInstance`.
fn declares_instance(target: &Target) -> bool
    ensures test { result ≡ spec.declares_instance target.now }
{
    matches!(
        target,
        Target::Web | Target::NoModules { .. } | Target::Node { .. } | Target::Deno | Target::Module
    )
}

// A name, where the file has it.
fn name_if(alloc: Global, declared: bool, name: &str) -> Result<Option<Text>, AllocError>
    ensures name { IfOk result (λ found. found ≡ spec.name_if declared name.now) }
{
    if declared {
        Ok(Some(Text::from_str(alloc, name)?))
    } else {
        Ok(None)
    }
}

/// The name that the glue file has for the value of an intrinsic, where it has one.
pub fn loaded_name(
    alloc: Global,
    target: &Target,
    intrinsic: Intrinsic,
) -> Result<Option<Text>, AllocError>
    ensures name { IfOk result (λ name. name ≡ spec.loaded_name target.now intrinsic) }
{
    match intrinsic {
        Intrinsic::Module => name_if(alloc, declares_module(target), "wasmModule"),
        Intrinsic::Instance => name_if(alloc, declares_instance(target), "wasmInstance"),
        _ => Ok(None),
    }
}

/// Whether the glue file has a name for the value of an intrinsic on other targets, and not on this one.
pub fn lacks_value(target: &Target, intrinsic: Intrinsic) -> bool
    ensures test { result ≡ spec.lacks_value target.now intrinsic }
{
    match intrinsic {
        Intrinsic::Module => !declares_module(target),
        Intrinsic::Instance => !declares_instance(target),
        _ => false,
    }
}

/// Whether an intrinsic has an expression on a target, where the setting `externref` has this value.
pub fn has_parts(target: &Target, externref: bool, intrinsic: Intrinsic) -> bool
    ensures test { result ≡ is_some (exprs.intrinsic_expression target.now externref given.nothing_given false intrinsic) }
{
    match intrinsic {
        Intrinsic::ExternrefHeapLiveCount => !externref,
        Intrinsic::InitExternrefTable => externref,
        Intrinsic::Instance => declares_instance(target),
        Intrinsic::Module => declares_module(target),
        _ => true,
    }
}
