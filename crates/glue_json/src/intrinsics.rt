//! Reading the names of what the glue file carries out itself.
ghost use Rattle.std.specs.Prelude.{◌≡◌, None, Some};
ghost use Rattle.glue_json.specs.Imports as spec;

use crate::counts::Counts;
use crate::reads::{LowerFault, Reads};
use glue_shared::Intrinsic;
use serde_json::Value;
use std::alloc::Global;

// The operations from `NumberGet` on.
fn later_intrinsic(name: &str) -> Option<Intrinsic>
    ensures named { result ≡ spec.later_intrinsic name.now }
{
    match name {
        "NumberGet" => Some(Intrinsic::NumberGet),
        "ObjectCloneRef" => Some(Intrinsic::ObjectCloneRef),
        "ObjectDropRef" => Some(Intrinsic::ObjectDropRef),
        "PanicError" => Some(Intrinsic::PanicError),
        "Pow" => Some(Intrinsic::Pow),
        "Reinit" => Some(Intrinsic::Reinit),
        "Rem" => Some(Intrinsic::Rem),
        "Rethrow" => Some(Intrinsic::Rethrow),
        "Shl" => Some(Intrinsic::Shl),
        "Shr" => Some(Intrinsic::Shr),
        "StringFromUtf8Lossy" => Some(Intrinsic::StringFromUtf8Lossy),
        "StringGet" => Some(Intrinsic::StringGet),
        "Sub" => Some(Intrinsic::Sub),
        "Throw" => Some(Intrinsic::Throw),
        "TryIntoNumber" => Some(Intrinsic::TryIntoNumber),
        "Typeof" => Some(Intrinsic::Typeof),
        "UnsignedShr" => Some(Intrinsic::UnsignedShr),
        _ => None,
    }
}

// The operations from `Instance` on.
fn middle_intrinsic(name: &str) -> Option<Intrinsic>
    ensures named { result ≡ spec.middle_intrinsic name.now }
{
    match name {
        "Instance" => Some(Intrinsic::Instance),
        "IsBigInt" => Some(Intrinsic::IsBigInt),
        "IsFalsy" => Some(Intrinsic::IsFalsy),
        "IsFunction" => Some(Intrinsic::IsFunction),
        "IsNull" => Some(Intrinsic::IsNull),
        "IsNullOrUndefined" => Some(Intrinsic::IsNullOrUndefined),
        "IsObject" => Some(Intrinsic::IsObject),
        "IsString" => Some(Intrinsic::IsString),
        "IsSymbol" => Some(Intrinsic::IsSymbol),
        "IsUndefined" => Some(Intrinsic::IsUndefined),
        "JsvalEq" => Some(Intrinsic::JsvalEq),
        "JsvalLooseEq" => Some(Intrinsic::JsvalLooseEq),
        "LE" => Some(Intrinsic::LE),
        "LT" => Some(Intrinsic::LT),
        "Memory" => Some(Intrinsic::Memory),
        "Module" => Some(Intrinsic::Module),
        "Mul" => Some(Intrinsic::Mul),
        "Neg" => Some(Intrinsic::Neg),
        _ => later_intrinsic(name),
    }
}

// An operation by its name.
fn intrinsic_named(name: &str) -> Option<Intrinsic>
    ensures named { result ≡ spec.intrinsic_named name.now }
{
    match name {
        "Add" => Some(Intrinsic::Add),
        "BigIntGetAsI64" => Some(Intrinsic::BigIntGetAsI64),
        "BitAnd" => Some(Intrinsic::BitAnd),
        "BitNot" => Some(Intrinsic::BitNot),
        "BitOr" => Some(Intrinsic::BitOr),
        "BitXor" => Some(Intrinsic::BitXor),
        "BooleanGet" => Some(Intrinsic::BooleanGet),
        "CheckedDiv" => Some(Intrinsic::CheckedDiv),
        "CopyToTypedArray" => Some(Intrinsic::CopyToTypedArray),
        "DebugString" => Some(Intrinsic::DebugString),
        "Div" => Some(Intrinsic::Div),
        "Exports" => Some(Intrinsic::Exports),
        "ExternrefHeapLiveCount" => Some(Intrinsic::ExternrefHeapLiveCount),
        "FunctionTable" => Some(Intrinsic::FunctionTable),
        "GE" => Some(Intrinsic::GE),
        "GT" => Some(Intrinsic::GT),
        "In" => Some(Intrinsic::InOperator),
        "InitExternrefTable" => Some(Intrinsic::InitExternrefTable),
        _ => middle_intrinsic(name),
    }
}

impl Reads for Intrinsic {
    ghost reads = { λ _ d. spec.intrinsic_of d };

    fn read(_: Global, _: &Counts, value: &Value) -> Result<Self, LowerFault> {
        match value.as_str() {
            Some(name) => intrinsic_named(name).ok_or(LowerFault::Failed),
            None => Err(LowerFault::Failed),
        }
    }
}
