//! Helpers without stand-ins.
ghost use Rattle.std.specs.Prelude.{◌≡◌, IfOk};
ghost use Rattle.glue_helpers.specs.Plain as spec;

use crate::{asserts, errors, objects, strings};
use glue_marked::shipped;
use glue_words::{Item, Role};
use std::alloc::{AllocError, Global};
use values::Text;

/// A helper without stand-ins, in one of its forms.
#[derive(Clone, Copy, Debug, PartialEq, Eq)]
pub enum PlainHelper {
    AssertBigint,
    AssertBool,
    AssertClass,
    AssertNum,
    DebugString,
    GetInheritedDescriptor,
    IsLikeNone,
    LogError,
    NotDefined,
    PanicError,
    /// The decoder on every other target.
    TextDecoder,
    /// The decoder on bundler and web.
    BrowserTextDecoder,
    /// The encoder with its own `encodeInto`.
    TextEncoder,
    /// The encoder with an `encodeInto` of its own or the helper's.
    TestedTextEncoder,
    /// The encoder with the helper's `encodeInto`.
    CopyingTextEncoder,
    WasmVectorLen,
}

// The helper's key, which its forms share.
fn key_of(helper: PlainHelper) -> &'static str
    ensures key { result.now ≡ spec.plain_key helper }
{
    match helper {
        PlainHelper::AssertBigint => "assert_bigint",
        PlainHelper::AssertBool => "assert_bool",
        PlainHelper::AssertClass => "assert_class",
        PlainHelper::AssertNum => "assert_num",
        PlainHelper::DebugString => "debug_string",
        PlainHelper::GetInheritedDescriptor => "get_inherited_descriptor",
        PlainHelper::IsLikeNone => "is_like_none",
        PlainHelper::LogError => "log_error",
        PlainHelper::NotDefined => "not_defined",
        PlainHelper::PanicError => "panic_error",
        PlainHelper::TextDecoder | PlainHelper::BrowserTextDecoder => "text_decoder",
        PlainHelper::TextEncoder
        | PlainHelper::TestedTextEncoder
        | PlainHelper::CopyingTextEncoder => "text_encoder",
        PlainHelper::WasmVectorLen => "wasm_vector_len",
    }
}

// The text of the form.
fn text_of(helper: PlainHelper) -> &'static str
    ensures text { result.now ≡ spec.plain_text helper }
{
    match helper {
        PlainHelper::AssertBigint => asserts::ASSERT_BIGINT,
        PlainHelper::AssertBool => asserts::ASSERT_BOOL,
        PlainHelper::AssertClass => asserts::ASSERT_CLASS,
        PlainHelper::AssertNum => asserts::ASSERT_NUM,
        PlainHelper::DebugString => objects::DEBUG_STRING,
        PlainHelper::GetInheritedDescriptor => objects::GET_INHERITED_DESCRIPTOR,
        PlainHelper::IsLikeNone => asserts::IS_LIKE_NONE,
        PlainHelper::LogError => errors::LOG_ERROR,
        PlainHelper::NotDefined => asserts::NOT_DEFINED,
        PlainHelper::PanicError => errors::PANIC_ERROR,
        PlainHelper::TextDecoder => strings::TEXT_DECODER,
        PlainHelper::BrowserTextDecoder => strings::BROWSER_TEXT_DECODER,
        PlainHelper::TextEncoder => strings::TEXT_ENCODER,
        PlainHelper::TestedTextEncoder => strings::TESTED_TEXT_ENCODER,
        PlainHelper::CopyingTextEncoder => strings::COPYING_TEXT_ENCODER,
        PlainHelper::WasmVectorLen => strings::WASM_VECTOR_LEN,
    }
}

/// The item of the form. The only error is want of memory.
#[tactic(auto, using(crate::proofs::PlainTexts::plain_reads))]
pub fn plain_helper(alloc: Global, helper: PlainHelper) -> Result<Item, AllocError>
    ensures item { IfOk result (λ item. item ≡ spec.plain_item helper) }
{
    let words = shipped(alloc, text_of(helper))?;
    let role = Role::Helper(Text::from_str(alloc, key_of(helper))?);
    Ok(Item { role, words })
}
