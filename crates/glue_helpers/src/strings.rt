//! The texts of helpers that pass strings through a memory, encoded as UTF-8.
//!
//! Stand-ins: `$name` for the helper's own name, which ends with the memory's place; `$view` for the helper that gives
//! the memory's view of bytes.

ghost use Rattle.std.specs.Prelude.{◌≡◌, IfOk, is_ok, true};
ghost use Rattle.glue_marked.specs.Marked.{read_marked};
ghost use Rattle.glue_helpers.specs.Strings as spec;

use crate::element::ElementKind;
use crate::naming::{array_view_name, named_item, numbered_text};
use glue_words::Item;
use std::alloc::{AllocError, Global};
use values::{Duplicate, Text};

/// The decoder on every target but bundler and web, with `decodeText(bytes)`, which makes a string of bytes.
pub const TEXT_DECODER: &str =
    r#"let b@cachedTextDecoder = new g@TextDecoder("utf-8", { p@ignoreBOM: true });
n@cachedTextDecoder.decode();
function b@decodeText(l@bytes) {
return u@cachedTextDecoder.decode(bytes);
}
"#;

/// The same on bundler and web: a new decoder is made before one has decoded 2 GiB less 1 MiB, since
/// Safari's fails from about 2 GiB on.
pub const BROWSER_TEXT_DECODER: &str =
    r#"let b@cachedTextDecoder = new g@TextDecoder("utf-8", { p@ignoreBOM: true });
n@cachedTextDecoder.decode();
const b@MAX_SAFARI_DECODE_BYTES = 2146435072;
let b@numBytesDecoded = 0;
function b@decodeText(l@bytes) {
u@numBytesDecoded += bytes.length;
if (u@numBytesDecoded >= u@MAX_SAFARI_DECODE_BYTES) {
u@cachedTextDecoder = new h@TextDecoder("utf-8", { p@ignoreBOM: true });
u@cachedTextDecoder.decode();
u@numBytesDecoded = bytes.length;
}
return u@cachedTextDecoder.decode(bytes);
}
"#;

/// The encoder, whose own `encodeInto` is used.
pub const TEXT_ENCODER: &str = r#"const b@cachedTextEncoder = new g@TextEncoder();
"#;

/// The encoder; where it has no `encodeInto`, it is given one that encodes and copies.
pub const TESTED_TEXT_ENCODER: &str = r#"const b@cachedTextEncoder = new g@TextEncoder();
if (!("encodeInto" in n@cachedTextEncoder)) {
n@cachedTextEncoder.encodeInto = function (l@arg, l@view) {
const l@buf = u@cachedTextEncoder.encode(arg);
view.set(buf);
return {
p@read: arg.length,
p@written: buf.length
};
};
}
"#;

/// The encoder, which is given that `encodeInto` in any case.
pub const COPYING_TEXT_ENCODER: &str = r#"const b@cachedTextEncoder = new g@TextEncoder();
n@cachedTextEncoder.encodeInto = function (l@arg, l@view) {
const l@buf = u@cachedTextEncoder.encode(arg);
view.set(buf);
return {
p@read: arg.length,
p@written: buf.length
};
};
"#;

/// The number of elements of what was passed last.
pub const WASM_VECTOR_LEN: &str = r#"let b@WASM_VECTOR_LEN = 0;
"#;

/// `getStringFromWasm0(ptr, len)`: the string of the memory's bytes there.
pub const GET_STRING: &str = r#"function b@$name(l@ptr, l@len) {
ptr = ptr >>> 0;
return u@decodeText(u@$view().subarray(ptr, ptr + len));
}
"#;

/// `passStringToWasm0(arg, malloc, realloc)` writes a string into memory that it asks for, gives its address, and sets
/// the number of its bytes. ASCII characters up to the first other one are written by themselves.
pub const PASS_STRING: &str = r#"function b@$name(l@arg, l@malloc, l@realloc) {
if (realloc === h@undefined) {
const l@buf = u@cachedTextEncoder.encode(arg);
const l@ptr = malloc(buf.length, 1) >>> 0;
u@$view().subarray(ptr, ptr + buf.length).set(buf);
u@WASM_VECTOR_LEN = buf.length;
return ptr;
}
let l@len = arg.length;
let l@ptr = malloc(len, 1) >>> 0;
const l@mem = u@$view();
let l@offset = 0;
for (; offset < len; offset++) {
const l@code = arg.charCodeAt(offset);
if (code > 127) break;
mem[ptr + offset] = code;
}
if (offset !== len) {
if (offset !== 0) {
arg = arg.slice(offset);
}
ptr = realloc(ptr, len, len = offset + arg.length * 3, 1) >>> 0;
const l@view = u@$view().subarray(ptr + offset, ptr + len);
const l@ret = u@cachedTextEncoder.encodeInto(arg, view);
offset += ret.written;
ptr = realloc(ptr, len, offset, 1) >>> 0;
}
u@WASM_VECTOR_LEN = offset;
return ptr;
}
"#;

/// The same with tests: what is passed has to be a string, and has to be written whole.
pub const TESTED_PASS_STRING: &str = r#"function b@$name(l@arg, l@malloc, l@realloc) {
if (typeof(arg) !== "string") throw new h@Error(`expected a string argument, found ${typeof(arg)}`);
if (realloc === h@undefined) {
const l@buf = u@cachedTextEncoder.encode(arg);
const l@ptr = malloc(buf.length, 1) >>> 0;
u@$view().subarray(ptr, ptr + buf.length).set(buf);
u@WASM_VECTOR_LEN = buf.length;
return ptr;
}
let l@len = arg.length;
let l@ptr = malloc(len, 1) >>> 0;
const l@mem = u@$view();
let l@offset = 0;
for (; offset < len; offset++) {
const l@code = arg.charCodeAt(offset);
if (code > 127) break;
mem[ptr + offset] = code;
}
if (offset !== len) {
if (offset !== 0) {
arg = arg.slice(offset);
}
ptr = realloc(ptr, len, len = offset + arg.length * 3, 1) >>> 0;
const l@view = u@$view().subarray(ptr + offset, ptr + len);
const l@ret = u@cachedTextEncoder.encodeInto(arg, view);
if (ret.read !== arg.length) throw new h@Error("failed to pass whole string");
offset += ret.written;
ptr = realloc(ptr, len, offset, 1) >>> 0;
}
u@WASM_VECTOR_LEN = offset;
return ptr;
}
"#;

// The item of a text with these stand-ins.
fn string_item(alloc: Global, memory: u32, name: Text, text: &str) -> Result<Item, AllocError>
    requires reads { is_ok (read_marked text.now) ≡ true }
    ensures item { IfOk result (λ item. item ≡ spec.string_item memory name text.now) }
{
    let own = (Text::from_str(alloc, "$name")?, name.copy(alloc)?);
    let view = (
        Text::from_str(alloc, "$view")?,
        array_view_name(alloc, ElementKind::U8, memory)?,
    );
    named_item(alloc, name, &[own, view], &[], text)
}

/// The item of `GET_STRING` for the memory at a place. The only error is want of memory, as of the call below.
#[tactic(auto, using(crate::proofs::StringTexts::get_string_reads))]
pub fn get_string(alloc: Global, memory: u32) -> Result<Item, AllocError>
    ensures item { IfOk result (λ item. item ≡ spec.get_string memory) }
{
    let name = numbered_text(alloc, "getStringFromWasm", memory)?;
    string_item(alloc, memory, name, GET_STRING)
}

// The text with tests, or without.
fn pass_string_text(tested: bool) -> &'static str
    ensures text { result.now ≡ spec.pass_string_text tested }
{
    if tested {
        TESTED_PASS_STRING
    } else {
        PASS_STRING
    }
}

/// The item of `PASS_STRING` for the memory at a place, or of the form with tests.
#[tactic(auto, using(crate::proofs::StringTexts::pass_string_reads))]
pub fn pass_string(alloc: Global, memory: u32, tested: bool) -> Result<Item, AllocError>
    ensures item { IfOk result (λ item. item ≡ spec.pass_string memory tested) }
{
    let name = numbered_text(alloc, "passStringToWasm", memory)?;
    string_item(alloc, memory, name, pass_string_text(tested))
}
