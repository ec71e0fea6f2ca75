//! Symbols, and the paths that they show.
ghost use Rattle.std.specs.Prelude.{◌≡◌, ◌++◌, IfOk, OnOk, length, option_map, string_bytes};
ghost use Rattle.std.specs.List.{list_all};
ghost use Rattle.std.specs.Option.{option_copied};
ghost use Rattle.std.specs.Char.{is_ascii};
ghost use Rattle.demangle_core.specs.Symbol as spec;

use crate::reading::{behind, leading_digits, number};
use crate::shown::push_part;
use std::alloc::{AllocError, Global};

fn is_llvm_byte(b: u8) -> bool
    ensures test { result ≡ spec.is_llvm_byte b }
{
    b.is_ascii_digit() || (b'A'..=b'F').contains(&b) || b == b'@'
}

fn are_llvm_bytes(bytes: &[u8]) -> bool
    ensures test { result ≡ list_all spec.is_llvm_byte bytes.now }
{
    bytes.iter().all(|b| is_llvm_byte(*b))
}

// Whether `.llvm.` stands at the front, and nothing but digits, `A` to `F` and `@` behind it.
fn is_llvm_suffix(bytes: &[u8]) -> bool
    ensures test { result ≡ spec.is_llvm_suffix bytes.now }
{
    match behind(b".llvm.", bytes) {
        None => false,
        Some(rest) => are_llvm_bytes(rest),
    }
}

// A name without such an end.
fn without_llvm(name: &[u8]) -> &[u8]
    ensures stem { result.now ≡ spec.without_llvm name.now }
{
    for place in 0..name.len() {
        let (stem, rest) = name.split_at(place);
        if is_llvm_suffix(rest) {
            return stem;
        }
    }
    name
}

// The part at the front, and what stands behind it.
fn first_part(bytes: &[u8]) -> Option<(&[u8], &[u8])>
    ensures part { option_map (λ found. (found.0.now, found.1.now)) result ≡ spec.first_part bytes.now }
{
    let count = leading_digits(false, bytes);
    if count == 0 {
        return None;
    }
    let (digits, rest) = bytes.split_at(count);
    let length = number(10, digits, rest.len())?;
    Some(rest.split_at(length))
}

// The path that parts show up to an `E` with nothing behind it. None where the bytes are something else.
fn path_of(alloc: Global, bytes: &[u8]) -> Result<Option<String>, AllocError>
    ensures path { IfOk result (λ path. option_map string_bytes path ≡ spec.path_of (length bytes.now) bytes.now) }
{
    let mut path = String::new(alloc);
    let mut rest = bytes;
    for _ in 0..bytes.len() {
        match first_part(rest) {
            None => return Ok(None),
            Some((part, behind)) => {
                push_part(&mut path, part)?;
                if behind == b"E".as_slice() {
                    return Ok(Some(path));
                }
                path.push_str("::")?;
                rest = behind;
            }
        }
    }
    Ok(None)
}

// What stands inside of a symbol, behind its beginning.
fn inside(name: &[u8]) -> Option<&[u8]>
    ensures inside { option_copied result ≡ spec.inside name.now }
{
    match behind(b"_ZN", name) {
        Some(parts) => Some(parts),
        None => match behind(b"ZN", name) {
            Some(parts) => Some(parts),
            None => behind(b"__ZN", name),
        },
    }
}

fn are_ascii(bytes: &[u8]) -> bool
    ensures test { result ≡ list_all is_ascii bytes.now }
{
    bytes.iter().all(|b| *b < 128)
}

/// The path that a mangled name of Rust's older form shows, or none where the name is not one.
///
/// `.llvm.` and what stands behind it are taken off first, where that is nothing but digits, `A` to `F` and `@`. What is left has to be ASCII: `_ZN`, `ZN`
/// or `__ZN`, one part or more, each a decimal length and so many bytes, and `E`. Parts are joined by `::`. In a part `..` shows `::`; a
/// leading `_$` loses its `_`; `$SP$`, `$BP$`, `$RF$`, `$LT$`, `$GT$`, `$LP$`, `$RP$` and `$C$` show `@`, `*`, `&`, `<`, `>`, `(`, `)` and
/// `,`; `$u`, one to six digits of base 16 in lower case and `$` show the character of that code, where it is one and no control
/// character; behind any other `$` the part is shown as it is. Want of memory is the only error.
pub fn demangle(alloc: Global, name: &str) -> Result<Option<String>, AllocError>
    ensures demangled { IfOk result (λ path. option_map string_bytes path ≡ spec.demangled name.now) }
{
    let stem = without_llvm(name.as_bytes());
    if !are_ascii(stem) {
        return Ok(None);
    }
    match inside(stem) {
        None => Ok(None),
        Some(parts) => path_of(alloc, parts),
    }
}
