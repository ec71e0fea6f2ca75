//! What a part of a symbol shows.
ghost use Rattle.std.specs.Prelude.{◌≡◌, ◌<◌, ◌^◌, ◌∷◌, ◌++◌, IfOk, OnOk, string_bytes};
ghost use Rattle.std.specs.Option.{option_copied};
ghost use Rattle.demangle_core.specs.Shown as spec;

use crate::reading::{behind, leading_digits, number};
use std::alloc::AllocError;

// The character of a code, where it is one and no control character.
fn shown_char(code: usize) -> Option<char>
    requires short { code < 2 ^ 32 }
    ensures shown { result ≡ spec.shown_char code }
{
    let shown = char::from_u32(code as u32)?;
    if shown.is_control() {
        None
    } else {
        Some(shown)
    }
}

// The character that digits and `$` at the front spell behind `$u`, and how many bytes are read behind the first `$`.
fn spelled_char(bytes: &[u8]) -> Option<(usize, char)>
    ensures spelled { result ≡ spec.spelled_char bytes.now }
{
    let count = leading_digits(true, bytes);
    if count == 0 || count > 6 {
        return None;
    }
    let (digits, rest) = bytes.split_at(count);
    if !rest.starts_with(b"$") {
        return None;
    }
    let code = number(16, digits, 0x10_FFFF)?;
    Some((count + 2, shown_char(code)?))
}

// The escape at the front behind a `$`: how many bytes it is, and the character that it spells.
fn escape(bytes: &[u8]) -> Option<(usize, char)>
    ensures escape { result ≡ spec.escape bytes.now }
{
    if bytes.starts_with(b"SP$") {
        Some((3, '@'))
    } else if bytes.starts_with(b"BP$") {
        Some((3, '*'))
    } else if bytes.starts_with(b"RF$") {
        Some((3, '&'))
    } else if bytes.starts_with(b"LT$") {
        Some((3, '<'))
    } else if bytes.starts_with(b"GT$") {
        Some((3, '>'))
    } else if bytes.starts_with(b"LP$") {
        Some((3, '('))
    } else if bytes.starts_with(b"RP$") {
        Some((3, ')'))
    } else if bytes.starts_with(b"C$") {
        Some((2, ','))
    } else {
        spelled_char(behind(b"u", bytes)?)
    }
}

// Appends bytes as they are, each as the character of its number.
fn push_bytes(out: &mut String, bytes: &[u8]) -> Result<(), AllocError>
    ensures pushed { OnOk result (string_bytes out.new ≡ string_bytes out.old ++ spec.as_it_is bytes.now) }
{
    for b in bytes {
        out.push(*b as char)?;
    }
    Ok(())
}

// Appends what stands behind a `$`, and tells how many bytes are read for it.
fn push_escaped(out: &mut String, bytes: &[u8]) -> Result<usize, AllocError>
    ensures read { IfOk result (λ read. read ≡ (spec.escaped bytes.now (spec.escape bytes.now)).0) }
    ensures pushed { OnOk result (string_bytes out.new ≡ string_bytes out.old ++ (spec.escaped bytes.now (spec.escape bytes.now)).1) }
{
    match escape(bytes) {
        Some((read, shown)) => {
            out.push(shown)?;
            Ok(read)
        }
        None => {
            out.push('$')?;
            push_bytes(out, bytes)?;
            Ok(bytes.len())
        }
    }
}

// Appends what a byte shows with the bytes behind it, and tells how many of these are read for it.
fn push_front(out: &mut String, b: u8, bytes: &[u8]) -> Result<usize, AllocError>
    ensures read { IfOk result (λ read. read ≡ (spec.front b bytes.now).0) }
    ensures pushed { OnOk result (string_bytes out.new ≡ string_bytes out.old ++ (spec.front b bytes.now).1) }
{
    if b == b'.' && bytes.starts_with(b".") {
        out.push_str("::")?;
        Ok(1)
    } else if b == b'$' {
        push_escaped(out, bytes)
    } else {
        out.push(b as char)?;
        Ok(0)
    }
}

// A part without the `_` that stands before a `$` at its front.
fn without_underscore(part: &[u8]) -> &[u8]
    ensures part { result.now ≡ spec.without_underscore part.now }
{
    if part.starts_with(b"_$") {
        part.split_at(1).1
    } else {
        part
    }
}

// Appends what a byte shows with the bytes behind it, unless it was read before, and tells how many of these are read by then.
fn push_next(out: &mut String, read: usize, b: u8, bytes: &[u8]) -> Result<usize, AllocError>
    ensures pushed { IfOk result (λ next. string_bytes out.new ++ spec.shown_from next bytes.now ≡ string_bytes out.old ++ spec.shown_from read (b ∷ bytes.now)) }
{
    if read == 0 {
        push_front(out, b, bytes)
    } else {
        Ok(read - 1)
    }
}

// Appends what bytes show.
fn push_shown(out: &mut String, bytes: &[u8]) -> Result<(), AllocError>
    ensures pushed { OnOk result (string_bytes out.new ≡ string_bytes out.old ++ spec.shown_from 0 bytes.now) }
{
    let mut read = 0usize;
    for (place, b) in bytes.iter().enumerate() {
        read = push_next(out, read, *b, bytes.split_at(place + 1).1)?;
    }
    Ok(())
}

/// Appends what a part shows.
pub(crate) fn push_part(out: &mut String, part: &[u8]) -> Result<(), AllocError>
    ensures pushed { OnOk result (string_bytes out.new ≡ string_bytes out.old ++ spec.shown_part part.now) }
{
    push_shown(out, without_underscore(part))
}
