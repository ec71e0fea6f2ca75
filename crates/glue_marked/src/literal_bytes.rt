//! The bytes that a text literal stands for.
ghost use Rattle.std.specs.Prelude.{◌≡◌, ◌<◌, ◌≤◌, ◌++◌, IfOk, OnOk, encode_utf8};
ghost use Rattle.std.specs.Option.{option_map};
ghost use Rattle.std.specs.Char.{digit_value};
ghost use Rattle.glue_words.specs.Literal.{read_literal, read_next, read_bytes};
ghost use Rattle.glue_marked.specs.LiteralAt.{reading_of, IsSmall};

use std::alloc::{AllocError, Global};

/// Where the reader stands.
#[derive(Clone, Copy, Debug, PartialEq, Eq, Drop)]
pub enum At {
    /// Before the first quote.
    Start,
    /// Between two characters.
    Inside,
    /// Behind a backslash.
    Escaped,
    /// Among the digits of an escape: how many are left, and the number so far.
    Digits(u8, u32),
    /// Behind the last quote.
    Done,
    /// Nowhere.
    Bad,
}

/// The value of a digit, and 36 of what is none.
fn value_of_digit(byte: u8) -> u32
    ensures value { result ≡ digit_value byte }
    ensures small { result ≤ 36 }
{
    match byte {
        b'0'..=b'9' => (byte - b'0') as u32,
        b'A'..=b'Z' => (byte - b'A') as u32 + 10,
        b'a'..=b'z' => (byte - b'a') as u32 + 10,
        _ => 36,
    }
}

/// Where a byte leads.
fn next(at: At, byte: u8) -> At
    requires { IsSmall at }
    ensures value { reading_of result ≡ read_next (reading_of at) byte }
    ensures small { IsSmall result }
{
    match at {
        At::Start => { if byte == b'"' { At::Inside } else { At::Bad } }
        At::Inside => match byte {
            b'"' => At::Done,
            b'\\' => At::Escaped,
            b'\n' | b'\r' => At::Bad,
            _ => At::Inside,
        },
        At::Escaped => match byte {
            b'x' => At::Digits(2, 0),
            b'u' => At::Digits(4, 0),
            b'"' | b'\\' | b'n' | b'r' => At::Inside,
            _ => At::Bad,
        },
        At::Digits(left, value) => {
            if left == 1 {
                At::Inside
            } else {
                At::Digits(left - 1, value * 16 + value_of_digit(byte))
            }
        }
        At::Done | At::Bad => At::Bad,
    }
}

/// Writes a code in UTF-8.
#[tactic(auto, using(crate::proofs::MarkedLiterals::codes))]
fn push_code(out: &mut Vec<u8>, code: u32) -> Result<(), AllocError>
    requires { code < 2097152 }
    ensures { OnOk result (out.new.items ≡ out.old.items ++ encode_utf8 code) }
{
    if code < 128 {
        out.push(code as u8)?;
    } else if code < 2048 {
        out.extend_from_slice(&[(192 + code / 64) as u8, (128 + code % 64) as u8])?;
    } else if code < 65536 {
        out.extend_from_slice(&[
            (224 + code / 4096) as u8,
            (128 + code / 64 % 64) as u8,
            (128 + code % 64) as u8,
        ])?;
    } else {
        out.extend_from_slice(&[
            (240 + code / 262144) as u8,
            (128 + code / 4096 % 64) as u8,
            (128 + code / 64 % 64) as u8,
            (128 + code % 64) as u8,
        ])?;
    }
    Ok(())
}

/// Writes what a byte adds to the text.
fn push_read(out: &mut Vec<u8>, at: At, byte: u8) -> Result<(), AllocError>
    requires { IsSmall at }
    ensures { OnOk result (out.new.items ≡ out.old.items ++ read_bytes (reading_of at) byte) }
{
    match at {
        At::Inside => {
            if byte != b'"' && byte != b'\\' {
                out.push(byte)?;
            }
        }
        At::Escaped => match byte {
            b'x' | b'u' => {}
            b'n' => out.push(b'\n')?,
            b'r' => out.push(b'\r')?,
            _ => out.push(byte)?,
        },
        At::Digits(left, value) => {
            if left == 1 {
                push_code(out, value * 16 + value_of_digit(byte))?;
            }
        }
        At::Start | At::Done | At::Bad => {}
    }
    Ok(())
}

/// The bytes of the text that a literal stands for.
#[tactic(auto, using(crate::proofs::MarkedLiterals::steps))]
pub fn literal_bytes(alloc: Global, front: &[u8]) -> Result<Option<Vec<u8>>, AllocError>
    ensures { IfOk result (λ bytes. option_map (λ v. v.items) bytes ≡ read_literal front.now) }
{
    let mut out = Vec::new(alloc);
    let mut at = At::Start;
    for byte in front {
        push_read(&mut out, at, *byte)?;
        at = next(at, *byte);
    }
    match at {
        At::Done => Ok(Some(out)),
        _ => Ok(None),
    }
}
