//! String literals.
ghost use Rattle.std.specs.Prelude.{◌≡◌, ◌<◌, ◌/◌, ◌%◌, ◌++◌, ◌∷◌, [], List, ℕ, IfOk, OnErr};
ghost use Rattle.std.specs.Char.{digit_char};
ghost use Rattle.std.specs.String.{string_bytes};
ghost use Rattle.glue_words.specs.Literal.{escaped_char, literal, read_literal};

use std::alloc::{AllocError, Global};

/// Writes a character as it stands in a literal.
fn push_escaped(out: &mut String, ch: char) -> Result<(), AllocError>
    ensures { IfOk result (λ _. string_bytes out.new ≡ string_bytes out.old ++ escaped_char ch) }
{
    match ch {
        '"' => out.push_str("\\\""),
        '\\' => out.push_str("\\\\"),
        '\n' => out.push_str("\\n"),
        '\r' => out.push_str("\\r"),
        '\u{2028}' => out.push_str("\\u2028"),
        '\u{2029}' => out.push_str("\\u2029"),
        '\0'..='\u{1f}' | '\u{7f}' => push_hex_escape(out, ch as u32),
        _ => out.push(ch),
    }
}

/// Writes `\x` and two digits.
fn push_hex_escape(out: &mut String, code: u32) -> Result<(), AllocError>
    requires { code < 128 }
    ensures { IfOk result (λ _. string_bytes out.new ≡ string_bytes out.old ++ 92 ∷ 120 ∷ digit_char (code / 16) ∷ digit_char (code % 16) ∷ []) }
{
    out.push_str("\\x")?;
    out.push(digit(code / 16))?;
    out.push(digit(code % 16))
}

/// A hexadecimal digit in lower case.
fn digit(value: u32) -> char
    requires { value < 16 }
    ensures value { result ≡ digit_char value }
    ensures ascii { result < 128 }
{
    if value < 10 {
        (b'0' + value as u8) as char
    } else {
        (b'a' + (value - 10) as u8) as char
    }
}

/// The text as a JavaScript string literal in double quotes, on one line of its own.
///
/// Quotes, backslashes, control characters, U+2028 and U+2029 are escaped. Want of memory is its only error.
#[tactic(auto, unfolding(crate::specs::Literal::literal))]
pub fn js_string_literal(alloc: Global, text: &str) -> Result<String, AllocError>
    ensures value { IfOk result (λ s. string_bytes s ≡ literal text.now) }
    ensures reads_back { IfOk result (λ s. read_literal (string_bytes s) ≡ Some text.now) }
{
    let mut out = String::new(alloc);
    out.push('"')?;
    for ch in text.chars() {
        push_escaped(&mut out, ch)?;
    }
    out.push('"')?;
    Ok(out)
}
