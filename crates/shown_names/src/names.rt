//! Names as they stand in sentences.
ghost use Rattle.std.specs.Prelude.{◌≡◌, ◌++◌, IfOk, slice_get, is_some};
ghost use Rattle.std.specs.String.{string_bytes};
ghost use Rattle.std.specs.Str.{chars};
ghost use Rattle.shown_names.specs.Shown as spec;

use std::alloc::{AllocError, Global};

// Whether a character shows nothing, ends a line or turns the direction of what stands behind it.
fn is_hidden(ch: char) -> bool
    ensures test { result ≡ spec.is_hidden ch }
{
    let code = ch as u32;
    (code < 32 || (127 <= code && code < 160))
        || ((0x2028 <= code && code <= 0x202e) || (0x2066 <= code && code <= 0x2069))
}

// A character by its number.
fn numbered_char(alloc: Global, code: u32) -> Result<String, AllocError>
    ensures number { IfOk result (λ s. string_bytes s ≡ spec.numbered_char code) }
{
    format!(in alloc; "\\u{{{code:x}}}")
}

// Writes a character of a name.
fn push_shown(alloc: Global, out: &mut String, ch: char) -> Result<(), AllocError>
    ensures pushed { IfOk result (λ _. string_bytes out.new ≡ string_bytes out.old ++ spec.shown_char ch) }
{
    if ch == '"' || ch == '\\' {
        out.push('\\')?;
        return out.push(ch);
    }
    if is_hidden(ch) {
        let number = numbered_char(alloc, ch as u32)?;
        return out.push_str(number.as_str());
    }
    out.push(ch)
}

// Whether a text has more than 60 characters.
fn is_cut(text: &str) -> bool
    ensures test { result ≡ is_some (slice_get (chars text.now) 60) }
{
    text.chars().nth(60).is_some()
}

// What says that characters are left out.
fn cut_mark(is_cut: bool) -> &'static str
    ensures mark { result.now ≡ spec.cut_mark is_cut }
{
    if is_cut { ".." } else { "" }
}

/// A name between quotes, with escapes for quotes, backslashes and characters that show nothing. Of one with more than 60 characters the
/// first 60 stand there, and `..` behind the last quote.
#[tactic(auto, unfolding(crate::specs::Shown::shown))]
pub fn shown(alloc: Global, text: &str) -> Result<String, AllocError>
    ensures value { IfOk result (λ s. string_bytes s ≡ spec.shown text.now) }
{
    let mut out = String::new(alloc);
    out.push('"')?;
    for ch in text.chars().take(60) {
        push_shown(alloc, &mut out, ch)?;
    }
    out.push('"')?;
    out.push_str(cut_mark(is_cut(text)))?;
    Ok(out)
}
