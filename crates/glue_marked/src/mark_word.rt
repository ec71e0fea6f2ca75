//! The word that the bytes of one are.
ghost use Rattle.std.specs.Prelude.{◌≡◌, false, if◌then◌else◌, Some, None, IfOk, pos};
ghost use Rattle.std.specs.List.{list_all};
ghost use Rattle.std.specs.Str.{IsUtf8};
ghost use Rattle.glue_marked.specs.Marked as spec;
ghost use Rattle.glue_words.specs.Limits as limits;

use crate::mark_kind::{Kind, is_gap_byte, is_name_byte};
use crate::mark_length::{behind, key_place, punct_place};
use crate::mark_text::text_word;
use glue_words::{Word, is_valid_ident};
use std::alloc::{AllocError, Global};
use values::Text;

/// Whether each byte is one of a name.
fn are_name_bytes(bytes: &[u8]) -> bool
    ensures { result ≡ list_all spec.is_name_byte bytes.now }
{
    bytes.iter().all(|byte| is_name_byte(*byte))
}

/// Whether each byte is one of a gap.
fn are_gap_bytes(bytes: &[u8]) -> bool
    ensures { result ≡ list_all limits.is_gap_byte bytes.now }
{
    bytes.iter().all(|byte| is_gap_byte(*byte))
}

/// Whether the bytes are those of a name, the first of which is no digit.
#[tactic(auto, unfolding(crate::specs::Marked::is_named))]
fn is_named(name: &[u8]) -> bool
    ensures { result ≡ spec.is_named name.now }
{
    match name.split_first() {
        None => false,
        Some((first, others)) => {
            (*first == b'$' || *first == b'_' || first.is_ascii_alphabetic())
                && are_name_bytes(others)
        }
    }
}

/// Bytes that are a text.
fn as_text(bytes: &[u8]) -> &str
    requires { IsUtf8 bytes.now }
    ensures { result.now ≡ bytes.now }
{
    match std::str::from_utf8(bytes) {
        Ok(text) => text,
        Err(_) => unreachable!(),
    }
}

/// Whether the mark may stand before the name.
#[tactic(auto, using(crate::proofs::MarkedTexts::texts), unfolding(crate::specs::Marked::may_name))]
fn may_name(mark: u8, name: &[u8]) -> bool
    ensures { result ≡ spec.may_name mark name.now }
{
    is_named(name) && (mark == b'p' || mark == b'o' || is_valid_ident(as_text(name)))
}

/// The word of a marked name.
#[tactic(auto, unfolding(crate::specs::Marked::name_word))]
fn name_word(mark: u8, name: Text) -> Word
    ensures { result ≡ spec.name_word mark name }
{
    match mark {
        b'b' => Word::Bind(name),
        b'u' => Word::Refer(name, false),
        b'n' => Word::Refer(name, true),
        b'h' => Word::Host(name, false),
        b'g' => Word::Host(name, true),
        b'l' => Word::LocalBind(name),
        b'p' => Word::Prop(name),
        _ => Word::Outer(name),
    }
}

/// The regular expression of a number.
#[tactic(auto, unfolding(crate::specs::Marked::regex_word))]
fn regex_word(name: &[u8]) -> Option<Word>
    ensures { result ≡ spec.regex_word name.now }
{
    if name == b"0".as_slice() {
        Some(Word::Regex(0))
    } else if name == b"1".as_slice() {
        Some(Word::Regex(1))
    } else {
        None
    }
}

/// The word of a mark, `@` and a name.
#[tactic(auto, using(crate::proofs::MarkedTexts::texts), unfolding(crate::specs::Marked::marked_word, crate::specs::Marked::may_name))]
fn marked_word(alloc: Global, front: &[u8]) -> Result<Option<Word>, AllocError>
    ensures { IfOk result (λ word. word ≡ spec.marked_word front.now) }
{
    let Some((mark, others)) = front.split_first() else {
        return Ok(None);
    };
    let name = behind(others, 1);
    if *mark == b'r' {
        Ok(regex_word(name))
    } else if may_name(*mark, name) {
        Ok(Some(name_word(*mark, Text::from_str(alloc, as_text(name))?)))
    } else {
        Ok(None)
    }
}

/// The word of `.w@` and a name.
#[tactic(auto, using(crate::proofs::MarkedTexts::texts), unfolding(crate::specs::Marked::wasm_word))]
fn wasm_word(alloc: Global, front: &[u8]) -> Result<Option<Word>, AllocError>
    ensures { IfOk result (λ word. word ≡ spec.wasm_word front.now) }
{
    let name = behind(front, 3);
    if is_named(name) {
        Ok(Some(Word::Wasm(Text::from_str(alloc, as_text(name))?)))
    } else {
        Ok(None)
    }
}

/// The word of a gap.
#[tactic(auto, using(crate::proofs::MarkedTexts::texts))]
fn gap_word(alloc: Global, front: &[u8]) -> Result<Option<Word>, AllocError>
    ensures { IfOk result (λ word. word ≡ (if limits.is_gap front.now then Some (Word.Gap front.now) else None)) }
{
    if !front.is_empty() && are_gap_bytes(front) {
        Ok(Some(Word::Gap(Text::from_str(alloc, as_text(front))?)))
    } else {
        Ok(None)
    }
}

/// Whether the bytes are those of a template behind its first, up to a backquote or `${`.
#[tactic(auto, using(crate::proofs::MarkedSteps::templates))]
fn is_template_rest(bytes: &[u8]) -> bool
    ensures { result ≡ limits.is_template_rest false bytes.now }
{
    let mut escaped = false;
    for (place, byte) in bytes.iter().enumerate() {
        if escaped {
            if *byte != b'n' {
                return false;
            }
            escaped = false;
        } else if *byte == b'`' {
            return bytes[place + 1..].is_empty();
        } else if *byte == b'$' {
            return &bytes[place + 1..] == b"{".as_slice();
        } else if *byte == b'\\' {
            escaped = true;
        } else if *byte < b' ' || *byte > b'~' {
            return false;
        }
    }
    false
}

/// The word of a piece of a template.
#[tactic(auto, using(crate::proofs::MarkedTexts::texts))]
fn template_word(alloc: Global, front: &[u8]) -> Result<Option<Word>, AllocError>
    ensures { IfOk result (λ word. word ≡ (if limits.is_template front.now then Some (Word.Tpl front.now) else None)) }
{
    let Some((first, others)) = front.split_first() else {
        return Ok(None);
    };
    if (*first == b'`' || *first == b'}') && is_template_rest(others) {
        Ok(Some(Word::Tpl(Text::from_str(alloc, as_text(front))?)))
    } else {
        Ok(None)
    }
}

/// The word of digits, where it is below 2 to the power of 63.
#[tactic(auto, using(crate::proofs::MarkedSteps::numbers), unfolding(crate::specs::Marked::number_word))]
fn number_word(digits: &[u8]) -> Option<Word>
    ensures { result ≡ spec.number_word digits.now }
{
    let mut number = 0u64;
    for digit in digits {
        let larger = number as u128 * 10 + digit.saturating_sub(b'0') as u128;
        if larger >= 1 << 63 {
            return None;
        }
        number = larger as u64;
    }
    Some(Word::Num(number as i64))
}

/// The word of a bare name.
#[tactic(auto, using(crate::proofs::MarkedTexts::texts), unfolding(crate::specs::Marked::bare_word))]
fn bare_word(alloc: Global, after_dot: bool, name: &[u8]) -> Result<Option<Word>, AllocError>
    ensures { IfOk result (λ word. word ≡ spec.bare_word after_dot name.now) }
{
    if after_dot {
        if !is_named(name) {
            return Ok(None);
        }
        return Ok(Some(Word::Prop(Text::from_str(alloc, as_text(name))?)));
    }
    if let Some(place) = key_place(name) {
        return Ok(Some(Word::Key(place)));
    }
    if is_named(name) && is_valid_ident(as_text(name)) {
        Ok(Some(Word::Local(Text::from_str(alloc, as_text(name))?)))
    } else {
        Ok(None)
    }
}

/// The word of punctuation.
#[tactic(auto, unfolding(crate::specs::Marked::punct_word))]
fn punct_word(front: &[u8]) -> Option<Word>
    ensures { result ≡ spec.punct_word front.now }
{
    match punct_place(front) {
        None => None,
        Some(place) => Some(Word::Punct(place)),
    }
}

/// The word of this kind that the bytes are.
#[tactic(auto, unfolding(crate::specs::Marked::word_of))]
pub fn word_of(
    alloc: Global,
    kind: Kind,
    after_dot: bool,
    front: &[u8],
) -> Result<Option<Word>, AllocError>
    ensures { IfOk result (λ word. word ≡ spec.word_of kind after_dot front.now) }
{
    match kind {
        Kind::Template => template_word(alloc, front),
        Kind::Mark => marked_word(alloc, front),
        Kind::Wasm => wasm_word(alloc, front),
        Kind::Gap => gap_word(alloc, front),
        Kind::Number => Ok(number_word(front)),
        Kind::Name => bare_word(alloc, after_dot, front),
        Kind::Text => text_word(alloc, front),
        Kind::Punct => Ok(punct_word(front)),
    }
}
