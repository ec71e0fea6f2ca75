//! How many bytes a word takes.
ghost use Rattle.std.specs.Prelude.{◌≡◌, ◌≤◌, false, length, take, drop};
ghost use Rattle.std.specs.List.{prefix_len};
ghost use Rattle.glue_marked.specs.Marked as spec;
ghost use Rattle.glue_words.specs.Limits as limits;

use crate::mark_kind::{Kind, is_digit, is_gap_byte, is_name_byte};
use glue_words::{key, key_text, punct, punct_text};

/// How many bytes of a gap stand first.
#[tactic(auto, using(crate::proofs::MarkedSteps::runs))]
fn gap_len(bytes: &[u8]) -> usize
    ensures value { result ≡ prefix_len limits.is_gap_byte bytes.now }
    ensures within { result ≤ length bytes.now }
{
    for (place, byte) in bytes.iter().enumerate() {
        if !is_gap_byte(*byte) {
            return place;
        }
    }
    bytes.len()
}

/// How many digits stand first.
#[tactic(auto, using(crate::proofs::MarkedSteps::runs))]
fn number_len(bytes: &[u8]) -> usize
    ensures value { result ≡ prefix_len spec.is_digit bytes.now }
    ensures within { result ≤ length bytes.now }
{
    for (place, byte) in bytes.iter().enumerate() {
        if !is_digit(*byte) {
            return place;
        }
    }
    bytes.len()
}

/// How many bytes of a name stand first.
#[tactic(auto, using(crate::proofs::MarkedSteps::runs))]
fn name_len(bytes: &[u8]) -> usize
    ensures value { result ≡ prefix_len spec.is_name_byte bytes.now }
    ensures within { result ≤ length bytes.now }
{
    for (place, byte) in bytes.iter().enumerate() {
        if !is_name_byte(*byte) {
            return place;
        }
    }
    bytes.len()
}

/// How many bytes stand up to the closing quote, or all.
#[tactic(auto, using(crate::proofs::MarkedSteps::runs))]
fn quote_len(bytes: &[u8]) -> usize
    ensures value { result ≡ spec.quote_len false bytes.now }
    ensures within { result ≤ length bytes.now }
{
    let mut escaped = false;
    for (place, byte) in bytes.iter().enumerate() {
        if !escaped && *byte == b'"' {
            return place + 1;
        }
        escaped = !escaped && *byte == b'\\';
    }
    bytes.len()
}

/// How many bytes stand up to a backquote or `${`, or all.
#[tactic(auto, using(crate::proofs::MarkedSteps::runs))]
fn template_len(bytes: &[u8]) -> usize
    ensures value { result ≡ spec.template_len bytes.now }
    ensures within { result ≤ length bytes.now }
{
    for (place, byte) in bytes.iter().enumerate() {
        if *byte == b'`' {
            return place + 1;
        }
        if *byte == b'$' {
            return place + (bytes.len() - place).min(2);
        }
    }
    bytes.len()
}

/// The place of a keyword.
pub fn key_place(text: &[u8]) -> Option<u8>
    ensures { result ≡ spec.key_place text.now }
{
    for place in 0..key::COUNT {
        if key_text(place).as_bytes() == text {
            return Some(place);
        }
    }
    None
}

/// The place of punctuation.
pub fn punct_place(text: &[u8]) -> Option<u8>
    ensures { result ≡ spec.punct_place text.now }
{
    for place in 0..punct::COUNT {
        if punct_text(place).as_bytes() == text {
            return Some(place);
        }
    }
    None
}

/// The bytes at the front, at most so many.
pub fn front(bytes: &[u8], len: usize) -> &[u8]
    ensures { result.now ≡ take len bytes.now }
{
    &bytes[..bytes.len().min(len)]
}

/// What follows so many bytes, or nothing.
pub fn behind(bytes: &[u8], len: usize) -> &[u8]
    ensures { result.now ≡ drop len bytes.now }
{
    &bytes[bytes.len().min(len)..]
}

/// How many bytes the longest punctuation takes, and 1 where there is none.
#[tactic(auto, unfolding(crate::specs::Marked::punct_len))]
fn punct_len(bytes: &[u8]) -> usize
    ensures value { result ≡ spec.punct_len bytes.now }
    ensures within { result ≤ length bytes.now }
{
    if punct_place(front(bytes, 3)).is_some() {
        front(bytes, 3).len()
    } else if punct_place(front(bytes, 2)).is_some() {
        front(bytes, 2).len()
    } else {
        front(bytes, 1).len()
    }
}

/// How many bytes the word of the kind takes that stands first.
#[tactic(auto, unfolding(crate::specs::Marked::len_of))]
pub fn len_of(kind: Kind, bytes: &[u8]) -> usize
    ensures value { result ≡ spec.len_of kind bytes.now }
    ensures within { result ≤ length bytes.now }
{
    match kind {
        Kind::Template => front(bytes, 1).len() + template_len(behind(bytes, 1)),
        Kind::Mark => front(bytes, 2).len() + name_len(behind(bytes, 2)),
        Kind::Wasm => front(bytes, 3).len() + name_len(behind(bytes, 3)),
        Kind::Gap => gap_len(bytes),
        Kind::Number => number_len(bytes),
        Kind::Name => name_len(bytes),
        Kind::Text => front(bytes, 1).len() + quote_len(behind(bytes, 1)),
        Kind::Punct => punct_len(bytes),
    }
}
