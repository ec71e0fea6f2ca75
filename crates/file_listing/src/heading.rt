//! The first line of a file's part.
ghost use Rattle.std.specs.Prelude.{◌≡◌, ◌≢◌, ◌<◌, ◌^◌, ℕ, Bool, List, MatchOption, IfOk};
ghost use Rattle.std.specs.String.{string_bytes};
ghost use Rattle.std.specs.Fmt.{decimal};
ghost use Rattle.glue_ends.specs.Listing.{form_word};
ghost use Rattle.file_listing.specs.Parts as spec;

use crate::lines::{is_same, last_word};
use std::alloc::{AllocError, Global};

// The parts of a heading as they stand in the line.
#[derive(Drop)]
struct Parts<'a> {
    path: &'a [u8],
    word: &'a [u8],
    count: &'a [u8],
}

// What a heading says.
#[derive(Drop)]
pub(crate) struct Heading<'a> {
    pub(crate) path: &'a str,
    pub(crate) is_text: bool,
    pub(crate) count: usize,
}

fn after_file(line: &[u8]) -> Option<&[u8]>
    ensures { MatchOption result ((rest : List ℕ) → line.now ≢ spec.file_word rest) (λ rest. line.now ≡ spec.file_word rest.now) }
{
    line.strip_prefix(b"file ")
}

// The parts of a line that is `file `, a path, a space, a word, a space and a word.
fn parts_of(line: &[u8]) -> Option<Parts<'_>>
    ensures { MatchOption result ((path word count : List ℕ) → spec.AreParts line.now path word count → ⊥) (λ p. spec.AreParts line.now p.path.now p.word.now p.count.now) }
{
    let Some(rest) = after_file(line) else {
        return None;
    };
    let Some((front, count)) = last_word(rest) else {
        return None;
    };
    let Some((path, word)) = last_word(front) else {
        return None;
    };
    Some(Parts { path, word, count })
}

// Whether a word is that of a file's text, or that of its digits.
fn is_text_word(word: &[u8]) -> Option<bool>
    ensures { MatchOption result ((is_text : Bool) → word.now ≢ form_word is_text) (λ is_text. word.now ≡ form_word is_text) }
{
    if word == b"text".as_slice() {
        Some(true)
    } else if word == b"hex".as_slice() {
        Some(false)
    } else {
        None
    }
}

fn digits_of(alloc: Global, number: usize) -> Result<String, AllocError>
    ensures { IfOk result (λ digits. string_bytes digits ≡ decimal number) }
{
    format!(in alloc; "{number}")
}

// The number that is written by these digits, without a sign or a zero before it.
fn number_of(alloc: Global, digits: &[u8]) -> Result<Option<usize>, AllocError>
    ensures { IfOk result (λ number. MatchOption number ((n : ℕ) → n < 2 ^ 64 → digits.now ≢ decimal n) (λ n. (digits.now ≡ decimal n) × (n < 2 ^ 64))) }
{
    let Ok(text) = std::str::from_utf8(digits) else {
        return Ok(None);
    };
    let Ok(number) = text.parse::<usize>() else {
        return Ok(None);
    };
    let own = digits_of(alloc, number)?;
    if !is_same(own.as_str().as_bytes(), digits) {
        return Ok(None);
    }
    Ok(Some(number))
}

// What a line says that is the first line of a file's part, without its line feed.
pub(crate) fn heading_at(alloc: Global, line: &[u8]) -> Result<Option<Heading<'_>>, AllocError>
    ensures { IfOk result (λ heading. MatchOption heading (spec.IsNoHeading line.now) (λ h. spec.IsHeadingOf line.now h.path.now h.is_text h.count)) }
{
    let Some(parts) = parts_of(line) else {
        return Ok(None);
    };
    let Some(is_text) = is_text_word(parts.word) else {
        return Ok(None);
    };
    let Ok(path) = std::str::from_utf8(parts.path) else {
        return Ok(None);
    };
    let number = number_of(alloc, parts.count)?;
    let Some(count) = number else {
        return Ok(None);
    };
    Ok(Some(Heading {
        path,
        is_text,
        count,
    }))
}
