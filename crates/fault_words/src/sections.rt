//! The section that a byte lies in.
ghost use Rattle.std.specs.Prelude.{◌≡◌, ◌≤◌, ◌<◌, ◌≢◌, [], IfOk, IfErr, drop, length};
ghost use Rattle.std.specs.String.{string_bytes};
ghost use Rattle.wasm_bytes.specs.Gives.{DecodesBy};
ghost use Rattle.wasm_bytes.specs.Reading.{value_of};
ghost use Rattle.fault_words.specs.Sections as spec;

use shown_names::shown;
use std::alloc::{AllocError, Global};
use wasm_bytes::{ReadFault, Reader, read_text};

// The bytes behind the first ones, so many or as far as they are there.
fn behind(bytes: &[u8], count: usize) -> &[u8]
    ensures rest { result.now ≡ drop count bytes.now }
{
    if count < bytes.len() {
        bytes.split_at(count).1
    } else {
        &[]
    }
}

// How many bytes the section takes that these begin with.
#[tactic(auto, unfolding(crate::specs::Sections::size_of))]
fn size_of(bytes: &[u8]) -> usize
    ensures size { result ≡ spec.size_of bytes.now }
    ensures few { result ≤ length bytes.now }
{
    let mut reader = Reader::new(behind(bytes, 1));
    match reader.number32() {
        Ok(len) => {
            let left = reader.len().saturating_sub(len as usize);
            bytes.len().saturating_sub(left)
        }
        Err(_) => bytes.len(),
    }
}

// What stands in the sections with this id.
#[tactic(auto, unfolding(crate::specs::Sections::kind))]
fn kind(id: u8) -> &'static str
    ensures kind { result.now ≡ spec.kind id }
{
    match id {
        0 => "custom",
        1 => "types",
        2 => "imports",
        3 => "functions",
        4 => "tables",
        5 => "memories",
        6 => "globals",
        7 => "exports",
        8 => "start",
        9 => "elements",
        10 => "code",
        11 => "data",
        12 => "data count",
        13 => "tags",
        _ => "unknown",
    }
}

// The name of a custom section, read behind the section's id.
fn custom_name(bytes: &[u8]) -> Result<&str, ReadFault>
    ensures name { DecodesBy (λ t. t.now) result (value_of (spec.custom_name bytes.now)) }
    ensures sure { IfErr result (λ e. e ≢ ReadFault.OutOfMemory) }
{
    let mut reader = Reader::new(bytes);
    let len = reader.number32()?;
    read_text(&mut reader.part(len as usize))
}

// A custom section's name, where it can be read.
fn name_words(alloc: Global, bytes: &[u8]) -> Result<String, AllocError>
    ensures words { IfOk result (λ s. string_bytes s ≡ spec.name_words (spec.custom_name bytes.now)) }
{
    match custom_name(bytes) {
        Ok(name) => {
            let name = shown(alloc, name)?;
            let name = name.as_str();
            format!(in alloc; " {name}")
        }
        Err(_) => Ok(String::new(alloc)),
    }
}

fn custom_words(alloc: Global, id: u8, bytes: &[u8]) -> Result<String, AllocError>
    ensures words { IfOk result (λ s. string_bytes s ≡ spec.custom_words id bytes.now) }
{
    if id == 0 {
        name_words(alloc, bytes)
    } else {
        Ok(String::new(alloc))
    }
}

// The section that these bytes begin with.
#[tactic(auto, unfolding(crate::specs::Sections::section))]
fn section(alloc: Global, bytes: &[u8]) -> Result<String, AllocError>
    ensures words { IfOk result (λ s. string_bytes s ≡ spec.section bytes.now) }
{
    match bytes {
        [] => Ok(String::new(alloc)),
        [id, rest @ ..] => {
            let kind = kind(*id);
            let name = custom_words(alloc, *id, rest)?;
            let name = name.as_str();
            format!(in alloc; "section {id} ({kind}{name})")
        }
    }
}

// Whether a place so far on lies in the section that these bytes begin with, or there is none.
fn is_there(left: u64, bytes: &[u8]) -> bool
    ensures test { result ≡ spec.is_there left bytes.now }
{
    bytes.is_empty() || left < size_of(bytes) as u64
}

// The section that these bytes begin with, where it ends at a place so far on.
fn ended_at(left: u64, bytes: &[u8]) -> &[u8]
    ensures ended { result.now ≡ spec.ended_at left bytes.now }
{
    if left == size_of(bytes) as u64 {
        bytes
    } else {
        &[]
    }
}

// The bytes from the section on that ends at a place, and from the one on that the place lies in. The place is counted from the first of
// the bytes, which begin with a section.
fn around(bytes: &[u8], place: u64) -> (&[u8], &[u8])
    ensures around { (result.0.now, result.1.now) ≡ spec.around (length bytes.now) place [] bytes.now }
{
    let mut left = place;
    let mut before: &[u8] = &[];
    let mut rest = bytes;
    for _ in 0..bytes.len() {
        if is_there(left, rest) {
            break;
        }
        before = ended_at(left, rest);
        let size = size_of(rest);
        left = left.saturating_sub(size as u64);
        rest = behind(rest, size);
    }
    (before, rest)
}

// What ends and what goes on at a place.
fn lying(alloc: Global, before: &[u8], rest: &[u8]) -> Result<String, AllocError>
    ensures words { IfOk result (λ s. string_bytes s ≡ spec.lying before.now rest.now) }
{
    let ended = section(alloc, before)?;
    let ended = ended.as_str();
    let going = section(alloc, rest)?;
    let going = going.as_str();
    match (before, rest) {
        ([], []) => String::from_str(alloc, ", behind the last section"),
        ([], _) => format!(in alloc; ", in {going}"),
        (_, []) => format!(in alloc; ", at the end of {ended}"),
        _ => format!(in alloc; ", between {ended} and {going}"),
    }
}

/// Where a byte of a file lies: in the preamble, or in a section, which is named by its id, by what stands in it, and a custom one by its
/// name. A place where a section ends lies between that and the next one. A section whose length can't be read, or is greater than what
/// is there, takes all that is there.
#[tactic(auto, unfolding(crate::specs::Sections::section_words))]
pub(crate) fn section_words(alloc: Global, bytes: &[u8], place: u64) -> Result<String, AllocError>
    ensures words { IfOk result (λ s. string_bytes s ≡ spec.section_words bytes.now place) }
{
    if place < 8 {
        return String::from_str(alloc, ", in the preamble");
    }
    let (before, rest) = around(behind(bytes, 8), place - 8);
    lying(alloc, before, rest)
}
