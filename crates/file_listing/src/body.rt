//! The bytes of a file's part.
ghost use Rattle.std.specs.Prelude.{◌≡◌, ◌≢◌, ◌≤◌, ◌++◌, ◌∷◌, ◌^◌, ℕ, List, length, MatchOption, IfOk, None};
ghost use Rattle.hex.specs.Hex.{IsBytes, encode_lower};
ghost use Rattle.glue_ends.specs.Listing.{shown_bytes};
ghost use Rattle.file_listing.specs.Parts as spec;

use crate::lines::is_same;
use hex::FromHexError;
use std::alloc::{AllocError, Global};
use values::Seq;

// A file's bytes, and what stands behind its part.
#[derive(Drop)]
pub(crate) struct Body<'a> {
    pub(crate) bytes: Seq<u8>,
    pub(crate) rest: &'a [u8],
}

// How many bytes of a listing show a file's bytes, where so many can be there.
fn size_of(is_text: bool, count: usize) -> Option<usize>
    ensures { MatchOption result (2 ^ 64 ≤ spec.size_of is_text count) (λ size. size ≡ spec.size_of is_text count) }
{
    if is_text {
        Some(count)
    } else {
        count.checked_mul(2)
    }
}

// So many bytes, and what stands behind the line feed that follows them.
fn cut_at(text: &[u8], size: usize) -> Option<(&[u8], &[u8])>
    ensures { MatchOption result (spec.IsNoCut text.now size) (λ cut. spec.IsCutAt text.now size cut.0.now cut.1.now) }
{
    if text.len() <= size {
        return None;
    }
    let (shown, end) = text.split_at(size);
    if end[0] != b'\n' {
        return None;
    }
    let (_, rest) = end.split_at(1);
    Some((shown, rest))
}

// The bytes that are shown, and what stands behind their line feed.
fn shown_at(is_text: bool, count: usize, text: &[u8]) -> Option<(&[u8], &[u8])>
    ensures { MatchOption result (spec.IsNoCut text.now (spec.size_of is_text count)) (λ cut. spec.IsCutAt text.now (spec.size_of is_text count) cut.0.now cut.1.now) }
{
    let whole = text.len();
    let Some(size) = size_of(is_text, count) else {
        prove!(whole <= usize::MAX);
        return None;
    };
    cut_at(text, size)
}

fn copied(alloc: Global, bytes: &[u8]) -> Result<Seq<u8>, AllocError>
    ensures { IfOk result (λ copy. (copy ≡ bytes.now) × IsBytes copy) }
{
    Ok(Seq::from_vec(bytes.to_vec(alloc)?))
}

// The bytes of a vector.
fn sealed(bytes: Vec<u8>) -> Seq<u8>
    ensures { (result ≡ bytes.items) × IsBytes result }
{
    Seq::from_vec(bytes)
}

// Want of memory, or no bytes.
fn not_decoded(error: FromHexError) -> Result<Option<Seq<u8>>, AllocError>
    ensures { IfOk result (λ bytes. (bytes ≡ None) × (error ≢ FromHexError.OutOfMemory)) }
{
    match error {
        FromHexError::OutOfMemory => Err(AllocError),
        _ => Ok(None),
    }
}

// The bytes that are written by these digits, two in lower case for each.
fn decoded(alloc: Global, digits: &[u8]) -> Result<Option<Seq<u8>>, AllocError>
    ensures { IfOk result (λ bytes. MatchOption bytes ((b : List ℕ) → IsBytes b → digits.now ≢ encode_lower b) (λ b. (digits.now ≡ encode_lower b) × IsBytes b)) }
{
    let bytes = match hex::decode(alloc, digits) {
        Ok(bytes) => bytes,
        Err(error) => return not_decoded(error),
    };
    let own = hex::encode(alloc, bytes.as_slice())?;
    if !is_same(own.as_str().as_bytes(), digits) {
        return Ok(None);
    }
    Ok(Some(sealed(bytes)))
}

// The bytes that are shown so.
fn bytes_of(alloc: Global, is_text: bool, shown: &[u8]) -> Result<Option<Seq<u8>>, AllocError>
    ensures { IfOk result (λ bytes. MatchOption bytes ((b : List ℕ) → IsBytes b → shown.now ≢ shown_bytes is_text b) (λ b. (shown.now ≡ shown_bytes is_text b) × IsBytes b)) }
{
    if is_text {
        Ok(Some(copied(alloc, shown)?))
    } else {
        decoded(alloc, shown)
    }
}

// So many bytes, as they are shown at the head of a text, and a line feed.
pub(crate) fn body_at(
    alloc: Global,
    is_text: bool,
    count: usize,
    text: &[u8],
) -> Result<Option<Body<'_>>, AllocError>
    ensures { IfOk result (λ body. MatchOption body (spec.IsNoBody text.now is_text count) (λ b. spec.IsBodyOf text.now is_text count b.bytes b.rest.now)) }
{
    let Some((shown, rest)) = shown_at(is_text, count, text) else {
        return Ok(None);
    };
    let read = bytes_of(alloc, is_text, shown)?;
    let Some(bytes) = read else {
        return Ok(None);
    };
    Ok(Some(Body { bytes, rest }))
}
