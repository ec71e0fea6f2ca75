//! Keys are printed, and keys and names are read.
ghost use Rattle.std.specs.Prelude.{◌≡◌, ◌≢◌, ◌↔◌, ◌<◌, ◌+◌, ◌*◌, ◌^◌, ◌++◌, [], ℕ, List, Option, Some, None, IfOk, IsTrue, MatchOption, length, map, slice_index_or};
ghost use Rattle.std.specs.Fmt.{decimal};
ghost use Rattle.values.specs.Lists.{IsIn};
ghost use Rattle.glue_words.specs.Names.{bound_in, bound_name};
ghost use Rattle.helper_table.specs.Names as names;
ghost use Rattle.helper_table.specs.Closed.{IsBinder, IsKeyed};
ghost use Rattle.helper_table.specs.Made as spec;

use crate::kinds::{
    DECODER, FAMILIES, FAMILY_BINDS, FAMILY_NAMES, SINGLE_BINDS, SINGLE_KEYS, SINGLE_NAMES, SINGLES,
};
use glue_scope::MemView;
use glue_words::Word;
use std::alloc::{AllocError, Global};
use values::Text;

// The text at a place.
fn text_at(texts: &'static [&'static str], place: usize) -> &'static str
    requires place { place < length texts.now }
    ensures text { result.now ≡ slice_index_or (map (λ t. t.now) texts.now) place [] }
{
    texts[place]
}

// The place of a text, or None where it is none of these.
fn place_in(texts: &'static [&'static str], text: &str) -> Option<usize>
    ensures place { MatchOption result (names.IsNoText (length texts.now) (map (λ t. t.now) texts.now) text.now) (λ p. names.IsTextAt (length texts.now) (map (λ t. t.now) texts.now) text.now p) }
{
    for place in 0..texts.len() {
        if text == text_at(texts, place) {
            return Some(place);
        }
    }
    None
}

// What stands behind the stem.
fn rest_after<'a>(name: &'a str, stem: &str) -> Option<&'a str>
    ensures rest { MatchOption result ((rest : List ℕ) → name.now ≢ stem.now ++ rest) (λ rest. name.now ≡ stem.now ++ rest.now) }
{
    name.strip_prefix(stem)
}

// The number whose decimal text this is.
fn read_number(alloc: Global, text: &str) -> Result<Option<u32>, AllocError>
    ensures number { IfOk result (λ found. MatchOption found ((n : ℕ) → n < 2 ^ 32 → text.now ≢ decimal n) (λ n. (n < 2 ^ 32) × (text.now ≡ decimal n))) }
{
    match text.parse::<u32>() {
        Err(_) => Ok(None),
        Ok(number) => {
            let again = format!(in alloc; "{number}")?;
            if again.as_str() == text {
                Ok(Some(number))
            } else {
                Ok(None)
            }
        }
    }
}

// The place of a memory or a table that stands behind a stem.
fn place_after(alloc: Global, name: &str, stem: &str) -> Result<Option<u32>, AllocError>
    ensures place { IfOk result (λ found. MatchOption found (names.IsUnnumbered stem.now name.now) (λ n. names.IsNumbered stem.now name.now n)) }
{
    match rest_after(name, stem) {
        None => Ok(None),
        Some(rest) => read_number(alloc, rest),
    }
}

// The place of a name among those that go by a memory or a table, and the place of that.
fn find_placed(alloc: Global, name: &str) -> Result<Option<(usize, u32)>, AllocError>
    ensures placed { IfOk result (λ found. MatchOption found (names.IsUnplaced name.now) (λ r. names.IsPlaced name.now r)) }
{
    for place in 0..FAMILY_BINDS {
        let stem = text_at(&FAMILY_NAMES, place);
        if let Some(number) = place_after(alloc, name, stem)? {
            return Ok(Some((place, number)));
        }
    }
    Ok(None)
}

// The helper whose name stands at a place.
fn single_owner(place: usize) -> usize
    ensures owner { result ≡ names.single_owner place }
{
    if place < SINGLES { place } else { DECODER }
}

fn family_owner(place: usize) -> usize
    ensures owner { result ≡ names.family_owner place }
{
    if place < FAMILIES {
        place
    } else {
        place - FAMILIES
    }
}

/// The helper that alone can bind a name, whatever the parts are. Want of memory is the only error, as of the call below.
pub fn find_binder(alloc: Global, name: &str) -> Result<Option<usize>, AllocError>
    ensures found { IfOk result (λ found. IsBinder name.now found) }
{
    if let Some(place) = place_in(&SINGLE_NAMES, name) {
        return Ok(Some(single_owner(place)));
    }
    match find_placed(alloc, name)? {
        None => Ok(None),
        Some((place, number)) => {
            let family = family_owner(place);
            Ok(Some(SINGLES + FAMILIES * number as usize + family))
        }
    }
}

/// The helper with a key.
pub fn find_key(alloc: Global, key: &str) -> Result<Option<usize>, AllocError>
    ensures found { IfOk result (λ found. IsKeyed key.now found) }
{
    if let Some(place) = place_in(&SINGLE_KEYS, key) {
        return Ok(Some(place));
    }
    match find_placed(alloc, key)? {
        Some((place, number)) if place < FAMILIES => {
            Ok(Some(SINGLES + FAMILIES * number as usize + place))
        }
        _ => Ok(None),
    }
}

/// The key of a helper. Want of memory is the only error.
pub fn helper_key(alloc: Global, node: usize) -> Result<Text, AllocError>
    requires node { node < SINGLES + FAMILIES * 2 ^ 32 }
    ensures key { IfOk result (λ text. text ≡ spec.helper_key node) }
{
    if node < SINGLES {
        Text::from_str(alloc, text_at(&SINGLE_KEYS, node))
    } else {
        let place = node - SINGLES;
        let view = MemView {
            name: Text::from_str(alloc, text_at(&FAMILY_NAMES, place % FAMILIES))?,
            num: (place / FAMILIES) as u32,
        };
        Ok(Text::new(format!(in alloc; "{view}")?))
    }
}

// Whether a word declares a name.
fn declares(word: &Word, name: &str) -> bool
    ensures test { IsTrue result ↔ (bound_name word.now ≡ Some name.now) }
{
    match word {
        Word::Bind(own) => own.as_str() == name,
        _ => false,
    }
}

/// Whether one of the words declares a name.
pub fn binds(words: &[Word], name: &str) -> bool
    ensures test { IsTrue result ↔ IsIn name.now (bound_in words.now) }
{
    for word in words {
        if declares(word, name) {
            return true;
        }
    }
    false
}
