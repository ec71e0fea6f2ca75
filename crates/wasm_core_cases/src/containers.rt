use crate::compare::assert_case;
use std::alloc::{AllocError, Global};
use std::mem::size_of;
use values::{Boxed, Duplicate, Map, Seq, Text, TextMap};

fn names(alloc: Global) -> Result<Seq<Text>, AllocError> {
    let mut names = Seq::new(alloc);
    names.push(Text::from_str(alloc, "a")?)?;
    Ok(names)
}

/// Whether a copy is equal.
fn is_copied<T: Duplicate + PartialEq>(alloc: Global, value: &T) -> Result<bool, AllocError> {
    Ok(value.copy(alloc)? == *value)
}

/// Whether a copy of a list is equal.
fn is_list_copied(alloc: Global) -> Result<bool, AllocError> {
    let names = names(alloc)?;
    let is_copied = is_copied(alloc, &names);
    drop(names);
    is_copied
}

/// Puts a value at a key: whether the key is new.
fn put(
    alloc: Global,
    table: &mut Map<Text, u32>,
    key: &str,
    value: u32,
) -> Result<bool, AllocError> {
    let key = Text::from_str(alloc, key)?;
    Ok(table.insert(key, value)?.is_none())
}

fn at(alloc: Global, table: &Map<Text, u32>, key: &str) -> Result<Option<u32>, AllocError> {
    let key = Text::from_str(alloc, key)?;
    Ok(table.get(&key).copied())
}

/// What a copy has at `b`.
fn copied_at_b(alloc: Global, table: &Map<Text, u32>) -> Result<Option<u32>, AllocError> {
    let other = table.copy(alloc)?;
    let found = at(alloc, &other, "b");
    drop(other);
    found
}

/// Whether keys are new where a 2 is put at `b` and a 1 at `a`, and a copy then is equal, with the 2 at `b`.
fn are_pairs_copied(alloc: Global, table: &mut Map<Text, u32>) -> Result<bool, AllocError> {
    let are_new = put(alloc, table, "b", 2)? && put(alloc, table, "a", 1)?;
    Ok(are_new && is_copied(alloc, table)? && copied_at_b(alloc, table)? == Some(2))
}

/// The same of a table that is empty at first.
fn is_table_copied(alloc: Global) -> Result<bool, AllocError> {
    let mut table = Map::new(alloc);
    let is_copied = are_pairs_copied(alloc, &mut table);
    drop(table);
    is_copied
}

/// Whether `b` is new where a 3 is put there, which is then found.
fn is_letter_found(alloc: Global, texts: &mut TextMap<u32>) -> Result<bool, AllocError> {
    let key = Text::from_str(alloc, "b")?;
    let is_new = texts.insert(key, 3)?.is_none();
    Ok(is_new && texts.get("b").copied() == Some(3))
}

/// The same in a table of texts that is empty at first.
fn is_text_found(alloc: Global) -> Result<bool, AllocError> {
    let mut texts = TextMap::new(alloc);
    let is_found = is_letter_found(alloc, &mut texts);
    drop(texts);
    is_found
}

#[test]
fn containers_are_copied_and_texts_found(rt: HostRuntime) -> Result<(), AllocError> {
    let cases = [
        ("a list is copied", is_list_copied(rt.alloc())?),
        ("a table is copied", is_table_copied(rt.alloc())?),
        ("a text is found by its letters", is_text_found(rt.alloc())?),
    ];
    for (case, holds) in cases {
        assert_case(&rt, holds, &case);
    }
    Ok(())
}

/// The sizes of a text, a list, a box and a table.
const SIZES: &[usize] = &[24, 24, 8, 24];

#[test]
fn sizes(rt: HostRuntime) {
    let found = [
        size_of::<Text>(),
        size_of::<Seq<Text>>(),
        size_of::<Boxed<u32>>(),
        size_of::<Map<Text, u32>>(),
    ];
    assert_eq!(rt; found.as_slice(), SIZES);
}
