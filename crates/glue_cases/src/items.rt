use crate::compare::assert_told;
use glue_inputs::{printed, texts};
use glue_scope::property_words;
use glue_words::{Item, Role, Thing, Word, WordBuilder, key, print, punct};
use std::alloc::{AllocError, Global};
use std::process::Abort;
use values::{Duplicate, Seq, Text};

/// `export const x = wasm["a b"];`, word by word.
fn built(alloc: Global) -> Result<String, AllocError> {
    let mut words = WordBuilder::new(alloc);
    words.key(key::EXPORT)?;
    words.space()?;
    words.key(key::CONST)?;
    words.space()?;
    words.bind("x")?;
    words.space()?;
    words.punct(punct::ASSIGN)?;
    words.space()?;
    words.refer("wasm")?;
    words.wasm("a b")?;
    words.push(Word::Punct(punct::SEMICOLON))?;
    words.line_feed()?;
    printed(alloc, words.finish())
}

/// An assignment in a namespace.
fn assigning(alloc: Global) -> Result<Role, AllocError> {
    let path = texts(alloc, &["geo"])?;
    let name = Text::from_str(alloc, "f")?;
    Ok(Role::Assign(path, Thing::Adapter(3), name))
}

fn assignment(alloc: Global) -> Result<Item, AllocError> {
    let words = Seq::from_vec(property_words(alloc, "a.new")?);
    Ok(Item {
        role: assigning(alloc)?,
        words,
    })
}

/// An item and its copy, which is equal.
fn with_copy<H: Abort>(rt: &H, alloc: Global, item: Item) -> Result<Vec<Item>, AllocError> {
    let again = item.copy(alloc)?;
    assert!(rt; again == item);
    Ok(Vec::from_array(alloc, [item, again])?)
}

#[test]
fn words_and_items_are_put_together(rt: HostRuntime) -> Result<(), AllocError> {
    assert_told(&rt, built(rt.alloc()), "export const x = wasm[\"a b\"];\n")?;
    let both = with_copy(&rt, rt.alloc(), assignment(rt.alloc())?)?;
    assert_told(&rt, print(rt.alloc(), &both), ".a[\"new\"].a[\"new\"]")
}
