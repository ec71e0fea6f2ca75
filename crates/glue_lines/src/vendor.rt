//! Constants of names that have vendor prefixes.
ghost use Rattle.std.specs.Prelude.{◌≡◌, ◌++◌, IfOk, OnOk, map};
ghost use Rattle.std.specs.List.{flat_map};
ghost use Rattle.glue_lines.specs.Vendor as spec;

use glue_words::{Item, Role, Word, WordBuilder, key, punct};
use std::alloc::{AllocError, Global};
use values::{Duplicate, Seq, Text};

// A name behind a prefix.
fn prefixed_name(alloc: Global, prefix: &Text, name: &str) -> Result<Text, AllocError>
    ensures name { IfOk result (λ text. text ≡ prefix.now ++ name.now) }
{
    let mut text = prefix.copy(alloc)?;
    text.push_str(name)?;
    Ok(text)
}

// The name, and the name behind each prefix.
fn vendor_names(alloc: Global, name: &str, prefixes: &[Text]) -> Result<Seq<Text>, AllocError>
    ensures names { IfOk result (λ names. names ≡ spec.vendor_names name.now prefixes.now) }
{
    let mut names = Seq::new(alloc);
    names.push(Text::from_str(alloc, name)?)?;
    for prefix in prefixes {
        names.push(prefixed_name(alloc, prefix, name)?)?;
    }
    Ok(names)
}

// `(typeof name !== "undefined" ? name : `
fn tested_words(alloc: Global, name: &str) -> Result<Seq<Word>, AllocError>
    ensures words { IfOk result (λ words. words ≡ spec.tested_words name.now) }
{
    let mut words = WordBuilder::new(alloc);
    words.punct(punct::OPEN_PAREN)?;
    words.key(key::TYPEOF)?;
    words.space()?;
    words.host_now(name)?;
    words.space()?;
    words.punct(punct::UNEQUAL)?;
    words.space()?;
    words.text("undefined")?;
    words.space()?;
    words.punct(punct::QUESTION)?;
    words.space()?;
    words.host_now(name)?;
    words.space()?;
    words.punct(punct::COLON)?;
    words.space()?;
    Ok(words.finish())
}

// That of each name.
fn push_tested(alloc: Global, words: &mut WordBuilder, names: &[Text]) -> Result<(), AllocError>
    ensures words { OnOk result (words.new ≡ words.old ++ flat_map spec.tested_words names.now) }
{
    for name in names {
        words.append(tested_words(alloc, name.as_str())?)?;
    }
    Ok(())
}

// A closing parenthesis for each name.
fn push_closed(words: &mut WordBuilder, names: &[Text]) -> Result<(), AllocError>
    ensures words { OnOk result (words.new ≡ words.old ++ map spec.closing_word names.now) }
{
    for _name in names {
        words.punct(punct::CLOSE_PAREN)?;
    }
    Ok(())
}

// The first of the names that is there, or `undefined`.
fn first_there(alloc: Global, names: &[Text]) -> Result<Seq<Word>, AllocError>
    ensures words { IfOk result (λ words. words ≡ spec.first_there names.now) }
{
    let mut words = WordBuilder::new(alloc);
    push_tested(alloc, &mut words, names)?;
    words.host_now("undefined")?;
    push_closed(&mut words, names)?;
    Ok(words.finish())
}

// The statement with these names of the host.
fn constant_words(alloc: Global, bound: &str, names: &[Text]) -> Result<Seq<Word>, AllocError>
    ensures words { IfOk result (λ words. words ≡ spec.constant_words bound.now names.now) }
{
    let mut words = WordBuilder::new(alloc);
    words.key(key::CONST)?;
    words.space()?;
    words.bind(bound)?;
    words.space()?;
    words.punct(punct::ASSIGN)?;
    words.space()?;
    words.append(first_there(alloc, names)?)?;
    words.punct(punct::SEMICOLON)?;
    words.line_feed()?;
    Ok(words.finish())
}

/// The constant that is the first of these that is there: the host's name, and the name behind each prefix in turn; and
/// `undefined` where none is there. `const bound = (typeof name !== "undefined" ? name : (.. : undefined));`
///
/// The name that the constant is bound to has to be an identifier, and so has each name of the host. Want of memory is
/// the only error.
pub fn vendor_constant(
    alloc: Global,
    bound: &str,
    name: &str,
    prefixes: &[Text],
) -> Result<Item, AllocError>
    ensures item { IfOk result (λ item. item ≡ spec.vendor_constant bound.now name.now prefixes.now) }
{
    let names = vendor_names(alloc, name, prefixes)?;
    let words = constant_words(alloc, bound, names.as_slice())?;
    Ok(Item {
        role: Role::Import,
        words,
    })
}
