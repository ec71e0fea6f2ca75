//! Enums: a frozen object that has each variant's number by its name, and its name by its number.
ghost use Rattle.std.specs.Prelude.{◌≡◌, ◌++◌, IfOk, OnOk};
ghost use Rattle.std.specs.Fmt.{signed_decimal};
ghost use Rattle.std.specs.List.{flat_map};
ghost use Rattle.glue_exports.specs.Enums as spec;

use crate::definition::ExportDefinition;
use crate::notes::{lines_of, push_comment, push_note};
use crate::qualified::qualified_name;
use glue_shared::AuxEnum;
use glue_words::{Item, Role, Thing, Word, WordBuilder, key, punct};
use std::alloc::{AllocError, Global};
use values::{Duplicate, Seq, Text};

fn number_text(alloc: Global, number: i64) -> Result<Text, AllocError>
    ensures text { IfOk result (λ text. text ≡ signed_decimal number) }
{
    Ok(Text::new(format!(in alloc; "{number}")?))
}

// The numbers of further variants.
fn push_next_numbers(
    alloc: Global,
    text: &mut Text,
    variants: &[(Text, i64, Text)],
) -> Result<(), AllocError>
    ensures text { OnOk result (text.new ≡ text.old ++ flat_map spec.next_number variants.now) }
{
    for variant in variants {
        text.push_str(" | ")?;
        text.push_str(number_text(alloc, variant.1)?.as_str())?;
    }
    Ok(())
}

// The variants' numbers.
fn push_numbers(
    alloc: Global,
    text: &mut Text,
    variants: &[(Text, i64, Text)],
) -> Result<(), AllocError>
    ensures text { OnOk result (text.new ≡ text.old ++ spec.numbers_text variants.now) }
{
    match variants {
        [] => Ok(()),
        [first, others @ ..] => {
            text.push_str(number_text(alloc, first.1)?.as_str())?;
            push_next_numbers(alloc, text, others)
        }
    }
}

// `@enum {1 | 2}`.
fn type_line(alloc: Global, variants: &[(Text, i64, Text)]) -> Result<Text, AllocError>
    ensures line { IfOk result (λ line. line ≡ spec.type_line variants.now) }
{
    let mut line = Text::from_str(alloc, "@enum {")?;
    push_numbers(alloc, &mut line, variants)?;
    line.push_str("}")?;
    Ok(line)
}

// The lines of the enum's note.
fn enum_lines(alloc: Global, described: &AuxEnum) -> Result<Seq<Text>, AllocError>
    ensures lines { IfOk result (λ lines. lines ≡ spec.enum_lines described.now) }
{
    let mut lines = lines_of(alloc, &described.comments)?;
    lines.push(type_line(alloc, described.variants.as_slice())?)?;
    Ok(lines)
}

// `Name: 1, "1": "Name",`
fn push_entry(
    alloc: Global,
    words: &mut WordBuilder,
    name: &str,
    number: i64,
) -> Result<(), AllocError>
    ensures words { OnOk result (words.new ≡ words.old ++ spec.entry_words name.now number) }
{
    words.prop(name)?;
    words.punct(punct::COLON)?;
    words.space()?;
    words.number(number)?;
    words.punct(punct::COMMA)?;
    words.space()?;
    words.push(Word::Text(number_text(alloc, number)?))?;
    words.punct(punct::COLON)?;
    words.space()?;
    words.text(name)?;
    words.punct(punct::COMMA)?;
    words.line_feed()
}

// That behind the note of the variant's comment.
fn push_variant(
    alloc: Global,
    words: &mut WordBuilder,
    variant: &(Text, i64, Text),
) -> Result<(), AllocError>
    ensures words { OnOk result (words.new ≡ words.old ++ spec.variant_words variant.now) }
{
    push_comment(alloc, words, variant.2.as_str())?;
    push_entry(alloc, words, variant.0.as_str(), variant.1)
}

fn push_variants(
    alloc: Global,
    words: &mut WordBuilder,
    variants: &[(Text, i64, Text)],
) -> Result<(), AllocError>
    ensures words { OnOk result (words.new ≡ words.old ++ flat_map spec.variant_words variants.now) }
{
    for variant in variants {
        push_variant(alloc, words, variant)?;
    }
    Ok(())
}

// `const name = `
fn push_assigned(words: &mut WordBuilder, name: &str) -> Result<(), AllocError>
    ensures words { OnOk result (words.new ≡ words.old ++ spec.assigned_start name.now) }
{
    words.key(key::CONST)?;
    words.space()?;
    words.bind(name)?;
    words.space()?;
    words.punct(punct::ASSIGN)?;
    words.space()
}

// `Object.freeze({`
fn push_freeze(words: &mut WordBuilder) -> Result<(), AllocError>
    ensures words { OnOk result (words.new ≡ words.old ++ spec.freeze_start) }
{
    words.host_now("Object")?;
    words.punct(punct::DOT)?;
    words.prop("freeze")?;
    words.punct(punct::OPEN_PAREN)?;
    words.punct(punct::OPEN_BRACE)?;
    words.line_feed()
}

// `});`
fn push_object_end(words: &mut WordBuilder) -> Result<(), AllocError>
    ensures words { OnOk result (words.new ≡ words.old ++ spec.object_end) }
{
    words.punct(punct::CLOSE_BRACE)?;
    words.punct(punct::CLOSE_PAREN)?;
    words.punct(punct::SEMICOLON)?;
    words.line_feed()
}

// The object under this name.
fn push_object(
    alloc: Global,
    words: &mut WordBuilder,
    name: &str,
    variants: &[(Text, i64, Text)],
) -> Result<(), AllocError>
    ensures words { OnOk result (words.new ≡ words.old ++ spec.object_words name.now variants.now) }
{
    push_assigned(words, name)?;
    push_freeze(words)?;
    push_variants(alloc, words, variants)?;
    push_object_end(words)
}

// The note, and behind it the object.
fn enum_words(alloc: Global, described: &AuxEnum, name: &str) -> Result<Seq<Word>, AllocError>
    ensures words { IfOk result (λ words. words ≡ spec.enum_words described.now name.now) }
{
    let mut words = WordBuilder::new(alloc);
    push_note(&mut words, enum_lines(alloc, described)?.as_slice())?;
    push_object(alloc, &mut words, name, described.variants.as_slice())?;
    Ok(words.finish())
}

fn enum_thing(alloc: Global, described: &AuxEnum) -> Result<Thing, AllocError>
    ensures thing { IfOk result (λ thing. thing ≡ spec.enum_thing described.now) }
{
    let namespace = described.namespace.as_slice();
    Ok(Thing::Enum(qualified_name(alloc, namespace, described.name.as_str())?))
}

fn enum_item(alloc: Global, described: &AuxEnum, name: &str) -> Result<Item, AllocError>
    ensures item { IfOk result (λ item. item ≡ spec.enum_item described.now name.now) }
{
    Ok(Item {
        role: Role::Declare(enum_thing(alloc, described)?),
        words: enum_words(alloc, described, name)?,
    })
}

/// What is published for an enum, which has this identifier in the glue file: the declaration of a frozen object that has
/// each variant's number by its name, and its name by its number. A note before it has the lines of the enum's comment and
/// `@enum` with the numbers, and the note before a variant has those of the variant's comment. The names of the variants
/// have to be identifiers, and none of them `__proto__`, which is no key of its own. Want of memory is the only error.
pub fn enum_definition(
    alloc: Global,
    described: &AuxEnum,
    identifier: &Text,
) -> Result<ExportDefinition, AllocError>
    ensures definition { IfOk result (λ definition. definition ≡ spec.enum_definition described.now identifier.now) }
{
    let item = enum_item(alloc, described, identifier.as_str())?;
    Ok(ExportDefinition {
        thing: enum_thing(alloc, described)?,
        identifier: identifier.copy(alloc)?,
        items: Seq::from_vec(vec![in alloc; item]?),
        private: described.private,
        parent: None,
    })
}
