//! The statements of an import's expression.
ghost use Rattle.std.specs.Prelude.{◌≡◌, ◌++◌, ◌∷◌, [], false, codes, map, IfOk, OnOk};
ghost use Rattle.glue_words.specs.declared.word.Word.TheVariants as w;
ghost use Rattle.glue_scope.specs.Properties.{property_parts};
ghost use Rattle.glue_steps.specs.Stack.{below, item_at};
ghost use Rattle.glue_operands.specs.Plainly.{plain_operand};
ghost use Rattle.glue_operands.specs.Spelling as s;

use crate::arguments::{push_arguments, push_guarded_at, push_whole_at};
use crate::operand::Operand;
use glue_imports::{Expression, Part};
use glue_scope::property_words;
use glue_tree::push_const;
use glue_words::{NoteKind, Word, punct};
use std::alloc::{AllocError, Global};
use values::{Duplicate, Seq, Text};

// The access of the properties that a field names.
fn push_field(alloc: Global, field: &Text, words: &mut Seq<Word>) -> Result<(), AllocError>
    ensures words { OnOk result (words.new ≡ words.old ++ property_parts field.now) }
{
    let access = property_words(alloc, field.as_str())?;
    words.append(Seq::from_vec(access))
}

// A name of the host, and the properties that lead from it to a value.
fn push_host(
    alloc: Global,
    name: &Text,
    fields: &[Text],
    words: &mut Seq<Word>,
) -> Result<(), AllocError>
    ensures words { OnOk result (words.new ≡ words.old ++ (w.Host name.now false ∷ s.path_words fields.now)) }
{
    words.push(Word::Host(name.copy(alloc)?, false))?;
    for field in fields {
        push_field(alloc, field, words)?;
    }
    Ok(())
}

// An export of the module.
fn push_export(alloc: Global, name: &Text, words: &mut Seq<Word>) -> Result<(), AllocError>
    ensures words { OnOk result (words.new ≡ words.old ++ (w.Refer (codes "wasm") false ∷ w.Wasm name.now ∷ [])) }
{
    words.push(Word::Refer(Text::from_str(alloc, "wasm")?, false))?;
    words.push(Word::Wasm(name.copy(alloc)?))?;
    Ok(())
}

// Whether words begin with a dot.
fn begins_with_dot(words: &[Word]) -> bool
    ensures test { result ≡ s.begins_with_dot words.now }
{
    match words.get(0) {
        Some(Word::Punct(place)) => *place == punct::DOT,
        _ => false,
    }
}

// The words but the first.
fn behind_first(words: &[Word]) -> &[Word]
    ensures others { result.now ≡ below words.now }
{
    if words.is_empty() {
        words
    } else {
        words.split_at(1).1
    }
}

// The words without the dot that they begin with, if they do.
fn without_dot(words: &[Word]) -> &[Word]
    ensures others { result.now ≡ s.without_dot words.now }
{
    if begins_with_dot(words) {
        behind_first(words)
    } else {
        words
    }
}

// Copies of words behind others.
fn push_copies(alloc: Global, more: &[Word], words: &mut Seq<Word>) -> Result<(), AllocError>
    ensures words { OnOk result (words.new ≡ words.old ++ more.now) }
{
    for word in more {
        words.push(word.copy(alloc)?)?;
    }
    Ok(())
}

// The access of the properties that a field names, of what may be absent.
fn push_chained(alloc: Global, field: &Text, words: &mut Seq<Word>) -> Result<(), AllocError>
    ensures words { OnOk result (words.new ≡ words.old ++ s.chained_words field.now) }
{
    let access = property_words(alloc, field.as_str())?;
    words.push(Word::Punct(punct::OPTIONAL))?;
    push_copies(alloc, without_dot(access.as_slice()), words)
}

// The operands but the first.
fn others(operands: &[Operand]) -> &[Operand]
    ensures others { map plain_operand result.now ≡ below (map plain_operand operands.now) }
{
    if operands.is_empty() {
        operands
    } else {
        operands.split_at(1).1
    }
}

// The empty name.
fn no_name(alloc: Global) -> Text
    ensures name { result ≡ [] }
{
    Text::new(String::new(alloc))
}

// The name of the local at a place, or the empty one where it is lacking.
fn local_name(alloc: Global, locals: &[Text], place: usize) -> Result<Text, AllocError>
    ensures name { IfOk result (λ name. name ≡ item_at [] locals.now place) }
{
    match locals.get(place) {
        Some(name) => Ok(name.copy(alloc)?),
        None => Ok(no_name(alloc)),
    }
}

// The word of a part that is one word, whatever the locals and the operands are.
fn fixed_word(alloc: Global, part: &Part) -> Result<Option<Word>, AllocError>
    ensures word { IfOk result (λ word. word ≡ s.fixed_word part.now) }
{
    match part {
        Part::Name(name) => Ok(Some(Word::Refer(name.copy(alloc)?, false))),
        Part::Exports => Ok(Some(Word::Refer(Text::from_str(alloc, "wasm")?, false))),
        Part::Member(name) => Ok(Some(Word::Prop(name.copy(alloc)?))),
        Part::Literal(text) => Ok(Some(Word::Text(text.copy(alloc)?))),
        Part::Number(value) => Ok(Some(Word::Num(*value))),
        Part::Punct(place) => Ok(Some(Word::Punct(*place))),
        Part::Key(place) => Ok(Some(Word::Key(*place))),
        Part::Space => Ok(Some(Word::Gap(Text::from_str(alloc, " ")?))),
        Part::LineFeed => Ok(Some(Word::Gap(Text::from_str(alloc, "\n")?))),
        Part::Note(text) => Ok(Some(Word::Note(NoteKind::Slash, text.copy(alloc)?))),
        _ => Ok(None),
    }
}

// The words of a part that reads properties or an export, or goes by operands.
fn push_operands(
    alloc: Global,
    part: &Part,
    operands: &[Operand],
    words: &mut Seq<Word>,
) -> Result<(), AllocError>
    ensures words { OnOk result (words.new ≡ words.old ++ s.operand_words (map plain_operand operands.now) part.now) }
{
    match part {
        Part::Host(name, fields) => push_host(alloc, name, fields.as_slice(), words),
        Part::Export(name) => push_export(alloc, name, words),
        Part::Property(name) => push_field(alloc, name, words),
        Part::Chained(name) => push_chained(alloc, name, words),
        Part::Operand(place) => push_guarded_at(alloc, operands, *place, words),
        Part::Whole(place) => push_whole_at(alloc, operands, *place, words),
        Part::Arguments(spread) => push_arguments(alloc, *spread, operands, words),
        Part::OtherArguments(spread) => push_arguments(alloc, *spread, others(operands), words),
        _ => Ok(()),
    }
}

// The words of a part that goes by locals or operands, or reads properties or an export.
fn push_varied(
    alloc: Global,
    part: &Part,
    locals: &[Text],
    operands: &[Operand],
    words: &mut Seq<Word>,
) -> Result<(), AllocError>
    ensures words { OnOk result (words.new ≡ words.old ++ s.varied_words locals.now (map plain_operand operands.now) part.now) }
{
    match part {
        Part::Binding(place) => {
            words.push(Word::LocalBind(local_name(alloc, locals, *place)?))?;
            Ok(())
        }
        Part::Local(place) => {
            words.push(Word::Local(local_name(alloc, locals, *place)?))?;
            Ok(())
        }
        _ => push_operands(alloc, part, operands, words),
    }
}

// The words of a part.
fn push_part(
    alloc: Global,
    part: &Part,
    locals: &[Text],
    operands: &[Operand],
    words: &mut Seq<Word>,
) -> Result<(), AllocError>
    ensures words { OnOk result (words.new ≡ words.old ++ s.part_words locals.now (map plain_operand operands.now) part.now) }
{
    match fixed_word(alloc, part)? {
        Some(word) => {
            words.push(word)?;
            Ok(())
        }
        None => push_varied(alloc, part, locals, operands, words),
    }
}

// The words of parts.
fn push_parts(
    alloc: Global,
    parts: &[Part],
    locals: &[Text],
    operands: &[Operand],
    words: &mut Seq<Word>,
) -> Result<(), AllocError>
    ensures words { OnOk result (words.new ≡ words.old ++ s.parts_words parts.now locals.now (map plain_operand operands.now)) }
{
    for part in parts {
        push_part(alloc, part, locals, operands, words)?;
    }
    Ok(())
}

// `const name = `, where there is a name.
fn push_start(alloc: Global, bound: &Option<Text>, words: &mut Seq<Word>) -> Result<(), AllocError>
    ensures words { OnOk result (words.new ≡ words.old ++ s.start_words bound.now) }
{
    match bound {
        None => Ok(()),
        Some(name) => push_const(alloc, name, words),
    }
}

/// The words of the statements of an import's expression, with locals of these names; its answer is bound to a local if there is one. Where a local
/// is lacking its name is empty, and for a lacking operand `null` stands. The only error is want of memory.
pub fn import_line(
    alloc: Global,
    bound: &Option<Text>,
    expression: &Expression,
    locals: &[Text],
    operands: &[Operand],
) -> Result<Seq<Word>, AllocError>
    ensures words { IfOk result (λ words. words ≡ s.import_line_words bound.now expression.now locals.now (map plain_operand operands.now)) }
{
    let mut words = Seq::new(alloc);
    push_parts(
        alloc,
        expression.prelude.as_slice(),
        locals,
        operands,
        &mut words,
    )?;
    push_start(alloc, bound, &mut words)?;
    push_parts(
        alloc,
        expression.value.as_slice(),
        locals,
        operands,
        &mut words,
    )?;
    words.push(Word::Punct(punct::SEMICOLON))?;
    Ok(words)
}

/// The words of parts that go by neither locals nor operands: where one does, the name is empty, and the operand `null`. Want of memory is the
/// only error.
pub fn spell(alloc: Global, parts: &[Part]) -> Result<Seq<Word>, AllocError>
    ensures words { IfOk result (λ words. words ≡ s.parts_words parts.now [] []) }
{
    let mut words = Seq::new(alloc);
    push_parts(alloc, parts, &[], &[], &mut words)?;
    Ok(words)
}
