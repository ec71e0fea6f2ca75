//! The words of operands in an import's expression.
ghost use Rattle.std.specs.Prelude.{◌≡◌, ◌++◌, ◌∷◌, [], ◌+◌, ◌<◌, ◌==◌, ◌&&◌, map, true, OnOk};
ghost use Rattle.glue_words.specs.Functions.{parenthesised};
ghost use Rattle.glue_words.specs.Words.{space};
ghost use Rattle.glue_words.specs.declared.word.Word.TheVariants as w;
ghost use Rattle.glue_tree.specs.Spelling.{comma_unless};
ghost use Rattle.glue_steps.specs.Stack.{item_at};
ghost use Rattle.glue_operands.specs.Plainly.{plain_operand};
ghost use Rattle.glue_operands.specs.Spelling as s;

use crate::operand::Operand;
use glue_words::{Word, key, punct};
use std::alloc::{AllocError, Global};
use values::{Duplicate, Seq, Text};

/// Appends a space.
pub fn push_space(alloc: Global, words: &mut Seq<Word>) -> Result<(), AllocError>
    ensures words { OnOk result (words.new ≡ words.old ++ space ∷ []) }
{
    words.push(Word::Gap(Text::from_str(alloc, " ")?))?;
    Ok(())
}

// ` >>> 0`
fn push_shift(alloc: Global, words: &mut Seq<Word>) -> Result<(), AllocError>
    ensures words { OnOk result (words.new ≡ words.old ++ s.shift_words) }
{
    push_space(alloc, words)?;
    words.push(Word::Punct(punct::SHIFT_RIGHT_UNSIGNED))?;
    push_space(alloc, words)?;
    words.push(Word::Num(0))?;
    Ok(())
}

// ` !== 0`
fn push_unequal(alloc: Global, words: &mut Seq<Word>) -> Result<(), AllocError>
    ensures words { OnOk result (words.new ≡ words.old ++ s.unequal_words) }
{
    push_space(alloc, words)?;
    words.push(Word::Punct(punct::UNEQUAL))?;
    push_space(alloc, words)?;
    words.push(Word::Num(0))?;
    Ok(())
}

// Whether an operand is a comparison, which stands in parentheses before a shift.
fn is_comparison(operand: &Operand) -> bool
    ensures test { result ≡ s.is_comparison (plain_operand operand.now) }
{
    matches!(operand, Operand::NotZero(_))
}

/// Appends a mark of punctuation, where it stands.
pub fn push_if(stands: bool, place: u8, words: &mut Seq<Word>) -> Result<(), AllocError>
    ensures words { OnOk result (words.new ≡ words.old ++ s.word_if stands (w.Punct place)) }
{
    if stands {
        words.push(Word::Punct(place))?;
    }
    Ok(())
}

/// Appends the words of an operand.
pub fn push_whole(alloc: Global, operand: &Operand, words: &mut Seq<Word>) -> Result<(), AllocError>
    ensures words { OnOk result (words.new ≡ words.old ++ s.plain_words (plain_operand operand.now)) }
{
    match operand {
        Operand::Missing => {
            words.push(Word::Key(key::NULL))?;
            Ok(())
        }
        Operand::This => {
            words.push(Word::Key(key::THIS))?;
            Ok(())
        }
        Operand::Local(name) => {
            words.push(Word::Local(name.copy(alloc)?))?;
            Ok(())
        }
        Operand::Unsigned(inner) => {
            let wrapped = is_comparison(inner.get());
            push_if(wrapped, punct::OPEN_PAREN, words)?;
            push_whole(alloc, inner.get(), words)?;
            push_if(wrapped, punct::CLOSE_PAREN, words)?;
            push_shift(alloc, words)
        }
        Operand::NotZero(inner) => {
            push_whole(alloc, inner.get(), words)?;
            push_unequal(alloc, words)
        }
    }
}

// An operand in parentheses.
fn push_parenthesised(
    alloc: Global,
    operand: &Operand,
    words: &mut Seq<Word>,
) -> Result<(), AllocError>
    ensures words { OnOk result (words.new ≡ words.old ++ parenthesised (s.plain_words (plain_operand operand.now))) }
{
    words.push(Word::Punct(punct::OPEN_PAREN))?;
    push_whole(alloc, operand, words)?;
    words.push(Word::Punct(punct::CLOSE_PAREN))?;
    Ok(())
}

/// Appends the words of an operand, in parentheses where it holds an operator.
pub fn push_guarded(
    alloc: Global,
    operand: &Operand,
    words: &mut Seq<Word>,
) -> Result<(), AllocError>
    ensures words { OnOk result (words.new ≡ words.old ++ s.guarded_words (plain_operand operand.now)) }
{
    match operand {
        Operand::Unsigned(_) | Operand::NotZero(_) => push_parenthesised(alloc, operand, words),
        _ => push_whole(alloc, operand, words),
    }
}

// An argument, spread or not.
fn push_argument(
    alloc: Global,
    spread: bool,
    operand: &Operand,
    words: &mut Seq<Word>,
) -> Result<(), AllocError>
    ensures words { OnOk result (words.new ≡ words.old ++ s.argument_words spread (plain_operand operand.now)) }
{
    if spread {
        words.push(Word::Punct(punct::SPREAD))?;
        push_parenthesised(alloc, operand, words)
    } else {
        push_whole(alloc, operand, words)
    }
}

/// Appends `, `, which stands before each argument but the first.
pub fn push_comma_unless(
    alloc: Global,
    is_first: bool,
    words: &mut Seq<Word>,
) -> Result<(), AllocError>
    ensures words { OnOk result (words.new ≡ words.old ++ comma_unless is_first) }
{
    if !is_first {
        words.push(Word::Punct(punct::COMMA))?;
        push_space(alloc, words)?;
    }
    Ok(())
}

/// Whether the argument at a place is the last one and is spread.
pub fn is_spread(spread: bool, place: usize, count: usize) -> bool
    requires within { place < count }
    ensures test { result ≡ (spread && place + 1 == count) }
{
    spread && place + 1 == count
}

/// Appends the words of operands as arguments in parentheses, the last one spread where that is true.
pub fn push_arguments(
    alloc: Global,
    spread: bool,
    operands: &[Operand],
    words: &mut Seq<Word>,
) -> Result<(), AllocError>
    ensures words { OnOk result (words.new ≡ words.old ++ parenthesised (s.arguments_words true spread (map plain_operand operands.now))) }
{
    words.push(Word::Punct(punct::OPEN_PAREN))?;
    for place in 0..operands.len() {
        push_comma_unless(alloc, place == 0, words)?;
        push_argument(
            alloc,
            is_spread(spread, place, operands.len()),
            &operands[place],
            words,
        )?;
    }
    words.push(Word::Punct(punct::CLOSE_PAREN))?;
    Ok(())
}

/// Appends the words of the operand at a place, in parentheses where it holds an operator.
pub fn push_guarded_at(
    alloc: Global,
    operands: &[Operand],
    place: usize,
    words: &mut Seq<Word>,
) -> Result<(), AllocError>
    ensures words { OnOk result (words.new ≡ words.old ++ s.guarded_words (item_at s.Missing (map plain_operand operands.now) place)) }
{
    match operands.get(place) {
        Some(operand) => push_guarded(alloc, operand, words),
        None => push_guarded(alloc, &Operand::Missing, words),
    }
}

/// Appends the words of the operand at a place.
pub fn push_whole_at(
    alloc: Global,
    operands: &[Operand],
    place: usize,
    words: &mut Seq<Word>,
) -> Result<(), AllocError>
    ensures words { OnOk result (words.new ≡ words.old ++ s.plain_words (item_at s.Missing (map plain_operand operands.now) place)) }
{
    match operands.get(place) {
        Some(operand) => push_whole(alloc, operand, words),
        None => push_whole(alloc, &Operand::Missing, words),
    }
}
