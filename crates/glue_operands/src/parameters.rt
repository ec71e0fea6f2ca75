//! The parameters of a function: what they are spelled as, and how they are printed.
ghost use Rattle.std.specs.Prelude.{◌≡◌, ◌++◌, ◌∷◌, [], IfOk, OnOk, map, true};
ghost use Rattle.glue_words.specs.Functions.{parenthesised};
ghost use Rattle.glue_words.specs.Words.{line_feed};
ghost use Rattle.glue_words.specs.declared.word.Word.TheVariants as w;
ghost use Rattle.glue_tree.specs.Plainly.{plain_stmts};
ghost use Rattle.glue_tree.specs.Spelling.{block_words, feed_unless, is_none};
ghost use Rattle.glue_operands.specs.Plainly.{plain_operand};
ghost use Rattle.glue_operands.specs.Form as spec;
ghost use Rattle.glue_operands.specs.Spelling as s;

use crate::arguments::{is_spread, push_comma_unless, push_if, push_space};
use crate::form::Form;
use crate::operand::{Operand, push_local};
use glue_tree::{Stmt, words_of};
use glue_words::{Word, punct};
use std::alloc::{AllocError, Global};
use values::{Duplicate, Seq, Text};

// `this`, where it is the first parameter.
fn first_operands(alloc: Global, form: Form) -> Result<Seq<Operand>, AllocError>
    ensures operands { IfOk result (λ operands. map plain_operand operands ≡ spec.first_if form.takes_this s.This []) }
{
    let mut operands = Seq::new(alloc);
    if form.takes_this {
        operands.push(Operand::This)?;
    }
    Ok(operands)
}

/// What the parameters of a form are spelled as, those that are printed with these names: `this` first, where the form takes it, and a local for each
/// name. The only error is want of memory.
pub fn parameters_of(alloc: Global, form: Form, names: &[Text]) -> Result<Seq<Operand>, AllocError>
    ensures operands { IfOk result (λ operands. map plain_operand operands ≡ spec.parameters_of form names.now) }
{
    let mut operands = first_operands(alloc, form)?;
    for name in names {
        push_local(name.copy(alloc)?, &mut operands)?;
    }
    Ok(operands)
}

// `p`, or `...p`.
fn push_parameter(
    alloc: Global,
    gathers: bool,
    name: &Text,
    words: &mut Seq<Word>,
) -> Result<(), AllocError>
    ensures words { OnOk result (words.new ≡ words.old ++ spec.printed_parameter gathers name.now) }
{
    push_if(gathers, punct::SPREAD, words)?;
    words.push(Word::LocalBind(name.copy(alloc)?))?;
    Ok(())
}

// Parameters in parentheses, of which the last one may gather the further arguments.
fn push_parameters(
    alloc: Global,
    gathers: bool,
    names: &[Text],
    words: &mut Seq<Word>,
) -> Result<(), AllocError>
    ensures words { OnOk result (words.new ≡ words.old ++ parenthesised (spec.printed_parameters true gathers names.now)) }
{
    words.push(Word::Punct(punct::OPEN_PAREN))?;
    for place in 0..names.len() {
        push_comma_unless(alloc, place == 0, words)?;
        push_parameter(
            alloc,
            is_spread(gathers, place, names.len()),
            &names[place],
            words,
        )?;
    }
    words.push(Word::Punct(punct::CLOSE_PAREN))?;
    Ok(())
}

// A line feed.
fn push_feed(alloc: Global, words: &mut Seq<Word>) -> Result<(), AllocError>
    ensures words { OnOk result (words.new ≡ words.old ++ line_feed ∷ []) }
{
    words.push(Word::Gap(Text::from_str(alloc, "\n")?))?;
    Ok(())
}

// The line feed behind statements, where there are some.
fn push_end(alloc: Global, body: &[Stmt], words: &mut Seq<Word>) -> Result<(), AllocError>
    ensures words { OnOk result (words.new ≡ words.old ++ feed_unless (is_none body.now)) }
{
    match body {
        [] => Ok(()),
        _ => push_feed(alloc, words),
    }
}

// Statements in braces.
fn push_block(alloc: Global, body: &[Stmt], words: &mut Seq<Word>) -> Result<(), AllocError>
    ensures words { OnOk result (words.new ≡ words.old ++ block_words (plain_stmts body.now)) }
{
    words.push(Word::Punct(punct::OPEN_BRACE))?;
    push_feed(alloc, words)?;
    words.append(words_of(alloc, body)?)?;
    push_end(alloc, body, words)?;
    words.push(Word::Punct(punct::CLOSE_BRACE))?;
    Ok(())
}

/// The words of a function of a form with these printed parameters and statements, from the parameters' parenthesis to the closing brace.
/// The only error is want of memory.
pub fn form_words_of(
    alloc: Global,
    form: Form,
    names: &[Text],
    body: &[Stmt],
) -> Result<Seq<Word>, AllocError>
    ensures words { IfOk result (λ words. words ≡ spec.form_words form names.now (plain_stmts body.now)) }
{
    let mut words = Seq::new(alloc);
    push_parameters(alloc, form.has_rest, names, &mut words)?;
    push_space(alloc, &mut words)?;
    push_block(alloc, body, &mut words)?;
    Ok(words)
}
