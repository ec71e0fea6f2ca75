//! Lines that take a module: some of its names, or the whole of it.
ghost use Rattle.std.specs.Prelude.{◌≡◌, ◌++◌, IfOk, OnOk};
ghost use Rattle.glue_lines.specs.Lines as spec;

use crate::form::LineForm;
use glue_words::{Item, Role, WordBuilder, key, punct};
use std::alloc::{AllocError, Global};
use values::Text;

// The keyword that the line begins with, and a space.
fn push_start(words: &mut WordBuilder, form: LineForm) -> Result<(), AllocError>
    ensures words { OnOk result (words.new ≡ words.old ++ spec.start_words form) }
{
    match form {
        LineForm::Es => words.key(key::IMPORT)?,
        LineForm::CommonJs => words.key(key::CONST)?,
    }
    words.space()
}

// `require("path")`.
fn push_required(words: &mut WordBuilder, path: &str) -> Result<(), AllocError>
    ensures words { OnOk result (words.new ≡ words.old ++ spec.required_words path.now) }
{
    words.host_now("require")?;
    words.punct(punct::OPEN_PAREN)?;
    words.text(path)?;
    words.punct(punct::CLOSE_PAREN)
}

// ` from "path"`, or ` = require("path")`.
fn push_source(words: &mut WordBuilder, form: LineForm, path: &str) -> Result<(), AllocError>
    ensures words { OnOk result (words.new ≡ words.old ++ spec.source_words form path.now) }
{
    words.space()?;
    match form {
        LineForm::Es => {
            words.key(key::FROM)?;
            words.space()?;
            words.text(path)
        }
        LineForm::CommonJs => {
            words.punct(punct::ASSIGN)?;
            words.space()?;
            push_required(words, path)
        }
    }
}

// The module, and the end of the line.
fn push_end(words: &mut WordBuilder, form: LineForm, path: &str) -> Result<(), AllocError>
    ensures words { OnOk result (words.new ≡ words.old ++ spec.end_words form path.now) }
{
    push_source(words, form, path)?;
    words.punct(punct::SEMICOLON)?;
    words.line_feed()
}

// ` as `, or `: `.
fn push_link(words: &mut WordBuilder, form: LineForm) -> Result<(), AllocError>
    ensures words { OnOk result (words.new ≡ words.old ++ spec.link_words form) }
{
    match form {
        LineForm::Es => {
            words.space()?;
            words.key(key::AS)?;
        }
        LineForm::CommonJs => words.punct(punct::COLON)?,
    }
    words.space()
}

// An entry in braces.
fn push_entry(
    words: &mut WordBuilder,
    form: LineForm,
    entry: &(Text, Text),
) -> Result<(), AllocError>
    ensures words { OnOk result (words.new ≡ words.old ++ spec.entry_words form entry.now) }
{
    if entry.0.as_str() == entry.1.as_str() {
        return words.bind(entry.1.as_str());
    }
    words.outer(entry.0.as_str())?;
    push_link(words, form)?;
    words.bind(entry.1.as_str())
}

// A further entry.
fn push_next(
    words: &mut WordBuilder,
    form: LineForm,
    entry: &(Text, Text),
) -> Result<(), AllocError>
    ensures words { OnOk result (words.new ≡ words.old ++ spec.next_entry form entry.now) }
{
    words.punct(punct::COMMA)?;
    words.space()?;
    push_entry(words, form, entry)
}

// The further entries.
fn push_further(
    words: &mut WordBuilder,
    form: LineForm,
    entries: &[(Text, Text)],
) -> Result<(), AllocError>
    ensures words { OnOk result (words.new ≡ words.old ++ spec.further_entries form entries.now) }
{
    for entry in entries {
        push_next(words, form, entry)?;
    }
    Ok(())
}

// Entries, with `, ` between them.
fn push_entries(
    words: &mut WordBuilder,
    form: LineForm,
    entries: &[(Text, Text)],
) -> Result<(), AllocError>
    ensures words { OnOk result (words.new ≡ words.old ++ spec.entries_words form entries.now) }
{
    match entries {
        [] => Ok(()),
        [first, others @ ..] => {
            push_entry(words, form, first)?;
            push_further(words, form, others)
        }
    }
}

/// The line that takes names of the module of this text: `import { a, b as c } from "path";`, or
/// `const { a, b: c } = require("path");`.
///
/// An entry is a name in the module and the name that the glue file has for it, which has to be an identifier. It is
/// written once where both are one. A name in the module that is no identifier, as `default`, is written as a string
/// literal. Want of memory is the only error, as of the other calls.
pub fn import_line(
    alloc: Global,
    form: LineForm,
    path: &str,
    entries: &[(Text, Text)],
) -> Result<Item, AllocError>
    ensures item { IfOk result (λ item. item ≡ spec.import_line form path.now entries.now) }
{
    let mut words = WordBuilder::new(alloc);
    push_start(&mut words, form)?;
    words.punct(punct::OPEN_BRACE)?;
    words.space()?;
    push_entries(&mut words, form, entries)?;
    words.space()?;
    words.punct(punct::CLOSE_BRACE)?;
    push_end(&mut words, form, path)?;
    Ok(Item {
        role: Role::Import,
        words: words.finish(),
    })
}

// What names the whole module.
fn push_whole(words: &mut WordBuilder, form: LineForm, name: &str) -> Result<(), AllocError>
    ensures words { OnOk result (words.new ≡ words.old ++ spec.whole_words form name.now) }
{
    match form {
        LineForm::Es => {
            words.punct(punct::TIMES)?;
            words.space()?;
            words.key(key::AS)?;
            words.space()?;
        }
        LineForm::CommonJs => {}
    }
    words.bind(name)
}

/// The line that takes the whole module of this text under `import` and a number: `import * as import1 from "path";`,
/// or `const import1 = require("path");`. Modules are numbered from 1 up.
pub fn foreign_line(
    alloc: Global,
    form: LineForm,
    number: u32,
    path: &str,
) -> Result<Item, AllocError>
    ensures item { IfOk result (λ item. item ≡ spec.foreign_line form number path.now) }
{
    let name = format!(in alloc; "import{number}")?;
    let mut words = WordBuilder::new(alloc);
    push_start(&mut words, form)?;
    push_whole(&mut words, form, name.as_str())?;
    push_end(&mut words, form, path)?;
    Ok(Item {
        role: Role::Foreign(number),
        words: words.finish(),
    })
}
