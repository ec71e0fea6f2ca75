//! The text of items.
ghost use Rattle.std.specs.Prelude.{◌≡◌, ◌++◌, ◌∷◌, [], List, ℕ, IfOk, OnErr};
ghost use Rattle.std.specs.List.{flat_map};
ghost use Rattle.std.specs.String.{string_bytes};
ghost use Rattle.std.specs.Fmt.{signed_decimal};
ghost use Rattle.glue_words.specs.Literal.{literal};
ghost use Rattle.glue_words.specs.Words as spec;

use crate::ident::is_valid_ident;
use crate::item::Item;
use crate::literal::js_string_literal;
use crate::tables::{key_text, punct_text, regex_text};
use crate::word::{NoteKind, Word};
use std::alloc::{AllocError, Global};

/// Writes the characters of a note: `* /` for `*/`, and a space for the end of a line.
#[tactic(auto, unfolding(crate::specs::Words::note_body))]
fn push_note_body(out: &mut String, text: &str) -> Result<(), AllocError>
    ensures { IfOk result (λ _. string_bytes out.new ≡ string_bytes out.old ++ spec.note_body text.now) }
{
    let mut after_star = false;
    for ch in text.chars() {
        push_note_char(out, after_star, ch)?;
        after_star = ch == '*';
    }
    Ok(())
}

fn push_note_char(out: &mut String, after_star: bool, ch: char) -> Result<(), AllocError>
    ensures { IfOk result (λ _. string_bytes out.new ≡ string_bytes out.old ++ spec.note_char after_star ch) }
{
    match ch {
        '/' if after_star => out.push_str(" /"),
        '\n' | '\r' | '\u{2028}' | '\u{2029}' => out.push(' '),
        _ => out.push(ch),
    }
}

/// Writes a mark and the characters of a note behind it.
fn push_marked(out: &mut String, mark: &str, text: &str) -> Result<(), AllocError>
    ensures { IfOk result (λ _. string_bytes out.new ≡ string_bytes out.old ++ mark.now ++ spec.note_body text.now) }
{
    out.push_str(mark)?;
    push_note_body(out, text)
}

fn push_note(out: &mut String, kind: NoteKind, text: &str) -> Result<(), AllocError>
    ensures { IfOk result (λ _. string_bytes out.new ≡ string_bytes out.old ++ spec.note_text kind text.now) }
{
    match kind {
        NoteKind::Open => out.push_str("/**"),
        NoteKind::Line => push_marked(out, " * ", text),
        NoteKind::Close => out.push_str(" */"),
        NoteKind::Slash => push_marked(out, "// ", text),
        NoteKind::Block => {
            push_marked(out, "/* ", text)?;
            out.push_str(" */")
        }
    }
}

fn push_literal(alloc: Global, out: &mut String, text: &str) -> Result<(), AllocError>
    ensures { IfOk result (λ _. string_bytes out.new ≡ string_bytes out.old ++ literal text.now) }
{
    let literal = js_string_literal(alloc, text)?;
    out.push_str(literal.as_str())
}

#[tactic(auto, unfolding(crate::specs::Words::access))]
fn push_access(alloc: Global, out: &mut String, name: &str) -> Result<(), AllocError>
    ensures { IfOk result (λ _. string_bytes out.new ≡ string_bytes out.old ++ spec.access name.now) }
{
    if is_valid_ident(name) {
        out.push('.')?;
        return out.push_str(name);
    }
    out.push('[')?;
    push_literal(alloc, out, name)?;
    out.push(']')
}

#[tactic(auto, unfolding(crate::specs::Words::outer))]
fn push_outer(alloc: Global, out: &mut String, name: &str) -> Result<(), AllocError>
    ensures { IfOk result (λ _. string_bytes out.new ≡ string_bytes out.old ++ spec.outer name.now) }
{
    if is_valid_ident(name) {
        return out.push_str(name);
    }
    push_literal(alloc, out, name)
}

fn push_number(alloc: Global, out: &mut String, value: i64) -> Result<(), AllocError>
    ensures { IfOk result (λ _. string_bytes out.new ≡ string_bytes out.old ++ signed_decimal value) }
{
    let digits = format!(in alloc; "{value}")?;
    out.push_str(digits.as_str())
}

/// Writes the text of a word.
fn push_word(alloc: Global, out: &mut String, word: &Word) -> Result<(), AllocError>
    ensures { IfOk result (λ _. string_bytes out.new ≡ string_bytes out.old ++ spec.text_of word.now) }
{
    match word {
        Word::Punct(place) => out.push_str(punct_text(*place)),
        Word::Key(place) => out.push_str(key_text(*place)),
        Word::Regex(place) => out.push_str(regex_text(*place)),
        Word::Num(value) => push_number(alloc, out, *value),
        Word::Text(text) => push_literal(alloc, out, text.as_str()),
        Word::Note(kind, text) => push_note(out, *kind, text.as_str()),
        Word::Wasm(name) => push_access(alloc, out, name.as_str()),
        Word::Outer(name) => push_outer(alloc, out, name.as_str()),
        Word::Gap(text)
        | Word::Tpl(text)
        | Word::Bind(text)
        | Word::Refer(text, _)
        | Word::Host(text, _)
        | Word::LocalBind(text)
        | Word::Local(text)
        | Word::Prop(text)
        | Word::Splice(text) => out.push_str(text.as_str()),
    }
}

fn push_words(alloc: Global, out: &mut String, words: &[Word]) -> Result<(), AllocError>
    ensures { IfOk result (λ _. string_bytes out.new ≡ string_bytes out.old ++ flat_map spec.text_of words.now) }
{
    for word in words {
        push_word(alloc, out, word)?;
    }
    Ok(())
}

/// The text of items: the texts of their words, in order. Want of memory is its only error.
pub fn print(alloc: Global, items: &[Item]) -> Result<String, AllocError>
    ensures text { IfOk result (λ text. string_bytes text ≡ spec.printed items.now) }
{
    let mut out = String::new(alloc);
    for item in items {
        push_words(alloc, &mut out, item.words.as_slice())?;
    }
    Ok(out)
}
