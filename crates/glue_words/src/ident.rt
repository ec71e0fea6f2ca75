//! Identifiers.
ghost use Rattle.std.specs.Prelude.{◌≡◌, ◌||◌, ◌==◌, ◌++◌, ◌∷◌, [], length, IfOk, IsTrue};
ghost use Rattle.std.specs.List.{list_all};
ghost use Rattle.std.specs.Str.{chars};
ghost use Rattle.std.specs.String.{string_bytes};
ghost use Rattle.glue_words.specs.Ident as spec;

use std::alloc::{AllocError, Global};
use unicode_ident::{is_xid_continue, is_xid_start};

/// Names that are no identifiers.
pub const RESERVED: [&str; 48] = [
    "arguments",
    "await",
    "break",
    "case",
    "catch",
    "class",
    "const",
    "continue",
    "debugger",
    "default",
    "delete",
    "do",
    "else",
    "enum",
    "eval",
    "export",
    "extends",
    "false",
    "finally",
    "for",
    "function",
    "if",
    "implements",
    "import",
    "in",
    "instanceof",
    "interface",
    "let",
    "new",
    "null",
    "package",
    "private",
    "protected",
    "public",
    "return",
    "static",
    "super",
    "switch",
    "this",
    "throw",
    "true",
    "try",
    "typeof",
    "var",
    "void",
    "while",
    "with",
    "yield",
];

fn is_reserved(name: &str) -> bool
    ensures { result ≡ spec.is_reserved name.now }
{
    RESERVED.contains(&name)
}

/// Whether an identifier may begin with the character.
fn is_first(ch: char) -> bool
    ensures { result ≡ spec.is_first ch }
{
    ch == '$' || ch == '_' || is_xid_start(ch)
}

/// Whether an identifier may go on with the character.
fn is_rest(ch: char) -> bool
    ensures { result ≡ spec.is_rest ch }
{
    ch == '$' || ch == '_' || is_xid_continue(ch)
}

/// Whether each character may continue an identifier.
fn all_rest(text: &str) -> bool
    ensures { result ≡ list_all spec.is_rest (chars text.now) }
{
    text.chars().all(is_rest)
}

/// Whether the name has a first character and others that may follow it.
#[tactic(auto, using(std::proofs::lemmas::Str::chars_past_char))]
fn has_ident_form(name: &str) -> bool
    ensures { result ≡ spec.has_ident_form (chars name.now) }
{
    let mut others = name.chars();
    match others.next() {
        None => false,
        Some(ch) => is_first(ch) && all_rest(others.as_str()),
    }
}

/// Whether the name is an identifier of ECMAScript that is no reserved word.
///
/// It begins with `$`, `_` or a character that Unicode lets begin one, and goes on with those that may continue one.
#[tactic(auto, unfolding(crate::specs::Ident::is_ident))]
pub fn is_valid_ident(name: &str) -> bool
    ensures ident { result ≡ spec.is_ident name.now }
{
    !is_reserved(name) && has_ident_form(name)
}

/// The character, or `_` where no identifier holds it.
fn kept_char(ch: char) -> char
    ensures { result ≡ spec.kept_char ch }
{
    if is_rest(ch) { ch } else { '_' }
}

#[tactic(auto, unfolding(crate::specs::Ident::cleaned_name))]
fn cleaned(alloc: Global, name: &str) -> Result<String, AllocError>
    ensures { IfOk result (λ s. string_bytes s ≡ spec.cleaned_name name.now) }
{
    name.chars().map(kept_char).collect(alloc)
}

/// The name made an identifier: `_` for each character that no identifier holds, and `_` in front where that is none yet.
#[tactic(auto, unfolding(crate::specs::Ident::to_ident))]
pub fn to_valid_ident(alloc: Global, name: &str) -> Result<String, AllocError>
    ensures value { IfOk result (λ s. string_bytes s ≡ spec.to_ident name.now) }
    ensures ident { IfOk result (λ s. IsTrue (spec.is_ident (string_bytes s))) }
{
    let clean = cleaned(alloc, name)?;
    if is_valid_ident(clean.as_str()) {
        return Ok(clean);
    }
    let mut out = String::from_str(alloc, "_")?;
    out.push_str(clean.as_str())?;
    Ok(out)
}
