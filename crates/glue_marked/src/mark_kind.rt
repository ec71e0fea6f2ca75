//! The kinds of words in the marked notation, and how a text shows which one it begins with.
ghost use Rattle.std.specs.Prelude.{◌≡◌, reverse};
ghost use Rattle.glue_marked.specs.Marked as spec;
ghost use Rattle.glue_words.specs.Limits as limits;

/// What kind of word a text begins with.
#[derive(Clone, Copy, Debug, PartialEq, Eq, Drop)]
pub enum Kind {
    /// A piece of a template.
    Template,
    /// A name behind a mark, as `b@name`, or a regular expression.
    Mark,
    /// The access of an export, `.w@name`.
    Wasm,
    /// Spaces and line feeds.
    Gap,
    /// Digits.
    Number,
    /// A bare name.
    Name,
    /// A text literal.
    Text,
    /// Punctuation, or no word.
    Punct,
}

/// Whether `@` behind the byte makes a mark.
#[tactic(auto, unfolding(crate::specs::Marked::is_mark))]
fn is_mark(byte: u8) -> bool
    ensures { result ≡ spec.is_mark byte }
{
    matches!(
        byte,
        b'b' | b'u' | b'n' | b'h' | b'g' | b'l' | b'p' | b'o' | b'r'
    )
}

/// A space or a line feed.
pub fn is_gap_byte(byte: u8) -> bool
    ensures { result ≡ limits.is_gap_byte byte }
{
    byte == b' ' || byte == b'\n'
}

#[tactic(auto, unfolding(crate::specs::Marked::is_digit))]
pub fn is_digit(byte: u8) -> bool
    ensures { result ≡ spec.is_digit byte }
{
    b'0' <= byte && byte <= b'9'
}

/// A letter, a digit, `$` or `_`.
#[tactic(auto, unfolding(crate::specs::Marked::is_name_byte))]
pub fn is_name_byte(byte: u8) -> bool
    ensures { result ≡ spec.is_name_byte byte }
{
    byte == b'$' || byte == b'_' || byte.is_ascii_alphanumeric()
}

/// Whether a piece of a template begins with the byte, where `opened` holds true for each substitution and false for
/// each brace that is open, the innermost last.
#[tactic(auto, unfolding(crate::specs::Marked::begins_template))]
fn begins_template(opened: &[bool], byte: u8) -> bool
    ensures { result ≡ spec.begins_template (reverse opened.now) byte }
{
    byte == b'`' || byte == b'}' && opened.last() == Some(&true)
}

/// The kind of a word by its first byte alone.
#[tactic(auto, unfolding(crate::specs::Marked::kind_by_byte))]
fn kind_by_byte(byte: u8) -> Kind
    ensures { result ≡ spec.kind_by_byte byte }
{
    if is_gap_byte(byte) {
        Kind::Gap
    } else if is_digit(byte) {
        Kind::Number
    } else if is_name_byte(byte) {
        Kind::Name
    } else if byte == b'"' {
        Kind::Text
    } else {
        Kind::Punct
    }
}

/// The kind of the word that the bytes begin with.
#[tactic(auto, unfolding(crate::specs::Marked::kind_of))]
pub fn kind_of(opened: &[bool], bytes: &[u8]) -> Kind
    ensures { result ≡ spec.kind_of (reverse opened.now) bytes.now }
{
    let Some((first, others)) = bytes.split_first() else {
        return Kind::Punct;
    };
    if begins_template(opened, *first) {
        Kind::Template
    } else if is_mark(*first) && others.starts_with(b"@") {
        Kind::Mark
    } else if bytes.starts_with(b".w@") {
        Kind::Wasm
    } else {
        kind_by_byte(*first)
    }
}
