//! The fixed texts, by their places.
ghost use Rattle.std.specs.Prelude.{◌≡◌, [], map, slice_index_or};
ghost use Rattle.glue_words.specs.Tables as spec;

/// Punctuation, in the order of the places of `punct`.
const PUNCTUATION: [&str; 45] = [
    "{", "}", "(", ")", "[", "]", ".", ",", ";", ":", "?", "?.", "...", "=>", "=", "==", "===",
    "!=", "!==", "<", ">", "<=", ">=", "+", "-", "*", "/", "%", "**", "++", "--", "+=", "&", "|",
    "^", "~", "<<", ">>", ">>>", "!", "&&", "||", "??", "??=", "||=",
];

/// The punctuation at a place, and the empty text past the last.
#[tactic(auto, unfolding(crate::specs::Tables::punct_text))]
pub fn punct_text(place: u8) -> &'static str
    ensures text { result.now ≡ spec.punct_text place }
{
    text_at(&PUNCTUATION, place)
}

/// Keywords, in the order of the places of `key`.
const KEYWORDS: [&str; 43] = [
    "arguments",
    "as",
    "async",
    "await",
    "break",
    "case",
    "catch",
    "class",
    "const",
    "default",
    "delete",
    "else",
    "export",
    "extends",
    "false",
    "finally",
    "for",
    "from",
    "function",
    "get",
    "if",
    "import",
    "in",
    "instanceof",
    "let",
    "n",
    "new",
    "null",
    "of",
    "return",
    "set",
    "source",
    "static",
    "super",
    "switch",
    "this",
    "throw",
    "true",
    "try",
    "typeof",
    "var",
    "void",
    "while",
];

/// The keyword at a place, and the empty text past the last.
#[tactic(auto, unfolding(crate::specs::Tables::key_text))]
pub fn key_text(place: u8) -> &'static str
    ensures text { result.now ≡ spec.key_text place }
{
    text_at(&KEYWORDS, place)
}

/// Regular expressions, by their places.
const REGEXES: [&str; 2] = ["/\\.js$/", "/\\[object ([^\\]]+)\\]/"];

/// The regular expression at a place, and the empty text from 2 up.
#[tactic(auto, unfolding(crate::specs::Tables::regex_text))]
pub fn regex_text(place: u8) -> &'static str
    ensures text { result.now ≡ spec.regex_text place }
{
    text_at(&REGEXES, place)
}

/// The text at a place, and the empty text past the end.
fn text_at(texts: &[&'static str], place: u8) -> &'static str
    ensures { result.now ≡ slice_index_or (map (λ text. text.now) texts.now) place [] }
{
    match texts.get(place as usize) {
        None => "",
        Some(text) => text,
    }
}
