//! Which names the global of a script can't have.
ghost use Rattle.std.specs.Prelude.{◌≡◌, bytes_eq};
ghost use Rattle.std.specs.List.{list_all, list_any};
ghost use Rattle.std.specs.Char.{is_ascii_digit};
ghost use Rattle.cli_support.specs.GlobalName as spec;

use glue_scope::is_valid_ident;
use glue_shared::{HELPER_NAMES, HOSTS, MEMORY_NAMES, TABLE_NAMES, TARGET_NAMES};

// Whether the name is one of these.
fn is_listed(name: &str, words: &[&str]) -> bool
    ensures test { result ≡ list_any (λ word. bytes_eq word.now name.now) words.now }
{
    words.iter().any(|word| *word == name)
}

fn are_digits(bytes: &[u8]) -> bool
    ensures test { result ≡ list_all is_ascii_digit bytes.now }
{
    bytes.iter().all(|b| b.is_ascii_digit())
}

// Whether the bytes are a number in decimal, without leading zeros.
fn is_decimal(bytes: &[u8]) -> bool
    ensures test { result ≡ spec.is_decimal bytes.now }
{
    match bytes.split_first() {
        None => false,
        Some((first, rest)) => {
            first.is_ascii_digit() && (rest.is_empty() || (*first != b'0' && are_digits(rest)))
        }
    }
}

// Whether the name is the text with a number after it.
fn is_numbered(name: &str, stem: &str) -> bool
    ensures test { result ≡ spec.is_numbered name.now stem.now }
{
    match name.as_bytes().strip_prefix(stem.as_bytes()) {
        Some(rest) => is_decimal(rest),
        None => false,
    }
}

// Whether the name is one of these with a number after it.
fn is_any_numbered(name: &str, stems: &[&str]) -> bool
    ensures test { result ≡ list_any (λ stem. spec.is_numbered name.now stem.now) stems.now }
{
    stems.iter().any(|stem| is_numbered(name, stem))
}

// Whether a glue file may bind the name, whatever its module holds.
fn is_fixed(name: &str) -> bool
    ensures test { result ≡ spec.is_fixed name.now }
{
    (is_listed(name, &TARGET_NAMES) || is_listed(name, &HELPER_NAMES))
        || (is_any_numbered(name, &MEMORY_NAMES)
            || is_any_numbered(name, &TABLE_NAMES)
            || is_numbered(name, "import"))
}

// Whether the global of a script can't have the name.
#[tactic(auto, unfolding(crate::specs::GlobalName::is_bad_global))]
pub(crate) fn is_bad_global(name: &str) -> bool
    ensures test { result ≡ spec.is_bad_global name.now }
{
    !is_valid_ident(name) || is_listed(name, &HOSTS) || is_fixed(name)
}
