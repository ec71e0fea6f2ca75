//! Digits, and the numbers that they spell.
ghost use Rattle.std.specs.Prelude.{◌≡◌, ◌≤◌, ◌<◌, ◌^◌, length};
ghost use Rattle.std.specs.Option.{MatchOption, option_copied};
ghost use Rattle.std.specs.List.{prefix_len};
ghost use Rattle.demangle_core.specs.Reading as spec;

// Whether a byte is a digit: a decimal one, or one of base 16 in lower case.
fn is_digit_of(is_hex: bool, b: u8) -> bool
    ensures test { result ≡ spec.is_digit_of is_hex b }
{
    b.is_ascii_digit() || (is_hex && (b'a'..=b'f').contains(&b))
}

/// How many digits stand at the front.
pub(crate) fn leading_digits(is_hex: bool, bytes: &[u8]) -> usize
    ensures count { result ≡ prefix_len (spec.is_digit_of is_hex) bytes.now }
    ensures most { result ≤ length bytes.now }
{
    for (place, b) in bytes.iter().enumerate() {
        if !is_digit_of(is_hex, *b) {
            return place;
        }
    }
    bytes.len()
}

// What a digit stands for.
fn digit_of(b: u8) -> usize
    ensures digit { result ≡ spec.digit_of b }
{
    if b < 58 {
        b.saturating_sub(48) as usize
    } else {
        b.saturating_sub(87) as usize
    }
}

// A number with a digit behind it, where it is below 2 ^ 64.
fn with_digit(base: usize, number: usize, b: u8) -> Option<usize>
    ensures sum { MatchOption result (2 ^ 64 ≤ spec.digit_added base number b) (λ n. n ≡ spec.digit_added base number b) }
{
    number.checked_mul(base)?.checked_add(digit_of(b))
}

/// The number that digits spell, where it is not above the most.
pub(crate) fn number(base: usize, digits: &[u8], most: usize) -> Option<usize>
    requires base { 1 ≤ base }
    ensures number { MatchOption result (most < spec.number base digits.now) (λ n. (n ≡ spec.number base digits.now) × (n ≤ most)) }
{
    let mut number = 0usize;
    for digit in digits {
        match with_digit(base, number, *digit) {
            None => return None,
            Some(larger) => number = larger,
        }
    }
    if number > most { None } else { Some(number) }
}

/// What stands behind a front, where the bytes begin with it.
pub(crate) fn behind<'a>(front: &[u8], bytes: &'a [u8]) -> Option<&'a [u8]>
    ensures rest { option_copied result ≡ spec.behind front.now bytes.now }
{
    if bytes.starts_with(front) {
        Some(bytes.split_at(front.len()).1)
    } else {
        None
    }
}
