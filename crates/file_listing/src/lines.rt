//! Where bytes are cut in two at one of them.
ghost use Rattle.std.specs.Prelude.{◌≡◌, ◌≢◌, true, false, MatchOption};
ghost use Rattle.file_listing.specs.Parts as spec;

// What stands before the first line feed, and what stands after it.
pub(crate) fn first_line(text: &[u8]) -> Option<(&[u8], &[u8])>
    ensures { MatchOption result (spec.Lacks 10 text.now) (λ cut. spec.IsFirstCut 10 text.now cut.0.now cut.1.now) }
{
    for (place, byte) in text.iter().enumerate() {
        if *byte == b'\n' {
            let (line, end) = text.split_at(place);
            let (_, rest) = end.split_at(1);
            return Some((line, rest));
        }
    }
    None
}

// What stands before the last space, and what stands after it.
pub(crate) fn last_word(text: &[u8]) -> Option<(&[u8], &[u8])>
    ensures { MatchOption result (spec.Lacks 32 text.now) (λ cut. spec.IsLastCut 32 text.now cut.0.now cut.1.now) }
{
    let mut place = text.len();
    while place > 0 {
        place -= 1;
        if text[place] == b' ' {
            let (front, end) = text.split_at(place);
            let (_, word) = end.split_at(1);
            return Some((front, word));
        }
    }
    None
}

// Whether two runs of bytes are one.
pub(crate) fn is_same(bytes: &[u8], others: &[u8]) -> bool
    ensures same { result ≡ true → bytes.now ≡ others.now }
    ensures other { result ≡ false → bytes.now ≢ others.now }
{
    bytes == others
}
