//! Computed property keys.
ghost use Rattle.std.specs.Prelude.{◌≡◌};
ghost use Rattle.glue_words.specs.Limits.{is_computed};

/// Whether the text has the form of a computed property key: it begins with `[`, ends with `]` and has two bytes or more.
#[tactic(auto, using(crate::proofs::Edges::first_is, crate::proofs::Edges::last_is))]
pub fn is_computed_key(name: &str) -> bool
    ensures computed { result ≡ is_computed name.now }
{
    let bytes = name.as_bytes();
    bytes.first().copied() == Some(b'[') && bytes.last().copied() == Some(b']')
}
