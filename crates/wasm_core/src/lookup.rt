//! Entries that have names.

ghost use Rattle.std.specs.Prelude.{◌≡◌};
ghost use Rattle.std.specs.List.{list_any, position_from};
ghost use Rattle.wasm_file.specs.Customs.{is_same_text};

use wasm_file::{Custom, ProducerField, ProducerValue};

/// An entry that has a name.
pub(crate) trait Named {
    ghost use Rattle.std.specs.Prelude.{◌≡◌, List, ℕ};

    /// The name.
    ghost name: { Self → List ℕ };

    fn name(&self) -> &str
        ensures { result.now ≡ name self.now };
}

impl Named for ProducerValue {
    ghost name = { λ v. v.name };

    fn name(&self) -> &str {
        self.name.as_str()
    }
}

impl Named for ProducerField {
    ghost name = { λ f. f.name };

    fn name(&self) -> &str {
        self.name.as_str()
    }
}

impl Named for Custom {
    ghost name = { λ c. c.name };

    fn name(&self) -> &str {
        self.name.as_str()
    }
}

/// Whether an entry has this name.
pub(crate) fn has_named<T: Named>(entries: &[T], name: &str) -> bool
    ensures { result ≡ list_any (λ x. is_same_text (T.name x) name.now) entries.now }
{
    for entry in entries {
        if entry.name() == name {
            return true;
        }
    }
    false
}

/// The place of the first entry that has this name, none where none has it.
pub(crate) fn place_named<T: Named>(entries: &[T], name: &str) -> Option<usize>
    ensures { result ≡ position_from (λ x. is_same_text (T.name x) name.now) 0 entries.now }
{
    for (place, entry) in entries.iter().enumerate() {
        if entry.name() == name {
            return Some(place);
        }
    }
    None
}
