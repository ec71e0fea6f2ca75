//! Which helpers are held (`helper_set`), of a table of three: `take` binds `takeObject` and refers to `getObject`, which `get` binds, and
//! `alone` binds a name that no other refers to.
ghost use Rattle.std.specs.Prelude.{◌≡◌};
ghost use Rattle.order_cases.specs.Three as spec;

use glue_words::{Item, Role, Word};
use helper_set::{Table, close, helper_items};
use std::alloc::{AllocError, Global};
use values::{Seq, Text};

/// The table of three helpers, by their numbers.
struct Three;

/// The name that a helper binds.
fn name_of(node: usize) -> &'static str
    ensures name { result.now ≡ spec.three_name node }
{
    match node {
        0 => "takeObject",
        1 => "getObject",
        _ => "lone",
    }
}

impl Table for Three {
    ghost count = { λ _. 3 };

    ghost key = { λ _ node. spec.three_key node };

    ghost words = { λ _ node. spec.three_words node };

    ghost binder = { λ _ name. spec.three_binder name };

    fn count(&self) -> usize {
        3
    }

    fn key(&self, alloc: Global, node: usize) -> Result<Text, AllocError> {
        let key = match node {
            0 => "take",
            1 => "get",
            _ => "alone",
        };
        Text::from_str(alloc, key)
    }

    fn words(&self, alloc: Global, node: usize) -> Result<Seq<Word>, AllocError> {
        let mut words = Seq::new(alloc);
        words.push(Word::Bind(Text::from_str(alloc, name_of(node))?))?;
        if node == 0 {
            words.push(Word::Refer(Text::from_str(alloc, name_of(1))?, false))?;
        }
        Ok(words)
    }

    fn binder(&self, _alloc: Global, name: &str) -> Result<Option<usize>, AllocError> {
        if name == name_of(0) {
            return Ok(Some(0));
        }
        if name == name_of(1) {
            return Ok(Some(1));
        }
        if name == name_of(2) {
            return Ok(Some(2));
        }
        Ok(None)
    }

    ghost binds = { λ _ name node h. spec.three_binds name node h };

    ghost finds = { λ _ name node lt h. spec.three_finds name node lt h };

    ghost apart = { λ _ i j low high h. spec.three_apart i j low high h };
}

/// The keys of items of helpers, each with a space behind it.
fn keys_of(alloc: Global, items: &[Item]) -> Result<Text, AllocError> {
    let mut keys = Text::from_str(alloc, "")?;
    for item in items {
        if let Role::Helper(key) = &item.role {
            keys.push_str(key.as_str())?;
            keys.push_str(" ")?;
        }
    }
    Ok(keys)
}

/// What is needed, and the keys of what is held.
const HELD: &[(&[usize], &str)] = &[
    (&[], ""),
    (&[0], "get take "),
    (&[1], "get "),
    (&[2, 0], "alone get take "),
    (&[1, 1], "get "),
];

#[test]
fn what_a_held_helper_refers_to_is_held(rt: HostRuntime) -> Result<(), AllocError> {
    let alloc = rt.alloc();
    for (needed, keys) in HELD {
        let held = close(alloc, &Three, needed)?;
        let items = helper_items(alloc, &held)?;
        assert!(rt; keys_of(alloc, items.as_slice())?.as_str() == *keys);
    }
    Ok(())
}
