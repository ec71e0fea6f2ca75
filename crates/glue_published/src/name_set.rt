//! Sets of names.
ghost use Rattle.std.specs.Prelude.{◌≡◌, IfOk};
ghost use Rattle.glue_shared.specs.Names.{is_one_of};
ghost use Rattle.glue_published.specs.Sets.{AreNames};

use std::alloc::{AllocError, Global};
use values::{Duplicate, Map, Text};

/// The names, as a set. Want of memory is the only error.
pub(crate) fn name_set(alloc: Global, names: &[Text]) -> Result<Map<Text, bool>, AllocError>
    ensures names { IfOk result (λ set. AreNames set (is_one_of names.now)) }
{
    let mut set = Map::new(alloc);
    for name in names {
        set.insert(name.copy(alloc)?, true)?;
    }
    Ok(set)
}
