//! Lists of entries.

ghost use Rattle.std.specs.Prelude.{◌≡◌, ◌+◌, ◌≤◌, length, IfOk};
ghost use Rattle.wasm_bytes.specs.Reading.{Input, entries};
ghost use Rattle.wasm_bytes.specs.Gives.{Gives};
ghost use Rattle.wasm_bytes.specs.Items.{listed};

use crate::counts::Counts;
use crate::fault::ReadFault;
use crate::reader::Reader;
use std::alloc::Global;
use values::Seq;

/// What can stand in a list of a module.
pub trait Entry: Sized + Drop {
    ghost use Rattle.std.specs.Prelude.{Result, ℕ};
    ghost use Rattle.wasm_bytes.specs.declared.counts.Counts.{Counts};
    ghost use Rattle.wasm_bytes.specs.Reading.{Input};
    ghost use Rattle.wasm_bytes.specs.Gives.{Gives};

    /// Its spelling.
    ghost grammar: { Counts → Input → Result (Self × Input) ℕ };

    fn read(reader: &mut Reader<'_>, alloc: Global, counts: &Counts) -> Result<Self, ReadFault>
        ensures { Gives result reader.new (grammar counts.now reader.old) };
}

pub fn read_entries<T: Entry>(
    count: u32,
    reader: &mut Reader<'_>,
    alloc: Global,
    counts: &Counts,
) -> Result<Seq<T>, ReadFault>
    ensures value { Gives result reader.new (entries count (T.grammar counts.now) reader.old) }
    ensures len { IfOk result (λ xs. length xs ≡ count) }
{
    let mut items = Seq::new(alloc);
    for _ in 0..count {
        items.push(T::read(reader, alloc, counts)?)?;
    }
    Ok(items)
}

/// A list of at most so many entries.
#[tactic(auto, unfolding(crate::specs::Items::listed))]
pub fn read_list<T: Entry>(
    room: u32,
    reader: &mut Reader<'_>,
    alloc: Global,
    counts: &Counts,
) -> Result<Seq<T>, ReadFault>
    ensures value { Gives result reader.new (listed room (T.grammar counts.now) reader.old) }
    ensures len { IfOk result (λ xs. length xs ≤ room) }
{
    let place = reader.place();
    let count = reader.number32()?;
    if count > room {
        return Err(ReadFault::Parse { place });
    }
    read_entries(count, reader, alloc, counts)
}
