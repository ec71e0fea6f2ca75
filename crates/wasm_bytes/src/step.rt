//! Reading step by step, up to the end of the bytes.

ghost use Rattle.std.specs.Prelude.{length};
ghost use Rattle.wasm_bytes.specs.Reading.{until_end};
ghost use Rattle.wasm_bytes.specs.Gives.{GivesState};

use crate::fault::ReadFault;
use crate::reader::Reader;
use std::alloc::Global;

/// What is read step by step, and holds what was read so far.
pub trait Step {
    ghost use Rattle.std.specs.Prelude.{Result, ℕ};
    ghost use Rattle.wasm_bytes.specs.Reading.{Input};
    ghost use Rattle.wasm_bytes.specs.Gives.{GivesState};

    /// What a step reads, and what then stands.
    ghost step: { Self → Input → Result (Self × Input) ℕ };

    /// Reads one step. After a fault what is held is of no use.
    fn read_step(&mut self, reader: &mut Reader<'_>, alloc: Global) -> Result<(), ReadFault>
        ensures { GivesState result self.new reader.new (step self.old reader.old) };
}

/// Reads steps up to the end of the bytes. After a fault what is held is of no use.
pub fn read_steps<S: Step>(
    state: &mut S,
    reader: &mut Reader<'_>,
    alloc: Global,
) -> Result<(), ReadFault>
    ensures { GivesState result state.new reader.new (until_end (length reader.old.bytes) S.step state.old reader.old) }
{
    for _ in 0..reader.len() {
        if reader.len() == 0 {
            break;
        }
        state.read_step(reader, alloc)?;
    }
    Ok(())
}
