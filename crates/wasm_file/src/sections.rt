//! Reading the sections of a file, one after another (WebAssembly core specification, 5.5.2 and 5.5.16).

ghost use Rattle.std.specs.Prelude.{◌≡◌, length, IfOk, OnOk};
ghost use Rattle.wasm_bytes.specs.Gives.{Decodes, Gives, GivesState};
ghost use Rattle.wasm_bytes.specs.Reading.{allowed, byte};
ghost use Rattle.wasm_file.specs.Grammar.{at_start, rank_of, rank_after, may_come, whole, parts_of};
ghost use Rattle.wasm_file.specs.Parts.{AreFew};

use crate::entries::Parts;
use crate::frames::read_preamble;
use crate::lists::Lists;
use std::alloc::Global;
use std::marker::Model;
use wasm_bytes::{ReadFault, Reader, Step, read_steps};

/// The place of a section in the order of sections, 0 where it may stand anywhere or nowhere.
fn rank(id: u8) -> u8
    ensures { result ≡ rank_of id }
{
    match id {
        1 => 1,
        2 => 2,
        3 => 3,
        4 => 4,
        5 => 5,
        13 => 6,
        6 => 7,
        7 => 8,
        8 => 9,
        9 => 10,
        12 => 11,
        10 => 12,
        11 => 13,
        _ => 0,
    }
}

/// The place of the last section that isn't a custom one, behind a section.
fn rank_after(last: u8, id: u8) -> u8
    ensures { result ≡ rank_after last id }
{
    if id == 0 { last } else { rank(id) }
}

/// The id of a section that may come behind one of this place.
fn read_id(last: u8, reader: &mut Reader<'_>) -> Result<u8, ReadFault>
    ensures { Gives result reader.new (allowed (may_come last) byte reader.old) }
{
    let place = reader.place();
    let id = reader.byte()?;
    if id == 0 || last < rank(id) {
        Ok(id)
    } else {
        Err(ReadFault::Parse { place })
    }
}

/// The lists so far, and the place of the last section in the order of sections.
#[derive(Drop)]
struct Progress {
    rank: u8,
    lists: Lists,
}

impl Model for Progress {
    ghost use Rattle.wasm_file.specs.Grammar.{Progress};

    ghost Value = { Progress };

    ghost view = { λ s. record { rank = s.rank; parts = s.lists } };
}

impl Progress {
    /// A whole file, from its first byte on.
    #[tactic(auto, unfolding(crate::specs::Grammar::whole, crate::specs::Grammar::all_sections))]
    fn read_whole(&mut self, reader: &mut Reader<'_>, alloc: Global) -> Result<(), ReadFault>
        requires { self.old ≡ at_start }
        ensures read { GivesState result self.new.parts reader.new (whole reader.old) }
        ensures paired { OnOk result (length self.new.parts.functions ≡ length self.new.parts.bodies) }
    {
        read_preamble(reader)?;
        read_steps(self, reader, alloc)?;
        reader.finish()?;
        if self.lists.is_complete() {
            Ok(())
        } else {
            Err(ReadFault::Parse {
                place: reader.end(),
            })
        }
    }
}

impl Step for Progress {
    ghost use Rattle.wasm_file.specs.Grammar.{«section»};

    ghost step = { «section» };

    /// One section.
    #[tactic(auto, unfolding(crate::specs::Grammar::section))]
    fn read_step(&mut self, reader: &mut Reader<'_>, alloc: Global) -> Result<(), ReadFault> {
        let id = read_id(self.rank, reader)?;
        let len = reader.number32()?;
        self.lists.read_filled(id, len as usize, reader, alloc)?;
        self.rank = rank_after(self.rank, id);
        Ok(())
    }
}

/// The lists of a file (WebAssembly core specification, 5.5), with the place of the first fault.
#[tactic(auto, unfolding(crate::specs::Grammar::parts_of))]
pub fn read_parts(alloc: Global, bytes: &[u8]) -> Result<Parts, ReadFault>
    ensures read { Decodes result (parts_of bytes.now) }
    ensures few { IfOk result AreFew }
    ensures paired { IfOk result (λ p. length p.functions ≡ length p.bodies) }
{
    let mut progress = Progress {
        rank: 0,
        lists: Lists::new(alloc),
    };
    let read = progress.read_whole(&mut Reader::new(bytes), alloc);
    read.and(Ok(progress.lists.into_parts()))
}
