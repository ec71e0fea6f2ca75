//! The frames of a file's sections (WebAssembly core specification, 5.5.2).

ghost use Rattle.wasm_file.specs.Frames.{preamble_of, preamble, frame_name, section_frame, next_frame, frames_of};
ghost use Rattle.wasm_bytes.specs.Gives.{Gives, DecodesBy};

use crate::entries::Section;
use crate::grammar::read_byte_below;
use std::alloc::Global;
use std::marker::Model;
use values::Text;
use wasm_bytes::{ReadFault, Reader, Step, read_exactly, read_name, read_steps};

/// These bytes, one after another.
#[tactic(auto, unfolding(crate::specs::Frames::preamble_of))]
fn read_each(reader: &mut Reader<'_>, bytes: &[u8]) -> Result<(), ReadFault>
    ensures { Gives result reader.new (preamble_of bytes.now reader.old) }
{
    for byte in bytes {
        read_exactly(reader, *byte)?;
    }
    Ok(())
}

/// The eight bytes at the head of a file.
#[tactic(auto, unfolding(crate::specs::Frames::preamble))]
pub(crate) fn read_preamble(reader: &mut Reader<'_>) -> Result<(), ReadFault>
    ensures { Gives result reader.new (preamble reader.old) }
{
    read_each(reader, b"\0asm\x01\0\0\0")
}

/// The name of a custom section, none of another.
#[tactic(auto, unfolding(crate::specs::Frames::frame_name))]
fn read_frame_name(
    reader: &mut Reader<'_>,
    alloc: Global,
    id: u8,
) -> Result<Option<Text>, ReadFault>
    ensures { Gives result reader.new (frame_name id reader.old) }
{
    if id == 0 {
        Ok(Some(read_name(reader, alloc)?))
    } else {
        Ok(None)
    }
}

/// One section.
#[tactic(auto, unfolding(crate::specs::Frames::section_frame))]
fn read_frame(reader: &mut Reader<'_>, alloc: Global) -> Result<Section, ReadFault>
    ensures { Gives result reader.new (section_frame reader.old) }
{
    let begin = reader.place();
    let id = read_byte_below(reader, 14)?;
    let len = reader.number32()?;
    let mut inside = reader.frame(len as usize)?;
    let name = read_frame_name(&mut inside, alloc, id)?;
    Ok(Section {
        id,
        name,
        begin: begin as usize,
        end: reader.place() as usize,
    })
}

/// The sections so far.
#[derive(Drop)]
struct Frames {
    sections: Vec<Section>,
}

impl Model for Frames {
    ghost use Rattle.std.specs.Prelude.{List};
    ghost use Rattle.wasm_file.specs.declared.entries.Section.{Section};

    ghost Value = { List Section };

    ghost view = { λ f. f.sections.items };
}

impl Step for Frames {
    ghost step = { next_frame };

    #[tactic(auto, unfolding(crate::specs::Frames::next_frame))]
    fn read_step(&mut self, reader: &mut Reader<'_>, alloc: Global) -> Result<(), ReadFault> {
        self.sections.push(read_frame(reader, alloc)?)?;
        Ok(())
    }
}

/// The sections of a file in order: the preamble, frames and names of custom sections are read, and nothing else.
/// Their order isn't tested. A file of any length is read. The fault's place is that of an id above 13, of a number or
/// name that isn't allowed, or the end of the bytes, where a frame is longer than the rest.
#[tactic(auto, unfolding(crate::specs::Frames::frames_of, crate::specs::Frames::all_frames))]
pub fn read_frames(alloc: Global, bytes: &[u8]) -> Result<Vec<Section>, ReadFault>
    ensures read { DecodesBy (λ v. v.items) result (frames_of bytes.now) }
{
    let mut reader = Reader::new(bytes);
    read_preamble(&mut reader)?;
    let mut found = Frames {
        sections: Vec::new(alloc),
    };
    let read = read_steps(&mut found, &mut reader, alloc);
    read.and(Ok(found.sections))
}
