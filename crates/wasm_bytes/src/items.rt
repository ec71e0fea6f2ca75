//! Items that many entries share.

ghost use Rattle.std.specs.Prelude.{◌≢◌, ◌==◌, IfErr};
ghost use Rattle.wasm_bytes.specs.Items.{name, index, exactly};
ghost use Rattle.wasm_bytes.specs.Gives.{Gives, GivesBy};
ghost use Rattle.wasm_bytes.specs.declared.fault.ReadFault.TheVariants.{OutOfMemory};

use crate::fault::ReadFault;
use crate::reader::Reader;
use std::alloc::Global;
use values::Text;

/// A name: its length in bytes and that many bytes of UTF-8 (WebAssembly core specification, 5.2.4).
#[tactic(auto, unfolding(crate::specs::Items::name))]
pub fn read_text<'a>(reader: &mut Reader<'a>) -> Result<&'a str, ReadFault>
    ensures value { GivesBy (λ text. text.now) result reader.new (name reader.old) }
    ensures sure { IfErr result (λ e. e ≢ OutOfMemory) }
{
    let place = reader.place();
    let len = reader.number32()?;
    match str::from_utf8(reader.raw(len as usize)?) {
        Ok(text) => Ok(text),
        Err(_) => Err(ReadFault::Parse { place }),
    }
}

/// A name that is kept.
pub fn read_name(reader: &mut Reader<'_>, alloc: Global) -> Result<Text, ReadFault>
    ensures { Gives result reader.new (name reader.old) }
{
    Ok(Text::from_str(alloc, read_text(reader)?)?)
}

/// An index below the number of its kind (WebAssembly core specification, 5.5.1).
#[tactic(auto, unfolding(crate::specs::Items::index))]
pub fn read_index(reader: &mut Reader<'_>, count: u64) -> Result<u32, ReadFault>
    ensures value { Gives result reader.new (index count reader.old) }
    ensures sure { IfErr result (λ e. e ≢ OutOfMemory) }
{
    let place = reader.place();
    let found = reader.number32()?;
    if (found as u64) < count {
        Ok(found)
    } else {
        Err(ReadFault::Parse { place })
    }
}

/// One byte of this value.
#[tactic(auto, unfolding(crate::specs::Items::exactly))]
pub fn read_exactly(reader: &mut Reader<'_>, wanted: u8) -> Result<u8, ReadFault>
    ensures value { Gives result reader.new (exactly wanted reader.old) }
    ensures sure { IfErr result (λ e. e ≢ OutOfMemory) }
{
    let place = reader.place();
    let found = reader.byte()?;
    if found == wanted {
        Ok(found)
    } else {
        Err(ReadFault::Parse { place })
    }
}
