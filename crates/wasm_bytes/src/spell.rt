//! Writing lists and names.

ghost use Rattle.std.specs.Prelude.{◌≡◌, ◌++◌, OnOk};
ghost use Rattle.std.specs.List.{flat_map};
ghost use Rattle.wasm_bytes.specs.Numbers.{number_bytes};
ghost use Rattle.wasm_bytes.specs.Spelling.{list_bytes, name_bytes, framed_bytes};

use crate::number::{push_number, push_u32};
use std::alloc::AllocError;
use values::Text;

/// What has a spelling in a module.
pub trait Spell {
    ghost use Rattle.std.specs.Prelude.{List, ℕ, ◌≡◌, ◌++◌, OnOk};

    /// Its bytes.
    ghost spelled: { Self → List ℕ };

    fn write(&self, out: &mut Vec<u8>) -> Result<(), AllocError>
        ensures { OnOk result (out.new.items ≡ out.old.items ++ spelled self.now) };
}

/// A number in its shortest form.
impl Spell for u32 {
    ghost spelled = { number_bytes };

    fn write(&self, out: &mut Vec<u8>) -> Result<(), AllocError> {
        push_u32(out, *self)
    }
}

/// Appends the bytes of entries, one after another.
pub fn write_entries<T: Spell>(items: &[T], out: &mut Vec<u8>) -> Result<(), AllocError>
    ensures { OnOk result (out.new.items ≡ out.old.items ++ flat_map T.spelled items.now) }
{
    for item in items {
        item.write(out)?;
    }
    Ok(())
}

/// Appends a count and the bytes of that many entries.
#[tactic(auto, unfolding(crate::specs::Spelling::list_bytes))]
pub fn write_list<T: Spell>(items: &[T], out: &mut Vec<u8>) -> Result<(), AllocError>
    ensures { OnOk result (out.new.items ≡ out.old.items ++ list_bytes T.spelled items.now) }
{
    push_number(out, items.len() as u64)?;
    write_entries(items, out)
}

/// Appends content behind its length.
#[tactic(auto, unfolding(crate::specs::Spelling::framed_bytes))]
pub fn write_framed(out: &mut Vec<u8>, content: &[u8]) -> Result<(), AllocError>
    ensures { OnOk result (out.new.items ≡ out.old.items ++ framed_bytes content.now) }
{
    push_number(out, content.len() as u64)?;
    out.extend_from_slice(content)
}

/// Appends a name: its length in bytes and its bytes.
#[tactic(auto, unfolding(crate::specs::Spelling::name_bytes, crate::specs::Spelling::framed_bytes))]
pub fn write_name(out: &mut Vec<u8>, name: &str) -> Result<(), AllocError>
    ensures { OnOk result (out.new.items ≡ out.old.items ++ name_bytes name.now) }
{
    write_framed(out, name.as_bytes())
}
