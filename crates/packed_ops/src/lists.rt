//! Lists inside operators that are kept packed.

ghost use Rattle.std.specs.Prelude.{◌≡◌, ◌++◌, length, OnOk};
ghost use Rattle.std.specs.List.{flat_map, AllByRecursion};
ghost use Rattle.wasm_bytes.specs.Gives.{Gives};
ghost use Rattle.wasm_bytes.specs.Reading.{entries};
ghost use Rattle.wasm_bytes.specs.Numbers.{number32, number_bytes};
ghost use Rattle.wasm_bytes.specs.Spelling.{list_bytes};
ghost use Rattle.wasm_types.specs.Entries.{val_type};
ghost use Rattle.wasm_types.specs.Spelling.{val_type_bytes};
ghost use Rattle.packed_ops.specs.Packed.{packed_catch, unpacked_catch, unpacked_list, FitsU32, HasWidthsCatch, IsAny};

use crate::packing::pack_catch;
use crate::unpacking::read_catch;
use std::alloc::{AllocError, Global};
use values::Seq;
use wasm_bytes::{ReadFault, Reader, push_u32};
use wasm_ops::Catch;
use wasm_types::{ValType, read_val_type};

/// What can stand in a list that is kept packed.
pub(crate) trait Item: Sized + Drop {
    ghost use Rattle.std.specs.Prelude.{◌≡◌, ◌++◌, Result, ℕ, List, OnOk};
    ghost use Rattle.wasm_bytes.specs.Reading.{Input};
    ghost use Rattle.wasm_bytes.specs.Gives.{Gives};

    /// How it is read.
    ghost form: { Input → Result (Self × Input) ℕ };

    /// Its bytes.
    ghost packed: { Self → List ℕ };

    /// What it holds has the widths of its types.
    ghost fits: { Self → Type 0 };

    fn read(reader: &mut Reader<'_>) -> Result<Self, ReadFault>
        ensures { Gives result reader.new (form reader.old) };

    fn pack(&self, out: &mut Vec<u8>) -> Result<(), AllocError>
        ensures bytes { OnOk result (out.new.items ≡ out.old.items ++ packed self.now) }
        ensures fits { OnOk result (fits self.now) };
}

impl Item for u32 {
    ghost form = { number32 };

    ghost packed = { number_bytes };

    ghost fits = { FitsU32 };

    fn read(reader: &mut Reader<'_>) -> Result<u32, ReadFault> {
        reader.number32()
    }

    fn pack(&self, out: &mut Vec<u8>) -> Result<(), AllocError> {
        push_u32(out, *self)
    }
}

impl Item for ValType {
    ghost form = { val_type };

    ghost packed = { val_type_bytes };

    ghost fits = { IsAny };

    fn read(reader: &mut Reader<'_>) -> Result<ValType, ReadFault> {
        read_val_type(reader)
    }

    #[tactic(auto, unfolding(wasm_types::specs::Spelling::val_type_bytes))]
    fn pack(&self, out: &mut Vec<u8>) -> Result<(), AllocError> {
        out.push(self.code())?;
        Ok(())
    }
}

impl Item for Catch {
    ghost form = { unpacked_catch };

    ghost packed = { packed_catch };

    ghost fits = { HasWidthsCatch };

    fn read(reader: &mut Reader<'_>) -> Result<Catch, ReadFault> {
        read_catch(reader)
    }

    fn pack(&self, out: &mut Vec<u8>) -> Result<(), AllocError> {
        pack_catch(out, *self)
    }
}

/// Items, so many.
fn read_each<T: Item>(
    count: u32,
    reader: &mut Reader<'_>,
    alloc: Global,
) -> Result<Seq<T>, ReadFault>
    ensures { Gives result reader.new (entries count T.form reader.old) }
{
    let mut items = Seq::new(alloc);
    for _ in 0..count {
        items.push(T::read(reader)?)?;
    }
    Ok(items)
}

/// A list of items.
#[tactic(auto, unfolding(crate::specs::Packed::unpacked_list))]
pub(crate) fn read_list<T: Item>(
    reader: &mut Reader<'_>,
    alloc: Global,
) -> Result<Seq<T>, ReadFault>
    ensures { Gives result reader.new (unpacked_list T.form reader.old) }
{
    let count = reader.number32()?;
    read_each(count, reader, alloc)
}

/// Appends items, one after another.
fn pack_each<T: Item>(items: &[T], out: &mut Vec<u8>) -> Result<(), AllocError>
    ensures bytes { OnOk result (out.new.items ≡ out.old.items ++ flat_map T.packed items.now) }
    ensures fits { OnOk result (AllByRecursion T.fits items.now) }
{
    for item in items {
        item.pack(out)?;
    }
    Ok(())
}

/// Appends a list of items. More than 4,294,967,295 come to want of memory.
#[tactic(auto, unfolding(wasm_bytes::specs::Spelling::list_bytes))]
pub(crate) fn pack_list<T: Item>(items: &[T], out: &mut Vec<u8>) -> Result<(), AllocError>
    ensures bytes { OnOk result (out.new.items ≡ out.old.items ++ list_bytes T.packed items.now) }
    ensures count { OnOk result (FitsU32 (length items.now)) }
    ensures fits { OnOk result (AllByRecursion T.fits items.now) }
{
    if items.len() > u32::MAX as usize {
        return Err(AllocError);
    }
    push_u32(out, items.len() as u32)?;
    pack_each(items, out)
}
