//! Reading types and indices (WebAssembly core specification, 5.3 and 5.5.1).

ghost use Rattle.std.specs.Prelude.{◌≡◌, length, IfOk};
ghost use Rattle.wasm_bytes.specs.Gives.{Gives};
ghost use Rattle.wasm_bytes.specs.Items.{exactly};
ghost use Rattle.wasm_types.specs.Entries.{val_type, ref_type, func_type, type_index, func_index, table_index, memory_index, global_index, tag_index, elem_index, data_index};

use crate::ids::{DataId, ElemId, FuncId, GlobalId, MemoryId, TableId, TagId, TypeId};
use crate::types::{FuncType, ValType};
use std::alloc::Global;
use wasm_bytes::{Counts, Entry, ReadFault, Reader, read_entries, read_exactly, read_index};

/// A value type. An error is the place of the first fault, or want of memory.
#[tactic(auto, unfolding(crate::specs::Entries::val_type))]
pub fn read_val_type(reader: &mut Reader<'_>) -> Result<ValType, ReadFault>
    ensures { Gives result reader.new (val_type reader.old) }
{
    let place = reader.place();
    match ValType::from_code(reader.byte()?) {
        Some(ty) => Ok(ty),
        None => Err(ReadFault::Parse { place }),
    }
}

impl Entry for ValType {
    ghost grammar = { λ _. val_type };

    fn read(
        reader: &mut Reader<'_>,
        _alloc: Global,
        _counts: &Counts,
    ) -> Result<ValType, ReadFault> {
        read_val_type(reader)
    }
}

/// A value type that is one of references. An error is the place of the first fault, or want of memory.
#[tactic(auto, unfolding(crate::specs::Entries::ref_type))]
pub fn read_ref_type(
    reader: &mut Reader<'_>,
    alloc: Global,
    counts: &Counts,
) -> Result<ValType, ReadFault>
    ensures { Gives result reader.new (ref_type reader.old) }
{
    let place = reader.place();
    let ty = ValType::read(reader, alloc, counts)?;
    if ty.is_reference() {
        Ok(ty)
    } else {
        Err(ReadFault::Parse { place })
    }
}

impl Entry for FuncType {
    ghost grammar = { func_type };

    #[tactic(auto, unfolding(crate::specs::Entries::func_type))]
    fn read(
        reader: &mut Reader<'_>,
        alloc: Global,
        counts: &Counts,
    ) -> Result<FuncType, ReadFault> {
        read_exactly(reader, 0x60)?;
        let count = reader.number32()?;
        let params = read_entries(count, reader, alloc, counts)?;
        let count = reader.number32()?;
        let results = read_entries(count, reader, alloc, counts)?;
        Ok(FuncType { params, results })
    }
}

impl Entry for TypeId {
    ghost grammar = { type_index };

    #[tactic(auto, unfolding(crate::specs::Entries::type_index))]
    fn read(reader: &mut Reader<'_>, _alloc: Global, counts: &Counts) -> Result<TypeId, ReadFault> {
        Ok(TypeId(read_index(reader, counts.types as u64)?))
    }
}

impl Entry for FuncId {
    ghost grammar = { func_index };

    #[tactic(auto, unfolding(crate::specs::Entries::func_index))]
    fn read(reader: &mut Reader<'_>, _alloc: Global, counts: &Counts) -> Result<FuncId, ReadFault> {
        Ok(FuncId(read_index(reader, counts.funcs as u64)?))
    }
}

impl Entry for TableId {
    ghost grammar = { table_index };

    #[tactic(auto, unfolding(crate::specs::Entries::table_index))]
    fn read(
        reader: &mut Reader<'_>,
        _alloc: Global,
        counts: &Counts,
    ) -> Result<TableId, ReadFault> {
        Ok(TableId(read_index(reader, counts.tables as u64)?))
    }
}

impl Entry for MemoryId {
    ghost grammar = { memory_index };

    #[tactic(auto, unfolding(crate::specs::Entries::memory_index))]
    fn read(
        reader: &mut Reader<'_>,
        _alloc: Global,
        counts: &Counts,
    ) -> Result<MemoryId, ReadFault> {
        Ok(MemoryId(read_index(reader, counts.memories as u64)?))
    }
}

impl Entry for GlobalId {
    ghost grammar = { global_index };

    #[tactic(auto, unfolding(crate::specs::Entries::global_index))]
    fn read(
        reader: &mut Reader<'_>,
        _alloc: Global,
        counts: &Counts,
    ) -> Result<GlobalId, ReadFault> {
        Ok(GlobalId(read_index(reader, counts.globals as u64)?))
    }
}

impl Entry for TagId {
    ghost grammar = { tag_index };

    #[tactic(auto, unfolding(crate::specs::Entries::tag_index))]
    fn read(reader: &mut Reader<'_>, _alloc: Global, counts: &Counts) -> Result<TagId, ReadFault> {
        Ok(TagId(read_index(reader, counts.tags as u64)?))
    }
}

impl Entry for ElemId {
    ghost grammar = { elem_index };

    #[tactic(auto, unfolding(crate::specs::Entries::elem_index))]
    fn read(reader: &mut Reader<'_>, _alloc: Global, counts: &Counts) -> Result<ElemId, ReadFault> {
        Ok(ElemId(read_index(reader, counts.elems as u64)?))
    }
}

impl Entry for DataId {
    ghost grammar = { data_index };

    #[tactic(auto, unfolding(crate::specs::Entries::data_index))]
    fn read(reader: &mut Reader<'_>, _alloc: Global, counts: &Counts) -> Result<DataId, ReadFault> {
        Ok(DataId(read_index(reader, counts.segments as u64)?))
    }
}
