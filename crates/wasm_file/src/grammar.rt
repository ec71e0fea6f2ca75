//! Reading the entries of sections (WebAssembly core specification, 5.5).

ghost use Rattle.std.specs.Prelude.{◌≡◌, ◌==◌, length, nat_lt, IfOk};
ghost use Rattle.wasm_bytes.specs.Gives.{Gives};
ghost use Rattle.wasm_bytes.specs.Reading.{allowed, byte, entries};
ghost use Rattle.wasm_bytes.specs.Numbers.{number32};
ghost use Rattle.wasm_file.specs.Entries.{has_bit, limit, maximum, limits, memory_type, table_type, mutability, tag_type, import_of, import_type, «import», export_of, export_item, «export», global_entry, are_elem_flags, elem_table, elem_place, elem_type, elem_entries, elem, are_segment_flags, segment_memory, segment_place, blob, segment, custom};

use crate::entries::{
    Custom, Elem, ElemPlace, Export, ExportItem, FileGlobal, FileImport, ImportType, Segment,
    TableType,
};
use packed_ops::Ops;
use std::alloc::Global;
use values::Seq;
use wasm_bytes::{Counts, Entry, ReadFault, Reader, read_entries, read_exactly, read_name};
use wasm_code::{read_initial, read_initials};
use wasm_types::{
    FuncId, GlobalId, Limits, MemoryId, TableId, TagId, TypeId, ValType, read_ref_type,
};

/// The greatest limit of a memory.
const MEMORY_LIMIT: u64 = 9_223_372_036_854_775_807;

/// Whether a bit of a byte of flags is set.
fn has_bit(flags: u8, bit: u8) -> bool
    ensures { result ≡ has_bit bit flags }
{
    flags & bit != 0
}

/// One byte below a bound.
pub(crate) fn read_byte_below(reader: &mut Reader<'_>, bound: u8) -> Result<u8, ReadFault>
    ensures { Gives result reader.new (allowed (λ b. nat_lt b bound) byte reader.old) }
{
    let place = reader.place();
    let found = reader.byte()?;
    if found < bound {
        Ok(found)
    } else {
        Err(ReadFault::Parse { place })
    }
}

/// A limit, at most the greatest.
#[tactic(auto, unfolding(crate::specs::Entries::limit))]
fn read_limit(reader: &mut Reader<'_>, greatest: u64, wide: bool) -> Result<u64, ReadFault>
    ensures { Gives result reader.new (limit greatest wide reader.old) }
{
    let place = reader.place();
    let found = if wide {
        reader.number64()?
    } else {
        reader.number32()? as u64
    };
    if found <= greatest {
        Ok(found)
    } else {
        Err(ReadFault::Parse { place })
    }
}

/// A second limit, where the flags tell of one.
#[tactic(auto, unfolding(crate::specs::Entries::maximum))]
fn read_maximum(reader: &mut Reader<'_>, greatest: u64, flags: u8) -> Result<Option<u64>, ReadFault>
    ensures { Gives result reader.new (maximum greatest flags reader.old) }
{
    if has_bit(flags, 1) {
        Ok(Some(read_limit(reader, greatest, has_bit(flags, 4))?))
    } else {
        Ok(None)
    }
}

/// Limits, each at most the greatest (WebAssembly core specification, 5.3.8).
#[tactic(auto, unfolding(crate::specs::Entries::limits))]
fn read_limits(reader: &mut Reader<'_>, greatest: u64) -> Result<Limits, ReadFault>
    ensures { Gives result reader.new (limits greatest reader.old) }
{
    let flags = read_byte_below(reader, 8)?;
    let wide = has_bit(flags, 4);
    let min = read_limit(reader, greatest, wide)?;
    let max = read_maximum(reader, greatest, flags)?;
    Ok(Limits {
        min,
        max,
        shared: has_bit(flags, 2),
        wide,
    })
}

/// What stands in a list where the type of an entry doesn't tell its spelling.
pub(crate) trait Listed {
    ghost use Rattle.std.specs.Prelude.{Result, ℕ};
    ghost use Rattle.wasm_bytes.specs.declared.counts.Counts.{Counts};
    ghost use Rattle.wasm_bytes.specs.Reading.{Input};
    ghost use Rattle.wasm_bytes.specs.Gives.{Gives};

    /// An entry.
    type Item: Drop;

    /// Its spelling.
    ghost grammar: { Counts → Input → Result (Self.Item × Input) ℕ };

    fn read(
        reader: &mut Reader<'_>,
        alloc: Global,
        counts: &Counts,
    ) -> Result<Self::Item, ReadFault>
        ensures { Gives result reader.new (grammar counts.now reader.old) };
}

/// Entries, so many.
pub(crate) fn read_each_of<L: Listed>(
    count: u32,
    reader: &mut Reader<'_>,
    alloc: Global,
    counts: &Counts,
) -> Result<Seq<L::Item>, ReadFault>
    ensures value { Gives result reader.new (entries count (L.grammar counts.now) reader.old) }
    ensures len { IfOk result (λ xs. length xs ≡ count) }
{
    let mut items = Seq::new(alloc);
    for _ in 0..count {
        items.push(L::read(reader, alloc, counts)?)?;
    }
    Ok(items)
}

/// The limits of a memory (WebAssembly core specification, 5.3.9).
pub(crate) struct MemoryType;

impl Listed for MemoryType {
    type Item = Limits;

    ghost grammar = { λ _. memory_type };

    #[tactic(auto, unfolding(crate::specs::Entries::memory_type))]
    fn read(
        reader: &mut Reader<'_>,
        _alloc: Global,
        _counts: &Counts,
    ) -> Result<Limits, ReadFault> {
        read_limits(reader, MEMORY_LIMIT)
    }
}

impl Entry for TableType {
    ghost grammar = { λ _. table_type };

    #[tactic(auto, unfolding(crate::specs::Entries::table_type))]
    fn read(
        reader: &mut Reader<'_>,
        alloc: Global,
        counts: &Counts,
    ) -> Result<TableType, ReadFault> {
        let elem = read_ref_type(reader, alloc, counts)?;
        let limits = read_limits(reader, u64::MAX)?;
        Ok(TableType { elem, limits })
    }
}

/// Whether a global can be set (WebAssembly core specification, 5.3.11).
#[tactic(auto, unfolding(crate::specs::Entries::mutability))]
fn read_mutability(reader: &mut Reader<'_>) -> Result<bool, ReadFault>
    ensures { Gives result reader.new (mutability reader.old) }
{
    Ok(read_byte_below(reader, 2)? == 1)
}

/// The type of a tag.
pub(crate) struct TagType;

impl Listed for TagType {
    type Item = TypeId;

    ghost grammar = { tag_type };

    #[tactic(auto, unfolding(crate::specs::Entries::tag_type))]
    fn read(reader: &mut Reader<'_>, alloc: Global, counts: &Counts) -> Result<TypeId, ReadFault> {
        read_exactly(reader, 0)?;
        TypeId::read(reader, alloc, counts)
    }
}

/// What an import of a kind asks for.
#[tactic(auto, unfolding(crate::specs::Entries::import_of))]
fn read_import_of(
    kind: u8,
    place: u64,
    reader: &mut Reader<'_>,
    alloc: Global,
    counts: &Counts,
) -> Result<ImportType, ReadFault>
    ensures { Gives result reader.new (import_of counts.now place kind reader.old) }
{
    match kind {
        0 => Ok(ImportType::Func(TypeId::read(reader, alloc, counts)?)),
        1 => {
            let table = TableType::read(reader, alloc, counts)?;
            Ok(ImportType::Table(table.elem, table.limits))
        }
        2 => Ok(ImportType::Memory(MemoryType::read(reader, alloc, counts)?)),
        3 => {
            let ty = ValType::read(reader, alloc, counts)?;
            Ok(ImportType::Global(ty, read_mutability(reader)?))
        }
        4 => Ok(ImportType::Tag(TagType::read(reader, alloc, counts)?)),
        _ => Err(ReadFault::Parse { place }),
    }
}

impl Entry for ImportType {
    ghost grammar = { import_type };

    #[tactic(auto, unfolding(crate::specs::Entries::import_type))]
    fn read(
        reader: &mut Reader<'_>,
        alloc: Global,
        counts: &Counts,
    ) -> Result<ImportType, ReadFault> {
        let place = reader.place();
        let kind = reader.byte()?;
        read_import_of(kind, place, reader, alloc, counts)
    }
}

impl Entry for FileImport {
    ghost grammar = { «import» };

    #[tactic(auto, unfolding(crate::specs::Entries::import))]
    fn read(
        reader: &mut Reader<'_>,
        alloc: Global,
        counts: &Counts,
    ) -> Result<FileImport, ReadFault> {
        let module = read_name(reader, alloc)?;
        let name = read_name(reader, alloc)?;
        let ty = ImportType::read(reader, alloc, counts)?;
        Ok(FileImport { module, name, ty })
    }
}

/// What an export of a kind gives out.
#[tactic(auto, unfolding(crate::specs::Entries::export_of))]
fn read_export_of(
    kind: u8,
    place: u64,
    reader: &mut Reader<'_>,
    alloc: Global,
    counts: &Counts,
) -> Result<ExportItem, ReadFault>
    ensures { Gives result reader.new (export_of counts.now place kind reader.old) }
{
    match kind {
        0 => FuncId::read(reader, alloc, counts).map(ExportItem::Func),
        1 => TableId::read(reader, alloc, counts).map(ExportItem::Table),
        2 => MemoryId::read(reader, alloc, counts).map(ExportItem::Memory),
        3 => GlobalId::read(reader, alloc, counts).map(ExportItem::Global),
        4 => TagId::read(reader, alloc, counts).map(ExportItem::Tag),
        _ => Err(ReadFault::Parse { place }),
    }
}

impl Entry for ExportItem {
    ghost grammar = { export_item };

    #[tactic(auto, unfolding(crate::specs::Entries::export_item))]
    fn read(
        reader: &mut Reader<'_>,
        alloc: Global,
        counts: &Counts,
    ) -> Result<ExportItem, ReadFault> {
        let place = reader.place();
        let kind = reader.byte()?;
        read_export_of(kind, place, reader, alloc, counts)
    }
}

impl Entry for Export {
    ghost grammar = { «export» };

    #[tactic(auto, unfolding(crate::specs::Entries::export))]
    fn read(reader: &mut Reader<'_>, alloc: Global, counts: &Counts) -> Result<Export, ReadFault> {
        let name = read_name(reader, alloc)?;
        let item = ExportItem::read(reader, alloc, counts)?;
        Ok(Export { name, item })
    }
}

impl Entry for FileGlobal {
    ghost grammar = { global_entry };

    #[tactic(auto, unfolding(crate::specs::Entries::global_entry))]
    fn read(
        reader: &mut Reader<'_>,
        alloc: Global,
        counts: &Counts,
    ) -> Result<FileGlobal, ReadFault> {
        let ty = ValType::read(reader, alloc, counts)?;
        let mutable = read_mutability(reader)?;
        let init = read_initial(reader, alloc, counts)?;
        Ok(FileGlobal { ty, mutable, init })
    }
}

/// The flags of an element segment. 0 and 4 mean table 0, which must be there.
fn read_elem_flags(reader: &mut Reader<'_>, counts: &Counts) -> Result<u32, ReadFault>
    ensures { Gives result reader.new (allowed (are_elem_flags counts.now) number32 reader.old) }
{
    let place = reader.place();
    let flags = reader.number32()?;
    if flags < 8 && (0 < counts.tables || !(flags == 0 || flags == 4)) {
        Ok(flags)
    } else {
        Err(ReadFault::Parse { place })
    }
}

/// The table of an active element segment.
#[tactic(auto, unfolding(crate::specs::Entries::elem_table))]
fn read_elem_table(
    flags: u32,
    reader: &mut Reader<'_>,
    alloc: Global,
    counts: &Counts,
) -> Result<TableId, ReadFault>
    ensures { Gives result reader.new (elem_table counts.now flags reader.old) }
{
    if flags == 2 || flags == 6 {
        TableId::read(reader, alloc, counts)
    } else {
        Ok(TableId(0))
    }
}

/// Where an element segment goes.
#[tactic(auto, unfolding(crate::specs::Entries::elem_place))]
fn read_elem_place(
    flags: u32,
    reader: &mut Reader<'_>,
    alloc: Global,
    counts: &Counts,
) -> Result<ElemPlace, ReadFault>
    ensures { Gives result reader.new (elem_place counts.now flags reader.old) }
{
    if flags == 1 || flags == 5 {
        return Ok(ElemPlace::Passive);
    }
    if flags == 3 || flags == 7 {
        return Ok(ElemPlace::Declared);
    }
    let table = read_elem_table(flags, reader, alloc, counts)?;
    let offset = read_initial(reader, alloc, counts)?;
    Ok(ElemPlace::Active(table, offset))
}

/// The type of an element segment's entries.
#[tactic(auto, unfolding(crate::specs::Entries::elem_type))]
fn read_elem_type(
    flags: u32,
    reader: &mut Reader<'_>,
    alloc: Global,
    counts: &Counts,
) -> Result<ValType, ReadFault>
    ensures { Gives result reader.new (elem_type flags reader.old) }
{
    if flags == 0 || flags == 4 {
        return Ok(ValType::FuncRef);
    }
    if flags < 4 {
        read_exactly(reader, 0)?;
        return Ok(ValType::FuncRef);
    }
    read_ref_type(reader, alloc, counts)
}

/// The functions of an element segment, and its expressions: one of the lists is empty.
#[tactic(auto, unfolding(crate::specs::Entries::elem_entries))]
fn read_elem_entries(
    flags: u32,
    reader: &mut Reader<'_>,
    alloc: Global,
    counts: &Counts,
) -> Result<(Seq<FuncId>, Seq<Ops>), ReadFault>
    ensures { Gives result reader.new (elem_entries counts.now flags reader.old) }
{
    let count = reader.number32()?;
    if flags < 4 {
        let funcs = read_entries(count, reader, alloc, counts)?;
        Ok((funcs, Seq::new(alloc)))
    } else {
        let exprs = read_initials(count, reader, alloc, counts)?;
        Ok((Seq::new(alloc), exprs))
    }
}

impl Entry for Elem {
    ghost grammar = { elem };

    /// An element segment (WebAssembly core specification, 5.5.12).
    #[tactic(auto, unfolding(crate::specs::Entries::elem))]
    fn read(reader: &mut Reader<'_>, alloc: Global, counts: &Counts) -> Result<Elem, ReadFault> {
        let flags = read_elem_flags(reader, counts)?;
        let place = read_elem_place(flags, reader, alloc, counts)?;
        let ty = read_elem_type(flags, reader, alloc, counts)?;
        let (funcs, exprs) = read_elem_entries(flags, reader, alloc, counts)?;
        Ok(Elem {
            place,
            ty,
            funcs,
            exprs,
        })
    }
}

/// The flags of a data segment. 0 means memory 0, which must be there.
fn read_segment_flags(reader: &mut Reader<'_>, counts: &Counts) -> Result<u32, ReadFault>
    ensures { Gives result reader.new (allowed (are_segment_flags counts.now) number32 reader.old) }
{
    let place = reader.place();
    let flags = reader.number32()?;
    if flags < 3 && (0 < counts.memories || flags != 0) {
        Ok(flags)
    } else {
        Err(ReadFault::Parse { place })
    }
}

/// The memory of an active data segment.
#[tactic(auto, unfolding(crate::specs::Entries::segment_memory))]
fn read_segment_memory(
    flags: u32,
    reader: &mut Reader<'_>,
    alloc: Global,
    counts: &Counts,
) -> Result<MemoryId, ReadFault>
    ensures { Gives result reader.new (segment_memory counts.now flags reader.old) }
{
    if flags == 2 {
        MemoryId::read(reader, alloc, counts)
    } else {
        Ok(MemoryId(0))
    }
}

/// Where a data segment goes.
#[tactic(auto, unfolding(crate::specs::Entries::segment_place))]
fn read_segment_place(
    flags: u32,
    reader: &mut Reader<'_>,
    alloc: Global,
    counts: &Counts,
) -> Result<Option<(MemoryId, Ops)>, ReadFault>
    ensures { Gives result reader.new (segment_place counts.now flags reader.old) }
{
    if flags == 1 {
        return Ok(None);
    }
    let memory = read_segment_memory(flags, reader, alloc, counts)?;
    let offset = read_initial(reader, alloc, counts)?;
    Ok(Some((memory, offset)))
}

/// A length and that many bytes.
#[tactic(auto, unfolding(crate::specs::Entries::blob))]
fn read_blob(reader: &mut Reader<'_>, alloc: Global) -> Result<Seq<u8>, ReadFault>
    ensures { Gives result reader.new (blob reader.old) }
{
    let len = reader.number32()?;
    let bytes = reader.raw(len as usize)?;
    Ok(Seq::from_vec(Vec::from_slice(alloc, bytes)?))
}

impl Entry for Segment {
    ghost grammar = { segment };

    /// A data segment (WebAssembly core specification, 5.5.14).
    #[tactic(auto, unfolding(crate::specs::Entries::segment))]
    fn read(reader: &mut Reader<'_>, alloc: Global, counts: &Counts) -> Result<Segment, ReadFault> {
        let flags = read_segment_flags(reader, counts)?;
        let place = read_segment_place(flags, reader, alloc, counts)?;
        let bytes = read_blob(reader, alloc)?;
        Ok(Segment { place, bytes })
    }
}

/// A custom section: a name and all bytes after it (WebAssembly core specification, 5.5.3).
#[tactic(auto, unfolding(crate::specs::Entries::custom))]
pub(crate) fn read_custom(reader: &mut Reader<'_>, alloc: Global) -> Result<Custom, ReadFault>
    ensures { Gives result reader.new (custom reader.old) }
{
    let name = read_name(reader, alloc)?;
    let bytes = Seq::from_vec(Vec::from_slice(alloc, reader.remaining())?);
    Ok(Custom { name, bytes })
}
