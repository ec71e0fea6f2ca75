//! The lists of a file (WebAssembly core specification, 5.5): what stands in them for the entries of a module. Live
//! entries do, and name others by their numbers.

ghost use Rattle.std.specs.Prelude.{◌≡◌, [], Some};
ghost use Rattle.std.specs.Option.{option_copied};
ghost use Rattle.wasm_types.specs.Spelling.{func_type_bytes};
ghost use Rattle.wasm_code.specs.Spelling.{code_bytes};
ghost use Rattle.wasm_file.specs.Spelling.{import_bytes, type_id_bytes, table_bytes, limits_bytes, tag_bytes, global_bytes, export_bytes, elem_bytes, segment_bytes};
ghost use Rattle.wasm_emission.specs.Emission.{import_asked, func_asked, table_asked, memory_asked, global_asked, tag_asked, file_import, file_type, own_type, own_body, own_table, own_memory, own_tag, own_global, file_export, file_item, file_elem, file_segment};

use crate::segments::{write_elem, write_segment};
use packed_ops::Ops;
use std::alloc::{AllocError, Global};
use values::Seq;
use wasm_bytes::{Spell, push_u32, write_name};
use wasm_code::{Body, write_code, write_expression};
use wasm_core::{Func, GlobalVar, Import, ImportKind, Memory, Module, Table, Tag};
use wasm_file::{
    Elem, Export, ExportItem, FileGlobal, FileImport, ImportType, Segment, TableType,
    write_global_type, write_limits, write_tag,
};
use wasm_ops::{Numbering, number_at};
use wasm_types::{FuncId, FuncType, GlobalId, Limits, MemoryId, TableId, TagId, TypeId};

/// The module that is written, and the numbers of its entries.
#[derive(Clone, Copy)]
pub(crate) struct Plan<'a> {
    pub module: &'a Module,
    pub numbers: &'a Numbering,
    pub alloc: Global,
}

/// A list of a file.
pub(crate) trait FileList {
    ghost use Rattle.std.specs.Prelude.{List, ℕ, Option, ◌≡◌, ◌++◌, is_some, IfOk};
    ghost use Rattle.wasm_ops.specs.declared.ops.Numbering.{Numbering};
    ghost use Rattle.wasm_core.specs.Contents.{Contents};
    ghost use Rattle.wasm_emission.specs.Emission.{some_bytes};

    /// What the module's list holds.
    type Item;

    /// What the file's list holds.
    type Entry;

    /// What stands in the file for an item, none where nothing does.
    ghost filed: { Contents → Numbering → Self.Item → Option Self.Entry };

    /// Its bytes.
    ghost spelled: { Self.Entry → List ℕ };

    /// Appends the bytes of what stands in the file for an item, and tells whether something does.
    fn write(item: &Self::Item, plan: &Plan<'_>, out: &mut Vec<u8>) -> Result<bool, AllocError>
        ensures { IfOk result (λ stands. (stands ≡ is_some (filed plan.now.module.now plan.now.numbers.now item.now)) × (out.new.items ≡ out.old.items ++ some_bytes spelled (filed plan.now.module.now plan.now.numbers.now item.now))) };
}

/// The types.
pub(crate) struct Types;

impl FileList for Types {
    type Item = FuncType;

    type Entry = FuncType;

    ghost filed = { λ m n ty. Some ty };

    ghost spelled = { func_type_bytes };

    fn write(item: &FuncType, _plan: &Plan<'_>, out: &mut Vec<u8>) -> Result<bool, AllocError> {
        item.write(out)?;
        Ok(true)
    }
}

/// A type by its number.
fn file_type(numbers: &Numbering, ty: TypeId) -> TypeId
    ensures { result ≡ file_type numbers.now ty }
{
    TypeId(number_at(&numbers.types, ty.0))
}

/// What an import of a function asks for, none where it isn't there.
fn func_asked(numbers: &Numbering, entry: Option<&Option<Func>>) -> Option<ImportType>
    ensures { result ≡ func_asked numbers.now (option_copied entry.entry) }
{
    match entry {
        Some(Some(func)) => Some(ImportType::Func(file_type(numbers, func.ty))),
        _ => None,
    }
}

/// What an import of a table asks for, none where it isn't there.
fn table_asked(entry: Option<&Option<Table>>) -> Option<ImportType>
    ensures { result ≡ table_asked (option_copied entry.entry) }
{
    match entry {
        Some(Some(table)) => Some(ImportType::Table(table.elem, table.limits)),
        _ => None,
    }
}

/// What an import of a memory asks for, none where it isn't there.
fn memory_asked(entry: Option<&Option<Memory>>) -> Option<ImportType>
    ensures { result ≡ memory_asked (option_copied entry.entry) }
{
    match entry {
        Some(Some(memory)) => Some(ImportType::Memory(memory.limits)),
        _ => None,
    }
}

/// What an import of a global asks for, none where it isn't there.
fn global_asked(entry: Option<&Option<GlobalVar>>) -> Option<ImportType>
    ensures { result ≡ global_asked (option_copied entry.entry) }
{
    match entry {
        Some(Some(global)) => Some(ImportType::Global(global.ty, global.mutable)),
        _ => None,
    }
}

/// What an import of a tag asks for, none where it isn't there.
fn tag_asked(numbers: &Numbering, entry: Option<&Option<Tag>>) -> Option<ImportType>
    ensures { result ≡ tag_asked numbers.now (option_copied entry.entry) }
{
    match entry {
        Some(Some(tag)) => Some(ImportType::Tag(file_type(numbers, tag.ty))),
        _ => None,
    }
}

/// What an import asks for, none where its item isn't there.
#[tactic(auto, unfolding(crate::specs::Emission::import_asked))]
fn import_asked(plan: &Plan<'_>, kind: ImportKind) -> Option<ImportType>
    ensures { result ≡ import_asked plan.now.module.now plan.now.numbers.now kind }
{
    let module = plan.module;
    match kind {
        ImportKind::Func(id) => func_asked(plan.numbers, module.funcs().get(id.0 as usize)),
        ImportKind::Table(id) => table_asked(module.tables().get(id.0 as usize)),
        ImportKind::Memory(id) => memory_asked(module.memories().get(id.0 as usize)),
        ImportKind::Global(id) => global_asked(module.globals().get(id.0 as usize)),
        ImportKind::Tag(id) => tag_asked(plan.numbers, module.tags().get(id.0 as usize)),
    }
}

/// The imports of items that are there.
pub(crate) struct Imports;

impl FileList for Imports {
    type Item = Import;

    type Entry = FileImport;

    ghost filed = { λ m n i. file_import m n i };

    ghost spelled = { import_bytes };

    #[tactic(auto, unfolding(wasm_file::specs::Spelling::import_bytes))]
    fn write(item: &Import, plan: &Plan<'_>, out: &mut Vec<u8>) -> Result<bool, AllocError> {
        match import_asked(plan, item.kind) {
            Some(ty) => {
                write_name(out, item.module.as_str())?;
                write_name(out, item.name.as_str())?;
                ty.write(out)?;
                Ok(true)
            }
            None => Ok(false),
        }
    }
}

/// The types of own functions.
pub(crate) struct Functions;

impl FileList for Functions {
    type Item = Func;

    type Entry = TypeId;

    ghost filed = { λ m n f. own_type n f };

    ghost spelled = { type_id_bytes };

    #[tactic(auto, unfolding(wasm_file::specs::Spelling::type_id_bytes))]
    fn write(item: &Func, plan: &Plan<'_>, out: &mut Vec<u8>) -> Result<bool, AllocError> {
        if item.import.is_some() {
            return Ok(false);
        }
        push_u32(out, file_type(plan.numbers, item.ty).0)?;
        Ok(true)
    }
}

/// Own tables.
pub(crate) struct Tables;

impl FileList for Tables {
    type Item = Table;

    type Entry = TableType;

    ghost filed = { λ m n t. own_table t };

    ghost spelled = { table_bytes };

    fn write(item: &Table, _plan: &Plan<'_>, out: &mut Vec<u8>) -> Result<bool, AllocError> {
        if item.import.is_some() {
            return Ok(false);
        }
        let table = TableType {
            elem: item.elem,
            limits: item.limits,
        };
        table.write(out)?;
        Ok(true)
    }
}

/// Own memories.
pub(crate) struct Memories;

impl FileList for Memories {
    type Item = Memory;

    type Entry = Limits;

    ghost filed = { λ m n x. own_memory x };

    ghost spelled = { limits_bytes };

    fn write(item: &Memory, _plan: &Plan<'_>, out: &mut Vec<u8>) -> Result<bool, AllocError> {
        if item.import.is_some() {
            return Ok(false);
        }
        write_limits(out, &item.limits)?;
        Ok(true)
    }
}

/// Own tags.
pub(crate) struct Tags;

impl FileList for Tags {
    type Item = Tag;

    type Entry = TypeId;

    ghost filed = { λ m n t. own_tag n t };

    ghost spelled = { tag_bytes };

    fn write(item: &Tag, plan: &Plan<'_>, out: &mut Vec<u8>) -> Result<bool, AllocError> {
        if item.import.is_some() {
            return Ok(false);
        }
        write_tag(out, file_type(plan.numbers, item.ty))?;
        Ok(true)
    }
}

/// Own globals.
pub(crate) struct Globals;

impl FileList for Globals {
    type Item = GlobalVar;

    type Entry = FileGlobal;

    ghost filed = { λ m n g. own_global n g };

    ghost spelled = { global_bytes };

    #[tactic(auto, unfolding(wasm_file::specs::Spelling::global_bytes))]
    fn write(item: &GlobalVar, plan: &Plan<'_>, out: &mut Vec<u8>) -> Result<bool, AllocError> {
        if item.import.is_some() {
            return Ok(false);
        }
        write_global_type(out, item.ty, item.mutable)?;
        write_expression(out, plan.numbers, &item.init)?;
        Ok(true)
    }
}

/// What is exported, by its number.
fn file_item(numbers: &Numbering, item: ExportItem) -> ExportItem
    ensures { result ≡ file_item numbers.now item }
{
    match item {
        ExportItem::Func(id) => ExportItem::Func(FuncId(number_at(&numbers.funcs, id.0))),
        ExportItem::Table(id) => ExportItem::Table(TableId(number_at(&numbers.tables, id.0))),
        ExportItem::Memory(id) => ExportItem::Memory(MemoryId(number_at(&numbers.memories, id.0))),
        ExportItem::Global(id) => ExportItem::Global(GlobalId(number_at(&numbers.globals, id.0))),
        ExportItem::Tag(id) => ExportItem::Tag(TagId(number_at(&numbers.tags, id.0))),
    }
}

/// The exports.
pub(crate) struct Exports;

impl FileList for Exports {
    type Item = Export;

    type Entry = Export;

    ghost filed = { λ m n e. Some (file_export n e) };

    ghost spelled = { export_bytes };

    #[tactic(auto, unfolding(wasm_file::specs::Spelling::export_bytes))]
    fn write(item: &Export, plan: &Plan<'_>, out: &mut Vec<u8>) -> Result<bool, AllocError> {
        write_name(out, item.name.as_str())?;
        file_item(plan.numbers, item.item).write(out)?;
        Ok(true)
    }
}

/// Element segments.
pub(crate) struct Elems;

impl FileList for Elems {
    type Item = Elem;

    type Entry = Elem;

    ghost filed = { λ m n e. Some (file_elem n e) };

    ghost spelled = { elem_bytes };

    fn write(item: &Elem, plan: &Plan<'_>, out: &mut Vec<u8>) -> Result<bool, AllocError> {
        write_elem(out, plan.numbers, item)?;
        Ok(true)
    }
}

/// The bodies of own functions.
pub(crate) struct Bodies;

impl FileList for Bodies {
    type Item = Func;

    type Entry = Body;

    ghost filed = { λ m n f. own_body n f };

    ghost spelled = { code_bytes };

    fn write(item: &Func, plan: &Plan<'_>, out: &mut Vec<u8>) -> Result<bool, AllocError> {
        if item.import.is_some() {
            return Ok(false);
        }
        match &item.body {
            Some(body) => write_code(out, plan.alloc, plan.numbers, body)?,
            None => write_code(out, plan.alloc, plan.numbers, &empty_body(plan.alloc))?,
        }
        Ok(true)
    }
}

/// A body without locals and operators.
fn empty_body(alloc: Global) -> Body
    ensures { result ≡ record { locals = []; ops = [] } }
{
    Body {
        locals: Seq::new(alloc),
        ops: Ops::new(alloc),
    }
}

/// Data segments.
pub(crate) struct Segments;

impl FileList for Segments {
    type Item = Segment;

    type Entry = Segment;

    ghost filed = { λ m n s. Some (file_segment n s) };

    ghost spelled = { segment_bytes };

    fn write(item: &Segment, plan: &Plan<'_>, out: &mut Vec<u8>) -> Result<bool, AllocError> {
        write_segment(out, plan.numbers, item)?;
        Ok(true)
    }
}
