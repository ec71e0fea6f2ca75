//! The entries of a module, made of those of a file.

ghost use Rattle.std.specs.Prelude.{◌≡◌, [], ◌++◌, ◌+◌, ◌<◌, ◌≤◌, ◌^◌, length, map, fold, Some, IfOk, OnOk};
ghost use Rattle.std.specs.List.{filter};
ghost use Rattle.wasm_core.specs.Edits.{func_named};
ghost use Rattle.wasm_core.specs.Parsing.{imports_behind, places_of, kind_at, brought, imported_func, imported_table, imported_memory, imported_global, imported_tag, own_funcs, table_of, memory_of, global_of, tag_of, joined, all_funcs, names_in, merged, all_names, with_name, with_names, name_given, producers_in, all_producers, is_kept, after};

use crate::types::{Func, GlobalVar, Import, ImportKind, Memory, Table, Tag};
use packed_ops::Ops;
use std::alloc::{AllocError, Global};
use values::{Seq, Text};
use wasm_code::Body;
use wasm_file::{
    Custom, FileGlobal, FileImport, ImportType, Names, ProducerField, TableType, read_names,
    read_producers,
};
use wasm_types::{FuncId, GlobalId, ImportId, Limits, MemoryId, TableId, TagId, TypeId};

/// The next number, which then is one more. `AllocError` where it is 4,294,967,295: no number comes behind that one.
pub fn take_next(next: &mut u32) -> Result<u32, AllocError>
    ensures { IfOk result (λ n. (n ≡ next.old) × (next.new ≡ next.old + 1)) }
{
    let number = *next;
    *next = number.checked_add(1).ok_or(AllocError)?;
    Ok(number)
}

/// The next places of items, by their kinds.
#[derive(Clone, Copy)]
struct Places {
    funcs: u32,
    tables: u32,
    memories: u32,
    globals: u32,
    tags: u32,
}

impl Places {
    /// The item that an import brings in, at the next place of its kind, which the next one doesn't get.
    fn take(&mut self, ty: ImportType) -> Result<ImportKind, AllocError>
        ensures { IfOk result (λ kind. (kind ≡ kind_at self.old ty) × (self.new ≡ after self.old ty)) }
    {
        match ty {
            ImportType::Func(_) => Ok(ImportKind::Func(FuncId(take_next(&mut self.funcs)?))),
            ImportType::Table(..) => Ok(ImportKind::Table(TableId(take_next(&mut self.tables)?))),
            ImportType::Memory(_) => {
                Ok(ImportKind::Memory(MemoryId(take_next(&mut self.memories)?)))
            }
            ImportType::Global(..) => {
                Ok(ImportKind::Global(GlobalId(take_next(&mut self.globals)?)))
            }
            ImportType::Tag(_) => Ok(ImportKind::Tag(TagId(take_next(&mut self.tags)?))),
        }
    }
}

/// Adds imports, each of the next item of its kind.
#[tactic(auto, unfolding(crate::specs::Parsing::imports_behind))]
pub(crate) fn add_imports(
    entries: &mut Vec<Option<Import>>,
    imports: Seq<FileImport>,
) -> Result<(), AllocError>
    ensures { OnOk result (entries.new.items ≡ entries.old.items ++ imports_behind [] imports) }
{
    let mut places = Places {
        funcs: 0,
        tables: 0,
        memories: 0,
        globals: 0,
        tags: 0,
    };
    for import in imports.into_vec() {
        let kind = places.take(import.ty)?;
        entries.push(Some(Import {
            module: import.module,
            name: import.name,
            kind,
        }))?;
    }
    Ok(())
}

/// What an import can bring in.
pub(crate) trait Imported: Sized + Drop {
    ghost use Rattle.std.specs.Prelude.{Option, ◌≡◌};
    ghost use Rattle.wasm_types.specs.declared.ids.ImportId.{ImportId};
    ghost use Rattle.wasm_file.specs.declared.entries.ImportType.{ImportType};

    /// What an import of this type brings in, none where it asks for another kind.
    ghost imported: { ImportId → ImportType → Option Self };

    fn from_import(alloc: Global, import: ImportId, ty: ImportType) -> Option<Self>
        ensures { result ≡ imported import ty };
}

impl Imported for Func {
    ghost imported = { imported_func };

    fn from_import(_alloc: Global, import: ImportId, ty: ImportType) -> Option<Func> {
        match ty {
            ImportType::Func(ty) => Some(Func {
                ty,
                name: None,
                import: Some(import),
                body: None,
            }),
            _ => None,
        }
    }
}

impl Imported for Table {
    ghost imported = { imported_table };

    fn from_import(_alloc: Global, import: ImportId, ty: ImportType) -> Option<Table> {
        match ty {
            ImportType::Table(elem, limits) => Some(Table {
                elem,
                limits,
                import: Some(import),
            }),
            _ => None,
        }
    }
}

impl Imported for Memory {
    ghost imported = { imported_memory };

    fn from_import(_alloc: Global, import: ImportId, ty: ImportType) -> Option<Memory> {
        match ty {
            ImportType::Memory(limits) => Some(Memory {
                limits,
                import: Some(import),
            }),
            _ => None,
        }
    }
}

impl Imported for GlobalVar {
    ghost imported = { imported_global };

    fn from_import(alloc: Global, import: ImportId, ty: ImportType) -> Option<GlobalVar> {
        match ty {
            ImportType::Global(ty, mutable) => Some(GlobalVar {
                ty,
                mutable,
                import: Some(import),
                init: Ops::new(alloc),
            }),
            _ => None,
        }
    }
}

impl Imported for Tag {
    ghost imported = { imported_tag };

    fn from_import(_alloc: Global, import: ImportId, ty: ImportType) -> Option<Tag> {
        match ty {
            ImportType::Tag(ty) => Some(Tag {
                ty,
                import: Some(import),
            }),
            _ => None,
        }
    }
}

/// Adds what imports bring in of one kind.
fn import_all<T: Imported>(
    alloc: Global,
    entries: &mut Vec<Option<T>>,
    imports: &[FileImport],
) -> Result<(), AllocError>
    requires { length imports.now < 2 ^ 32 }
    ensures { OnOk result (entries.new.items ≡ entries.old.items ++ map Some (brought T.imported imports.now)) }
{
    for (place, import) in imports.iter().enumerate() {
        if let Some(item) = T::from_import(alloc, ImportId(place as u32), import.ty) {
            entries.push(Some(item))?;
        }
    }
    Ok(())
}

/// What a file has of an entry that isn't imported.
pub(crate) trait Own: Drop {
    ghost use Rattle.std.specs.Prelude.{◌≡◌};

    /// What a module has of it.
    type Entry: Imported;

    /// The entry.
    ghost entry: { Self → Self.Entry };

    fn into_entry(self) -> Self::Entry
        ensures { result ≡ entry self };
}

impl Own for TableType {
    type Entry = Table;

    ghost entry = { table_of };

    fn into_entry(self) -> Table {
        Table {
            elem: self.elem,
            limits: self.limits,
            import: None,
        }
    }
}

impl Own for Limits {
    type Entry = Memory;

    ghost entry = { memory_of };

    fn into_entry(self) -> Memory {
        Memory {
            limits: self,
            import: None,
        }
    }
}

impl Own for FileGlobal {
    type Entry = GlobalVar;

    ghost entry = { global_of };

    fn into_entry(self) -> GlobalVar {
        let FileGlobal { ty, mutable, init } = self;
        GlobalVar {
            ty,
            mutable,
            import: None,
            init,
        }
    }
}

impl Own for TypeId {
    type Entry = Tag;

    ghost entry = { tag_of };

    fn into_entry(self) -> Tag {
        Tag {
            ty: self,
            import: None,
        }
    }
}

/// Adds all entries of a kind: the imported ones, and then the others.
pub(crate) fn add_all<T: Own>(
    alloc: Global,
    entries: &mut Vec<Option<T::Entry>>,
    imports: &[FileImport],
    own: Seq<T>,
) -> Result<(), AllocError>
    requires { length imports.now < 2 ^ 32 }
    ensures { OnOk result (entries.new.items ≡ entries.old.items ++ joined (brought T.Entry.imported imports.now) (map T.entry own)) }
{
    import_all(alloc, entries, imports)?;
    for item in own.into_vec() {
        entries.push(Some(item.into_entry()))?;
    }
    Ok(())
}

/// Adds functions with their bodies.
#[tactic(auto, unfolding(crate::specs::Parsing::own_funcs))]
fn join_bodies(
    funcs: &mut Vec<Option<Func>>,
    types: &[TypeId],
    bodies: Seq<Body>,
) -> Result<(), AllocError>
    requires { length types.now ≡ length bodies }
    ensures { OnOk result (funcs.new.items ≡ funcs.old.items ++ map Some (own_funcs types.now bodies)) }
{
    let mut place = 0;
    for body in bodies.into_vec() {
        funcs.push(Some(Func {
            ty: types[place],
            name: None,
            import: None,
            body: Some(body),
        }))?;
        place += 1;
    }
    Ok(())
}

/// Adds entries, each at its place.
fn place_each<T: Drop>(entries: &mut Vec<Option<T>>, items: Vec<T>) -> Result<(), AllocError>
    ensures { OnOk result (entries.new.items ≡ entries.old.items ++ map Some items.items) }
{
    for item in items {
        entries.push(Some(item))?;
    }
    Ok(())
}

/// Adds entries, each at its place. Those of the first half are let go before the others are added, so that never all of them stand
/// in memory twice.
pub(crate) fn place_all<T: Drop>(
    entries: &mut Vec<Option<T>>,
    items: Seq<T>,
) -> Result<(), AllocError>
    ensures { OnOk result (entries.new.items ≡ entries.old.items ++ map Some items) }
{
    let mut first = items.into_vec();
    let half = first.len() / 2;
    let second = first.split_off(half)?;
    first.shrink_to_fit();
    place_each(entries, first)?;
    place_each(entries, second)
}

/// The names that a custom section gives, none where it is another than a name section, or doesn't read.
fn names_in(alloc: Global, custom: &Custom, funcs: u32) -> Result<Option<Names>, AllocError>
    ensures { IfOk result (λ names. names ≡ names_in funcs custom.now) }
{
    if custom.name.as_str() == "name" {
        read_names(alloc, custom.bytes.as_slice(), funcs)
    } else {
        Ok(None)
    }
}

/// Adds the names of another section.
fn merge(names: &mut Names, more: Names) -> Result<(), AllocError>
    ensures { OnOk result (names.new ≡ merged names.old more) }
{
    let Names { module, funcs } = more;
    if module.is_some() {
        names.module = module;
    }
    names.funcs.append(funcs)
}

/// The names that all name sections give.
#[tactic(auto, unfolding(crate::specs::Parsing::all_names))]
pub(crate) fn all_names(alloc: Global, customs: &[Custom], funcs: u32) -> Result<Names, AllocError>
    ensures { IfOk result (λ names. names ≡ all_names funcs customs.now) }
{
    let mut names = Names {
        module: None,
        funcs: Seq::new(alloc),
    };
    for custom in customs {
        if let Some(more) = names_in(alloc, custom, funcs)? {
            merge(&mut names, more)?;
        }
    }
    Ok(names)
}

/// Gives a function a name, where there is one.
pub(crate) fn name_func(entry: &mut Option<Func>, name: Text)
    ensures entry { entry.new ≡ with_name (Some name) entry.old }
    ensures place { entry.new ≡ func_named name (Some entry.old) }
{
    if let Some(func) = entry {
        func.name = Some(name);
    }
}

/// Gives the function at a place a name, where there is one.
fn give_name(funcs: &mut Vec<Option<Func>>, func: FuncId, name: Text)
    ensures { funcs.new.items ≡ name_given funcs.old.items (func, name) }
{
    let place = func.0 as usize;
    if place < funcs.len() {
        name_func(&mut funcs[place], name);
    }
}

/// Gives functions their names. Of several the last one counts.
pub(crate) fn give_names(funcs: &mut Vec<Option<Func>>, names: Seq<(FuncId, Text)>)
    ensures { funcs.new.items ≡ with_names names funcs.old.items }
{
    for (func, name) in names.into_vec() {
        give_name(funcs, func, name);
    }
}

/// The fields of a producers section, none where a custom section is another one, or doesn't read.
fn producers_in(alloc: Global, custom: &Custom) -> Result<Option<Seq<ProducerField>>, AllocError>
    ensures { IfOk result (λ fields. fields ≡ producers_in custom.now) }
{
    if custom.name.as_str() == "producers" {
        read_producers(alloc, custom.bytes.as_slice())
    } else {
        Ok(None)
    }
}

/// The fields of all producers sections.
#[tactic(auto, unfolding(crate::specs::Parsing::all_producers))]
pub(crate) fn all_producers(
    alloc: Global,
    customs: &[Custom],
) -> Result<Seq<ProducerField>, AllocError>
    ensures { IfOk result (λ fields. fields ≡ all_producers customs.now) }
{
    let mut fields = Seq::new(alloc);
    for custom in customs {
        if let Some(more) = producers_in(alloc, custom)? {
            fields.append(more)?;
        }
    }
    Ok(fields)
}

/// Whether a custom section stays as it is.
fn is_kept(custom: &Custom, keep_debug: bool) -> bool
    ensures { result ≡ is_kept keep_debug custom.now }
{
    let name = custom.name.as_str();
    name != "name"
        && name != "producers"
        && (keep_debug || !name.as_bytes().starts_with(b".debug_"))
}

/// Drops the custom sections that don't stay.
pub(crate) fn drop_read(customs: &mut Vec<Custom>, keep_debug: bool)
    ensures { customs.new.items ≡ filter (is_kept keep_debug) customs.old.items }
{
    customs.retain(|custom| is_kept(custom, keep_debug));
}

/// Adds all functions, without names.
pub(crate) fn add_funcs(
    alloc: Global,
    funcs: &mut Vec<Option<Func>>,
    imports: &[FileImport],
    types: &[TypeId],
    bodies: Seq<Body>,
) -> Result<(), AllocError>
    requires none { funcs.old.items ≡ [] }
    requires few { length imports.now < 2 ^ 32 }
    requires paired { length types.now ≡ length bodies }
    ensures value { OnOk result (funcs.new.items ≡ joined (brought imported_func imports.now) (own_funcs types.now bodies)) }
    ensures few { OnOk result (length funcs.new.items ≤ length imports.now + length types.now) }
{
    import_all(alloc, funcs, imports)?;
    join_bodies(funcs, types, bodies)?;
    Ok(())
}
