//! The lists of a file, filled section by section (WebAssembly core specification, 5.5).

ghost use Rattle.std.specs.Prelude.{◌≡◌, ◌-◌, ◌&&◌, ◌==◌, ◌≤◌, length, slice_get, nat_le, Ok, Err, IfOk, MatchResult};
ghost use Rattle.std.specs.Option.{option_copied};
ghost use Rattle.wasm_bytes.specs.Gives.{Gives, GivesState};
ghost use Rattle.wasm_bytes.specs.Reading.{allowed, filled, entries, for_each};
ghost use Rattle.wasm_bytes.specs.Items.{listed};
ghost use Rattle.wasm_bytes.specs.Numbers.{number32};
ghost use Rattle.wasm_file.specs.Grammar.{is_complete};
ghost use Rattle.wasm_file.specs.Parts.{most, no_parts, AreFew, AreCounted, counts_of, params_of, is_plain, imported_func_types, func_types};
ghost use Rattle.wasm_file.specs.Sections.{custom_section, type_section, import_section, function_section, table_section, memory_section, tag_section, with_globals, global_section, export_section, type_at, start_section, elem_section, data_count_section, function_body, code_section, is_told, data_section, content};

use crate::MOST;
use crate::entries::{FileImport, ImportType, Parts};
use crate::grammar::{Listed, MemoryType, TagType, read_custom, read_each_of};
use crate::imported::{Imported, count_imports};
use std::alloc::Global;
use std::marker::Model;
use values::Seq;
use wasm_bytes::{Counts, Entry, ReadFault, Reader, read_entries, read_list};
use wasm_code::{Body, read_code_entry};
use wasm_types::{FuncId, FuncType, TypeId};

/// The lists of the sections so far, and how many items of each kind are imported.
#[derive(Drop)]
pub(crate) struct Lists {
    imported: Imported,
    parts: Parts,
}

impl Model for Lists {
    ghost use Rattle.wasm_file.specs.declared.entries.Parts.{Parts};
    ghost use Rattle.wasm_file.specs.Parts.{AreCounted};

    ghost Value = { Parts };

    ghost view = { λ l. l.parts };

    ghost invariant = { λ l. AreCounted l.imported l.parts };
}

impl Lists {
    /// No entries.
    #[tactic(auto, unfolding(crate::specs::Parts::number_of))]
    pub(crate) fn new(alloc: Global) -> Lists
        ensures { result ≡ no_parts }
    {
        Lists {
            imported: Imported {
                funcs: 0,
                tables: 0,
                memories: 0,
                globals: 0,
                tags: 0,
            },
            parts: Parts {
                types: Seq::new(alloc),
                imports: Seq::new(alloc),
                functions: Seq::new(alloc),
                tables: Seq::new(alloc),
                memories: Seq::new(alloc),
                tags: Seq::new(alloc),
                globals: Seq::new(alloc),
                exports: Seq::new(alloc),
                start: None,
                elems: Seq::new(alloc),
                data_count: None,
                bodies: Seq::new(alloc),
                segments: Seq::new(alloc),
                customs: Seq::new(alloc),
            },
        }
    }

    /// The lists themselves.
    pub(crate) fn into_parts(self) -> Parts
        ensures same { result ≡ self }
        ensures few { AreFew result }
    {
        self.parts
    }

    /// Whether each function has a body, and there are as many segments as are told.
    pub(crate) fn is_complete(&self) -> bool
        ensures { result ≡ is_complete self.now }
    {
        let parts = &self.parts;
        parts.functions.len() == parts.bodies.len()
            && is_told(parts.data_count, parts.segments.len())
    }

    /// How many entries an index can name.
    fn counts(&self) -> Counts
        ensures { result ≡ counts_of self.now }
    {
        let parts = &self.parts;
        let imported = self.imported;
        Counts {
            types: parts.types.len() as u32,
            funcs: (imported.funcs + parts.functions.len()) as u32,
            tables: (imported.tables + parts.tables.len()) as u32,
            memories: (imported.memories + parts.memories.len()) as u32,
            globals: (imported.globals + parts.globals.len()) as u32,
            tags: (imported.tags + parts.tags.len()) as u32,
            elems: parts.elems.len() as u32,
            segments: parts.data_count.unwrap_or(0),
            locals: 0,
        }
    }

    /// The same where the section of globals has so many.
    fn counts_with_globals(&self, count: u32) -> Counts
        requires { count ≤ most }
        ensures { result ≡ with_globals count self.now }
    {
        let imported = self.imported.globals as u32;
        Counts {
            globals: imported + count,
            ..self.counts()
        }
    }

    /// A custom section is kept as it is.
    #[tactic(auto, unfolding(crate::specs::Sections::custom_section))]
    fn read_custom(&mut self, reader: &mut Reader<'_>, alloc: Global) -> Result<(), ReadFault>
        ensures { GivesState result self.new reader.new (custom_section self.old reader.old) }
    {
        let custom = read_custom(reader, alloc)?;
        self.parts.customs.push(custom)?;
        Ok(())
    }

    #[tactic(auto, unfolding(crate::specs::Sections::type_section))]
    fn read_types(&mut self, reader: &mut Reader<'_>, alloc: Global) -> Result<(), ReadFault>
        ensures { GivesState result self.new reader.new (type_section self.old reader.old) }
    {
        let counts = self.counts();
        store(
            &mut self.parts.types,
            read_list(MOST, reader, alloc, &counts),
        )
    }

    #[tactic(auto, unfolding(crate::specs::Sections::import_section))]
    fn read_imports(&mut self, reader: &mut Reader<'_>, alloc: Global) -> Result<(), ReadFault>
        ensures { GivesState result self.new reader.new (import_section self.old reader.old) }
    {
        let counts = self.counts();
        let imports = read_list(MOST, reader, alloc, &counts)?;
        self.imported = count_imports(imports.as_slice());
        self.parts.imports = imports;
        Ok(())
    }

    #[tactic(auto, unfolding(crate::specs::Sections::function_section))]
    fn read_functions(&mut self, reader: &mut Reader<'_>, alloc: Global) -> Result<(), ReadFault>
        ensures { GivesState result self.new reader.new (function_section self.old reader.old) }
    {
        let counts = self.counts();
        let room = room_beside(self.imported.funcs);
        store(
            &mut self.parts.functions,
            read_list(room, reader, alloc, &counts),
        )
    }

    #[tactic(auto, unfolding(crate::specs::Sections::table_section))]
    fn read_tables(&mut self, reader: &mut Reader<'_>, alloc: Global) -> Result<(), ReadFault>
        ensures { GivesState result self.new reader.new (table_section self.old reader.old) }
    {
        let counts = self.counts();
        let room = room_beside(self.imported.tables);
        store(
            &mut self.parts.tables,
            read_list(room, reader, alloc, &counts),
        )
    }

    #[tactic(auto, unfolding(crate::specs::Sections::memory_section))]
    fn read_memories(&mut self, reader: &mut Reader<'_>, alloc: Global) -> Result<(), ReadFault>
        ensures { GivesState result self.new reader.new (memory_section self.old reader.old) }
    {
        let counts = self.counts();
        let room = room_beside(self.imported.memories);
        let read = read_list_of::<MemoryType>(room, reader, alloc, &counts);
        store(&mut self.parts.memories, read)
    }

    #[tactic(auto, unfolding(crate::specs::Sections::tag_section))]
    fn read_tags(&mut self, reader: &mut Reader<'_>, alloc: Global) -> Result<(), ReadFault>
        ensures { GivesState result self.new reader.new (tag_section self.old reader.old) }
    {
        let counts = self.counts();
        let room = room_beside(self.imported.tags);
        let read = read_list_of::<TagType>(room, reader, alloc, &counts);
        store(&mut self.parts.tags, read)
    }

    /// An initial expression may name each global of the section.
    #[tactic(auto, unfolding(crate::specs::Sections::global_section))]
    fn read_globals(&mut self, reader: &mut Reader<'_>, alloc: Global) -> Result<(), ReadFault>
        ensures { GivesState result self.new reader.new (global_section self.old reader.old) }
    {
        let count = read_count(reader, room_beside(self.imported.globals))?;
        let counts = self.counts_with_globals(count);
        store(
            &mut self.parts.globals,
            read_entries(count, reader, alloc, &counts),
        )
    }

    #[tactic(auto, unfolding(crate::specs::Sections::export_section))]
    fn read_exports(&mut self, reader: &mut Reader<'_>, alloc: Global) -> Result<(), ReadFault>
        ensures { GivesState result self.new reader.new (export_section self.old reader.old) }
    {
        let counts = self.counts();
        store(
            &mut self.parts.exports,
            read_list(MOST, reader, alloc, &counts),
        )
    }

    /// The type of a function, counted from the imported ones on.
    fn func_type(&self, place: usize) -> Option<TypeId>
        ensures { result ≡ slice_get (func_types self.now) place }
    {
        let imported = self.imported.funcs;
        if place < imported {
            imported_func_type(self.parts.imports.as_slice(), place)
        } else {
            self.parts.functions.get(place - imported).copied()
        }
    }

    /// Whether a function takes and gives nothing.
    fn is_plain(&self, func: FuncId) -> bool
        ensures { result ≡ is_plain (type_at self.now func) }
    {
        match self.func_type(func.0 as usize) {
            Some(ty) => is_plain(self.parts.types.get(ty.0 as usize)),
            None => false,
        }
    }

    /// The start function takes and gives nothing.
    #[tactic(auto, unfolding(crate::specs::Sections::start_section))]
    fn read_start(&mut self, reader: &mut Reader<'_>, alloc: Global) -> Result<(), ReadFault>
        ensures { GivesState result self.new reader.new (start_section self.old reader.old) }
    {
        let counts = self.counts();
        let place = reader.place();
        let func = FuncId::read(reader, alloc, &counts)?;
        if !self.is_plain(func) {
            return Err(ReadFault::Parse { place });
        }
        self.parts.start = Some(func);
        Ok(())
    }

    #[tactic(auto, unfolding(crate::specs::Sections::elem_section))]
    fn read_elems(&mut self, reader: &mut Reader<'_>, alloc: Global) -> Result<(), ReadFault>
        ensures { GivesState result self.new reader.new (elem_section self.old reader.old) }
    {
        let counts = self.counts();
        store(
            &mut self.parts.elems,
            read_list(MOST, reader, alloc, &counts),
        )
    }

    /// The number of data segments, which is at most the greatest number of entries of a kind.
    #[tactic(auto, unfolding(crate::specs::Sections::data_count_section))]
    fn read_data_count(&mut self, reader: &mut Reader<'_>) -> Result<(), ReadFault>
        ensures { GivesState result self.new reader.new (data_count_section self.old reader.old) }
    {
        self.parts.data_count = Some(read_count(reader, MOST)?);
        Ok(())
    }

    /// A body for each function that isn't imported.
    #[tactic(auto, unfolding(crate::specs::Sections::code_section))]
    fn read_code(&mut self, reader: &mut Reader<'_>, alloc: Global) -> Result<(), ReadFault>
        ensures { GivesState result self.new reader.new (code_section self.old reader.old) }
    {
        let counts = self.counts();
        let functions = self.parts.functions.as_slice();
        read_body_count(reader, functions.len())?;
        let bodies = read_bodies(functions, &self.parts.types, reader, alloc, &counts);
        store(&mut self.parts.bodies, bodies)
    }

    /// As many segments as the data count tells, where one stands.
    #[tactic(auto, unfolding(crate::specs::Sections::data_section))]
    fn read_segments(&mut self, reader: &mut Reader<'_>, alloc: Global) -> Result<(), ReadFault>
        ensures { GivesState result self.new reader.new (data_section self.old reader.old) }
    {
        let counts = self.counts();
        let count = read_segment_count(reader, self.parts.data_count)?;
        store(
            &mut self.parts.segments,
            read_entries(count, reader, alloc, &counts),
        )
    }

    /// The content of a section.
    #[tactic(auto, unfolding(crate::specs::Sections::content))]
    fn read_content(
        &mut self,
        id: u8,
        reader: &mut Reader<'_>,
        alloc: Global,
    ) -> Result<(), ReadFault>
        ensures { GivesState result self.new reader.new (content id self.old reader.old) }
    {
        match id {
            0 => self.read_custom(reader, alloc),
            1 => self.read_types(reader, alloc),
            2 => self.read_imports(reader, alloc),
            3 => self.read_functions(reader, alloc),
            4 => self.read_tables(reader, alloc),
            5 => self.read_memories(reader, alloc),
            6 => self.read_globals(reader, alloc),
            7 => self.read_exports(reader, alloc),
            8 => self.read_start(reader, alloc),
            9 => self.read_elems(reader, alloc),
            10 => self.read_code(reader, alloc),
            11 => self.read_segments(reader, alloc),
            12 => self.read_data_count(reader),
            _ => self.read_tags(reader, alloc),
        }
    }

    /// The content of a section of that many bytes, used up exactly. It is read as far as its bytes are there before it
    /// is said that some are missing.
    pub(crate) fn read_filled(
        &mut self,
        id: u8,
        len: usize,
        reader: &mut Reader<'_>,
        alloc: Global,
    ) -> Result<(), ReadFault>
        ensures { GivesState result self.new reader.new (filled len (content id self.old) reader.old) }
    {
        let mut inside = reader.part(len);
        self.read_content(id, &mut inside, alloc)?;
        inside.finish()?;
        let _ = reader.frame(len)?;
        Ok(())
    }
}

/// How many entries of a kind may stand beside imported ones.
fn room_beside(imported: usize) -> u32
    requires { imported ≤ most }
    ensures { result ≡ most - imported }
{
    MOST - imported as u32
}

/// A list that was read takes the place of another, which stands where there is a fault.
fn store<T: Drop>(list: &mut Seq<T>, read: Result<Seq<T>, ReadFault>) -> Result<(), ReadFault>
    ensures { MatchResult read (λ xs. (result ≡ Ok tt) × (list.new ≡ xs)) (λ e. (result ≡ Err e) × (list.new ≡ list.old)) }
{
    *list = read?;
    Ok(())
}

/// Whether a type takes and gives nothing.
fn is_plain(ty: Option<&FuncType>) -> bool
    ensures { result ≡ is_plain (option_copied ty.entry) }
{
    match ty {
        Some(ty) => ty.params.len() == 0 && ty.results.len() == 0,
        None => false,
    }
}

/// A count that is at most so great.
fn read_count(reader: &mut Reader<'_>, room: u32) -> Result<u32, ReadFault>
    ensures value { Gives result reader.new (allowed (λ n. nat_le n room) number32 reader.old) }
    ensures few { IfOk result (λ n. n ≤ room) }
{
    let place = reader.place();
    let count = reader.number32()?;
    if count <= room {
        Ok(count)
    } else {
        Err(ReadFault::Parse { place })
    }
}

/// As many bodies as there are functions.
fn read_body_count(reader: &mut Reader<'_>, wanted: usize) -> Result<u32, ReadFault>
    ensures { Gives result reader.new (allowed (λ n. n == wanted) number32 reader.old) }
{
    let place = reader.place();
    let count = reader.number32()?;
    if count as usize == wanted {
        Ok(count)
    } else {
        Err(ReadFault::Parse { place })
    }
}

/// Whether a number is the one that is told, where one is.
fn is_told(told: Option<u32>, count: usize) -> bool
    ensures { result ≡ is_told told count }
{
    match told {
        Some(told) => count == told as usize,
        None => true,
    }
}

/// As many segments as are told.
fn read_segment_count(reader: &mut Reader<'_>, told: Option<u32>) -> Result<u32, ReadFault>
    ensures value { Gives result reader.new (allowed (λ n. nat_le n most && is_told told n) number32 reader.old) }
    ensures few { IfOk result (λ n. n ≤ most) }
{
    let place = reader.place();
    let count = reader.number32()?;
    if count <= MOST && is_told(told, count as usize) {
        Ok(count)
    } else {
        Err(ReadFault::Parse { place })
    }
}

/// The type of an imported function, counted among imported functions.
#[tactic(auto, unfolding(crate::specs::Parts::imported_func_types))]
fn imported_func_type(imports: &[FileImport], place: usize) -> Option<TypeId>
    ensures { result ≡ slice_get (imported_func_types imports.now) place }
{
    let mut left = place;
    for import in imports {
        if let ImportType::Func(ty) = import.ty {
            if left == 0 {
                return Some(ty);
            }
            left -= 1;
        }
    }
    None
}

/// A list of at most so many entries.
#[tactic(auto, unfolding(wasm_bytes::specs::Items::listed))]
fn read_list_of<L: Listed>(
    room: u32,
    reader: &mut Reader<'_>,
    alloc: Global,
    counts: &Counts,
) -> Result<Seq<L::Item>, ReadFault>
    ensures value { Gives result reader.new (listed room (L.grammar counts.now) reader.old) }
    ensures len { IfOk result (λ xs. length xs ≤ room) }
{
    let count = read_count(reader, room)?;
    read_each_of::<L>(count, reader, alloc, counts)
}

/// The number of parameters of a type, 0 where there is none.
fn params_of(types: &Seq<FuncType>, ty: TypeId) -> u64
    ensures { result ≡ params_of (slice_get types.now ty.0) }
{
    match types.get(ty.0 as usize) {
        Some(found) => found.params.len() as u64,
        None => 0,
    }
}

/// The body of a function of this type.
#[tactic(auto, unfolding(crate::specs::Sections::function_body))]
fn read_body_of(
    ty: TypeId,
    types: &Seq<FuncType>,
    reader: &mut Reader<'_>,
    alloc: Global,
    counts: &Counts,
) -> Result<Body, ReadFault>
    ensures { Gives result reader.new (function_body counts.now types.now ty reader.old) }
{
    let params = params_of(types, ty);
    read_code_entry(reader, alloc, counts, params)
}

/// A body of each of these functions, in order.
fn read_bodies(
    functions: &[TypeId],
    types: &Seq<FuncType>,
    reader: &mut Reader<'_>,
    alloc: Global,
    counts: &Counts,
) -> Result<Seq<Body>, ReadFault>
    ensures value { Gives result reader.new (for_each functions.now (function_body counts.now types.now) reader.old) }
    ensures len { IfOk result (λ xs. length xs ≡ length functions.now) }
{
    let mut found = Seq::new(alloc);
    for ty in functions {
        found.push(read_body_of(*ty, types, reader, alloc, counts)?)?;
    }
    Ok(found)
}
