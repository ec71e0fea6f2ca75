//! Reading the content of custom sections.

ghost use Rattle.std.specs.Prelude.{◌≡◌, ◌≢◌, false, IfOk, IfErr};
ghost use Rattle.wasm_bytes.specs.Gives.{Gives, GivesState};
ghost use Rattle.wasm_bytes.specs.Reading.{entries};
ghost use Rattle.wasm_bytes.specs.declared.fault.ReadFault.TheVariants.{OutOfMemory};
ghost use Rattle.wasm_file.specs.Customs.{rise_from, func_names, subsection_names, used_up, all_names, names_of, producers, producers_of, is_plus, pluses, lists_feature, with_any};

use crate::entries::{Names, ProducerField, ProducerValue};
use crate::grammar::{Listed, read_each_of};
use std::alloc::{AllocError, Global};
use values::{Seq, Text};
use wasm_bytes::{
    Counts, Entry, ReadFault, Reader, Step, read_entries, read_index, read_name, read_steps,
    read_text,
};
use wasm_types::FuncId;

/// What an entry that names nothing is read with.
const NO_COUNTS: Counts = Counts {
    types: 0,
    funcs: 0,
    tables: 0,
    memories: 0,
    globals: 0,
    tags: 0,
    elems: 0,
    segments: 0,
    locals: 0,
};

/// A function and its name.
struct FuncName;

impl Listed for FuncName {
    ghost use Rattle.wasm_file.specs.Customs.{func_name};

    type Item = (FuncId, Text);

    ghost grammar = { λ counts. func_name counts.funcs };

    #[tactic(auto, unfolding(crate::specs::Customs::func_name))]
    fn read(
        reader: &mut Reader<'_>,
        alloc: Global,
        counts: &Counts,
    ) -> Result<(FuncId, Text), ReadFault> {
        let func = read_index(reader, counts.funcs as u64)?;
        let name = read_name(reader, alloc)?;
        Ok((FuncId(func), name))
    }
}

/// Whether each function is greater than those before it.
fn do_rise(names: &[(FuncId, Text)]) -> bool
    ensures { result ≡ rise_from 0 names.now }
{
    let mut least = 0;
    for (func, _) in names {
        let place = func.0 as u64;
        if place < least {
            return false;
        }
        least = place + 1;
    }
    true
}

/// Names of functions, each function greater than those before it.
#[tactic(auto, unfolding(crate::specs::Customs::func_names))]
fn read_func_names(
    funcs: u32,
    reader: &mut Reader<'_>,
    alloc: Global,
) -> Result<Seq<(FuncId, Text)>, ReadFault>
    ensures { Gives result reader.new (func_names funcs reader.old) }
{
    let place = reader.place();
    let count = reader.number32()?;
    let counts = Counts { funcs, ..NO_COUNTS };
    let names = read_each_of::<FuncName>(count, reader, alloc, &counts)?;
    if do_rise(names.as_slice()) {
        Ok(names)
    } else {
        Err(ReadFault::Parse { place })
    }
}

/// The subsections of a name section so far, in a file of `limit` functions. Ids from `next` on may come.
#[derive(Drop)]
struct Subsections {
    limit: u32,
    next: u32,
    names: Names,
}

/// What a subsection holds is added to the names.
#[tactic(auto, unfolding(crate::specs::Customs::subsection_names))]
fn read_subsection(
    id: u8,
    funcs: u32,
    names: &mut Names,
    reader: &mut Reader<'_>,
    alloc: Global,
) -> Result<(), ReadFault>
    ensures { GivesState result names.new reader.new (subsection_names id funcs names.old reader.old) }
{
    match id {
        0 => names.module = Some(read_name(reader, alloc)?),
        1 => names.funcs = read_func_names(funcs, reader, alloc)?,
        _ => {
            let _ = reader.remaining();
        }
    }
    Ok(())
}

impl Step for Subsections {
    ghost use Rattle.wasm_file.specs.Customs.{subsection};

    ghost step = { subsection };

    /// One subsection.
    #[tactic(auto, unfolding(crate::specs::Customs::subsection))]
    fn read_step(&mut self, reader: &mut Reader<'_>, alloc: Global) -> Result<(), ReadFault> {
        let place = reader.place();
        let id = reader.byte()?;
        if (id as u32) < self.next {
            return Err(ReadFault::Parse { place });
        }
        let len = reader.number32()?;
        let mut inside = reader.frame(len as usize)?;
        read_subsection(id, self.limit, &mut self.names, &mut inside, alloc)?;
        inside.finish()?;
        self.next = id as u32 + 1;
        Ok(())
    }
}

/// The names of a whole name section.
#[tactic(auto, unfolding(crate::specs::Customs::all_names))]
fn read_all_names(funcs: u32, reader: &mut Reader<'_>, alloc: Global) -> Result<Names, ReadFault>
    ensures { Gives result reader.new (used_up (all_names funcs) reader.old) }
{
    let mut found = Subsections {
        limit: funcs,
        next: 0,
        names: Names {
            module: None,
            funcs: Seq::new(alloc),
        },
    };
    let read = read_steps(&mut found, reader, alloc);
    let used_up = reader.finish();
    read.and(used_up).and(Ok(found.names))
}

/// The names of a name section, none where it doesn't read in a file of so many functions: its subsections stand in
/// rising order of their ids, and names of functions in rising order of the functions (WebAssembly core specification,
/// appendix, Custom Sections, Name Section). Other subsections than the module's and the functions' aren't read.
#[tactic(auto, unfolding(crate::specs::Customs::names_of))]
pub fn read_names(alloc: Global, bytes: &[u8], funcs: u32) -> Result<Option<Names>, AllocError>
    ensures read { IfOk result (λ names. names ≡ names_of funcs bytes.now) }
{
    let mut reader = Reader::new(bytes);
    match read_all_names(funcs, &mut reader, alloc) {
        Ok(names) => Ok(Some(names)),
        Err(ReadFault::Parse { .. }) => Ok(None),
        Err(ReadFault::OutOfMemory) => Err(AllocError),
    }
}

impl Entry for ProducerValue {
    ghost use Rattle.wasm_file.specs.Customs.{producer_value};

    ghost grammar = { λ _. producer_value };

    #[tactic(auto, unfolding(crate::specs::Customs::producer_value))]
    fn read(
        reader: &mut Reader<'_>,
        alloc: Global,
        _counts: &Counts,
    ) -> Result<ProducerValue, ReadFault> {
        let name = read_name(reader, alloc)?;
        let version = read_name(reader, alloc)?;
        Ok(ProducerValue { name, version })
    }
}

impl Entry for ProducerField {
    ghost use Rattle.wasm_file.specs.Customs.{producer_field};

    ghost grammar = { λ _. producer_field };

    #[tactic(auto, unfolding(crate::specs::Customs::producer_field))]
    fn read(
        reader: &mut Reader<'_>,
        alloc: Global,
        counts: &Counts,
    ) -> Result<ProducerField, ReadFault> {
        let name = read_name(reader, alloc)?;
        let count = reader.number32()?;
        let values = read_entries(count, reader, alloc, counts)?;
        Ok(ProducerField { name, values })
    }
}

/// The fields of a whole producers section.
#[tactic(auto, unfolding(crate::specs::Customs::producers))]
fn read_fields(reader: &mut Reader<'_>, alloc: Global) -> Result<Seq<ProducerField>, ReadFault>
    ensures { Gives result reader.new (used_up producers reader.old) }
{
    let count = reader.number32()?;
    let fields = read_entries(count, reader, alloc, &NO_COUNTS)?;
    reader.finish().and(Ok(fields))
}

/// The fields of a producers section, none where it doesn't read: a list of fields, each a name and a list of names with
/// versions (WebAssembly tool conventions, Producers Section).
#[tactic(auto, unfolding(crate::specs::Customs::producers_of))]
pub fn read_producers(alloc: Global, bytes: &[u8]) -> Result<Option<Seq<ProducerField>>, AllocError>
    ensures read { IfOk result (λ fields. fields ≡ producers_of bytes.now) }
{
    let mut reader = Reader::new(bytes);
    match read_fields(&mut reader, alloc) {
        Ok(fields) => Ok(Some(fields)),
        Err(ReadFault::Parse { .. }) => Ok(None),
        Err(ReadFault::OutOfMemory) => Err(AllocError),
    }
}

/// Whether an entry of target features has a plus and this name.
#[tactic(auto, unfolding(crate::specs::Customs::is_plus))]
fn read_plus(reader: &mut Reader<'_>, wanted: &str) -> Result<bool, ReadFault>
    ensures value { Gives result reader.new (is_plus wanted.now reader.old) }
    ensures sure { IfErr result (λ e. e ≢ OutOfMemory) }
{
    let prefix = reader.byte()?;
    let name = read_text(reader)?;
    Ok(prefix == b'+' && name == wanted)
}

/// Whether one of so many entries has a plus and this name.
fn read_each_plus(count: u32, reader: &mut Reader<'_>, wanted: &str) -> Result<bool, ReadFault>
    ensures value { Gives result reader.new (with_any false (entries count (is_plus wanted.now) reader.old)) }
    ensures sure { IfErr result (λ e. e ≢ OutOfMemory) }
{
    let mut found = false;
    for _ in 0..count {
        let is_wanted = read_plus(reader, wanted)?;
        found = found || is_wanted;
    }
    Ok(found)
}

/// Whether a whole list of target features has a plus and this name.
#[tactic(auto, unfolding(crate::specs::Customs::pluses))]
fn read_pluses(reader: &mut Reader<'_>, wanted: &str) -> Result<bool, ReadFault>
    ensures value { Gives result reader.new (with_any false (used_up (pluses wanted.now) reader.old)) }
    ensures sure { IfErr result (λ e. e ≢ OutOfMemory) }
{
    let count = reader.number32()?;
    let found = read_each_plus(count, reader, wanted)?;
    reader.finish().and(Ok(found))
}

/// Whether the content of a section of target features lists one with a plus: it is a list of entries, each a byte and a
/// name. One that doesn't read lists nothing (WebAssembly tool conventions, Target Features Section).
#[tactic(auto, unfolding(crate::specs::Customs::lists_feature))]
pub fn lists_feature(bytes: &[u8], name: &str) -> bool
    ensures { result ≡ lists_feature bytes.now name.now }
{
    let mut reader = Reader::new(bytes);
    match read_pluses(&mut reader, name) {
        Ok(found) => found,
        Err(ReadFault::Parse { .. }) => false,
        Err(ReadFault::OutOfMemory) => unreachable!(),
    }
}
