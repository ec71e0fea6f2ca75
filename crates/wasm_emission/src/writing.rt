//! Writing a module.

ghost use Rattle.std.specs.Prelude.{◌≡◌, ◌++◌, ◌≤◌, ◌<◌, ℕ, length, map, count_by, Err, Some, None, is_some, IfOk, OnOk};
ghost use Rattle.std.specs.List.{flat_map, filter_map};
ghost use Rattle.wasm_file.specs.Spelling.{section_bytes, counted_section, list_section, start_section, data_count_section, custom_section, first_sections, middle_sections, last_sections, part_sections};
ghost use Rattle.wasm_emission.specs.Emission.{live, filed_at, some_bytes, file_start, file_customs, producer_customs, some_count, filed_by, section_contents, bytes_of, first_too_large, too_large};
ghost use Rattle.wasm_emission.specs.declared.faults.EmitFault.TheVariants as refusals;

use crate::content::SectionContent;
use crate::faults::EmitFault;
use crate::lists::{
    Bodies, Elems, Exports, FileList, Functions, Globals, Imports, Memories, Plan, Segments,
    Tables, Tags, Types,
};
use crate::names::push_names;
use crate::numbering::numbering;
use std::alloc::{AllocError, Global};
use values::Seq;
use wasm_bytes::{push_number, push_u32, write_list, write_name};
use wasm_core::Module;
use wasm_file::{Custom, Segment, write_custom};
use wasm_ops::number_at;

/// The eight bytes at the head of a module.
const PREAMBLE: [u8; 8] = [0x00, 0x61, 0x73, 0x6D, 0x01, 0x00, 0x00, 0x00];

/// The greatest length of a section's content, in bytes.
const LONGEST_CONTENT: usize = 4_294_967_295;

/// Ids and contents of sections.
pub(crate) type Sections = Seq<SectionContent>;

/// The bytes of the module (WebAssembly core specification, 5.5): a section for each list that has live entries, a
/// data count where there are data segments, then the name section and the producers section, where they are wanted
/// and not empty, then the other custom sections in order. Entries are numbered anew: live ones in the order of
/// their ids, imported ones first. Numbers have their shortest form, and flags are the least that fit.
///
/// `TooLarge` where the content of a section has more than 4,294,967,295 bytes, with the id of the first such section.
#[tactic(auto, unfolding(crate::specs::Emission::bytes_of, crate::specs::Emission::too_large))]
pub fn emit(alloc: Global, module: &Module) -> Result<Vec<u8>, EmitFault>
    ensures ok { IfOk result (λ v. (v.items ≡ bytes_of «module».now) × (too_large «module».now ≡ None)) }
    ensures err { (s : ℕ) → result ≡ Err (refusals.TooLarge s) → too_large «module».now ≡ Some s }
{
    let contents = section_contents(alloc, module)?;
    let mut out = Vec::new(alloc);
    out.extend_from_slice(&PREAMBLE)?;
    emit_sections(&mut out, LONGEST_CONTENT, contents)?;
    Ok(out)
}

/// The id and the content of each section, in the order in which they are written.
#[tactic(auto, unfolding(crate::specs::Emission::section_contents))]
fn section_contents(alloc: Global, module: &Module) -> Result<Sections, AllocError>
    ensures { IfOk result (λ xs. xs ≡ section_contents «module».now) }
{
    let numbers = numbering(alloc, module)?;
    let plan = Plan {
        module,
        numbers: &numbers,
        alloc,
    };
    plan.sections()
}

impl<'a> Plan<'a> {
    /// The id and the content of each section.
    fn sections(&self) -> Result<Sections, AllocError>
        ensures { IfOk result (λ xs. xs ≡ part_sections (filed_by self.now.numbers.now self.now.module.now)) }
    {
        let mut out = Seq::new(self.alloc);
        self.push_parts(&mut out)?;
        Ok(out)
    }

    /// All sections.
    #[tactic(auto, unfolding(wasm_file::specs::Spelling::part_sections, crate::specs::Emission::filed_by))]
    fn push_parts(&self, out: &mut Sections) -> Result<(), AllocError>
        ensures { OnOk result (out.new ≡ out.old ++ part_sections (filed_by self.now.numbers.now self.now.module.now)) }
    {
        self.push_first(out)?;
        self.push_middle(out)?;
        self.push_last(out)?;
        self.push_customs(out)
    }

    /// The sections of types, imports, functions and tables.
    #[tactic(auto, unfolding(wasm_file::specs::Spelling::first_sections, crate::specs::Emission::filed_by))]
    fn push_first(&self, out: &mut Sections) -> Result<(), AllocError>
        ensures { OnOk result (out.new ≡ out.old ++ first_sections (filed_by self.now.numbers.now self.now.module.now)) }
    {
        let module = self.module;
        self.push_list::<Types>(1, module.types(), out)?;
        self.push_list::<Imports>(2, module.imports(), out)?;
        self.push_list::<Functions>(3, module.funcs(), out)?;
        self.push_list::<Tables>(4, module.tables(), out)?;
        Ok(())
    }

    /// The sections of memories, tags, globals and exports.
    #[tactic(auto, unfolding(wasm_file::specs::Spelling::middle_sections, crate::specs::Emission::filed_by))]
    fn push_middle(&self, out: &mut Sections) -> Result<(), AllocError>
        ensures { OnOk result (out.new ≡ out.old ++ middle_sections (filed_by self.now.numbers.now self.now.module.now)) }
    {
        let module = self.module;
        self.push_list::<Memories>(5, module.memories(), out)?;
        self.push_list::<Tags>(13, module.tags(), out)?;
        self.push_list::<Globals>(6, module.globals(), out)?;
        self.push_list::<Exports>(7, module.exports(), out)?;
        Ok(())
    }

    /// The sections of the start function, element segments, the number of data segments, bodies and data segments.
    #[tactic(auto, unfolding(wasm_file::specs::Spelling::last_sections, crate::specs::Emission::filed_by))]
    fn push_last(&self, out: &mut Sections) -> Result<(), AllocError>
        ensures { OnOk result (out.new ≡ out.old ++ last_sections (filed_by self.now.numbers.now self.now.module.now)) }
    {
        let module = self.module;
        self.push_start(out)?;
        self.push_list::<Elems>(9, module.elems(), out)?;
        push_data_count(self.alloc, module.segments(), out)?;
        self.push_list::<Bodies>(10, module.funcs(), out)?;
        self.push_list::<Segments>(11, module.segments(), out)?;
        Ok(())
    }

    /// The custom sections: that of names, that of producers, and the others.
    #[tactic(auto, unfolding(crate::specs::Emission::file_customs))]
    fn push_customs(&self, out: &mut Sections) -> Result<(), AllocError>
        ensures { OnOk result (out.new ≡ out.old ++ map custom_section (file_customs self.now.numbers.now self.now.module.now)) }
    {
        push_names(self, out)?;
        self.push_producers(out)?;
        push_others(self.alloc, self.module.customs(), out)
    }

    /// A section of what stands in the file for the items that are there, none where nothing does.
    #[tactic(auto, unfolding(wasm_file::specs::Spelling::list_section))]
    fn push_list<L: FileList>(
        &self,
        id: u8,
        items: &[Option<L::Item>],
        out: &mut Sections,
    ) -> Result<(), AllocError>
        ensures { OnOk result (out.new ≡ out.old ++ list_section id L.spelled (filter_map (L.filed self.now.module.now self.now.numbers.now) (live items.now))) }
    {
        let mut bytes = Vec::new(self.alloc);
        let count = write_items::<L>(items, self, &mut bytes)?;
        push_counted(self.alloc, id, count, bytes, out)
    }

    /// The section of the start function, none without one.
    #[tactic(auto, unfolding(wasm_file::specs::Spelling::func_id_bytes))]
    fn push_start(&self, out: &mut Sections) -> Result<(), AllocError>
        ensures { OnOk result (out.new ≡ out.old ++ start_section (file_start self.now.numbers.now self.now.module.now.start)) }
    {
        let module = self.module;
        match module.start() {
            Some(func) => {
                let mut bytes = Vec::new(self.alloc);
                push_u32(&mut bytes, number_at(&self.numbers.funcs, func.0))?;
                out.push(SectionContent::new(self.alloc, 8, bytes))
            }
            None => Ok(()),
        }
    }

    /// The producers section, where it is wanted and there is a field.
    #[tactic(auto, unfolding(crate::specs::Emission::producer_customs, wasm_file::specs::Spelling::custom_bytes))]
    fn push_producers(&self, out: &mut Sections) -> Result<(), AllocError>
        ensures { OnOk result (out.new ≡ out.old ++ map custom_section (producer_customs self.now.module.now)) }
    {
        let module = self.module;
        if !module.config().producers || module.producers().len() == 0 {
            return Ok(());
        }
        let mut bytes = Vec::new(self.alloc);
        write_name(&mut bytes, "producers")?;
        write_list(module.producers(), &mut bytes)?;
        out.push(SectionContent::new(self.alloc, 0, bytes))
    }
}

/// Appends the bytes of what stands in the file for an item, and tells whether something does.
fn write_item<L: FileList>(
    item: &Option<L::Item>,
    plan: &Plan<'_>,
    out: &mut Vec<u8>,
) -> Result<bool, AllocError>
    ensures { IfOk result (λ stands. (stands ≡ is_some (filed_at (L.filed plan.now.module.now plan.now.numbers.now) item.now)) × (out.new.items ≡ out.old.items ++ some_bytes L.spelled (filed_at (L.filed plan.now.module.now plan.now.numbers.now) item.now))) }
{
    match item {
        Some(item) => L::write(item, plan, out),
        None => Ok(false),
    }
}

/// Appends the bytes of what stands in the file for the items that are there, and counts it.
fn write_items<L: FileList>(
    items: &[Option<L::Item>],
    plan: &Plan<'_>,
    out: &mut Vec<u8>,
) -> Result<usize, AllocError>
    ensures { IfOk result (λ n. (n ≡ length (filter_map (L.filed plan.now.module.now plan.now.numbers.now) (live items.now))) × (out.new.items ≡ out.old.items ++ flat_map L.spelled (filter_map (L.filed plan.now.module.now plan.now.numbers.now) (live items.now)))) }
{
    let mut count = 0;
    for item in items {
        if write_item::<L>(item, plan, out)? {
            count += 1;
        }
    }
    Ok(count)
}

/// A section of so many entries with these bytes, none without any.
fn push_counted(
    alloc: Global,
    id: u8,
    count: usize,
    entries: Vec<u8>,
    out: &mut Sections,
) -> Result<(), AllocError>
    ensures { OnOk result (out.new ≡ out.old ++ counted_section id count entries.items) }
{
    if count == 0 {
        return Ok(());
    }
    out.push(SectionContent::counted(alloc, id, count, entries)?)
}

/// The number of items that are there.
fn count_live<T>(items: &[Option<T>]) -> usize
    ensures { result ≡ count_by is_some items.now }
{
    items.iter().filter(|item| item.is_some()).count()
}

/// The section that tells the number of data segments, none without any.
fn push_data_count(
    alloc: Global,
    segments: &[Option<Segment>],
    out: &mut Sections,
) -> Result<(), AllocError>
    ensures { OnOk result (out.new ≡ out.old ++ data_count_section (some_count (count_by is_some segments.now))) }
{
    let count = count_live(segments);
    if count == 0 {
        return Ok(());
    }
    let mut bytes = Vec::new(alloc);
    push_number(&mut bytes, count as u64)?;
    out.push(SectionContent::new(alloc, 12, bytes))
}

/// The other custom sections.
fn push_others(alloc: Global, customs: &[Custom], out: &mut Sections) -> Result<(), AllocError>
    ensures { OnOk result (out.new ≡ out.old ++ map custom_section customs.now) }
{
    for custom in customs {
        let mut bytes = Vec::new(alloc);
        write_custom(&mut bytes, custom)?;
        out.push(SectionContent::new(alloc, 0, bytes))?;
    }
    Ok(())
}

/// Appends a section. `TooLarge` where its content has more bytes than so many.
fn emit_section(
    out: &mut Vec<u8>,
    longest: usize,
    section: &SectionContent,
) -> Result<(), EmitFault>
    ensures ok { OnOk result ((out.new.items ≡ out.old.items ++ section_bytes section.now) × (length section.now.1 ≤ longest)) }
    ensures err { (s : ℕ) → result ≡ Err (refusals.TooLarge s) → (s ≡ section.now.0) × (longest < length section.now.1) }
{
    if section.len() > longest {
        return Err(EmitFault::TooLarge {
            section: section.id(),
        });
    }
    section.write(out)?;
    Ok(())
}

/// Appends sections, each of which is dropped when it is written. `TooLarge` where the content of one has more bytes than so
/// many, with the id of the first such section, behind those before it.
pub fn emit_sections(
    out: &mut Vec<u8>,
    longest: usize,
    sections: Seq<SectionContent>,
) -> Result<(), EmitFault>
    ensures ok { OnOk result ((out.new.items ≡ out.old.items ++ flat_map section_bytes sections) × (first_too_large longest sections ≡ None)) }
    ensures err { (s : ℕ) → result ≡ Err (refusals.TooLarge s) → first_too_large longest sections ≡ Some s }
{
    for section in sections.into_vec() {
        emit_section(out, longest, &section)?;
    }
    Ok(())
}
