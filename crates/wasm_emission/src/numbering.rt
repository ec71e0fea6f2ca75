//! The numbers that entries have in the file that is written (WebAssembly core specification, 5.5.1).

ghost use Rattle.std.specs.Prelude.{◌≡◌, ◌++◌, [], count_by, is_some, IfOk, OnOk};
ghost use Rattle.wasm_emission.specs.Renumbering.{is_first, numbers, numbering, never, advanced, next_number};

use std::alloc::{AllocError, Global};
use values::Seq;
use wasm_core::{Func, GlobalVar, Memory, Module, Table, Tag, take_next};
use wasm_file::{Elem, Segment};
use wasm_ops::Numbering;
use wasm_types::FuncType;

/// What has numbers: of its kind the imported entries have the first ones.
pub(crate) trait Numbered {
    ghost use Rattle.std.specs.Prelude.{Bool, ◌≡◌};

    /// Whether it is imported.
    ghost test: { Self → Bool };

    fn is_imported(&self) -> bool
        ensures { result ≡ test self.now };
}

impl Numbered for FuncType {
    ghost test = { never };

    fn is_imported(&self) -> bool {
        false
    }
}

impl Numbered for Func {
    ghost test = { λ f. is_some f.import };

    fn is_imported(&self) -> bool {
        self.import.is_some()
    }
}

impl Numbered for Table {
    ghost test = { λ t. is_some t.import };

    fn is_imported(&self) -> bool {
        self.import.is_some()
    }
}

impl Numbered for Memory {
    ghost test = { λ x. is_some x.import };

    fn is_imported(&self) -> bool {
        self.import.is_some()
    }
}

impl Numbered for GlobalVar {
    ghost test = { λ g. is_some g.import };

    fn is_imported(&self) -> bool {
        self.import.is_some()
    }
}

impl Numbered for Tag {
    ghost test = { λ t. is_some t.import };

    fn is_imported(&self) -> bool {
        self.import.is_some()
    }
}

impl Numbered for Elem {
    ghost test = { never };

    fn is_imported(&self) -> bool {
        false
    }
}

impl Numbered for Segment {
    ghost test = { never };

    fn is_imported(&self) -> bool {
        false
    }
}

/// The next numbers of imported entries and of the others.
#[derive(Clone, Copy)]
struct Next {
    imported: u32,
    own: u32,
}

impl Next {
    /// The number of an entry, which the next one of its half doesn't get.
    fn take<T: Numbered>(&mut self, entry: &Option<T>) -> Result<u32, AllocError>
        ensures { IfOk result (λ n. (n ≡ next_number T.test self.old entry.now) × (self.new ≡ advanced T.test self.old entry.now)) }
    {
        match entry {
            None => Ok(self.own),
            Some(entry) => {
                if entry.is_imported() {
                    take_next(&mut self.imported)
                } else {
                    take_next(&mut self.own)
                }
            }
        }
    }
}

/// Whether an entry is there and is imported.
fn is_first<T: Numbered>(entry: &Option<T>) -> bool
    ensures { result ≡ is_first T.test entry.now }
{
    match entry {
        Some(entry) => entry.is_imported(),
        None => false,
    }
}

/// The number of imported entries.
fn count_imported<T: Numbered>(entries: &[Option<T>]) -> usize
    ensures { result ≡ count_by (is_first T.test) entries.now }
{
    entries.iter().filter(|entry| is_first(*entry)).count()
}

/// Adds the number of each place of a list. More than 4,294,967,295 entries can't be numbered: then it is `AllocError`.
#[tactic(auto, unfolding(crate::specs::Renumbering::numbers))]
fn add_numbers<T: Numbered>(out: &mut Seq<u32>, entries: &[Option<T>]) -> Result<(), AllocError>
    ensures { OnOk result (out.new ≡ out.old ++ numbers T.test entries.now) }
{
    let mut next = Next {
        imported: 0,
        own: u32::try_from(count_imported(entries)).map_err(|_| AllocError)?,
    };
    for entry in entries {
        out.push(next.take(entry)?)?;
    }
    Ok(())
}

/// No numbers.
fn no_numbers(alloc: Global) -> Numbering
    ensures { result ≡ record { types = []; funcs = []; tables = []; memories = []; globals = []; tags = []; elems = []; segments = [] } }
{
    Numbering {
        types: Seq::new(alloc),
        funcs: Seq::new(alloc),
        tables: Seq::new(alloc),
        memories: Seq::new(alloc),
        globals: Seq::new(alloc),
        tags: Seq::new(alloc),
        elems: Seq::new(alloc),
        segments: Seq::new(alloc),
    }
}

/// The number of each place of each list.
pub(crate) fn numbering(alloc: Global, module: &Module) -> Result<Numbering, AllocError>
    ensures { IfOk result (λ n. n ≡ numbering «module».now) }
{
    let mut numbers = no_numbers(alloc);
    let done = number(module, &mut numbers);
    done.and(Ok(numbers))
}

/// Adds the number of each place of each list to no numbers.
#[tactic(auto, unfolding(crate::specs::Renumbering::numbering))]
fn number(module: &Module, numbers: &mut Numbering) -> Result<(), AllocError>
    requires { numbers.old ≡ record { types = []; funcs = []; tables = []; memories = []; globals = []; tags = []; elems = []; segments = [] } }
    ensures { OnOk result (numbers.new ≡ numbering «module».now) }
{
    add_numbers(&mut numbers.types, module.types())?;
    add_numbers(&mut numbers.funcs, module.funcs())?;
    add_numbers(&mut numbers.tables, module.tables())?;
    add_numbers(&mut numbers.memories, module.memories())?;
    add_numbers(&mut numbers.globals, module.globals())?;
    add_numbers(&mut numbers.tags, module.tags())?;
    add_numbers(&mut numbers.elems, module.elems())?;
    add_numbers(&mut numbers.segments, module.segments())
}
