//! A module by ids.

ghost use Rattle.std.specs.Prelude.{◌≡◌, ◌≢◌, Ok, Err, Some, IfOk, IfErr};
ghost use Rattle.wasm_core.specs.Contents.{Contents};
ghost use Rattle.wasm_core.specs.Frames.{frames_of};
ghost use Rattle.wasm_core.specs.Parsing.{module_of, read_fault};
ghost use Rattle.wasm_core.specs.declared.faults.ParseFault.TheVariants.{OutOfMemory};

use crate::faults::ParseFault;
use crate::types::{Func, GlobalVar, Import, Memory, ParseConfig, Table, Tag};
use std::alloc::Global;
use std::marker::Model;
use values::Text;
use wasm_file::{Custom, Elem, Export, ProducerField, Section, Segment, read_frames, read_parts};
use wasm_types::{FuncId, FuncType};

/// The greatest length of a module that is read, in bytes.
pub const LONGEST: usize = 268_435_456;

/// A module. An id is a place in a list and stays valid: what is dropped leaves its place empty.
#[derive(Drop)]
pub struct Module {
    pub(crate) types: Vec<Option<FuncType>>,
    pub(crate) funcs: Vec<Option<Func>>,
    pub(crate) tables: Vec<Option<Table>>,
    pub(crate) memories: Vec<Option<Memory>>,
    pub(crate) globals: Vec<Option<GlobalVar>>,
    pub(crate) tags: Vec<Option<Tag>>,
    pub(crate) imports: Vec<Option<Import>>,
    pub(crate) exports: Vec<Option<Export>>,
    pub(crate) elems: Vec<Option<Elem>>,
    pub(crate) segments: Vec<Option<Segment>>,
    pub(crate) customs: Vec<Custom>,
    pub(crate) start: Option<FuncId>,
    pub(crate) name: Option<Text>,
    pub(crate) producers: Vec<ProducerField>,
    pub(crate) config: ParseConfig,
}

impl Model for Module {
    ghost use Rattle.wasm_core.specs.Contents.{Contents};

    ghost Value = { Contents };

    ghost view = { λ m. record { types = m.types.items; funcs = m.funcs.items; tables = m.tables.items; memories = m.memories.items; globals = m.globals.items; tags = m.tags.items; imports = m.imports.items; exports = m.exports.items; elems = m.elems.items; segments = m.segments.items; customs = m.customs.items; start = m.start; name = m.name; producers = m.producers.items; config = m.config } };
}

impl Module {
    /// The module that bytes are (WebAssembly core specification, 5.5).
    ///
    /// `Parse` where the bytes are no module: the place of the first fault, or `LONGEST` where they are longer than that.
    #[tactic(auto, unfolding(crate::specs::Parsing::module_of))]
    pub fn parse(alloc: Global, bytes: &[u8], config: &ParseConfig) -> Result<Module, ParseFault>
        ensures ok { IfOk result (λ m. module_of config.now bytes.now ≡ Ok m) }
        ensures err { IfErr result (λ e. e ≢ OutOfMemory → module_of config.now bytes.now ≡ Err e) }
    {
        if bytes.len() > LONGEST {
            return Err(ParseFault::Parse {
                place: LONGEST as u64,
            });
        }
        let parts = read_parts(alloc, bytes)?;
        Ok(Module::assemble(alloc, parts, *config)?)
    }

    pub fn types(&self) -> &[Option<FuncType>]
        ensures { result.now ≡ self.now.types }
    {
        &self.types
    }

    pub fn funcs(&self) -> &[Option<Func>]
        ensures { result.now ≡ self.now.funcs }
    {
        &self.funcs
    }

    pub fn tables(&self) -> &[Option<Table>]
        ensures { result.now ≡ self.now.tables }
    {
        &self.tables
    }

    pub fn memories(&self) -> &[Option<Memory>]
        ensures { result.now ≡ self.now.memories }
    {
        &self.memories
    }

    pub fn globals(&self) -> &[Option<GlobalVar>]
        ensures { result.now ≡ self.now.globals }
    {
        &self.globals
    }

    pub fn tags(&self) -> &[Option<Tag>]
        ensures { result.now ≡ self.now.tags }
    {
        &self.tags
    }

    pub fn imports(&self) -> &[Option<Import>]
        ensures { result.now ≡ self.now.imports }
    {
        &self.imports
    }

    pub fn exports(&self) -> &[Option<Export>]
        ensures { result.now ≡ self.now.exports }
    {
        &self.exports
    }

    pub fn elems(&self) -> &[Option<Elem>]
        ensures { result.now ≡ self.now.elems }
    {
        &self.elems
    }

    pub fn segments(&self) -> &[Option<Segment>]
        ensures { result.now ≡ self.now.segments }
    {
        &self.segments
    }

    /// The custom sections that aren't read into lists of their own, in order.
    pub fn customs(&self) -> &[Custom]
        ensures { result.now ≡ self.now.customs }
    {
        &self.customs
    }

    /// The fields of the producers section.
    pub fn producers(&self) -> &[ProducerField]
        ensures { result.now ≡ self.now.producers }
    {
        &self.producers
    }

    pub fn start(&self) -> Option<FuncId>
        ensures { result ≡ self.now.start }
    {
        self.start
    }

    /// How it was read, and how it is written.
    pub fn config(&self) -> ParseConfig
        ensures { result ≡ self.now.config }
    {
        self.config
    }
}

/// The sections of a file in order, read without their content: the preamble, the frames and the names of custom
/// sections. Their order isn't tested, and the file may have any length.
///
/// `Parse` with the place of an id above 13, of a number or name that isn't allowed, or the end of the bytes, where a
/// frame is longer than the rest.
pub fn sections(alloc: Global, bytes: &[u8]) -> Result<Vec<Section>, ParseFault>
    ensures ok { IfOk result (λ v. frames_of bytes.now ≡ Ok v.items) }
    ensures err { IfErr result (λ e. e ≢ OutOfMemory → read_fault (frames_of bytes.now) ≡ Some e) }
{
    Ok(read_frames(alloc, bytes)?)
}
