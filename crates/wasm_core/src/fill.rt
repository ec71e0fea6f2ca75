//! A module of a file's lists, which are added one after another.

ghost use Rattle.std.specs.Prelude.{◌≡◌, ◌+◌, ◌++◌, ◌<◌, ◌^◌, [], length, map, None, Some, IfOk, OnOk};
ghost use Rattle.std.specs.List.{filter};
ghost use Rattle.wasm_file.specs.Parts.{AreFew};
ghost use Rattle.wasm_core.specs.Contents.{Contents};
ghost use Rattle.wasm_core.specs.Parsing.{assembled, imports_behind, brought, imported_func, imported_table, imported_memory, imported_global, imported_tag, own_funcs, table_of, memory_of, global_of, tag_of, joined, all_names, with_names, all_producers, is_kept};

use crate::assemble::{
    add_all, add_funcs, add_imports, all_names, all_producers, drop_read, give_names, place_all,
};
use crate::module::Module;
use crate::types::ParseConfig;
use std::alloc::{AllocError, Global};
use values::Seq;
use wasm_code::Body;
use wasm_file::{Custom, Elem, Export, FileGlobal, FileImport, Names, Parts, Segment, TableType};
use wasm_types::{FuncId, FuncType, Limits, TypeId};

impl Module {
    /// The module of a file's lists.
    pub(crate) fn assemble(
        alloc: Global,
        parts: Parts,
        config: ParseConfig,
    ) -> Result<Module, AllocError>
        requires few { AreFew parts }
        requires paired { length parts.functions ≡ length parts.bodies }
        ensures { IfOk result (λ m. m ≡ assembled config parts) }
    {
        let mut module = Module::empty(alloc, parts.start, config);
        let filled = module.fill(alloc, parts);
        filled.and(Ok(module))
    }

    /// A module without entries.
    fn empty(alloc: Global, start: Option<FuncId>, config: ParseConfig) -> Module
        ensures { result ≡ record { types = []; funcs = []; tables = []; memories = []; globals = []; tags = []; imports = []; exports = []; elems = []; segments = []; customs = []; start = start; name = None; producers = []; config = config } }
    {
        Module {
            types: Vec::new(alloc),
            funcs: Vec::new(alloc),
            tables: Vec::new(alloc),
            memories: Vec::new(alloc),
            globals: Vec::new(alloc),
            tags: Vec::new(alloc),
            imports: Vec::new(alloc),
            exports: Vec::new(alloc),
            elems: Vec::new(alloc),
            segments: Vec::new(alloc),
            customs: Vec::new(alloc),
            start,
            name: None,
            producers: Vec::new(alloc),
            config,
        }
    }

    /// Adds a file's entries to a module that has none.
    #[tactic(auto, unfolding(crate::specs::Parsing::assembled))]
    fn fill(&mut self, alloc: Global, parts: Parts) -> Result<(), AllocError>
        requires empty { self.old ≡ record { types = []; funcs = []; tables = []; memories = []; globals = []; tags = []; imports = []; exports = []; elems = []; segments = []; customs = []; start = parts.start; name = None; producers = []; config = self.old.config } }
        requires few { AreFew parts }
        requires paired { length parts.functions ≡ length parts.bodies }
        ensures { OnOk result (self.new ≡ assembled self.old.config parts) }
    {
        let Parts {
            types,
            imports,
            functions,
            tables,
            memories,
            tags,
            globals,
            exports,
            start: _,
            elems,
            data_count: _,
            bodies,
            segments,
            customs,
        } = parts;
        let list = imports.as_slice();
        let code = self.add_code(alloc, list, functions.as_slice(), bodies, customs);
        let spaces = self.add_spaces(alloc, list, tables, memories, globals, tags);
        let lists = self.add_lists(types, exports, elems, segments);
        let imports = add_imports(&mut self.imports, imports);
        code?;
        spaces?;
        lists?;
        imports
    }

    /// Adds functions, the imported ones first, and what custom sections tell.
    fn add_code(
        &mut self,
        alloc: Global,
        imports: &[FileImport],
        functions: &[TypeId],
        bodies: Seq<Body>,
        customs: Seq<Custom>,
    ) -> Result<(), AllocError>
        requires none { self.old.funcs ≡ [] }
        requires few { length imports.now + length functions.now < 2 ^ 32 }
        requires paired { length functions.now ≡ length bodies }
        ensures { OnOk result (self.new ≡ record self.old { funcs = with_names (all_names (length (joined (brought imported_func imports.now) (own_funcs functions.now bodies))) customs).funcs (joined (brought imported_func imports.now) (own_funcs functions.now bodies)); name = (all_names (length (joined (brought imported_func imports.now) (own_funcs functions.now bodies))) customs).«module»; producers = all_producers customs; customs = filter (is_kept self.old.config.keep_debug) customs }) }
    {
        add_funcs(alloc, &mut self.funcs, imports, functions, bodies)?;
        self.read_names(alloc, customs.as_slice())?;
        self.read_producers(alloc, customs)
    }

    /// Gives names that custom sections give.
    fn read_names(&mut self, alloc: Global, customs: &[Custom]) -> Result<(), AllocError>
        requires { length self.old.funcs < 2 ^ 32 }
        ensures { OnOk result (self.new ≡ record self.old { funcs = with_names (all_names (length self.old.funcs) customs.now).funcs self.old.funcs; name = (all_names (length self.old.funcs) customs.now).«module» }) }
    {
        let Names { module, funcs } = all_names(alloc, customs, self.funcs.len() as u32)?;
        give_names(&mut self.funcs, funcs);
        self.name = module;
        Ok(())
    }

    /// Takes the producers that custom sections tell, and the sections that stay.
    fn read_producers(&mut self, alloc: Global, customs: Seq<Custom>) -> Result<(), AllocError>
        ensures { OnOk result (self.new ≡ record self.old { producers = all_producers customs; customs = filter (is_kept self.old.config.keep_debug) customs }) }
    {
        self.producers = all_producers(alloc, customs.as_slice())?.into_vec();
        self.customs = customs.into_vec();
        drop_read(&mut self.customs, self.config.keep_debug);
        Ok(())
    }

    /// Adds tables, memories, globals and tags, of each kind the imported ones first.
    fn add_spaces(
        &mut self,
        alloc: Global,
        imports: &[FileImport],
        tables: Seq<TableType>,
        memories: Seq<Limits>,
        globals: Seq<FileGlobal>,
        tags: Seq<TypeId>,
    ) -> Result<(), AllocError>
        requires { length imports.now < 2 ^ 32 }
        ensures { OnOk result (self.new ≡ record self.old { tables = self.old.tables ++ joined (brought imported_table imports.now) (map table_of tables); memories = self.old.memories ++ joined (brought imported_memory imports.now) (map memory_of memories); globals = self.old.globals ++ joined (brought imported_global imports.now) (map global_of globals); tags = self.old.tags ++ joined (brought imported_tag imports.now) (map tag_of tags) }) }
    {
        let tables = add_all(alloc, &mut self.tables, imports, tables);
        let memories = add_all(alloc, &mut self.memories, imports, memories);
        let globals = add_all(alloc, &mut self.globals, imports, globals);
        add_all(alloc, &mut self.tags, imports, tags)?;
        tables?;
        memories?;
        globals
    }

    /// Adds the entries that stand in a file as they are.
    fn add_lists(
        &mut self,
        types: Seq<FuncType>,
        exports: Seq<Export>,
        elems: Seq<Elem>,
        segments: Seq<Segment>,
    ) -> Result<(), AllocError>
        ensures { OnOk result (self.new ≡ record self.old { types = self.old.types ++ map Some types; exports = self.old.exports ++ map Some exports; elems = self.old.elems ++ map Some elems; segments = self.old.segments ++ map Some segments }) }
    {
        let types = place_all(&mut self.types, types);
        let exports = place_all(&mut self.exports, exports);
        let elems = place_all(&mut self.elems, elems);
        place_all(&mut self.segments, segments)?;
        types?;
        exports?;
        elems
    }
}
