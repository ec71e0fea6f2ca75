//! What indexes are in range.
ghost use Rattle.std.specs.Prelude.{◌≡◌};
ghost use Rattle.glue_json.specs.Reading.{counts_of};

use wasm_core::Module;

/// How many entries of each kind a module has, emptied ones among them. An index is in range below its kind's number.
#[derive(Clone, Copy)]
pub struct Counts {
    pub imports: usize,
    pub exports: usize,
    pub funcs: usize,
    pub tables: usize,
    pub memories: usize,
    pub globals: usize,
    pub tags: usize,
}

impl Counts {
    /// The numbers of a module's entries.
    pub fn of(module: &Module) -> Counts
        ensures { result ≡ counts_of «module».now }
    {
        Counts {
            imports: module.imports().len(),
            exports: module.exports().len(),
            funcs: module.funcs().len(),
            tables: module.tables().len(),
            memories: module.memories().len(),
            globals: module.globals().len(),
            tags: module.tags().len(),
        }
    }
}
