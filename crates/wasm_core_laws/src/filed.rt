//! The file of a module (WebAssembly core specification, 5.5).

ghost use Rattle.wasm_file_laws.specs.FileFits.{AreFewEntries, FitsFile};
ghost use Rattle.wasm_core.specs.Contents.{Contents};
ghost use Rattle.wasm_emission.specs.Emission.{filed};
ghost use Rattle.wasm_core_laws.specs.ModuleFits.{IsModule};

/// The lists that a file has of a module fit the grammar, where no kind has too many entries.
pub fn filed_module_fits()
    ensures { (m : Contents) → IsModule m → AreFewEntries (filed m) → FitsFile (filed m) }
{}
