//! A file that is written is read again (WebAssembly core specification, 5.5).

ghost use Rattle.std.specs.Prelude.{◌≡◌, Ok};
ghost use Rattle.wasm_file.specs.Grammar.{parts_of};
ghost use Rattle.wasm_file.specs.declared.entries.Parts.{Parts};
ghost use Rattle.wasm_file_laws.specs.FileFits.{FitsFile, AreShortSections, file_bytes, joined_file};

/// The spelling of a file's lists, where they fit the grammar and no section is too long, is read as these, with the runs
/// of locals of each body joined.
pub fn file_is_read_again()
    ensures { (p : Parts) → FitsFile p → AreShortSections p → parts_of (file_bytes p) ≡ Ok (joined_file p) }
{}
