//! What is read fits (WebAssembly core specification, 5.5).

ghost use Rattle.std.specs.Prelude.{◌≡◌, ℕ, List, Ok, Some};
ghost use Rattle.wasm_bytes.specs.Reads.{AreBytes};
ghost use Rattle.wasm_file.specs.Customs.{names_of, producers_of};
ghost use Rattle.wasm_file.specs.Grammar.{parts_of};
ghost use Rattle.wasm_file.specs.declared.entries.Names.{Names};
ghost use Rattle.wasm_file.specs.declared.entries.Parts.{Parts};
ghost use Rattle.wasm_file.specs.declared.entries.ProducerField.{ProducerField};
ghost use Rattle.wasm_file_laws.specs.CustomFits.{FitsFields, FitsNames};
ghost use Rattle.wasm_file_laws.specs.FileFits.{AreJoined, FitsFile};

/// The lists that the bytes of a file are read as fit the grammar, and the runs of locals of each body are joined.
pub fn file_that_is_read_fits()
    ensures file { (bytes : List ℕ) (p : Parts) → AreBytes bytes → parts_of bytes ≡ Ok p → FitsFile p × AreJoined p }
{}

/// The names that the bytes of a name section are read as fit, and so do the fields of a producers section.
pub fn customs_that_are_read_fit()
    ensures names { (funcs : ℕ) (bytes : List ℕ) (n : Names) → AreBytes bytes → names_of funcs bytes ≡ Some n → FitsNames funcs n }
    ensures producers { (bytes : List ℕ) (fields : List ProducerField) → AreBytes bytes → producers_of bytes ≡ Some fields → FitsFields fields }
{}
