//! Names and producers that are written are read again.

ghost use Rattle.std.specs.Prelude.{◌≡◌, ℕ, ◌^◌, ◌<◌, length, List, Some};
ghost use Rattle.wasm_bytes.specs.Spelling.{list_bytes};
ghost use Rattle.wasm_file.specs.Customs.{names_of, producers_of};
ghost use Rattle.wasm_file.specs.Spelling.{names_bytes, field_bytes};
ghost use Rattle.wasm_file.specs.declared.entries.Names.{Names};
ghost use Rattle.wasm_file.specs.declared.entries.ProducerField.{ProducerField};
ghost use Rattle.wasm_file_laws.specs.CustomFits.{FitsNames, FitsFields};

/// The content of a name section and of a producers section is read as the names and the fields that it spells.
pub fn customs_are_read_again()
    ensures names { (funcs : ℕ) (n : Names) → FitsNames funcs n → length (names_bytes n) < 2 ^ 32 → names_of funcs (names_bytes n) ≡ Some n }
    ensures producers { (fs : List ProducerField) → FitsFields fs → length (list_bytes field_bytes fs) < 2 ^ 32 → producers_of (list_bytes field_bytes fs) ≡ Some fs }
{}
