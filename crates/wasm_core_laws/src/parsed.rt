//! What is parsed is a module, and is read again as itself.

ghost use Rattle.std.specs.Prelude.{◌≡◌, ℕ, ◌≤◌, true, length, List, None, Ok};
ghost use Rattle.wasm_bytes.specs.Reads.{AreBytes};
ghost use Rattle.wasm_core.specs.Contents.{Contents};
ghost use Rattle.wasm_emission.specs.Emission.{filed, too_large, bytes_of};
ghost use Rattle.wasm_core.specs.Parsing.{longest, module_of};
ghost use Rattle.wasm_core.specs.declared.types.ParseConfig.{ParseConfig};
ghost use Rattle.wasm_core_laws.specs.Again.{again};
ghost use Rattle.wasm_core_laws.specs.ModuleFits.{IsModule};
ghost use Rattle.wasm_file_laws.specs.FileFits.{AreFewEntries};

/// What bytes are parsed as is a module, and of no kind it has more entries than a file may have.
pub fn parsed_module_is_one()
    ensures module { (config : ParseConfig) (bytes : List ℕ) (m : Contents) → AreBytes bytes → module_of config bytes ≡ Ok m → IsModule m }
    ensures few { (config : ParseConfig) (bytes : List ℕ) (m : Contents) → AreBytes bytes → module_of config bytes ≡ Ok m → AreFewEntries (filed m) }
{}

/// Where names and producers are written, a parsed module is the one that is read where it was written, and its bytes, where
/// no section and not the whole is too long, are parsed as it.
pub fn parsed_module_is_read_as_itself()
    ensures itself { (config : ParseConfig) (bytes : List ℕ) (m : Contents) → AreBytes bytes → config.names ≡ true → config.producers ≡ true → module_of config bytes ≡ Ok m → again config m ≡ m }
    ensures written { (config : ParseConfig) (bytes : List ℕ) (m : Contents) → AreBytes bytes → config.names ≡ true → config.producers ≡ true → module_of config bytes ≡ Ok m → too_large m ≡ None → length (bytes_of m) ≤ longest → module_of config (bytes_of m) ≡ Ok m }
{}
