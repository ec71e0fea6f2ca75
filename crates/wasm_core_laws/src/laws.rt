//! What is written is read again.

ghost use Rattle.std.specs.Prelude.{◌≡◌, Ok};
ghost use Rattle.wasm_core.specs.Contents.{Contents};
ghost use Rattle.wasm_emission.specs.Emission.{bytes_of};
ghost use Rattle.wasm_core.specs.Parsing.{module_of};
ghost use Rattle.wasm_core.specs.declared.types.ParseConfig.{ParseConfig};
ghost use Rattle.wasm_core_laws.specs.Again.{IsWithinLimits, again};
ghost use Rattle.wasm_core_laws.specs.ModuleFits.{IsModule};

/// The bytes of a module are read, under any config, as the same live entries, renumbered in the order of emission.
pub fn module_is_read_again()
    ensures module { (config : ParseConfig) (m : Contents) → IsModule m → IsWithinLimits m → module_of config (bytes_of m) ≡ Ok (again config m) }
{}
