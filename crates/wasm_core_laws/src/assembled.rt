//! The lists of a file that was written are assembled again.

ghost use Rattle.std.specs.Prelude.{◌≡◌};
ghost use Rattle.wasm_core.specs.Contents.{Contents};
ghost use Rattle.wasm_emission.specs.Emission.{filed};
ghost use Rattle.wasm_core.specs.Parsing.{assembled};
ghost use Rattle.wasm_core.specs.declared.types.ParseConfig.{ParseConfig};
ghost use Rattle.wasm_core_laws.specs.Again.{IsWithinLimits, again};
ghost use Rattle.wasm_core_laws.specs.ModuleFits.{IsModule};
ghost use Rattle.wasm_file_laws.specs.FileFits.{joined_file};

/// The lists of a module's file are assembled, under any config, as the same live entries, renumbered in the order of
/// emission.
pub fn assembled_again()
    ensures module { (config : ParseConfig) (m : Contents) → IsModule m → IsWithinLimits m → assembled config (joined_file (filed m)) ≡ again config m }
{}
