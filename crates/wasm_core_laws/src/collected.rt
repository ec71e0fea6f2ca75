//! What is left of a module when it is collected is a module.

ghost use Rattle.std.specs.Prelude.{List};
ghost use Rattle.wasm_collect.specs.Collected.{collected};
ghost use Rattle.wasm_core.specs.Contents.{Contents};
ghost use Rattle.wasm_core_laws.specs.ModuleFits.{IsModule};
ghost use Rattle.wasm_file.specs.declared.entries.ExportItem.{ExportItem};

/// What is left of a module when nothing is kept but what can be reached is a module.
pub fn collected_module_stays_one()
    ensures { (m : Contents) (roots : List ExportItem) → IsModule m → IsModule (collected roots m) }
{}
