//! The custom sections of a module that is written are read again.

ghost use Rattle.std.specs.Prelude.{◌≡◌, Bool, List, [], None, if◌then◌else◌, length};
ghost use Rattle.std.specs.List.{filter};
ghost use Rattle.wasm_file_laws.specs.CustomFits.{FitsNames};
ghost use Rattle.wasm_file_laws.specs.FileFits.{AreShortSections};
ghost use Rattle.wasm_core.specs.Contents.{Contents};
ghost use Rattle.wasm_emission.specs.Emission.{file_names, filed, too_large};
ghost use Rattle.wasm_core.specs.Parsing.{no_names, all_names, with_names, all_producers, is_kept};
ghost use Rattle.wasm_emission.specs.Renumbering.{numbering};
ghost use Rattle.wasm_core.specs.declared.types.Func.{Func};
ghost use Rattle.wasm_core_laws.specs.Again.{IsWithinLimits, all_there, func_again, in_order};
ghost use Rattle.wasm_core_laws.specs.ModuleFits.{IsModule, func_imported};

/// The names, where they are wanted, and the producers, where they are, are read again, each function gets its own name again,
/// and the module's own sections stay. 32 bits count the bytes of each section, unless one is too large to be written.
pub fn customs_again()
    ensures fit { (m : Contents) → IsModule m → IsWithinLimits m → FitsNames (length (in_order func_imported m.funcs)) (file_names m (numbering m)) }
    ensures short { (m : Contents) → too_large m ≡ None → AreShortSections (filed m) }
    ensures names { (m : Contents) → IsModule m → IsWithinLimits m → all_names (length (in_order func_imported m.funcs)) (filed m).customs ≡ (if m.config.names then file_names m (numbering m) else no_names) }
    ensures funcs { (m : Contents) → with_names (if m.config.names then file_names m (numbering m) else no_names).funcs (all_there (λ (f : Func). record (func_again m f) { name = None }) (in_order func_imported m.funcs)) ≡ all_there (func_again m) (in_order func_imported m.funcs) }
    ensures producers { (m : Contents) → IsModule m → IsWithinLimits m → all_producers (filed m).customs ≡ (if m.config.producers then m.producers else []) }
    ensures kept { (m : Contents) (debug : Bool) → filter (is_kept debug) (filed m).customs ≡ filter (is_kept debug) m.customs }
{}
