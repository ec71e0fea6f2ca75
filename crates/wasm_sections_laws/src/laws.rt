//! What is written frames.

ghost use Rattle.std.specs.Prelude.{◌≡◌, ℕ, List, Ok};
ghost use Rattle.wasm_core.specs.Contents.{Contents};
ghost use Rattle.wasm_core.specs.Frames.{frames_of};
ghost use Rattle.wasm_emission.specs.Emission.{bytes_of};
ghost use Rattle.wasm_sections.specs.Replaced.{split_debug_info};
ghost use Rattle.wasm_sections_laws.specs.Written.{IsWritable, module_frames, split_bytes};

/// The bytes of a module whose sections aren't too long and whose custom sections have names in UTF-8 are frames, and splitting
/// them leaves the file of the sections that aren't debugging information, with the address behind them.
pub fn written_module_is_split()
    ensures frames { (m : Contents) → IsWritable m → frames_of (bytes_of m) ≡ Ok (module_frames m) }
    ensures split { (m : Contents) (url : List ℕ) → IsWritable m → split_debug_info url (bytes_of m) ≡ Ok (split_bytes url m) }
{}
