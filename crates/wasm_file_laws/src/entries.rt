//! Entries of sections that are written are read again (WebAssembly core specification, 5.5).

ghost use Rattle.std.specs.Prelude.{◌≡◌, ℕ, List, [], Ok};
ghost use Rattle.wasm_bytes.specs.declared.counts.Counts.{Counts};
ghost use Rattle.wasm_bytes.specs.Reads.{Reads};
ghost use Rattle.wasm_types.specs.Entries.{func_type, type_index, func_index};
ghost use Rattle.wasm_types.specs.Spelling.{func_type_bytes};
ghost use Rattle.wasm_types.specs.declared.ids.FuncId.{FuncId};
ghost use Rattle.wasm_types.specs.declared.ids.TypeId.{TypeId};
ghost use Rattle.wasm_types.specs.declared.types.FuncType.{FuncType};
ghost use Rattle.wasm_types.specs.declared.types.Limits.{Limits};
ghost use Rattle.wasm_file.specs.Entries.{limits, table_type, tag_type, «import», «export», global_entry, elem, segment, custom};
ghost use Rattle.wasm_file.specs.Spelling.{type_id_bytes, func_id_bytes, limits_bytes, table_bytes, tag_bytes, import_bytes, export_bytes, global_bytes, elem_bytes, segment_bytes, custom_bytes};
ghost use Rattle.wasm_file.specs.declared.entries.Custom.{Custom};
ghost use Rattle.wasm_file.specs.declared.entries.Elem.{Elem};
ghost use Rattle.wasm_file.specs.declared.entries.Export.{Export};
ghost use Rattle.wasm_file.specs.declared.entries.FileGlobal.{FileGlobal};
ghost use Rattle.wasm_file.specs.declared.entries.FileImport.{FileImport};
ghost use Rattle.wasm_file.specs.declared.entries.Segment.{Segment};
ghost use Rattle.wasm_file.specs.declared.entries.TableType.{TableType};
ghost use Rattle.wasm_file_laws.specs.FileFits.{FitsFuncType, FitsTypeId, FitsFuncId, FitsLimits, FitsTable, FitsImport, FitsExport, FitsGlobal, FitsElem, FitsSegment, FitsCustom};

/// The spelling of an entry that fits its section is read as this entry, wherever it stands. A custom section is read as
/// far as its bytes go.
pub fn entries_are_read_again()
    ensures func_type { (counts : Counts) (ty : FuncType) → FitsFuncType ty → Reads (func_type counts) (func_type_bytes ty) ty }
    ensures type_id { (counts : Counts) (ty : TypeId) → FitsTypeId counts ty → Reads (type_index counts) (type_id_bytes ty) ty }
    ensures func_id { (counts : Counts) (func : FuncId) → FitsFuncId counts func → Reads (func_index counts) (func_id_bytes func) func }
    ensures limits { (greatest : ℕ) (l : Limits) → FitsLimits greatest l → Reads (limits greatest) (limits_bytes l) l }
    ensures table { (t : TableType) → FitsTable t → Reads table_type (table_bytes t) t }
    ensures tag { (counts : Counts) (ty : TypeId) → FitsTypeId counts ty → Reads (tag_type counts) (tag_bytes ty) ty }
    ensures imported { (counts : Counts) (i : FileImport) → FitsImport counts i → Reads («import» counts) (import_bytes i) i }
    ensures exported { (counts : Counts) (e : Export) → FitsExport counts e → Reads («export» counts) (export_bytes e) e }
    ensures global { (counts : Counts) (g : FileGlobal) → FitsGlobal counts g → Reads (global_entry counts) (global_bytes g) g }
    ensures elem { (counts : Counts) (e : Elem) → FitsElem counts e → Reads (elem counts) (elem_bytes e) e }
    ensures segment { (counts : Counts) (s : Segment) → FitsSegment counts s → Reads (segment counts) (segment_bytes s) s }
    ensures custom { (place : ℕ) (c : Custom) → FitsCustom c → (after : ℕ) × (custom (record { place = place; bytes = custom_bytes c }) ≡ Ok (c, record { place = after; bytes = [] })) }
{}
