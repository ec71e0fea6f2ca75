//! What is left of a module by editing is a module.

ghost use Rattle.std.specs.Prelude.{ℕ, List, length};
ghost use Rattle.wasm_core.specs.Contents.{Contents};
ghost use Rattle.wasm_core.specs.Edits.{IsLiveItem, with_export, without_export, with_import, with_func_name, without_start, without_custom, with_processed_by, localized, with_func};
ghost use Rattle.wasm_collect.specs.Reach.{ops_names};
ghost use Rattle.wasm_core_laws.specs.ModuleFits.{IsModule, AllStand, id_counts};
ghost use Rattle.wasm_file.specs.declared.entries.ExportItem.{ExportItem};
ghost use Rattle.wasm_file_laws.specs.FileFits.{FitsName, FitsFuncType};
ghost use Rattle.wasm_ops_laws.specs.Fits.{FitsBody};
ghost use Rattle.wasm_code.specs.declared.body.Body.{Body};
ghost use Rattle.wasm_types.specs.declared.types.FuncType.{FuncType};

/// What each editing call makes of a module is a module, where what it is given fits.
pub fn edited_module_is_one()
    ensures with_export { (m : Contents) (name : List ℕ) (item : ExportItem) → IsModule m → FitsName name → IsLiveItem m item → IsModule (with_export name item m) }
    ensures without_export { (m : Contents) (place : ℕ) → IsModule m → IsModule (without_export place m) }
    ensures with_import { (m : Contents) (place : ℕ) (from name : List ℕ) → IsModule m → FitsName from → FitsName name → IsModule (with_import place from name m) }
    ensures with_func_name { (m : Contents) (place : ℕ) (name : List ℕ) → IsModule m → FitsName name → IsModule (with_func_name place name m) }
    ensures without_start { (m : Contents) → IsModule m → IsModule (without_start m) }
    ensures without_custom { (m : Contents) (name : List ℕ) → IsModule m → IsModule (without_custom name m) }
    ensures with_processed_by { (m : Contents) (name version : List ℕ) → IsModule m → FitsName name → FitsName version → IsModule (with_processed_by name version m) }
    ensures localized { (m : Contents) (place : ℕ) → IsModule m → IsModule (localized place m) }
    ensures with_func { (m : Contents) (ty : FuncType) (name : List ℕ) (body : Body) → IsModule m → FitsFuncType ty → FitsName name → FitsBody (id_counts (with_func ty name body m)) (length ty.params) body → AllStand (with_func ty name body m) (ops_names body.ops) → IsModule (with_func ty name body m) }
{}
