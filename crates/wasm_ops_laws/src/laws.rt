//! Operators that are written are read again (WebAssembly core specification, 5.4).

ghost use Rattle.std.specs.Prelude.{Bool, false, ℕ, ◌≤◌, List, [], ◌∷◌};
ghost use Rattle.std.specs.List.{AllByRecursion};
ghost use Rattle.wasm_bytes.specs.declared.counts.Counts.{Counts};
ghost use Rattle.wasm_bytes.specs.Reads.{Reads, Finds};
ghost use Rattle.wasm_code.specs.Code.{op, expression, initial, code_entry};
ghost use Rattle.wasm_ops_laws.specs.Fits.{FitsOp, FitsOps, FitsInitial, FitsBody, IsShort, IsReadBody, joined_body};
ghost use Rattle.wasm_code.specs.Locals.{most_locals};
ghost use Rattle.wasm_ops.specs.Spelling.{op_bytes};
ghost use Rattle.wasm_code.specs.Spelling.{expression_bytes, code_bytes};
ghost use Rattle.wasm_ops.specs.declared.ops.Op.{Op};
ghost use Rattle.wasm_code.specs.declared.body.Body.{Body};

/// The spelling of an operator, of the operators of a body, of an initial expression, and of a body with its runs of locals
/// joined is read as these, wherever it stands.
pub fn code_is_read_again()
    ensures op { (counts : Counts) (labels : List Bool) (x : Op) → FitsOp counts labels x → Reads (op counts labels) (op_bytes x) x }
    ensures expression { (counts : Counts) (xs : List Op) → FitsOps counts (false ∷ []) xs → Reads (expression counts) (expression_bytes xs) xs }
    ensures initial { (counts : Counts) (xs : List Op) → AllByRecursion (FitsInitial counts) xs → Reads (initial counts) (expression_bytes xs) xs }
    ensures body { (counts : Counts) (params : ℕ) (b : Body) → FitsBody counts params b → IsShort b → Reads (code_entry counts params) (code_bytes b) (joined_body b) }
{}

/// What is read fits the counts of what it names, so it is read again once it is written.
pub fn what_is_read_fits()
    ensures op { (counts : Counts) (labels : List Bool) → Finds (op counts labels) (FitsOp counts labels) }
    ensures expression { (counts : Counts) → Finds (expression counts) (FitsOps counts (false ∷ [])) }
    ensures initial { (counts : Counts) → Finds (initial counts) (AllByRecursion (FitsInitial counts)) }
    ensures body { (counts : Counts) (params : ℕ) → params ≤ most_locals → Finds (code_entry counts params) (IsReadBody counts params) }
{}
