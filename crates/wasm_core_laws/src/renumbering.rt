//! Numbers of entries in the file that is written (WebAssembly core specification, 5.5.1).

ghost use Rattle.std.specs.Prelude.{◌≡◌, ◌<◌, ℕ, Bool, List, Option, Some, length, slice_get};
ghost use Rattle.wasm_ops.specs.Numbers.{number_at};
ghost use Rattle.wasm_emission.specs.Emission.{live};
ghost use Rattle.wasm_collect.specs.Reach.{entry_at};
ghost use Rattle.wasm_emission.specs.Renumbering.{numbers, never};
ghost use Rattle.wasm_core_laws.specs.Again.{in_order};

/// The entry at a place stands at the place's number in the list that is written, which has as many as are there.
pub fn entries_are_renumbered<T>()
    ensures again { (test : T → Bool) (xs : List (Option T)) (i : ℕ) (x : T) → entry_at xs i ≡ Some x → slice_get (in_order test xs) (number_at (numbers test xs) i) ≡ Some x }
    ensures never { (xs : List (Option T)) (i : ℕ) (x : T) → entry_at xs i ≡ Some x → slice_get (live xs) (number_at (numbers never xs) i) ≡ Some x }
    ensures below { (test : T → Bool) (xs : List (Option T)) (i : ℕ) (x : T) → entry_at xs i ≡ Some x → number_at (numbers test xs) i < length (in_order test xs) }
    ensures counted { (test : T → Bool) (xs : List (Option T)) → length (in_order test xs) ≡ length (live xs) }
{}
