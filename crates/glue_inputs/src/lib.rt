//! What the crates of tests and `text_rows` begin with: words that are printed, lists of names, settings, a module without anything, and how
//! a value is shown. Only these use it.
//!
//! Promised: each function gives exactly what it says, or memory runs out; of `shown` nothing is promised.
//!
//! Stands on `glue_scope` and its words for what is printed, on `glue_shared` for settings, and on `wasm_core`.
#![tactic(auto)]

ghost use Rattle.std.specs.Prelude.{◌≡◌, [], ◌∷◌, codes, map, true, false, string_bytes, IfOk};
ghost use Rattle.glue_scope.specs.Words as spec;
ghost use Rattle.glue_scope.specs.item.Role.TheVariants.{Body};

use glue_scope::{Item, Role, Word, print};
use glue_shared::{EncodeInto, Settings, Target};
use std::alloc::{AllocError, Global};
use std::fmt::Debug;
use std::slice;
use values::{Seq, Text};
use wasm_core::ParseConfig;

/// Names and producers are read, debug information is left out.
pub const CONFIG: ParseConfig = ParseConfig {
    keep_debug: false,
    names: true,
    producers: true,
};

/// A module without anything.
pub const EMPTY: &[u8] = b"\0asm\x01\0\0\0";

/// The words, printed.
pub fn printed(alloc: Global, words: Seq<Word>) -> Result<String, AllocError>
    ensures { IfOk result (λ text. string_bytes text ≡ spec.printed (record { role = Body; words = words } ∷ [])) }
{
    let item = Item {
        role: Role::Body,
        words,
    };
    let text = print(alloc, slice::from_ref(&item));
    drop(item);
    text
}

/// These texts.
pub fn texts(alloc: Global, names: &[&str]) -> Result<Seq<Text>, AllocError>
    ensures { IfOk result (λ seq. seq ≡ map (λ name. name.now) names.now) }
{
    let mut seq = Seq::new(alloc);
    for name in names {
        seq.push(Text::from_str(alloc, name)?)?;
    }
    Ok(seq)
}

/// Settings for a target, with what isn't asked for left out.
pub fn settings(
    alloc: Global,
    target: Target,
    encode_into: EncodeInto,
) -> Result<Settings, AllocError>
    ensures { IfOk result (λ s. s ≡ record { stem = codes "out"; target = target; debug = false; typescript = false; omit_imports = false; export_wasm = false; externref = false; multi_value = false; encode_into = encode_into; omit_default_module_path = true; ts_typed_array_buffers = false; split_linked_modules = false; js_string_builtins = false; reset_state = false; force_abort = false }) }
{
    Ok(Settings {
        stem: Text::from_str(alloc, "out")?,
        target,
        debug: false,
        typescript: false,
        omit_imports: false,
        export_wasm: false,
        externref: false,
        multi_value: false,
        encode_into,
        omit_default_module_path: true,
        ts_typed_array_buffers: false,
        split_linked_modules: false,
        js_string_builtins: false,
        reset_state: false,
        force_abort: false,
    })
}

/// A value as `{:?}` prints it.
pub fn shown<T: Debug + Drop>(alloc: Global, value: T) -> Result<String, AllocError> {
    format!(in alloc; "{value:?}")
}
