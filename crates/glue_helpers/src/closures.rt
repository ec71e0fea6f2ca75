//! The texts of helpers that make JavaScript functions of closures that live in the module.
//!
//! Stand-in: `$destroy` for the export that destroys a closure.

ghost use Rattle.std.specs.Prelude.{◌≡◌, IfOk};
ghost use Rattle.glue_helpers.specs.Closures as spec;

use crate::naming::named_item;
use glue_words::Item;
use std::alloc::{AllocError, Global};
use values::Text;

/// The registry that destroys a closure when its function is collected. Where the host has no such registry, it does
/// nothing.
pub const CLOSURE_FINALIZATION: &str =
    r#"const b@CLOSURE_DTORS = (typeof g@FinalizationRegistry === "undefined")
? { p@register: () => {}, p@unregister: () => {} }
: new g@FinalizationRegistry(l@state => u@wasm.w@$destroy(state.a, state.b));
"#;

/// `makeClosure(arg0, arg1, f)`: a function that calls a closure, also from within itself. The closure lives until its
/// count of users is 0.
pub const MAKE_CLOSURE: &str = r#"function b@makeClosure(l@arg0, l@arg1, l@f) {
const l@state = { p@a: arg0, p@b: arg1, p@cnt: 1 };
const l@real = (...l@args) => {
state.cnt++;
try {
return f(state.a, state.b, ...args);
} finally {
real._wbg_cb_unref();
}
};
real._wbg_cb_unref = () => {
if (--state.cnt === 0) {
u@wasm.w@$destroy(state.a, state.b);
state.a = 0;
u@CLOSURE_DTORS.unregister(state);
}
};
u@CLOSURE_DTORS.register(real, state, state);
return real;
}
"#;

/// `makeMutClosure(arg0, arg1, f)`: the same of a closure that may change what it holds, so that it has no address while
/// it is called.
pub const MAKE_MUT_CLOSURE: &str = r#"function b@makeMutClosure(l@arg0, l@arg1, l@f) {
const l@state = { p@a: arg0, p@b: arg1, p@cnt: 1 };
const l@real = (...l@args) => {
state.cnt++;
const l@a = state.a;
state.a = 0;
try {
return f(a, state.b, ...args);
} finally {
state.a = a;
real._wbg_cb_unref();
}
};
real._wbg_cb_unref = () => {
if (--state.cnt === 0) {
u@wasm.w@$destroy(state.a, state.b);
state.a = 0;
u@CLOSURE_DTORS.unregister(state);
}
};
u@CLOSURE_DTORS.register(real, state, state);
return real;
}
"#;

/// A helper for closures.
#[derive(Clone, Copy, Debug, PartialEq, Eq)]
pub enum ClosureHelper {
    ClosureFinalization,
    MakeClosure,
    MakeMutClosure,
}

// The helper's key.
fn key_of(helper: ClosureHelper) -> &'static str
    ensures key { result.now ≡ spec.closure_key helper }
{
    match helper {
        ClosureHelper::ClosureFinalization => "closure_finalization",
        ClosureHelper::MakeClosure => "make_closure",
        ClosureHelper::MakeMutClosure => "make_mut_closure",
    }
}

// The helper's text.
fn text_of(helper: ClosureHelper) -> &'static str
    ensures text { result.now ≡ spec.closure_text helper }
{
    match helper {
        ClosureHelper::ClosureFinalization => CLOSURE_FINALIZATION,
        ClosureHelper::MakeClosure => MAKE_CLOSURE,
        ClosureHelper::MakeMutClosure => MAKE_MUT_CLOSURE,
    }
}

/// The helper's item, for the export that destroys a closure. The only error is want of memory.
#[tactic(auto, using(crate::proofs::ClosureTexts::closure_reads))]
pub fn closure_helper(
    alloc: Global,
    helper: ClosureHelper,
    destroy: &str,
) -> Result<Item, AllocError>
    ensures item { IfOk result (λ item. item ≡ spec.closure_item helper destroy.now) }
{
    let key = Text::from_str(alloc, key_of(helper))?;
    let destroy = (
        Text::from_str(alloc, "$destroy")?,
        Text::from_str(alloc, destroy)?,
    );
    named_item(alloc, key, &[], &[destroy], text_of(helper))
}
