//! The fixed texts of Deno, in the marked notation of `glue_marked`.
//!
//! Two texts stand for others: `$module` for the path of a module that imports come from, and `$file` for the name of the
//! WebAssembly file. The name `$import` stands for the one that such a module has.

/// The frame of imports up to the first member: a function that answers the imports, and their object.
pub const FRAME_START: &str = "\
function b@__wbg_get_imports() {
const b@import0 = {
p@__proto__: null,
";

/// The same, where the first memory is imported: the function takes it.
pub const FRAME_START_MEMORY: &str = "\
function b@__wbg_get_imports(b@memory) {
const b@import0 = {
p@__proto__: null,
";

/// The frame from the end of the members on, up to the modules that imports come from.
pub const FRAME_MODULES: &str = "\
};
return {
p@__proto__: null,
";

/// A module that imports come from.
pub const FRAME_MODULE: &str = "\
\"$module\": u@$import,
";

/// String constants: each is imported under its own value as the name.
pub const FRAME_STRINGS: &str = "\
\"wasm:js/string-constants\": new h@Proxy({}, { p@get: (l@_, l@name) => name }),
";

/// The frame's end.
pub const FRAME_END: &str = "\
};
}
";

/// Loading: the file is fetched, compiled while it arrives, and given the imports.
pub const LOADING: &str = "\
const b@wasmUrl = new g@URL(\"$file\", import.meta.url);
const b@wasmInstantiated = await g@WebAssembly.instantiateStreaming(g@fetch(n@wasmUrl), n@__wbg_get_imports());
const b@wasmInstance = n@wasmInstantiated.instance;
const b@wasm = n@wasmInstance.exports;
";

/// The same, where the module imports string constants: an engine that knows the option makes each of them from its import's name, and
/// doesn't look it up in the imports.
pub const LOADING_STRINGS: &str = "\
const b@wasmUrl = new g@URL(\"$file\", import.meta.url);
const b@wasmInstantiated = await g@WebAssembly.instantiateStreaming(g@fetch(n@wasmUrl), n@__wbg_get_imports(), { p@importedStringConstants: \"wasm:js/string-constants\" });
const b@wasmInstance = n@wasmInstantiated.instance;
const b@wasm = n@wasmInstance.exports;
";

/// The last line of loading, where the module has a start function: it is called.
pub const START_CALL: &str = "\
n@wasm.w@__wbindgen_start();
";
