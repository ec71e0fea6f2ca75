//! Setters that can't refuse: each turns something on or off, and answers the generator.
ghost use Rattle.std.specs.Prelude.{◌≡◌};

use crate::bindgen::Bindgen;
use glue_shared::EncodeInto;

impl Bindgen {
    /// Whether the glue file tests at run time what it is handed, and publishes the module's exports as `__wasm`. That isn't built: a call
    /// with it refuses (`NotBuilt` with `settings`).
    pub fn debug(&mut self, enable: bool) -> &mut Bindgen
        ensures set { result.now ≡ record self.old { flags = record self.old.flags { debug = enable } } }
        ensures same_reference { result.ghost_name ≡ self.entry.ghost_name }
    {
        self.flags.debug = enable;
        self
    }

    /// Whether TypeScript declarations are planned beside the glue file. That isn't built: a call with it refuses (`NotBuilt` with
    /// `settings`).
    pub fn typescript(&mut self, enable: bool) -> &mut Bindgen
        ensures set { result.now ≡ record self.old { flags = record self.old.flags { typescript = enable } } }
        ensures same_reference { result.ghost_name ≡ self.entry.ghost_name }
    {
        self.flags.typescript = enable;
        self
    }

    /// Whether names from modules are used as names of the host, without lines that take them.
    pub fn omit_imports(&mut self, enable: bool) -> &mut Bindgen
        ensures set { result.now ≡ record self.old { flags = record self.old.flags { omit_imports = enable } } }
        ensures same_reference { result.ghost_name ≡ self.entry.ghost_name }
    {
        self.flags.omit_imports = enable;
        self
    }

    /// Whether names of functions that Rust mangled are written as Rust shows them. It is on at the start. That isn't built: a call with
    /// it refuses (`NotBuilt` with `files`) where a function's name begins with `_ZN`, `ZN` or `__ZN`.
    pub fn demangle(&mut self, enable: bool) -> &mut Bindgen
        ensures set { result.now ≡ record self.old { flags = record self.old.flags { demangle = enable } } }
        ensures same_reference { result.ghost_name ≡ self.entry.ghost_name }
    {
        self.flags.demangle = enable;
        self
    }

    /// Whether the exports `__heap_base`, `__data_end` and `__indirect_function_table`, which linkers add, stay in the module that is
    /// written. For Emscripten they stay, whatever is set here.
    pub fn keep_lld_exports(&mut self, enable: bool) -> &mut Bindgen
        ensures set { result.now ≡ record self.old { flags = record self.old.flags { keep_lld_exports = enable } } }
        ensures same_reference { result.ghost_name ≡ self.entry.ghost_name }
    {
        self.flags.keep_lld_exports = enable;
        self
    }

    /// Whether the glue file publishes the module's exports as `__wasm`. That isn't built: a call with it refuses (`NotBuilt` with
    /// `settings`).
    pub fn export_wasm(&mut self, enable: bool) -> &mut Bindgen
        ensures set { result.now ≡ record self.old { flags = record self.old.flags { export_wasm = enable } } }
        ensures same_reference { result.ghost_name ≡ self.entry.ghost_name }
    {
        self.flags.export_wasm = enable;
        self
    }

    /// Whether sections `.debug_*` of a byte input stay in the module that is written.
    pub fn keep_debug(&mut self, enable: bool) -> &mut Bindgen
        ensures set { result.now ≡ record self.old { flags = record self.old.flags { keep_debug = enable } } }
        ensures same_reference { result.ghost_name ≡ self.entry.ghost_name }
    {
        self.flags.keep_debug = enable;
        self
    }

    /// Whether sections `.debug_*` go into a file of their own. That isn't built: a call with it refuses (`NotBuilt` with `files`).
    pub fn split_debug_info(&mut self, enable: bool) -> &mut Bindgen
        ensures set { result.now ≡ record self.old { flags = record self.old.flags { split_debug_info = enable } } }
        ensures same_reference { result.ghost_name ≡ self.entry.ghost_name }
    {
        self.flags.split_debug_info = enable;
        self
    }

    /// Whether the module that is made of a byte input is written without names.
    pub fn remove_name_section(&mut self, enable: bool) -> &mut Bindgen
        ensures set { result.now ≡ record self.old { flags = record self.old.flags { remove_name_section = enable } } }
        ensures same_reference { result.ghost_name ≡ self.entry.ghost_name }
    {
        self.flags.remove_name_section = enable;
        self
    }

    /// Whether the module that is made of a byte input is written without producers.
    pub fn remove_producers_section(&mut self, enable: bool) -> &mut Bindgen
        ensures set { result.now ≡ record self.old { flags = record self.old.flags { remove_producers_section = enable } } }
        ensures same_reference { result.ghost_name ≡ self.entry.ghost_name }
    {
        self.flags.remove_producers_section = enable;
        self
    }

    /// Whether a start function is called when the glue file is loaded. It is on at the start, is kept, and changes nothing.
    pub fn emit_start(&mut self, enable: bool) -> &mut Bindgen
        ensures set { result.now ≡ record self.old { flags = record self.old.flags { emit_start = enable } } }
        ensures same_reference { result.ghost_name ≡ self.entry.ghost_name }
    {
        self.flags.emit_start = enable;
        self
    }

    /// Whether a loading function of the targets web and no-modules has no path of its own for the module, and has to be handed one.
    /// It is on at the start. Nothing that is built depends on it, since these targets aren't.
    pub fn omit_default_module_path(&mut self, enable: bool) -> &mut Bindgen
        ensures set { result.now ≡ record self.old { flags = record self.old.flags { omit_default_module_path = enable } } }
        ensures same_reference { result.ghost_name ≡ self.entry.ghost_name }
    {
        self.flags.omit_default_module_path = enable;
        self
    }

    /// Whether TypeScript declarations name the buffer of a typed array. Nothing that is built depends on it, since declarations aren't.
    pub fn ts_typed_array_buffers(&mut self, enable: bool) -> &mut Bindgen
        ensures set { result.now ≡ record self.old { flags = record self.old.flags { ts_typed_array_buffers = enable } } }
        ensures same_reference { result.ghost_name ≡ self.entry.ghost_name }
    {
        self.flags.ts_typed_array_buffers = enable;
        self
    }

    /// Whether a linked module is a file of its own and not embedded. That isn't built: a call with it refuses (`NotBuilt` with
    /// `imports`).
    pub fn split_linked_modules(&mut self, enable: bool) -> &mut Bindgen
        ensures set { result.now ≡ record self.old { flags = record self.old.flags { split_linked_modules = enable } } }
        ensures same_reference { result.ghost_name ≡ self.entry.ghost_name }
    {
        self.flags.split_linked_modules = enable;
        self
    }

    /// Whether a lowering may use the built-in functions on JavaScript strings. The lowering is told of it; nothing that is built depends
    /// on it otherwise.
    pub fn js_string_builtins(&mut self, enable: bool) -> &mut Bindgen
        ensures set { result.now ≡ record self.old { flags = record self.old.flags { js_string_builtins = enable } } }
        ensures same_reference { result.ghost_name ≡ self.entry.ghost_name }
    {
        self.flags.js_string_builtins = enable;
        self
    }

    /// Whether a function is published that starts the module anew. The targets web, module and Node by CommonJS have one: a call for
    /// another refuses (`ResetStateTarget`). That isn't built: a call for these refuses too (`NotBuilt`).
    pub fn reset_state_function(&mut self, enable: bool) -> &mut Bindgen
        ensures set { result.now ≡ record self.old { flags = record self.old.flags { reset_state = enable } } }
        ensures same_reference { result.ghost_name ≡ self.entry.ghost_name }
    {
        self.flags.reset_state = enable;
        self
    }

    /// Whether a lowering is to have calls guarded against an abort of the module. The lowering is told of it; nothing that is built
    /// depends on it otherwise.
    pub fn force_enable_abort_handler(&mut self, enable: bool) -> &mut Bindgen
        ensures set { result.now ≡ record self.old { flags = record self.old.flags { force_abort = enable } } }
        ensures same_reference { result.ghost_name ≡ self.entry.ghost_name }
    {
        self.flags.force_abort = enable;
        self
    }

    /// Whether the module may use reference types. A call turns that on for a module that says it uses them. No instruction that is built
    /// depends on it.
    pub fn reference_types(&mut self, enable: bool) -> &mut Bindgen
        ensures set { result.now ≡ record self.old { flags = record self.old.flags { externref = enable } } }
        ensures same_reference { result.ghost_name ≡ self.entry.ghost_name }
    {
        self.flags.externref = enable;
        self
    }

    /// When the glue file encodes strings in place, by `TextEncoder.encodeInto`. The lowering is told of it; nothing that is built
    /// passes strings, so nothing depends on it otherwise.
    pub fn encode_into(&mut self, mode: EncodeInto) -> &mut Bindgen
        ensures set { result.now ≡ record self.old { encode_into = mode } }
        ensures same_reference { result.ghost_name ≡ self.entry.ghost_name }
    {
        self.encode_into = mode;
        self
    }
}
