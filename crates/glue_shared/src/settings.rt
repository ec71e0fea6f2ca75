//! The settings of a call.
use std::alloc::{AllocError, Global};
use values::{Duplicate, Text};

/// What the files are made for.
#[derive(Drop)]
pub enum Target {
    /// A bundler. `browser_only` changes no text.
    Bundler { browser_only: bool },
    /// A browser, by an ES module.
    Web,
    /// A browser, by a script that defines this global.
    NoModules { global: Text },
    /// Node, by an ES module or by CommonJS.
    Node { module: bool },
    Deno,
    /// An ES module that imports the WebAssembly module by its source phase.
    Module,
    Emscripten,
}

/// When strings are encoded by `TextEncoder.encodeInto`.
#[derive(Clone, Copy, Debug)]
pub enum EncodeInto {
    /// Where it is there at run time.
    Test,
    Always,
    Never,
}

/// The settings of a call.
#[derive(Drop)]
pub struct Settings {
    /// What the names of the files begin with.
    pub stem: Text,
    pub target: Target,
    pub debug: bool,
    pub typescript: bool,
    pub omit_imports: bool,
    pub export_wasm: bool,
    pub externref: bool,
    pub multi_value: bool,
    pub encode_into: EncodeInto,
    pub omit_default_module_path: bool,
    pub ts_typed_array_buffers: bool,
    pub split_linked_modules: bool,
    pub js_string_builtins: bool,
    pub reset_state: bool,
    pub force_abort: bool,
}

impl Duplicate for Target {
    fn copy(&self, alloc: Global) -> Result<Target, AllocError> {
        match self {
            Target::Bundler { browser_only } => Ok(Target::Bundler {
                browser_only: *browser_only,
            }),
            Target::Web => Ok(Target::Web),
            Target::NoModules { global } => Ok(Target::NoModules {
                global: global.copy(alloc)?,
            }),
            Target::Node { module } => Ok(Target::Node { module: *module }),
            Target::Deno => Ok(Target::Deno),
            Target::Module => Ok(Target::Module),
            Target::Emscripten => Ok(Target::Emscripten),
        }
    }
}

impl Duplicate for Settings {
    fn copy(&self, alloc: Global) -> Result<Settings, AllocError> {
        Ok(Settings {
            stem: self.stem.copy(alloc)?,
            target: self.target.copy(alloc)?,
            debug: self.debug,
            typescript: self.typescript,
            omit_imports: self.omit_imports,
            export_wasm: self.export_wasm,
            externref: self.externref,
            multi_value: self.multi_value,
            encode_into: self.encode_into,
            omit_default_module_path: self.omit_default_module_path,
            ts_typed_array_buffers: self.ts_typed_array_buffers,
            split_linked_modules: self.split_linked_modules,
            js_string_builtins: self.js_string_builtins,
            reset_state: self.reset_state,
            force_abort: self.force_abort,
        })
    }
}
