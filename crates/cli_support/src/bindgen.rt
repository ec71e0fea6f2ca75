//! What is set for a call, and its input.
ghost use Rattle.std.specs.Prelude.{◌≡◌, IfOk, OnErr, Some, None, option_map};
ghost use Rattle.cli_support.specs.Configured as spec;

use glue_shared::{EncodeInto, Settings, Target};
use std::alloc::{AllocError, Global};
use std::marker::Model;
use values::{Duplicate, Seq, Text};
use wasm_core::Module;

/// No input was handed in.
#[derive(Clone, Copy, Debug, PartialEq, Eq)]
pub struct NoInput;

/// What is turned on. The setter of each name says what it does.
#[derive(Clone, Copy)]
pub(crate) struct Flags {
    pub(crate) externref: bool,
    pub(crate) multi_value: bool,
    pub(crate) debug: bool,
    pub(crate) typescript: bool,
    pub(crate) omit_imports: bool,
    pub(crate) demangle: bool,
    pub(crate) keep_lld_exports: bool,
    pub(crate) export_wasm: bool,
    pub(crate) keep_debug: bool,
    pub(crate) split_debug_info: bool,
    pub(crate) remove_name_section: bool,
    pub(crate) remove_producers_section: bool,
    pub(crate) emit_start: bool,
    pub(crate) omit_default_module_path: bool,
    pub(crate) ts_typed_array_buffers: bool,
    pub(crate) split_linked_modules: bool,
    pub(crate) js_string_builtins: bool,
    pub(crate) reset_state: bool,
    pub(crate) force_abort: bool,
}

/// What was handed in as a module.
#[derive(Drop)]
pub(crate) enum Handed {
    /// The module's bytes.
    Bytes(Seq<u8>),
    /// The module itself, and none where a call took it.
    Module(Option<Module>),
}

/// What is set for the next call, and its input.
#[derive(Drop)]
pub struct Bindgen {
    pub(crate) target: Target,
    pub(crate) flags: Flags,
    pub(crate) encode_into: EncodeInto,
    pub(crate) out_name: Option<Text>,
    pub(crate) debug_info_url: Option<Text>,
    /// The name that the files begin with, and what was handed in under it.
    pub(crate) input: Option<(Text, Handed)>,
}

impl Model for Bindgen {
    ghost use Rattle.cli_support.specs.Configured.{Configured};

    ghost Value = { Configured };

    ghost view = { λ b. record { target = b.target; flags = b.flags; encode_into = b.encode_into; out_name = b.out_name; debug_info_url = b.debug_info_url; input = b.input } };
}

// What is turned on at the start.
fn first_flags(externref: bool, multi_value: bool) -> Flags
    ensures first { result ≡ spec.first_flags externref multi_value }
{
    Flags {
        externref,
        multi_value,
        debug: false,
        typescript: false,
        omit_imports: false,
        demangle: true,
        keep_lld_exports: false,
        export_wasm: false,
        keep_debug: false,
        split_debug_info: false,
        remove_name_section: false,
        remove_producers_section: false,
        emit_start: true,
        omit_default_module_path: true,
        ts_typed_array_buffers: false,
        split_linked_modules: false,
        js_string_builtins: false,
        reset_state: false,
        force_abort: false,
    }
}

impl Bindgen {
    /// The settings at the start: a bundler's files, and whether reference types and several results are taken to be there. Names of
    /// functions are to be demangled, a start function is to be called, the default path of the module is left out, and strings are
    /// encoded in place where the host can. All else is off or absent.
    pub fn new(externref: bool, multi_value: bool) -> Bindgen
        ensures fresh { result ≡ spec.fresh externref multi_value }
    {
        Bindgen {
            target: Target::Bundler {
                browser_only: false,
            },
            flags: first_flags(externref, multi_value),
            encode_into: EncodeInto::Test,
            out_name: None,
            debug_info_url: None,
            input: None,
        }
    }

    /// The name that was handed in with the input.
    pub fn stem(&self) -> Result<&str, NoInput>
        ensures ok { IfOk result (λ stem. option_map (λ input. input.0) self.now.input ≡ Some stem.now) }
        ensures err { OnErr result (self.now.input ≡ None) }
    {
        match &self.input {
            Some(input) => Ok(input.0.as_str()),
            None => Err(NoInput),
        }
    }

    // The name of the files: that of the input, and the empty one without input.
    fn stem_copy(&self, alloc: Global) -> Result<Text, AllocError>
        ensures stem { IfOk result (λ stem. stem ≡ spec.stem_of self.now.input) }
    {
        match &self.input {
            Some(input) => input.0.copy(alloc),
            None => Text::from_str(alloc, ""),
        }
    }

    // The settings of a call.
    pub(crate) fn settings(&self, alloc: Global) -> Result<Settings, AllocError>
        ensures settings { IfOk result (λ settings. settings ≡ spec.call_settings self.now) }
    {
        Ok(Settings {
            stem: self.stem_copy(alloc)?,
            target: self.target.copy(alloc)?,
            debug: self.flags.debug,
            typescript: self.flags.typescript,
            omit_imports: self.flags.omit_imports,
            export_wasm: self.flags.export_wasm,
            externref: self.flags.externref,
            multi_value: self.flags.multi_value,
            encode_into: self.encode_into,
            omit_default_module_path: self.flags.omit_default_module_path,
            ts_typed_array_buffers: self.flags.ts_typed_array_buffers,
            split_linked_modules: self.flags.split_linked_modules,
            js_string_builtins: self.flags.js_string_builtins,
            reset_state: self.flags.reset_state,
            force_abort: self.flags.force_abort,
        })
    }
}
