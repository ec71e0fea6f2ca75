//! What is asked for beside a description, in words.
use cli_support::{EncodeInto, Settings, Target, Text};
use rows::{RowFault, text_of};
use serde_json::Value;
use std::alloc::{AllocError, Global};

// Settings for Deno, with what isn't asked for left out.
fn plain_settings(alloc: Global) -> Result<Settings, AllocError> {
    Ok(Settings {
        stem: Text::from_str(alloc, "out")?,
        target: Target::Deno,
        debug: false,
        typescript: false,
        omit_imports: false,
        export_wasm: false,
        externref: false,
        multi_value: false,
        encode_into: EncodeInto::Always,
        omit_default_module_path: true,
        ts_typed_array_buffers: false,
        split_linked_modules: false,
        js_string_builtins: false,
        reset_state: false,
        force_abort: false,
    })
}

// The target of this name, but for that of a script; none where none has it.
fn target_of(name: &str) -> Option<Target> {
    match name {
        "bundler" => Some(Target::Bundler {
            browser_only: false,
        }),
        "web" => Some(Target::Web),
        "node" => Some(Target::Node { module: false }),
        "node_module" => Some(Target::Node { module: true }),
        "module" => Some(Target::Module),
        "emscripten" => Some(Target::Emscripten),
        _ => None,
    }
}

// The global of the script that this name asks for; none where it asks for none. The second is called as a string enum's values would be.
fn global_of(name: &str) -> Option<&'static str> {
    match name {
        "no_modules" => Some("wasm_bindgen"),
        "enum_global" => Some("__wbindgen_enum_M"),
        _ => None,
    }
}

// All that changes nothing where numbers alone are passed.
fn ask_others(settings: &mut Settings) {
    settings.externref = true;
    settings.multi_value = true;
    settings.omit_default_module_path = false;
    settings.ts_typed_array_buffers = true;
    settings.js_string_builtins = true;
    settings.force_abort = true;
}

// Turns on what this name asks for. The error says that it asks for nothing.
fn turn_on(settings: &mut Settings, name: &str) -> Result<(), RowFault> {
    match name {
        "debug" => settings.debug = true,
        "export_wasm" => settings.export_wasm = true,
        "no_imports" => settings.omit_imports = true,
        "others" => ask_others(settings),
        _ => return Err(RowFault::Row),
    }
    Ok(())
}

fn ask(alloc: Global, settings: &mut Settings, name: &str) -> Result<(), RowFault> {
    if let Some(target) = target_of(name) {
        settings.target = target;
        return Ok(());
    }
    if let Some(global) = global_of(name) {
        let global = Text::from_str(alloc, global)?;
        settings.target = Target::NoModules { global };
        return Ok(());
    }
    turn_on(settings, name)
}

fn ask_all(alloc: Global, settings: &mut Settings, asked: &[Value]) -> Result<(), RowFault> {
    for name in asked {
        ask(alloc, settings, text_of(name)?)?;
    }
    Ok(())
}

/// The settings that these words ask for.
pub fn asked_settings(alloc: Global, asked: &[Value]) -> Result<Settings, RowFault> {
    let mut settings = plain_settings(alloc)?;
    match ask_all(alloc, &mut settings, asked) {
        Ok(()) => Ok(settings),
        Err(fault) => Err(fault),
    }
}
