//! Setters of a generator, by their names.
use cli_support::{Bindgen, EncodeInto, SetFault};
use rows::RowFault;
use serde_json::Value;
use std::alloc::Global;

// Turns what is part of the glue file on or off. The answer is whether a setter has this name.
fn turn_of_text(generator: &mut Bindgen, name: &str, enable: bool) -> bool {
    let set = match name {
        "debug" => generator.debug(enable),
        "typescript" => generator.typescript(enable),
        "omit_imports" => generator.omit_imports(enable),
        "export_wasm" => generator.export_wasm(enable),
        "omit_default_module_path" => generator.omit_default_module_path(enable),
        "ts_typed_array_buffers" => generator.ts_typed_array_buffers(enable),
        "split_linked_modules" => generator.split_linked_modules(enable),
        "js_string_builtins" => generator.js_string_builtins(enable),
        "reset_state_function" => generator.reset_state_function(enable),
        _ => return false,
    };
    let _ = set;
    true
}

// Turns what is part of the module on or off.
fn turn_of_module(generator: &mut Bindgen, name: &str, enable: bool) -> bool {
    let set = match name {
        "demangle" => generator.demangle(enable),
        "keep_lld_exports" => generator.keep_lld_exports(enable),
        "keep_debug" => generator.keep_debug(enable),
        "split_debug_info" => generator.split_debug_info(enable),
        "remove_name_section" => generator.remove_name_section(enable),
        "remove_producers_section" => generator.remove_producers_section(enable),
        "emit_start" => generator.emit_start(enable),
        "force_enable_abort_handler" => generator.force_enable_abort_handler(enable),
        "reference_types" => generator.reference_types(enable),
        _ => return false,
    };
    let _ = set;
    true
}

// Chooses a target.
fn choose(
    alloc: Global,
    generator: &mut Bindgen,
    name: &str,
    enable: bool,
) -> Result<Option<SetFault>, RowFault> {
    match name {
        "nodejs" => Ok(generator.nodejs(enable).err()),
        "nodejs_module" => Ok(generator.nodejs_module(enable).err()),
        "bundler" => Ok(generator.bundler(enable).err()),
        "web" => Ok(generator.web(enable).err()),
        "browser" => Ok(generator.browser(enable).err()),
        "deno" => Ok(generator.deno(enable).err()),
        "module" => Ok(generator.module(enable).err()),
        "no_modules" => Ok(generator.no_modules(alloc, enable).err()),
        _ => Err(RowFault::Row),
    }
}

// When strings are encoded in place, by its name.
fn mode_of(name: &str) -> Result<EncodeInto, RowFault> {
    match name {
        "test" => Ok(EncodeInto::Test),
        "always" => Ok(EncodeInto::Always),
        "never" => Ok(EncodeInto::Never),
        _ => Err(RowFault::Row),
    }
}

// Sets a text.
fn set_text(
    alloc: Global,
    generator: &mut Bindgen,
    name: &str,
    text: &str,
) -> Result<Option<SetFault>, RowFault> {
    match name {
        "no_modules_global" => return Ok(generator.no_modules_global(alloc, text).err()),
        "out_name" => {
            let _ = generator.out_name(alloc, text)?;
        }
        "debug_info_url" => {
            let _ = generator.debug_info_url(alloc, text)?;
        }
        "encode_into" => {
            let _ = generator.encode_into(mode_of(text)?);
        }
        _ => return Err(RowFault::Row),
    }
    Ok(None)
}

// Sets a switch or a target.
fn set_flag(
    alloc: Global,
    generator: &mut Bindgen,
    name: &str,
    enable: bool,
) -> Result<Option<SetFault>, RowFault> {
    if turn_of_text(generator, name, enable) || turn_of_module(generator, name, enable) {
        return Ok(None);
    }
    choose(alloc, generator, name, enable)
}

/// Calls the setter with this name, and gives the fault that it answers. The error says that no setter has the name or takes the value.
pub fn set(
    alloc: Global,
    generator: &mut Bindgen,
    name: &str,
    value: &Value,
) -> Result<Option<SetFault>, RowFault> {
    match value {
        Value::Bool(enable) => set_flag(alloc, generator, name, *enable),
        Value::String(text) => set_text(alloc, generator, name, text.as_str()),
        _ => Err(RowFault::Row),
    }
}
