//! What several calls take, as a row has it: a module and what is described of it, parts of a description, settings, and lists of texts.
//!
//! - `module` is the module, in its absence one without anything, and `description` an object, as a front end gives it.
//! - `target` is `bundler`, `web`, `no-modules`, `nodejs`, `nodejs-module`, `deno`, `module` or `emscripten`, in its absence `deno`. Beside it
//!   may be true: `omit_imports`; `references`, where values are kept in a table of the module; and `split`, where linked modules are split off.
use glue_inputs::{CONFIG, EMPTY, settings};
use glue_json::{Counts, LowerFault, Reads};
use glue_shared::{Description, EncodeInto, JsImportName, Lowered, Settings, Target};
use rows::{RowFault, flag_at, opt_bytes_at, opt_text_at, text_of};
use serde_json::Value;
use std::alloc::Global;
use values::{Seq, Text};
use wasm_core::{Module, ParseFault};

// A part of a description names no entry of a module.
const NO_ENTRIES: Counts = Counts {
    imports: 0,
    exports: 0,
    funcs: 0,
    tables: 0,
    memories: 0,
    globals: 0,
    tags: 0,
};

fn of_lowering(fault: LowerFault) -> RowFault {
    match fault {
        LowerFault::Failed => RowFault::Row,
        LowerFault::OutOfMemory => RowFault::OutOfMemory,
    }
}

fn of_parsing(fault: ParseFault) -> RowFault {
    match fault {
        ParseFault::Parse { .. } => RowFault::Row,
        ParseFault::OutOfMemory => RowFault::OutOfMemory,
    }
}

/// The module that these bytes are.
pub fn module_of(alloc: Global, bytes: &[u8]) -> Result<Module, RowFault> {
    match Module::parse(alloc, bytes, &CONFIG) {
        Ok(module) => Ok(module),
        Err(fault) => Err(of_parsing(fault)),
    }
}

// The module of a row.
fn module_at(alloc: Global, row: &Value) -> Result<Module, RowFault> {
    match opt_bytes_at(alloc, row, "module")? {
        None => module_of(alloc, EMPTY),
        Some(bytes) => module_of(alloc, bytes.as_slice()),
    }
}

// The value under a key.
fn value_at<'a>(row: &'a Value, key: &str) -> Result<&'a Value, RowFault> {
    match row.get(key) {
        Some(value) => Ok(value),
        None => Err(RowFault::Row),
    }
}

/// A part of a description, which names no entry of a module.
pub fn part_of<T: Reads>(alloc: Global, value: &Value) -> Result<T, RowFault> {
    match T::read(alloc, &NO_ENTRIES, value) {
        Ok(part) => Ok(part),
        Err(fault) => Err(of_lowering(fault)),
    }
}

/// The part of a description under a key.
pub fn part_at<T: Reads>(alloc: Global, row: &Value, key: &str) -> Result<T, RowFault> {
    part_of(alloc, value_at(row, key)?)
}

// The description of a row, for a module with so many entries.
fn description_at(alloc: Global, counts: &Counts, row: &Value) -> Result<Description, RowFault> {
    match Description::read(alloc, counts, value_at(row, "description")?) {
        Ok(description) => Ok(description),
        Err(fault) => Err(of_lowering(fault)),
    }
}

// A module with what is described of it.
fn lowered(module: Module, description: Description) -> Lowered {
    let Description { wit, aux } = description;
    Lowered { module, wit, aux }
}

/// The module of a row with its description.
pub fn lowered_at(alloc: Global, row: &Value) -> Result<Lowered, RowFault> {
    let module = module_at(alloc, row)?;
    let description = description_at(alloc, &Counts::of(&module), row)?;
    Ok(lowered(module, description))
}

/// The target of this name.
pub fn target_of(alloc: Global, name: &str) -> Result<Target, RowFault> {
    match name {
        "bundler" => Ok(Target::Bundler {
            browser_only: false,
        }),
        "web" => Ok(Target::Web),
        "no-modules" => Ok(Target::NoModules {
            global: Text::from_str(alloc, "g")?,
        }),
        "nodejs" => Ok(Target::Node { module: false }),
        "nodejs-module" => Ok(Target::Node { module: true }),
        "deno" => Ok(Target::Deno),
        "module" => Ok(Target::Module),
        "emscripten" => Ok(Target::Emscripten),
        _ => Err(RowFault::Row),
    }
}

/// The settings of a row.
pub fn settings_at(alloc: Global, row: &Value) -> Result<Settings, RowFault> {
    let omit_imports = flag_at(row, "omit_imports")?;
    let externref = flag_at(row, "references")?;
    let split_linked_modules = flag_at(row, "split")?;
    let target = target_of(alloc, opt_text_at(row, "target")?.unwrap_or("deno"))?;
    let mut settings = settings(alloc, target, EncodeInto::Always)?;
    settings.omit_imports = omit_imports;
    settings.externref = externref;
    settings.split_linked_modules = split_linked_modules;
    Ok(settings)
}

/// These texts.
pub fn texts_of(alloc: Global, values: &[Value]) -> Result<Seq<Text>, RowFault> {
    let mut texts = Seq::new(alloc);
    for value in values {
        texts.push(Text::from_str(alloc, text_of(value)?)?)?;
    }
    Ok(texts)
}

/// The two parts of a pair.
pub fn pair_of(value: &Value) -> Result<(&Value, &Value), RowFault> {
    let Value::Array(parts) = value else {
        return Err(RowFault::Row);
    };
    match parts.as_slice() {
        [first, second] => Ok((first, second)),
        _ => Err(RowFault::Row),
    }
}

/// What an import begins with, and the name that it has in the glue file, from a pair of both.
pub fn bound_import(alloc: Global, pair: &Value) -> Result<(JsImportName, Text), RowFault> {
    let (name, bound) = pair_of(pair)?;
    let bound = Text::from_str(alloc, text_of(bound)?)?;
    Ok((part_of(alloc, name)?, bound))
}

/// The text or `null` under a key, which has to stand.
pub fn name_or_none<'a>(row: &'a Value, key: &str) -> Result<Option<&'a str>, RowFault> {
    value_at(row, key)?;
    opt_text_at(row, key)
}
