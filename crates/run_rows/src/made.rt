//! What a generator makes, beside what is wanted of it.
use crate::frame::glue_file;
use crate::input::unfolded;
use crate::named::fault_text;
use cli_support::{Bindgen, EmitFault, Fault, JsonLowering, Output, PlannedFile, Seq, Text};
use rows::{
    RowFault, bytes_difference, number_difference, opt_array_at, opt_bytes_at, opt_number_at,
    opt_text_at, text_difference, text_of, truth_difference,
};
use serde_json::Value;
use std::alloc::Global;

/// The keys that say what is wanted.
pub const KEYS: &[&str] = &[
    "fault",
    "debug",
    "glue",
    "places",
    "begins",
    "paths",
    "lengths",
    "hosts",
    "keys",
    "features_missing",
    "items",
    "imports",
    "has_start",
    "has_text",
];

// The first difference, or none.
type Compared = Result<Option<String>, RowFault>;

// Whether anything is wanted.
fn is_wanted(wanted: &Value) -> bool {
    KEYS.iter().any(|key| wanted.get(*key).is_some())
}

// The fault that is wanted, and whether it is told as `{:?}` prints it.
fn wanted_fault(wanted: &Value) -> Result<(&str, bool), RowFault> {
    match opt_text_at(wanted, "debug")? {
        Some(text) => Ok((text, true)),
        None => Ok((opt_text_at(wanted, "fault")?.unwrap_or(""), false)),
    }
}

fn told(alloc: Global, fault: &Fault, is_debug: bool) -> Result<String, RowFault> {
    if is_debug {
        return Ok(format!(in alloc; "{fault:?}")?);
    }
    Ok(fault_text(alloc, fault)?)
}

/// A fault, or none, beside the one that is wanted.
pub fn fault_difference(
    alloc: Global,
    row: &Value,
    wanted: &Value,
    fault: Option<&Fault>,
) -> Compared {
    let (want, is_debug) = wanted_fault(wanted)?;
    let got = match fault {
        None => String::new(alloc),
        Some(fault) => told(alloc, fault, is_debug)?,
    };
    let want = unfolded(alloc, row, want)?;
    Ok(text_difference(alloc, "the fault", got.as_str(), want.as_str())?)
}

// The texts of a list, a line each.
fn lines_of(alloc: Global, values: &[Value]) -> Result<String, RowFault> {
    let mut out = String::new(alloc);
    for value in values {
        out.push_str(text_of(value)?)?;
        out.push_str("\n")?;
    }
    Ok(out)
}

fn lines_of_texts(alloc: Global, texts: &[Text]) -> Result<String, RowFault> {
    let mut out = String::new(alloc);
    for text in texts {
        out.push_str(text.as_str())?;
        out.push_str("\n")?;
    }
    Ok(out)
}

// Texts beside those that are wanted.
fn texts_difference(alloc: Global, wanted: &Value, key: &str, got: &[Text]) -> Compared {
    let Some(want) = opt_array_at(wanted, key)? else {
        return Ok(None);
    };
    let want = lines_of(alloc, want)?;
    let got = lines_of_texts(alloc, got)?;
    Ok(text_difference(alloc, key, got.as_str(), want.as_str())?)
}

fn count_difference(alloc: Global, wanted: &Value, key: &str, got: usize) -> Compared {
    match opt_number_at(wanted, key)? {
        None => Ok(None),
        Some(want) => Ok(number_difference(alloc, key, got as u64, want)?),
    }
}

fn flag_difference(alloc: Global, wanted: &Value, key: &str, got: bool) -> Compared {
    match wanted.get(key) {
        None => Ok(None),
        Some(Value::Bool(want)) => Ok(truth_difference(alloc, key, got, *want)?),
        Some(_) => Err(RowFault::Row),
    }
}

// What is listed and counted of an output.
fn listed_difference(alloc: Global, wanted: &Value, output: &Output) -> Compared {
    if let Some(told) = texts_difference(alloc, wanted, "hosts", output.hosts())? {
        return Ok(Some(told));
    }
    if let Some(told) = texts_difference(alloc, wanted, "keys", output.keys())? {
        return Ok(Some(told));
    }
    if let Some(told) = count_difference(alloc, wanted, "items", output.items().len())? {
        return Ok(Some(told));
    }
    let imports = output.wasm().imports().len();
    if let Some(told) = count_difference(alloc, wanted, "imports", imports)? {
        return Ok(Some(told));
    }
    let missing = output.features_missing();
    if let Some(told) = flag_difference(alloc, wanted, "features_missing", missing)? {
        return Ok(Some(told));
    }
    if let Some(told) = flag_difference(alloc, wanted, "has_text", output.js().len() > 0)? {
        return Ok(Some(told));
    }
    flag_difference(alloc, wanted, "has_start", output.start().is_some())
}

// The glue file that is wanted; none where none is.
fn wanted_glue(alloc: Global, row: &Value, wanted: &Value) -> Result<Option<String>, RowFault> {
    if let Some(text) = opt_text_at(wanted, "glue")? {
        return Ok(Some(unfolded(alloc, row, text)?));
    }
    match wanted.get("places") {
        None => Ok(None),
        Some(places) => {
            let text = glue_file(alloc, places)?;
            Ok(Some(unfolded(alloc, row, text.as_str())?))
        }
    }
}

fn glue_difference(alloc: Global, row: &Value, wanted: &Value, got: &[u8]) -> Compared {
    let Some(want) = wanted_glue(alloc, row, wanted)? else {
        return Ok(None);
    };
    match std::str::from_utf8(got) {
        Ok(got) => Ok(text_difference(alloc, "the glue file", got, want.as_str())?),
        Err(_) => Ok(Some(String::from_str(alloc, "the glue file: no UTF-8")?)),
    }
}

// The front of the module that is written.
fn begin_difference(alloc: Global, wanted: &Value, got: &[u8]) -> Compared {
    let Some(want) = opt_bytes_at(alloc, wanted, "begins")? else {
        return Ok(None);
    };
    let front = got.get(..want.len()).unwrap_or(got);
    Ok(bytes_difference(alloc, "the module's front", front, want.as_slice())?)
}

fn paths_difference(alloc: Global, wanted: &Value, files: &[PlannedFile]) -> Compared {
    let Some(want) = opt_array_at(wanted, "paths")? else {
        return Ok(None);
    };
    let want = lines_of(alloc, want)?;
    let mut got = String::new(alloc);
    for file in files {
        got.push_str(file.path.as_str())?;
        got.push_str("\n")?;
    }
    Ok(text_difference(alloc, "paths", got.as_str(), want.as_str())?)
}

fn lengths_difference(alloc: Global, wanted: &Value, files: &[PlannedFile]) -> Compared {
    let Some(want) = opt_array_at(wanted, "lengths")? else {
        return Ok(None);
    };
    if want.len() > files.len() {
        return Ok(Some(String::from_str(alloc, "fewer files than lengths")?));
    }
    for (want, file) in want.iter().zip(files) {
        let told = length_difference(alloc, want, file)?;
        if told.is_some() {
            return Ok(told);
        }
    }
    Ok(None)
}

fn length_difference(alloc: Global, want: &Value, file: &PlannedFile) -> Compared {
    let Value::Number(number) = want else {
        return Err(RowFault::Row);
    };
    match number.as_u64() {
        Some(want) => {
            let got = file.bytes.len() as u64;
            Ok(number_difference(alloc, file.path.as_str(), got, want)?)
        }
        None => Err(RowFault::Row),
    }
}

// The files that are planned, of which the module is the first and the glue file the last.
fn files_difference(alloc: Global, row: &Value, wanted: &Value, files: &[PlannedFile]) -> Compared {
    let [module, .., glue] = files else {
        return Ok(Some(String::from_str(alloc, "fewer than two files")?));
    };
    if let Some(told) = glue_difference(alloc, row, wanted, glue.bytes.as_slice())? {
        return Ok(Some(told));
    }
    if let Some(told) = begin_difference(alloc, wanted, module.bytes.as_slice())? {
        return Ok(Some(told));
    }
    if let Some(told) = paths_difference(alloc, wanted, files)? {
        return Ok(Some(told));
    }
    lengths_difference(alloc, wanted, files)
}

// The files of an output.
fn planned_difference(
    alloc: Global,
    row: &Value,
    wanted: &Value,
    planned: Result<Seq<PlannedFile>, EmitFault>,
) -> Compared {
    match planned {
        Ok(files) => files_difference(alloc, row, wanted, files.as_slice()),
        Err(EmitFault::OutOfMemory) => Err(RowFault::OutOfMemory),
        Err(EmitFault::TooLarge { .. }) => {
            Ok(Some(String::from_str(alloc, "a section is too large")?))
        }
    }
}

// An output beside what is wanted.
fn output_difference(alloc: Global, row: &Value, wanted: &Value, output: &Output) -> Compared {
    if let Some(told) = fault_difference(alloc, row, wanted, None)? {
        return Ok(Some(told));
    }
    if let Some(told) = listed_difference(alloc, wanted, output)? {
        return Ok(Some(told));
    }
    planned_difference(alloc, row, wanted, output.files(alloc))
}

/// What the generator makes, beside what is wanted of it.
pub fn made_difference(
    alloc: Global,
    row: &Value,
    wanted: &Value,
    generator: &mut Bindgen,
) -> Compared {
    if !is_wanted(wanted) {
        return Err(RowFault::Row);
    }
    match generator.generate_output(alloc, &mut JsonLowering::new()) {
        Ok(output) => output_difference(alloc, row, wanted, &output),
        Err(fault) => fault_difference(alloc, row, wanted, Some(&fault)),
    }
}
