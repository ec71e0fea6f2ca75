//! A glue file for Deno, by what stands in the places of its frame and of loading.
use crate::known::only_known;
use rows::{RowFault, opt_text_at};
use serde_json::Value;
use std::alloc::Global;

// The places of a glue file.
const PLACES: &[&str] = &[
    "before",
    "parameter",
    "definitions",
    "modules",
    "helpers",
    "options",
    "start",
];

// What stands in a place.
fn place<'a>(places: &'a Value, key: &str) -> Result<&'a str, RowFault> {
    Ok(opt_text_at(places, key)?.unwrap_or(""))
}

// The file up to the end of the frame.
fn framed(alloc: Global, places: &Value) -> Result<String, RowFault> {
    let (before, parameter) = (place(places, "before")?, place(places, "parameter")?);
    let (definitions, modules) = (place(places, "definitions")?, place(places, "modules")?);
    Ok(format!(in alloc;
        r#"{before}function __wbg_get_imports({parameter}) {{
    const import0 = {{
        __proto__: null,{definitions}
    }};
    return {{
        __proto__: null,
        "./out_bg.js": import0,{modules}
    }};
}}"#
    )?)
}

/// The whole glue file with what stands in these places.
pub fn glue_file(alloc: Global, places: &Value) -> Result<String, RowFault> {
    only_known(places, &[PLACES])?;
    let frame = framed(alloc, places)?;
    let (frame, helpers) = (frame.as_str(), place(places, "helpers")?);
    let (options, start) = (place(places, "options")?, place(places, "start")?);
    Ok(format!(in alloc;
        r#"{frame}{helpers}
const wasmUrl = new URL("out_bg.wasm", import.meta.url);
const wasmInstantiated = await WebAssembly.instantiateStreaming(fetch(wasmUrl), __wbg_get_imports(){options});
const wasmInstance = wasmInstantiated.instance;
const wasm = wasmInstance.exports;{start}
"#
    )?)
}
