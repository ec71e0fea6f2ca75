//! What the texts of helpers depend on, as a row has it under `parts`: an object with the keys of `HelperParts`. Truths that are absent are false,
//! the encoder is `own`, `tested` or `copying`, in their absence `own`, `memories` lists the export of each memory or null, and what else is absent isn't
//! there. Without `parts` everything is absent.
use helper_table::{EncoderForm, HelperParts, TableExport};
use rows::{RowFault, flag_at, number_at, opt_array_at, opt_text_at, text_at};
use serde_json::Value;
use std::alloc::{AllocError, Global};
use values::{Seq, Text};

// Nothing is there.
fn no_parts(alloc: Global) -> HelperParts {
    HelperParts {
        debug: false,
        externref: false,
        browser: false,
        encoder: EncoderForm::Own,
        memories: Seq::new(alloc),
        table: None,
        exn_store: None,
        externref_alloc: None,
        externref_drop: None,
        externref_drop_slice: None,
        destroy_closure: None,
    }
}

fn encoder_of(name: Option<&str>) -> Result<EncoderForm, RowFault> {
    match name {
        None | Some("own") => Ok(EncoderForm::Own),
        Some("tested") => Ok(EncoderForm::Tested),
        Some("copying") => Ok(EncoderForm::Copying),
        Some(_) => Err(RowFault::Row),
    }
}

fn owned(alloc: Global, text: Option<&str>) -> Result<Option<Text>, AllocError> {
    match text {
        None => Ok(None),
        Some(text) => Ok(Some(Text::from_str(alloc, text)?)),
    }
}

// The text under a key, where there is one.
fn name_at(alloc: Global, object: &Value, key: &str) -> Result<Option<Text>, RowFault> {
    Ok(owned(alloc, opt_text_at(object, key)?)?)
}

// The export of a memory.
fn export_of(alloc: Global, value: &Value) -> Result<Option<Text>, RowFault> {
    match value {
        Value::Null => Ok(None),
        Value::String(name) => Ok(owned(alloc, Some(name.as_str()))?),
        _ => Err(RowFault::Row),
    }
}

fn memories_of(alloc: Global, object: &Value) -> Result<Seq<Option<Text>>, RowFault> {
    let mut memories = Seq::new(alloc);
    if let Some(exports) = opt_array_at(object, "memories")? {
        for export in exports {
            memories.push(export_of(alloc, export)?)?;
        }
    }
    Ok(memories)
}

fn table_of(alloc: Global, object: &Value) -> Result<Option<TableExport>, RowFault> {
    let Some(table) = object.get("table") else {
        return Ok(None);
    };
    let Ok(place) = u32::try_from(number_at(table, "place")?) else {
        return Err(RowFault::Row);
    };
    let name = Text::from_str(alloc, text_at(table, "name")?)?;
    Ok(Some(TableExport { place, name }))
}

fn set_settings(object: &Value, parts: &mut HelperParts) -> Result<(), RowFault> {
    parts.debug = flag_at(object, "debug")?;
    parts.externref = flag_at(object, "externref")?;
    parts.browser = flag_at(object, "browser")?;
    parts.encoder = encoder_of(opt_text_at(object, "encoder")?)?;
    Ok(())
}

fn set_exports(alloc: Global, object: &Value, parts: &mut HelperParts) -> Result<(), RowFault> {
    parts.memories = memories_of(alloc, object)?;
    parts.table = table_of(alloc, object)?;
    parts.exn_store = name_at(alloc, object, "exn_store")?;
    parts.externref_alloc = name_at(alloc, object, "externref_alloc")?;
    parts.externref_drop = name_at(alloc, object, "externref_drop")?;
    parts.externref_drop_slice = name_at(alloc, object, "externref_drop_slice")?;
    parts.destroy_closure = name_at(alloc, object, "destroy_closure")?;
    Ok(())
}

fn set_parts(alloc: Global, row: &Value, parts: &mut HelperParts) -> Result<(), RowFault> {
    match row.get("parts") {
        None => Ok(()),
        Some(object) => {
            set_settings(object, parts)?;
            set_exports(alloc, object, parts)
        }
    }
}

/// What the texts of helpers depend on in this row.
pub fn parts_of(alloc: Global, row: &Value) -> Result<HelperParts, RowFault> {
    let mut parts = no_parts(alloc);
    set_parts(alloc, row, &mut parts)?;
    Ok(parts)
}
