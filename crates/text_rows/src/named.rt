//! Calls that draw names. A thing is an object with one key: `class`, `registry`, `enum`, `function` or `namespace` has its name, and `import`
//! what an import begins with. `module`, `description` and the settings are those of a row.
//!
//! - `name_all`: `things` are pairs of a thing and the name that it is given in turn, where names that are `taken` aren't free. A registry asks
//!   for the name that was drawn last, with `Finalization` behind it, any other thing for its own.
//! - `names_of`: `names` are pairs of a thing and its name, null where none is drawn. Here `function` has a place among the exports of the
//!   description.
//! - `drawn_imports`: `listed` are pairs of what an import begins with and its name, in order.
use crate::compared::optional_difference;
use crate::described::{bound_import, lowered_at, pair_of, part_of, settings_at, texts_of};
use glue_naming::{
    Named, Wanted, WantedName, drawn_imports, function_name, name_all, name_in, names_of,
    pairs_by_import,
};
use glue_scope::{IdentScope, Names};
use glue_shared::{JsImportName, Lowered, NameMap};
use rows::{RowFault, array_at, number_difference, text_at, text_of};
use serde_json::Value;
use std::alloc::Global;
use values::{Seq, Text};

/// The first difference of a row with one of these calls.
pub fn difference(alloc: Global, row: &Value) -> Result<Option<String>, RowFault> {
    match text_at(row, "call")? {
        "name_all" => turns_difference(alloc, row),
        "names_of" => names_difference(alloc, row),
        "drawn_imports" => listed_difference(alloc, row),
        _ => Err(RowFault::Row),
    }
}

// The kind of a thing, and what stands under the key of that name.
fn keyed(thing: &Value) -> Result<(&str, &Value), RowFault> {
    for kind in [
        "class",
        "registry",
        "enum",
        "function",
        "namespace",
        "import",
    ] {
        if let Some(value) = thing.get(kind) {
            return Ok((kind, value));
        }
    }
    Err(RowFault::Row)
}

// A thing with a name of its own.
fn named_thing(alloc: Global, kind: &str, name: &str) -> Result<Named, RowFault> {
    let name = Text::from_str(alloc, name)?;
    match kind {
        "class" => Ok(Named::Class(name)),
        "registry" => Ok(Named::Registry(name)),
        "enum" => Ok(Named::Enum(name)),
        "function" => Ok(Named::Function(name)),
        "namespace" => Ok(Named::Namespace(name)),
        _ => Err(RowFault::Row),
    }
}

fn wanted_name(alloc: Global, kind: &str, name: &str) -> Result<WantedName, RowFault> {
    match kind {
        "registry" => Ok(WantedName::After(Text::from_str(alloc, "Finalization")?)),
        _ => Ok(WantedName::Plain(Text::from_str(alloc, name)?)),
    }
}

fn wanted(alloc: Global, thing: &Value) -> Result<Wanted, RowFault> {
    let (kind, name) = keyed(thing)?;
    let name = text_of(name)?;
    let thing = named_thing(alloc, kind, name)?;
    let name = wanted_name(alloc, kind, name)?;
    Ok(Wanted { thing, name })
}

fn wanted_of(alloc: Global, things: &[Value]) -> Result<Seq<Wanted>, RowFault> {
    let mut list = Seq::new(alloc);
    for pair in things {
        list.push(wanted(alloc, pair_of(pair)?.0)?)?;
    }
    Ok(list)
}

fn scope_of(alloc: Global, taken: &[Text]) -> Result<IdentScope, RowFault> {
    let mut scope = IdentScope::new(alloc);
    for name in taken {
        scope.reserve(name.as_str())?;
    }
    Ok(scope)
}

// The name that is wanted for a thing is drawn for it.
fn thing_difference(
    alloc: Global,
    map: &NameMap,
    pair: &Value,
) -> Result<Option<String>, RowFault> {
    let (thing, want) = pair_of(pair)?;
    let (kind, name) = keyed(thing)?;
    let (name, want) = (text_of(name)?, text_of(want)?);
    let thing = named_thing(alloc, kind, name)?;
    let got = name_in(map, &thing).map(|name| name.as_str());
    Ok(optional_difference(alloc, name, got, Some(want))?)
}

// The same of each of these pairs.
fn things_difference(
    alloc: Global,
    map: &NameMap,
    things: &[Value],
) -> Result<Option<String>, RowFault> {
    for pair in things {
        let told = thing_difference(alloc, map, pair)?;
        if told.is_some() {
            return Ok(told);
        }
    }
    Ok(None)
}

fn names_in_turn(alloc: Global, row: &Value, things: &[Value]) -> Result<NameMap, RowFault> {
    let taken = texts_of(alloc, array_at(row, "taken")?)?;
    let list = wanted_of(alloc, things)?;
    let scope = scope_of(alloc, taken.as_slice())?;
    Ok(name_all(alloc, scope, list.as_slice())?)
}

fn turns_difference(alloc: Global, row: &Value) -> Result<Option<String>, RowFault> {
    let things = array_at(row, "things")?;
    let map = names_in_turn(alloc, row, things)?;
    things_difference(alloc, &map, things)
}

// The name of the function of an export.
fn name_of_function<'a>(
    alloc: Global,
    map: &'a NameMap,
    lowered: &Lowered,
    place: &Value,
) -> Result<Option<&'a Text>, RowFault> {
    let place: u32 = part_of(alloc, place)?;
    match lowered.aux.exports.get(place as usize) {
        Some(export) => Ok(function_name(alloc, map, export)?),
        None => Err(RowFault::Row),
    }
}

// The name of what is described.
fn name_of<'a>(
    alloc: Global,
    map: &'a NameMap,
    lowered: &Lowered,
    thing: &Value,
) -> Result<Option<&'a Text>, RowFault> {
    match keyed(thing)? {
        ("function", place) => name_of_function(alloc, map, lowered, place),
        ("import", import) => {
            let import: JsImportName = part_of(alloc, import)?;
            Ok(name_in(map, &Named::Import(import)))
        }
        (kind, name) => Ok(name_in(map, &named_thing(alloc, kind, text_of(name)?)?)),
    }
}

// A text, or none.
fn text_or_none(value: &Value) -> Result<Option<&str>, RowFault> {
    match value {
        Value::Null => Ok(None),
        _ => Ok(Some(text_of(value)?)),
    }
}

// The name of what is described is the one that is wanted.
fn name_difference(
    alloc: Global,
    map: &NameMap,
    lowered: &Lowered,
    pair: &Value,
) -> Result<Option<String>, RowFault> {
    let (thing, want) = pair_of(pair)?;
    let want = text_or_none(want)?;
    let got = name_of(alloc, map, lowered, thing)?.map(|name| name.as_str());
    match optional_difference(alloc, "name", got, want)? {
        None => Ok(None),
        Some(told) => Ok(Some(format!(in alloc; "{thing}: {told}")?)),
    }
}

// The same of each of these pairs.
fn pairs_difference(
    alloc: Global,
    map: &NameMap,
    lowered: &Lowered,
    pairs: &[Value],
) -> Result<Option<String>, RowFault> {
    for pair in pairs {
        let told = name_difference(alloc, map, lowered, pair)?;
        if told.is_some() {
            return Ok(told);
        }
    }
    Ok(None)
}

// The names that are drawn for what is described.
fn names_by(alloc: Global, row: &Value, lowered: &Lowered) -> Result<NameMap, RowFault> {
    let settings = settings_at(alloc, row)?;
    Ok(names_of::<IdentScope>(alloc, &settings, lowered)?)
}

fn described_difference(
    alloc: Global,
    row: &Value,
    lowered: &Lowered,
) -> Result<Option<String>, RowFault> {
    let pairs = array_at(row, "names")?;
    let map = names_by(alloc, row, lowered)?;
    pairs_difference(alloc, &map, lowered, pairs)
}

fn names_difference(alloc: Global, row: &Value) -> Result<Option<String>, RowFault> {
    let lowered = lowered_at(alloc, row)?;
    described_difference(alloc, row, &lowered)
}

type Imports = Seq<(JsImportName, Text)>;

fn listed_by(
    alloc: Global,
    row: &Value,
    lowered: &Lowered,
    map: &NameMap,
) -> Result<Imports, RowFault> {
    let settings = settings_at(alloc, row)?;
    let pairs = pairs_by_import(alloc, lowered)?;
    Ok(drawn_imports(alloc, &settings, lowered, map, pairs.as_slice())?)
}

// The imports of what is described, each with the name that is drawn for it.
fn listed(alloc: Global, row: &Value, lowered: &Lowered) -> Result<Imports, RowFault> {
    let map = names_by(alloc, row, lowered)?;
    listed_by(alloc, row, lowered, &map)
}

fn import_difference(
    alloc: Global,
    got: &(JsImportName, Text),
    pair: &Value,
) -> Result<Option<String>, RowFault> {
    let want = bound_import(alloc, pair)?;
    let is_same = got.0 == want.0 && got.1.as_str() == want.1.as_str();
    drop(want);
    if is_same {
        return Ok(None);
    }
    Ok(Some(format!(in alloc; "listed: {got:?} for {pair}")?))
}

fn imports_difference(
    alloc: Global,
    list: &[(JsImportName, Text)],
    want: &[Value],
) -> Result<Option<String>, RowFault> {
    let told = number_difference(alloc, "listed", list.len() as u64, want.len() as u64)?;
    if told.is_some() {
        return Ok(told);
    }
    for (got, pair) in list.iter().zip(want) {
        let told = import_difference(alloc, got, pair)?;
        if told.is_some() {
            return Ok(told);
        }
    }
    Ok(None)
}

fn list_of(alloc: Global, row: &Value) -> Result<Imports, RowFault> {
    let lowered = lowered_at(alloc, row)?;
    listed(alloc, row, &lowered)
}

fn listed_difference(alloc: Global, row: &Value) -> Result<Option<String>, RowFault> {
    let want = array_at(row, "listed")?;
    let list = list_of(alloc, row)?;
    imports_difference(alloc, list.as_slice(), want)
}
