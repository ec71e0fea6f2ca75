//! Calls on the export tree, into which definitions are put one behind the other: each an object with `path`, `identifier` (absent: `x`) and the
//! truths `reexport` and `private`. What is no re-export is declared by `function identifier() {}`.
//!
//! - `tree_items`: `text` is printed of `definitions`, where `roots` are pairs of a namespace and the name that was drawn for it.
//! - `host_names`: `named` are the names of the host that words have of `definitions`, each with ` now` where it is evaluated with its item,
//!   where `hosts` are names of the host.
//! - `define_export`: each of `puts` also has an `answer`: it `stands`, it is a `clash` that names the last name of the path, or there isn't the
//!   `memory`. `paths` are those that stand in the end.
use crate::declared::of_export;
use crate::described::{pair_of, texts_of};
use glue_exports::{ExportDefinition, ExportFault, ExportTree, define_export, tree_items};
use glue_words::{Item, Role, Thing, Word, WordBuilder, key, print, punct};
use rows::{
    RowFault, array_at, flag_at, number_difference, opt_text_at, text_at, text_difference, text_of,
};
use serde_json::Value;
use std::alloc::{AllocError, Global};
use values::{Map, Seq, Text};

/// The first difference of a row with one of these calls.
pub fn difference(alloc: Global, row: &Value) -> Result<Option<String>, RowFault> {
    match text_at(row, "call")? {
        "tree_items" => items_difference(alloc, row),
        "host_names" => hosts_difference(alloc, row),
        "define_export" => puts_difference(alloc, row),
        _ => Err(RowFault::Row),
    }
}

/// `function name() {}`. Want of memory is the only error.
pub fn function_item(alloc: Global, name: &str) -> Result<Item, AllocError> {
    let mut words = WordBuilder::new(alloc);
    words.key(key::FUNCTION)?;
    words.space()?;
    words.bind(name)?;
    words.punct(punct::OPEN_PAREN)?;
    words.punct(punct::CLOSE_PAREN)?;
    words.space()?;
    words.punct(punct::OPEN_BRACE)?;
    words.punct(punct::CLOSE_BRACE)?;
    words.line_feed()?;
    Ok(Item {
        role: Role::Declare(Thing::Adapter(0)),
        words: words.finish(),
    })
}

// What a definition is of, and its items.
fn declared(
    alloc: Global,
    name: &str,
    is_reexport: bool,
) -> Result<(Thing, Seq<Item>), AllocError> {
    if is_reexport {
        let name = Text::from_str(alloc, "import")?;
        return Ok((Thing::Imported(name), Seq::new(alloc)));
    }
    let item = function_item(alloc, name)?;
    Ok((Thing::Adapter(0), Seq::from_vec(vec![in alloc; item]?)))
}

fn definition_of(alloc: Global, put: &Value) -> Result<ExportDefinition, RowFault> {
    let name = opt_text_at(put, "identifier")?.unwrap_or("x");
    let (is_reexport, private) = (flag_at(put, "reexport")?, flag_at(put, "private")?);
    let identifier = Text::from_str(alloc, name)?;
    let (thing, items) = declared(alloc, name, is_reexport)?;
    Ok(ExportDefinition {
        thing,
        identifier,
        items,
        private,
        parent: None,
    })
}

// Puts a definition at its path.
fn put(
    alloc: Global,
    tree: &mut ExportTree,
    put: &Value,
) -> Result<Result<(), ExportFault>, RowFault> {
    let Some((name, namespace)) = array_at(put, "path")?.split_last() else {
        return Err(RowFault::Row);
    };
    let name = text_of(name)?;
    let namespace = texts_of(alloc, namespace)?;
    let definition = definition_of(alloc, put)?;
    Ok(define_export(alloc, tree, name, namespace.as_slice(), definition))
}

fn put_all(alloc: Global, tree: &mut ExportTree, definitions: &[Value]) -> Result<(), RowFault> {
    for definition in definitions {
        if let Err(fault) = put(alloc, tree, definition)? {
            return Err(of_export(fault));
        }
    }
    Ok(())
}

fn tree_of(alloc: Global, definitions: &[Value]) -> Result<ExportTree, RowFault> {
    let mut tree = ExportTree::new(alloc);
    put_all(alloc, &mut tree, definitions)?;
    Ok(tree)
}

/// Pairs of texts as a map.
pub fn map_of(alloc: Global, pairs: &[Value]) -> Result<Map<Text, Text>, RowFault> {
    let mut map = Map::new(alloc);
    for pair in pairs {
        let (name, drawn) = pair_of(pair)?;
        let name = Text::from_str(alloc, text_of(name)?)?;
        drop(map.insert(name, Text::from_str(alloc, text_of(drawn)?)?)?);
    }
    Ok(map)
}

fn tree_text(
    alloc: Global,
    tree: &ExportTree,
    roots: &Map<Text, Text>,
) -> Result<String, AllocError> {
    let items = tree_items(alloc, tree, roots, &[])?;
    print(alloc, items.as_slice())
}

fn text_of_items(alloc: Global, row: &Value) -> Result<String, RowFault> {
    let roots = map_of(alloc, array_at(row, "roots")?)?;
    let tree = tree_of(alloc, array_at(row, "definitions")?)?;
    Ok(tree_text(alloc, &tree, &roots)?)
}

fn items_difference(alloc: Global, row: &Value) -> Result<Option<String>, RowFault> {
    let want = text_at(row, "text")?;
    let text = text_of_items(alloc, row)?;
    Ok(text_difference(alloc, "text", text.as_str(), want)?)
}

// Adds the name of the host that a word is.
fn push_host(names: &mut String, word: &Word) -> Result<(), AllocError> {
    if let Word::Host(name, now) = word {
        names.push_str(name.as_str())?;
        names.push_str(if *now { " now," } else { "," })?;
    }
    Ok(())
}

fn host_names(alloc: Global, items: &[Item]) -> Result<String, AllocError> {
    let mut names = String::new(alloc);
    for item in items {
        for word in item.words.as_slice() {
            push_host(&mut names, word)?;
        }
    }
    Ok(names)
}

fn tree_hosts(alloc: Global, tree: &ExportTree, hosts: &[Text]) -> Result<String, AllocError> {
    let items = tree_items(alloc, tree, &Map::new(alloc), hosts)?;
    host_names(alloc, items.as_slice())
}

fn hosts_of(alloc: Global, row: &Value) -> Result<String, RowFault> {
    let hosts = texts_of(alloc, array_at(row, "hosts")?)?;
    let tree = tree_of(alloc, array_at(row, "definitions")?)?;
    Ok(tree_hosts(alloc, &tree, hosts.as_slice())?)
}

fn hosts_difference(alloc: Global, row: &Value) -> Result<Option<String>, RowFault> {
    let want = text_at(row, "named")?;
    let names = hosts_of(alloc, row)?;
    Ok(text_difference(alloc, "named", names.as_str(), want)?)
}

// What became of a definition: a clash has to name the last name of its path.
fn answer_of(answer: &Result<(), ExportFault>, path: &[Value]) -> &'static str {
    match (answer, path.last()) {
        (Ok(()), _) => "stands",
        (Err(ExportFault::OutOfMemory), _) => "memory",
        (Err(ExportFault::Clash { name }), Some(Value::String(last)))
            if name.as_str() == last.as_str() => { "clash" }
        (Err(ExportFault::Clash { .. }), _) => "a clash that names another",
    }
}

fn put_difference(
    alloc: Global,
    tree: &mut ExportTree,
    one: &Value,
) -> Result<Option<String>, RowFault> {
    let (path, want) = (array_at(one, "path")?, text_at(one, "answer")?);
    let answer = put(alloc, tree, one)?;
    let got = answer_of(&answer, path);
    drop(answer);
    Ok(text_difference(alloc, "answer", got, want)?)
}

fn answers_difference(
    alloc: Global,
    tree: &mut ExportTree,
    puts: &[Value],
) -> Result<Option<String>, RowFault> {
    for one in puts {
        let told = put_difference(alloc, tree, one)?;
        if told.is_some() {
            return Ok(told);
        }
    }
    Ok(None)
}

// Whether the path is this list of texts.
fn is_path(path: &Seq<Text>, want: &Value) -> bool {
    let Value::Array(want) = want else {
        return false;
    };
    path.len() == want.len()
        && path.as_slice().iter().zip(want).all(|(
            segment,
            want,
        )| matches!(want, Value::String(text) if text.as_str() == segment.as_str()))
}

fn paths_difference(
    alloc: Global,
    tree: &ExportTree,
    want: &[Value],
) -> Result<Option<String>, RowFault> {
    let found = tree.definitions();
    let told = number_difference(alloc, "paths", found.len() as u64, want.len() as u64)?;
    if told.is_some() {
        return Ok(told);
    }
    for ((path, _), want) in found.iter().zip(want) {
        if !is_path(path, want) {
            return Ok(Some(format!(in alloc; "paths: {path:?} for {want}")?));
        }
    }
    Ok(None)
}

fn puts_difference(alloc: Global, row: &Value) -> Result<Option<String>, RowFault> {
    let (puts, paths) = (array_at(row, "puts")?, array_at(row, "paths")?);
    let mut tree = ExportTree::new(alloc);
    match answers_difference(alloc, &mut tree, puts)? {
        None => paths_difference(alloc, &tree, paths),
        Some(told) => Ok(Some(told)),
    }
}
