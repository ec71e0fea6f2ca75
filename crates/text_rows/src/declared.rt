//! Calls on single definitions. Where `note` and `object` are wanted, the item prints both one behind the other, and exported with `export `
//! between them.
//!
//! - `qualified_name`: `text` stands for the name `segment` in `namespace`.
//! - `enum_definition`: `note` and `object` are the one item of `enum`, which a row has as a description has it, under the name `identifier`.
//! - `enum_thing`: by the qualified name `qualified` the same is declared and published, and `private` says whether it is private.
//! - `exported_item`: `note` and `object` are the declaration of these `words`, each as it is printed.
use crate::described::{part_at, texts_of};
use glue_exports::{
    ExportDefinition, ExportFault, ExportTree, define_export, enum_definition, qualified_name,
    tree_items,
};
use glue_shared::AuxEnum;
use glue_words::{Item, NoteKind, Role, Thing, WordBuilder, key, print};
use rows::{
    RowFault, array_at, flag_at, number_difference, text_at, text_difference, text_of,
    truth_difference,
};
use serde_json::Value;
use std::alloc::{AllocError, Global};
use values::{Duplicate, Map, Seq, Text};

/// The first difference of a row with one of these calls.
pub fn difference(alloc: Global, row: &Value) -> Result<Option<String>, RowFault> {
    match text_at(row, "call")? {
        "qualified_name" => joined_difference(alloc, row),
        "enum_definition" => enum_difference(alloc, row),
        "enum_thing" => thing_difference(alloc, row),
        "exported_item" => item_difference(alloc, row),
        _ => Err(RowFault::Row),
    }
}

/// Why a tree has no such definition: only want of memory is one of a row.
pub fn of_export(fault: ExportFault) -> RowFault {
    match fault {
        ExportFault::Clash { .. } => RowFault::Row,
        ExportFault::OutOfMemory => RowFault::OutOfMemory,
    }
}

// The text of the items of a tree.
fn tree_text(alloc: Global, tree: &ExportTree) -> Result<String, AllocError> {
    let items = tree_items(alloc, tree, &Map::new(alloc), &[])?;
    print(alloc, items.as_slice())
}

// The text of a definition at the top level under its own name.
fn exported_text(alloc: Global, definition: ExportDefinition) -> Result<String, RowFault> {
    let name = definition.identifier.copy(alloc)?;
    let mut tree = ExportTree::new(alloc);
    match define_export(alloc, &mut tree, name.as_str(), &[], definition) {
        Ok(()) => Ok(tree_text(alloc, &tree)?),
        Err(fault) => Err(of_export(fault)),
    }
}

// What is wanted of the text of a declaration as it is and exported.
fn texts_difference(
    alloc: Global,
    row: &Value,
    plain: &str,
    exported: &str,
) -> Result<Option<String>, RowFault> {
    let (note, object) = (text_at(row, "note")?, text_at(row, "object")?);
    let want = format!(in alloc; "{note}{object}")?;
    let told = text_difference(alloc, "declared", plain, want.as_str())?;
    if told.is_some() {
        return Ok(told);
    }
    let want = format!(in alloc; "{note}export {object}")?;
    Ok(text_difference(alloc, "exported", exported, want.as_str())?)
}

// The same of a definition.
fn printed_difference(
    alloc: Global,
    row: &Value,
    definition: ExportDefinition,
) -> Result<Option<String>, RowFault> {
    let plain = print(alloc, definition.items.as_slice());
    let exported = exported_text(alloc, definition)?;
    texts_difference(alloc, row, plain?.as_str(), exported.as_str())
}

fn enum_under(
    alloc: Global,
    described: &AuxEnum,
    identifier: &str,
) -> Result<ExportDefinition, AllocError> {
    let identifier = Text::from_str(alloc, identifier)?;
    enum_definition(alloc, described, &identifier)
}

fn defined_enum(alloc: Global, row: &Value) -> Result<ExportDefinition, RowFault> {
    let identifier = text_at(row, "identifier")?;
    let described: AuxEnum = part_at(alloc, row, "enum")?;
    Ok(enum_under(alloc, &described, identifier)?)
}

fn enum_difference(alloc: Global, row: &Value) -> Result<Option<String>, RowFault> {
    let definition = defined_enum(alloc, row)?;
    let count = definition.items.len() as u64;
    let told = printed_difference(alloc, row, definition);
    match number_difference(alloc, "items", count, 1)? {
        Some(other) => Ok(Some(other)),
        None => told,
    }
}

// Whether each of these items declares the thing.
fn all_declare(items: &[Item], thing: &Thing) -> bool {
    items.iter().all(|item| match &item.role {
        Role::Declare(declared) => declared == thing,
        _ => false,
    })
}

// Whether the definition and each of its items are of the enum of this qualified name.
fn is_of_enum(
    alloc: Global,
    definition: &ExportDefinition,
    name: &str,
) -> Result<bool, AllocError> {
    let thing = Thing::Enum(Text::from_str(alloc, name)?);
    let is_of = definition.thing == thing && all_declare(definition.items.as_slice(), &thing);
    Ok(is_of && definition.parent.is_none())
}

fn enum_thing_difference(
    alloc: Global,
    row: &Value,
    definition: &ExportDefinition,
) -> Result<Option<String>, RowFault> {
    let identifier = definition.identifier.as_str();
    let told = text_difference(alloc, "identifier", identifier, text_at(row, "identifier")?)?;
    if told.is_some() {
        return Ok(told);
    }
    let told = truth_difference(
        alloc,
        "private",
        definition.private,
        flag_at(row, "private")?,
    )?;
    if told.is_some() {
        return Ok(told);
    }
    let is_of = is_of_enum(alloc, definition, text_at(row, "qualified")?)?;
    Ok(truth_difference(alloc, "of the qualified name", is_of, true)?)
}

fn thing_difference(alloc: Global, row: &Value) -> Result<Option<String>, RowFault> {
    let definition = defined_enum(alloc, row)?;
    enum_thing_difference(alloc, row, &definition)
}

fn push_note(words: &mut WordBuilder, text: &str) -> Result<(), RowFault> {
    if let Some(line) = text.strip_prefix("// ") {
        return Ok(words.note(NoteKind::Slash, line)?);
    }
    let Some(block) = text.strip_prefix("/* ") else {
        return Err(RowFault::Row);
    };
    match block.strip_suffix(" */") {
        Some(block) => Ok(words.note(NoteKind::Block, block)?),
        None => Err(RowFault::Row),
    }
}

fn push_word(words: &mut WordBuilder, text: &str) -> Result<(), RowFault> {
    match text {
        "\n" => Ok(words.line_feed()?),
        " " => Ok(words.space()?),
        "const" => Ok(words.key(key::CONST)?),
        _ => push_note(words, text),
    }
}

fn push_words(words: &mut WordBuilder, texts: &[Value]) -> Result<(), RowFault> {
    for text in texts {
        push_word(words, text_of(text)?)?;
    }
    Ok(())
}

// The declaration of these words.
fn declared(alloc: Global, texts: &[Value]) -> Result<Seq<Item>, RowFault> {
    let mut words = WordBuilder::new(alloc);
    push_words(&mut words, texts)?;
    let item = Item {
        role: Role::Declare(Thing::Reset),
        words: words.finish(),
    };
    Ok(Seq::from_vec(vec![in alloc; item]?))
}

fn item_difference(alloc: Global, row: &Value) -> Result<Option<String>, RowFault> {
    let identifier = Text::from_str(alloc, "x")?;
    let items = declared(alloc, array_at(row, "words")?)?;
    let definition = ExportDefinition {
        thing: Thing::Reset,
        identifier,
        items,
        private: false,
        parent: None,
    };
    printed_difference(alloc, row, definition)
}

fn joined_difference(alloc: Global, row: &Value) -> Result<Option<String>, RowFault> {
    let namespace = texts_of(alloc, array_at(row, "namespace")?)?;
    let joined = qualified_name(alloc, namespace.as_slice(), text_at(row, "segment")?)?;
    Ok(text_difference(alloc, "text", joined.as_str(), text_at(row, "text")?)?)
}
