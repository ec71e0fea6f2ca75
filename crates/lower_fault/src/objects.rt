//! Objects by their keys.
use crate::entries::{expression_fits, instruction_fits, keys_fit, name_fits, union_variant_fits};
use crate::leaves::{Kind, Leaf, leaf_fits};
use crate::lists::tuple_fits;
use crate::misfit::{Told, at_key, at_place};
use crate::words::{lacking, plainly, unfit};
use glue_json::Counts;
use serde_json::Value;
use std::alloc::Global;

/// What stands under a key, or in a list under a key.
#[derive(Clone, Copy)]
pub(crate) enum Item {
    Leaf(Leaf),
    Tuple(&'static [Leaf]),
    Name,
    Instruction,
    Expression,
    UnionVariant,
}

/// How a key is held.
#[derive(Clone, Copy)]
pub(crate) enum Form {
    /// It must stand.
    Needed(Item),
    /// It may be absent.
    Optional(Item),
    /// A list, which may be absent.
    List(Item),
    /// A list or `null`, which may be absent.
    ListOrNull(Item),
}

/// An object: what it is called, and its keys in the order in which they are read.
#[derive(Clone, Copy)]
pub(crate) struct Table {
    pub(crate) wanted: &'static str,
    pub(crate) keys: &'static [&'static str],
    pub(crate) forms: &'static [Form],
}

const CALLS: &[&str] = &["normal", "method", "constructor"];

const EXPORT_KINDS: &[&str] = &[
    "function",
    "function_this",
    "constructor",
    "method",
    "getter",
    "setter",
];

const RECEIVERS: &[&str] = &["none", "borrowed", "owned"];

pub(crate) const ADAPTER: Table = Table {
    wanted: "an adapter, which is an object",
    keys: &["id", "args", "results", "code", "import"],
    forms: &[
        Form::Needed(Item::Leaf(Leaf::Number)),
        Form::List(Item::Leaf(Leaf::Type)),
        Form::List(Item::Leaf(Leaf::Type)),
        Form::List(Item::Instruction),
        Form::Optional(Item::Leaf(Leaf::Word(CALLS))),
    ],
};

pub(crate) const EXPORT: Table = Table {
    wanted: "an export, which is an object",
    keys: &[
        "adapter",
        "kind",
        "name",
        "class",
        "receiver",
        "namespace",
        "args",
        "comments",
        "debug",
        "typescript",
        "jsdoc",
        "variadic",
        "async",
    ],
    forms: &[
        Form::Needed(Item::Leaf(Leaf::Number)),
        Form::Needed(Item::Leaf(Leaf::Word(EXPORT_KINDS))),
        Form::Needed(Item::Leaf(Leaf::Text)),
        Form::Optional(Item::Leaf(Leaf::TextOrNull)),
        Form::Optional(Item::Leaf(Leaf::Word(RECEIVERS))),
        Form::List(Item::Leaf(Leaf::Text)),
        Form::List(Item::Leaf(Leaf::Text)),
        Form::Optional(Item::Leaf(Leaf::TextOrNull)),
        Form::Optional(Item::Leaf(Leaf::TextOrNull)),
        Form::Optional(Item::Leaf(Leaf::Truth)),
        Form::Optional(Item::Leaf(Leaf::Truth)),
        Form::Optional(Item::Leaf(Leaf::Truth)),
        Form::Optional(Item::Leaf(Leaf::Truth)),
    ],
};

pub(crate) const IMPORT: Table = Table {
    wanted: "an import, which is an object",
    keys: &["adapter", "what"],
    forms: &[
        Form::Needed(Item::Leaf(Leaf::Number)),
        Form::Needed(Item::Expression),
    ],
};

pub(crate) const CLASS: Table = Table {
    wanted: "a class, which is an object",
    keys: &[
        "name",
        "namespace",
        "extends",
        "extends_js_class",
        "extends_js_namespace",
        "comments",
        "inspectable",
        "typescript",
        "private",
    ],
    forms: &[
        Form::Needed(Item::Leaf(Leaf::Text)),
        Form::List(Item::Leaf(Leaf::Text)),
        Form::Optional(Item::Leaf(Leaf::TextOrNull)),
        Form::Optional(Item::Leaf(Leaf::TextOrNull)),
        Form::ListOrNull(Item::Leaf(Leaf::Text)),
        Form::Optional(Item::Leaf(Leaf::TextOrNull)),
        Form::Optional(Item::Leaf(Leaf::Truth)),
        Form::Optional(Item::Leaf(Leaf::Truth)),
        Form::Optional(Item::Leaf(Leaf::Truth)),
    ],
};

const VARIANT: &[Leaf] = &[Leaf::Text, Leaf::Signed, Leaf::Text];

pub(crate) const ENUM: Table = Table {
    wanted: "an enum, which is an object",
    keys: &[
        "name",
        "namespace",
        "variants",
        "comments",
        "typescript",
        "private",
    ],
    forms: &[
        Form::Needed(Item::Leaf(Leaf::Text)),
        Form::List(Item::Leaf(Leaf::Text)),
        Form::List(Item::Tuple(VARIANT)),
        Form::Optional(Item::Leaf(Leaf::TextOrNull)),
        Form::Optional(Item::Leaf(Leaf::Truth)),
        Form::Optional(Item::Leaf(Leaf::Truth)),
    ],
};

pub(crate) const STRING_ENUM: Table = Table {
    wanted: "a string enum, which is an object",
    keys: &["name", "variants", "comments", "typescript", "private"],
    forms: &[
        Form::Needed(Item::Leaf(Leaf::Text)),
        Form::List(Item::Leaf(Leaf::Text)),
        Form::Optional(Item::Leaf(Leaf::TextOrNull)),
        Form::Optional(Item::Leaf(Leaf::Truth)),
        Form::Optional(Item::Leaf(Leaf::Truth)),
    ],
};

pub(crate) const UNION: Table = Table {
    wanted: "a union, which is an object",
    keys: &["name", "variants", "comments", "typescript", "private"],
    forms: &[
        Form::Needed(Item::Leaf(Leaf::Text)),
        Form::List(Item::UnionVariant),
        Form::Optional(Item::Leaf(Leaf::TextOrNull)),
        Form::Optional(Item::Leaf(Leaf::Truth)),
        Form::Optional(Item::Leaf(Leaf::Truth)),
    ],
};

pub(crate) const REEXPORT: Table = Table {
    wanted: "a re-export, which is an object",
    keys: &["name", "js", "typescript"],
    forms: &[
        Form::Needed(Item::Leaf(Leaf::Text)),
        Form::Needed(Item::Name),
        Form::Optional(Item::Leaf(Leaf::Truth)),
    ],
};

pub(crate) const PARTS: Table = Table {
    wanted: "an object of the module's parts",
    keys: &[
        "exn_store",
        "externref_alloc",
        "externref_drop",
        "externref_drop_slice",
        "destroy_closure",
        "rethrow_critical",
        "externref_table",
        "function_table",
        "stack_pointer",
        "js_tag",
        "wrapped_js_tag",
    ],
    forms: &[
        Form::Optional(Item::Leaf(Leaf::PlaceOrNull(Kind::Func))),
        Form::Optional(Item::Leaf(Leaf::PlaceOrNull(Kind::Func))),
        Form::Optional(Item::Leaf(Leaf::PlaceOrNull(Kind::Func))),
        Form::Optional(Item::Leaf(Leaf::PlaceOrNull(Kind::Func))),
        Form::Optional(Item::Leaf(Leaf::PlaceOrNull(Kind::Func))),
        Form::Optional(Item::Leaf(Leaf::PlaceOrNull(Kind::Func))),
        Form::Optional(Item::Leaf(Leaf::PlaceOrNull(Kind::Table))),
        Form::Optional(Item::Leaf(Leaf::PlaceOrNull(Kind::Table))),
        Form::Optional(Item::Leaf(Leaf::PlaceOrNull(Kind::Global))),
        Form::Optional(Item::Leaf(Leaf::PlaceOrNull(Kind::Tag))),
        Form::Optional(Item::Leaf(Leaf::PlaceOrNull(Kind::Tag))),
    ],
};

fn item_fits(
    alloc: Global,
    counts: Option<&Counts>,
    item: Item,
    value: &Value,
) -> Result<(), Told> {
    match item {
        Item::Leaf(leaf) => leaf_fits(alloc, counts, leaf, value),
        Item::Tuple(leaves) => tuple_fits(alloc, counts, leaves, value),
        Item::Name => name_fits(alloc, value),
        Item::Instruction => instruction_fits(alloc, counts, value),
        Item::Expression => expression_fits(alloc, value),
        Item::UnionVariant => union_variant_fits(alloc, value),
    }
}

/// That the value is a list, each entry of which reads as this item.
pub(crate) fn items_fit(
    alloc: Global,
    counts: Option<&Counts>,
    item: Item,
    value: &Value,
) -> Result<(), Told> {
    let Value::Array(values) = value else {
        return Err(unfit(alloc, value, "a list"));
    };
    for (place, value) in values.iter().enumerate() {
        at_place(alloc, place, item_fits(alloc, counts, item, value))?;
    }
    Ok(())
}

// That the value of a key that stands fits.
fn form_fits(
    alloc: Global,
    counts: Option<&Counts>,
    form: Form,
    value: &Value,
) -> Result<(), Told> {
    match form {
        Form::Needed(item) | Form::Optional(item) => item_fits(alloc, counts, item, value),
        Form::List(item) => items_fit(alloc, counts, item, value),
        Form::ListOrNull(item) => {
            if value.is_null() {
                return Ok(());
            }
            items_fit(alloc, counts, item, value)
        }
    }
}

fn is_needed(form: Form) -> bool {
    matches!(form, Form::Needed(_))
}

/// That what a key of an object holds fits.
pub(crate) fn key_fits(
    alloc: Global,
    counts: Option<&Counts>,
    object: &Value,
    key: &str,
    form: Form,
) -> Result<(), Told> {
    match object.get(key) {
        Some(value) => at_key(alloc, key, form_fits(alloc, counts, form, value)),
        None => {
            if is_needed(form) {
                return Err(lacking(alloc, key));
            }
            Ok(())
        }
    }
}

/// That the value is an object as a table says.
pub(crate) fn object_fits(
    alloc: Global,
    counts: Option<&Counts>,
    table: &Table,
    value: &Value,
) -> Result<(), Told> {
    keys_fit(alloc, value, table.keys, table.wanted)?;
    for (key, form) in table.keys.iter().zip(table.forms) {
        key_fits(alloc, counts, value, key, *form)?;
    }
    Ok(())
}

/// That an adapter has code or is the call of an import, and not both.
pub(crate) fn adapter_fits(alloc: Global, value: &Value) -> Result<(), Told> {
    match (value.get("code"), value.get("import")) {
        (Some(_), Some(_)) => Err(plainly(
            alloc,
            " has both of the keys `code` and `import`, and has to have one of them.",
        )),
        (None, None) => Err(plainly(
            alloc,
            " has none of the keys `code` and `import`, and has to have one of them.",
        )),
        _ => Ok(()),
    }
}

// Whether the kind of an export is one that stands in a class.
fn is_member(value: &Value) -> bool {
    match value.get("kind") {
        Some(Value::String(kind)) => {
            kind.as_str() != "function" && kind.as_str() != "function_this"
        }
        _ => false,
    }
}

// Whether the export names a class.
fn has_class(value: &Value) -> bool {
    matches!(value.get("class"), Some(Value::String(_)))
}

/// That an export of a kind that stands in a class names its class.
pub(crate) fn export_fits(alloc: Global, value: &Value) -> Result<(), Told> {
    if is_member(value) && !has_class(value) {
        return Err(plainly(
            alloc,
            " is of a kind that stands in a class, and lacks a text under the key `class`.",
        ));
    }
    Ok(())
}
