//! Which keys the rows of a call have, so that none is passed over.
use serde_json::Value;

// The keys of a description and of settings.
const DESCRIBED: &[&str] = &[
    "module",
    "description",
    "target",
    "omit_imports",
    "references",
    "split",
];

// The calls on texts and helpers.
fn text_keys(call: &str) -> &'static [&'static str] {
    match call {
        "literal" | "identifier" | "indented" => &["of", "text"],
        "property" => &["of", "text", "computed"],
        "view" => &["of", "text", "number"],
        "word" => &["kind", "place", "number", "form", "of", "text"],
        "marked" => &["of", "text", "fault"],
        "renamed" => &["of", "text", "names"],
        "spread" => &["of", "text", "spreads"],
        "known" => &["of", "holds"],
        "drawn" => &["steps", "answers"],
        "helper" => &["parts", "key", "text"],
        "helpers" => &["parts", "needed", "keys", "text"],
        "asked" => &["parts", "items", "keys"],
        "heap" => &["key", "debug", "text"],
        "type" => &["type", "buffers", "classes", "enums", "text"],
        "signature" => &[
            "export", "adapter", "params", "buffers", "classes", "enums", "lines",
        ],
        "prepared" => &[
            "target", "on", "module", "fault", "holds", "exports", "written",
        ],
        _ => &[],
    }
}

// Those on lines, definitions and trees.
fn tree_keys(call: &str) -> &'static [&'static str] {
    match call {
        "import_line" => &["module", "entries", "es", "commonjs"],
        "foreign_line" => &["module", "number", "es", "commonjs"],
        "import_lines" => &["imports", "es", "commonjs"],
        "vendor_constant" => &["bound", "vendor", "prefixes", "text"],
        "texts_constant" => &["bound", "texts", "text"],
        "qualified_name" => &["namespace", "segment", "text"],
        "enum_definition" => &["enum", "identifier", "note", "object"],
        "enum_thing" => &["enum", "identifier", "qualified", "private"],
        "exported_item" => &["words", "note", "object"],
        "tree_items" => &["definitions", "roots", "text"],
        "host_names" => &["definitions", "hosts", "named"],
        "define_export" => &["puts", "paths"],
        _ => &[],
    }
}

// Those on a description, beside its own keys.
fn described_keys(call: &str) -> &'static [&'static str] {
    match call {
        "described_items" => &[
            "functions",
            "enums",
            "namespaces",
            "imports",
            "text",
            "clash",
        ],
        "thing_clash" | "bad_reexport" | "bad_export_name" | "bad_declared_name" => &["named"],
        "fixed_thing" => &["own", "fixed"],
        "root_names" | "names_of" => &["names"],
        "name_all" => &["taken", "things"],
        "drawn_imports" => &["listed"],
        "import_text" => &[
            "what", "kind", "args", "variadic", "result", "drawn", "exports", "slots", "text",
        ],
        "import_definition" => &["what", "drawn", "text"],
        _ => &[],
    }
}

fn is_one(keys: &[&str], key: &str) -> bool {
    for known in keys {
        if *known == key {
            return true;
        }
    }
    false
}

fn is_known(call: &str, key: &str) -> bool {
    if key == "name" || key == "call" {
        return true;
    }
    if is_one(text_keys(call), key) || is_one(tree_keys(call), key) {
        return true;
    }
    let described = described_keys(call);
    is_one(described, key) || !described.is_empty() && is_one(DESCRIBED, key)
}

/// The first key of a row that nothing reads in rows of this call.
pub fn unknown_key<'a>(row: &'a Value, call: &str) -> Option<&'a str> {
    let Value::Object(members) = row else {
        return None;
    };
    for (key, _) in members.iter() {
        let key = key.as_str();
        if !is_known(call, key) {
            return Some(key);
        }
    }
    None
}
