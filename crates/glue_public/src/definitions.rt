//! What a description asks to be put into an export tree.
ghost use Rattle.std.specs.Prelude.{◌≡◌, ◌++◌, [], List, filter, map, IfOk, OnOk};
ghost use Rattle.std.specs.Option.{option_copied};
ghost use Rattle.glue_public.specs.Described as spec;

use glue_exports::{ExportDefinition, enum_definition, qualified_name};
use glue_published::stands_alone;
use glue_shared::{AuxEnum, AuxExport, JsImport, JsImportName, NameMap, WasmBindgenAux};
use glue_words::{Item, Thing};
use std::alloc::{AllocError, Global};
use values::{Duplicate, Map, Seq, Text};

/// A definition, and where it is asked for.
#[derive(Debug, Drop)]
pub struct PublicDefinition {
    /// The segments of its namespace.
    pub namespace: Seq<Text>,
    /// The name under which it stands there.
    pub name: Text,
    /// What stands there.
    pub definition: ExportDefinition,
}

/// The functions that stand by themselves, in the description's order. Want of memory is the only error.
pub fn lone_functions(alloc: Global, exports: &[AuxExport]) -> Result<Vec<&AuxExport>, AllocError>
    ensures lone { IfOk result (λ lone. map (λ e. e.now) lone.items ≡ spec.lone_functions exports.now) }
{
    let mut lone = Vec::new(alloc);
    for export in exports {
        if stands_alone(export.kind) {
            lone.push(export)?;
        }
    }
    Ok(lone)
}

fn function_definition(
    alloc: Global,
    export: &AuxExport,
    identifier: Text,
    items: Seq<Item>,
) -> Result<PublicDefinition, AllocError>
    ensures definition { IfOk result (λ definition. definition ≡ spec.function_definition export.now (identifier, items)) }
{
    Ok(PublicDefinition {
        namespace: export.namespace.copy(alloc)?,
        name: export.name.copy(alloc)?,
        definition: ExportDefinition {
            thing: Thing::Adapter(export.adapter.0),
            identifier,
            items,
            private: false,
            parent: None,
        },
    })
}

// Each of these functions with its identifier and its items, as far as both lists go.
fn function_definitions(
    alloc: Global,
    lone: &[&AuxExport],
    functions: Seq<(Text, Seq<Item>)>,
) -> Result<Seq<PublicDefinition>, AllocError>
    ensures definitions { IfOk result (λ definitions. definitions ≡ spec.zipped (map (λ e. e.now) lone.now) functions) }
{
    let mut definitions = Seq::new(alloc);
    let mut waiting = lone;
    for (identifier, items) in functions.into_vec() {
        if let [export, others @ ..] = waiting {
            definitions.push(function_definition(alloc, export, identifier, items)?)?;
            waiting = others;
        }
    }
    Ok(definitions)
}

// The name that an enum was given, or its qualified name.
fn enum_name(
    alloc: Global,
    names: &Map<Text, Text>,
    described: &AuxEnum,
) -> Result<Text, AllocError>
    ensures name { IfOk result (λ name. name ≡ spec.enum_name names.now described.now) }
{
    let qualified = qualified_name(
        alloc,
        described.namespace.as_slice(),
        described.name.as_str(),
    )?;
    match names.get(&qualified) {
        Some(name) => name.copy(alloc),
        None => Ok(qualified),
    }
}

#[tactic(auto, using(crate::proofs::Steps::enum_given))]
fn described_enum(
    alloc: Global,
    names: &Map<Text, Text>,
    described: &AuxEnum,
) -> Result<PublicDefinition, AllocError>
    ensures definition { IfOk result (λ definition. definition ≡ spec.enum_definition names.now described.now) }
{
    let name = enum_name(alloc, names, described)?;
    Ok(PublicDefinition {
        namespace: described.namespace.copy(alloc)?,
        name: described.name.copy(alloc)?,
        definition: enum_definition(alloc, described, &name)?,
    })
}

fn push_enums(
    alloc: Global,
    definitions: &mut Seq<PublicDefinition>,
    names: &Map<Text, Text>,
    enums: &[AuxEnum],
) -> Result<(), AllocError>
    ensures pushed { OnOk result (definitions.new ≡ definitions.old ++ map (spec.enum_definition names.now) enums.now) }
{
    for one in enums {
        definitions.push(described_enum(alloc, names, one)?)?;
    }
    Ok(())
}

// The name that an import's name has by itself.
fn own_name(name: &JsImportName) -> &Text
    ensures name { result.now ≡ spec.own_name name.now }
{
    match name {
        JsImportName::Global { name }
        | JsImportName::Module { name, .. }
        | JsImportName::LocalModule { name, .. }
        | JsImportName::InlineJs { name, .. }
        | JsImportName::VendorPrefixed { name, .. } => name,
    }
}

// The name that an import was given, or its own.
fn import_name<'a>(names: &'a Map<JsImportName, Text>, name: &'a JsImportName) -> &'a Text
    ensures name { result.now ≡ spec.import_name names.now name.now }
{
    match names.get(name) {
        Some(given) => given,
        None => own_name(name),
    }
}

fn push_reexports(
    alloc: Global,
    definitions: &mut Seq<PublicDefinition>,
    names: &Map<JsImportName, Text>,
    reexports: &[(Text, JsImport, bool)],
) -> Result<(), AllocError>
    ensures pushed { OnOk result (definitions.new ≡ definitions.old ++ map (spec.reexport_definition names.now) reexports.now) }
{
    for reexport in reexports {
        definitions.push(PublicDefinition {
            namespace: Seq::new(alloc),
            name: reexport.0.copy(alloc)?,
            definition: ExportDefinition {
                thing: Thing::Imported(reexport.0.copy(alloc)?),
                identifier: import_name(names, &reexport.1.name).copy(alloc)?,
                items: Seq::new(alloc),
                private: false,
                parent: None,
            },
        })?;
    }
    Ok(())
}

/// What a description asks for, in its order: the functions that stand by themselves, each with its identifier and its items,
/// as far as both lists go; the enums, each under the name that it was given or else its qualified name; and the re-exports, each
/// of the name that its import was given or else the import's own. Want of memory is the only error.
pub fn described(
    alloc: Global,
    aux: &WasmBindgenAux,
    names: &NameMap,
    functions: Seq<(Text, Seq<Item>)>,
) -> Result<Seq<PublicDefinition>, AllocError>
    ensures definitions { IfOk result (λ definitions. definitions ≡ spec.described aux.now names.now functions) }
{
    let lone = lone_functions(alloc, aux.exports.as_slice())?;
    let mut definitions = function_definitions(alloc, lone.as_slice(), functions)?;
    push_enums(alloc, &mut definitions, &names.enums, aux.enums.as_slice())?;
    push_reexports(
        alloc,
        &mut definitions,
        &names.imports,
        aux.reexports.as_slice(),
    )?;
    Ok(definitions)
}
