//! What a description asks to publish, with the paths.
ghost use Rattle.std.specs.Prelude.{◌≡◌, ◌++◌, ◌∷◌, [], map, IfOk, OnOk};
ghost use Rattle.std.specs.List.{flat_map};
ghost use Rattle.glue_published.specs.Things as spec;

use glue_exports::qualified_name;
use glue_shared::{
    AuxEnum, AuxExport, AuxExportKind, AuxStruct, JsImport, Settings, Target, WasmBindgenAux,
};
use std::alloc::{AllocError, Global};
use values::{Duplicate, Seq, Text};

/// Something that a description asks to publish: a function, a class, an enum, a re-export, or the function that starts the
/// module anew.
#[derive(Debug, Drop)]
pub struct PublishedThing {
    /// The segments of its namespace and its name.
    pub path: Seq<Text>,
    /// The same, joined by `__`.
    pub qualified: Text,
    /// Whether it is a re-export.
    pub is_reexport: bool,
    /// Whether it isn't published where its path is one name.
    pub is_private: bool,
}

fn thing_at(
    alloc: Global,
    namespace: &Seq<Text>,
    name: &Text,
    is_reexport: bool,
    is_private: bool,
) -> Result<PublishedThing, AllocError>
    ensures thing { IfOk result (λ thing. thing ≡ spec.thing_at namespace.now name.now is_reexport is_private) }
{
    let mut path = namespace.copy(alloc)?;
    path.push(name.copy(alloc)?)?;
    Ok(PublishedThing {
        path,
        qualified: qualified_name(alloc, namespace.as_slice(), name.as_str())?,
        is_reexport,
        is_private,
    })
}

// A thing at the top level.
fn top_thing(
    alloc: Global,
    name: &Text,
    is_reexport: bool,
    is_private: bool,
) -> Result<PublishedThing, AllocError>
    ensures thing { IfOk result (λ thing. thing ≡ spec.thing_at [] name.now is_reexport is_private) }
{
    let none = Seq::new(alloc);
    thing_at(alloc, &none, name, is_reexport, is_private)
}

/// Whether an export of this kind is a function that stands by itself.
pub fn stands_alone(kind: AuxExportKind) -> bool
    ensures test { result ≡ spec.stands_alone kind }
{
    match kind {
        AuxExportKind::Function | AuxExportKind::FunctionThis => true,
        AuxExportKind::Constructor | AuxExportKind::Method(_) => false,
    }
}

fn push_functions(
    alloc: Global,
    things: &mut Seq<PublishedThing>,
    exports: &[AuxExport],
) -> Result<(), AllocError>
    ensures pushed { OnOk result (things.new ≡ things.old ++ flat_map spec.export_things exports.now) }
{
    for export in exports {
        if stands_alone(export.kind) {
            things.push(thing_at(alloc, &export.namespace, &export.name, false, false)?)?;
        }
    }
    Ok(())
}

fn push_classes(
    alloc: Global,
    things: &mut Seq<PublishedThing>,
    classes: &[AuxStruct],
) -> Result<(), AllocError>
    ensures pushed { OnOk result (things.new ≡ things.old ++ map spec.class_thing classes.now) }
{
    for class in classes {
        things.push(thing_at(alloc, &class.namespace, &class.name, false, class.private)?)?;
    }
    Ok(())
}

fn push_enums(
    alloc: Global,
    things: &mut Seq<PublishedThing>,
    enums: &[AuxEnum],
) -> Result<(), AllocError>
    ensures pushed { OnOk result (things.new ≡ things.old ++ map spec.enum_thing enums.now) }
{
    for one in enums {
        things.push(thing_at(alloc, &one.namespace, &one.name, false, one.private)?)?;
    }
    Ok(())
}

fn push_reexports(
    alloc: Global,
    things: &mut Seq<PublishedThing>,
    reexports: &[(Text, JsImport, bool)],
) -> Result<(), AllocError>
    ensures pushed { OnOk result (things.new ≡ things.old ++ map spec.reexport_thing reexports.now) }
{
    for reexport in reexports {
        things.push(top_thing(alloc, &reexport.0, true, false)?)?;
    }
    Ok(())
}

fn reset_thing(alloc: Global, settings: &Settings) -> Result<PublishedThing, AllocError>
    ensures thing { IfOk result (λ thing. thing ≡ spec.reset_thing settings.now) }
{
    let name = Text::from_str(alloc, "__wbg_reset_state")?;
    top_thing(alloc, &name, false, !settings.reset_state)
}

// Whether there is a function that starts the module anew.
fn has_reset(settings: &Settings, aux: &WasmBindgenAux) -> bool
    ensures test { result ≡ spec.has_reset settings.now aux.now }
{
    (aux.uses_reinit || settings.reset_state) && !matches!(settings.target, Target::Emscripten)
}

/// What a description asks to publish, in its order: functions, classes, enums and re-exports, and last the function that
/// starts the module anew, private where the settings don't ask for it. Want of memory is the only error.
pub fn published_things(
    alloc: Global,
    settings: &Settings,
    aux: &WasmBindgenAux,
) -> Result<Seq<PublishedThing>, AllocError>
    ensures things { IfOk result (λ things. things ≡ spec.published_things settings.now aux.now) }
{
    let mut things = Seq::new(alloc);
    push_functions(alloc, &mut things, aux.exports.as_slice())?;
    push_classes(alloc, &mut things, aux.structs.as_slice())?;
    push_enums(alloc, &mut things, aux.enums.as_slice())?;
    push_reexports(alloc, &mut things, aux.reexports.as_slice())?;
    if has_reset(settings, aux) {
        things.push(reset_thing(alloc, settings)?)?;
    }
    Ok(things)
}
