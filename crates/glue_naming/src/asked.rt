//! The names that a description asks for, in the order in which they are drawn.
ghost use Rattle.std.specs.Prelude.{◌≡◌, ◌++◌, ◌∷◌, [], map, IfOk, OnOk};
ghost use Rattle.std.specs.List.{flat_map};
ghost use Rattle.glue_naming.specs.Arranged.{IsArranged, text_order};
ghost use Rattle.glue_naming.specs.Wanted as spec;

use crate::imported::{names_called, push_imports};
use crate::named::{Named, Wanted, WantedName};
use crate::pairs::pairs_by_import;
use crate::reexported::push_reexports;
use glue_check::{qualified, qualified_name};
use glue_published::{root_names, stands_alone};
use glue_shared::{AuxEnum, AuxExport, AuxStruct, Lowered, Settings};
use std::alloc::{AllocError, Global};
use std::cmp::Ordering;
use values::{Duplicate, Seq, Text};

// Adds the names of a class and its registry.
fn push_class(alloc: Global, class: &AuxStruct, list: &mut Seq<Wanted>) -> Result<(), AllocError>
    ensures pushed { OnOk result (list.new ≡ list.old ++ spec.class_names class.now) }
{
    let key = qualified_name(alloc, class.namespace.as_slice(), class.name.as_str())?;
    list.push(Wanted {
        thing: Named::Class(key.copy(alloc)?),
        name: WantedName::Plain(key.copy(alloc)?),
    })?;
    list.push(Wanted {
        thing: Named::Registry(key),
        name: WantedName::After(Text::from_str(alloc, "Finalization")?),
    })?;
    Ok(())
}

// Adds the names of classes, each with that of its registry.
fn push_classes(
    alloc: Global,
    classes: &[AuxStruct],
    list: &mut Seq<Wanted>,
) -> Result<(), AllocError>
    ensures pushed { OnOk result (list.new ≡ list.old ++ flat_map spec.class_names classes.now) }
{
    for class in classes {
        push_class(alloc, class, list)?;
    }
    Ok(())
}

// The qualified names of enums.
fn enum_keys(alloc: Global, enums: &[AuxEnum]) -> Result<Vec<Text>, AllocError>
    ensures keys { IfOk result (λ keys. keys.items ≡ map spec.enum_key enums.now) }
{
    let mut keys = Vec::new(alloc);
    for one in enums {
        keys.push(qualified_name(alloc, one.namespace.as_slice(), one.name.as_str())?)?;
    }
    Ok(keys)
}

// The qualified names of enums, in order.
fn enums_by_name(alloc: Global, enums: &[AuxEnum]) -> Result<Vec<Text>, AllocError>
    ensures sorted { IfOk result (λ keys. IsArranged text_order (map spec.enum_key enums.now) keys.items) }
{
    let mut keys = enum_keys(alloc, enums)?;
    keys.sort_by(|a, b| a.cmp(b))?;
    Ok(keys)
}

// Adds the names of enums of these qualified names.
fn push_enums(alloc: Global, keys: &[Text], list: &mut Seq<Wanted>) -> Result<(), AllocError>
    ensures pushed { OnOk result (list.new ≡ list.old ++ map spec.enum_wanted keys.now) }
{
    for key in keys {
        list.push(Wanted {
            thing: Named::Enum(key.copy(alloc)?),
            name: WantedName::Plain(key.copy(alloc)?),
        })?;
    }
    Ok(())
}

// Whether an export comes before another, or after it.
fn debug_order(a: &AuxExport, b: &AuxExport) -> Ordering
    ensures order { result ≡ spec.debug_order a.now b.now }
{
    match a.debug.cmp(&b.debug) {
        Ordering::Equal => a.adapter.0.cmp(&b.adapter.0),
        order => order,
    }
}

// The exports one by one.
fn each_export(alloc: Global, exports: &[AuxExport]) -> Result<Vec<&AuxExport>, AllocError>
    ensures list { IfOk result (λ list. map (λ e. e.now) list.items ≡ exports.now) }
{
    exports.iter().collect(alloc)
}

// The exports by debug name, and then by the adapter's id.
fn exports_by_debug(alloc: Global, exports: &[AuxExport]) -> Result<Vec<&AuxExport>, AllocError>
    ensures sorted { IfOk result (λ sorted. IsArranged spec.debug_order exports.now (map (λ e. e.now) sorted.items)) }
{
    let mut sorted = each_export(alloc, exports)?;
    sorted.sort_by(|a, b| debug_order(a, b))?;
    Ok(sorted)
}

// Adds the name of an export that stands by itself.
fn push_function(
    alloc: Global,
    export: &AuxExport,
    list: &mut Seq<Wanted>,
) -> Result<(), AllocError>
    ensures pushed { OnOk result (list.new ≡ list.old ++ spec.function_names export.now) }
{
    if stands_alone(export.kind) {
        let key = qualified(alloc, export)?;
        list.push(Wanted {
            thing: Named::Function(key.copy(alloc)?),
            name: WantedName::Plain(key),
        })?;
    }
    Ok(())
}

// Adds the names of exports.
fn push_functions(
    alloc: Global,
    exports: &[&AuxExport],
    list: &mut Seq<Wanted>,
) -> Result<(), AllocError>
    ensures pushed { OnOk result (list.new ≡ list.old ++ flat_map spec.function_names (map (λ e. e.now) exports.now)) }
{
    for export in exports {
        push_function(alloc, export, list)?;
    }
    Ok(())
}

// Adds the names of namespaces at these names.
fn push_roots(alloc: Global, roots: &[Text], list: &mut Seq<Wanted>) -> Result<(), AllocError>
    ensures pushed { OnOk result (list.new ≡ list.old ++ map spec.root_wanted roots.now) }
{
    for root in roots {
        list.push(Wanted {
            thing: Named::Namespace(root.copy(alloc)?),
            name: WantedName::Plain(root.copy(alloc)?),
        })?;
    }
    Ok(())
}

/// The names that settings and a description ask for, in the order in which they are drawn. Want of memory is the only error.
pub fn wanted(
    alloc: Global,
    settings: &Settings,
    lowered: &Lowered,
) -> Result<Seq<Wanted>, AllocError>
    ensures wanted { IfOk result (λ list. spec.AreWanted settings.now lowered.now list) }
{
    let enums = enums_by_name(alloc, lowered.aux.enums.as_slice())?;
    let pairs = pairs_by_import(alloc, lowered)?;
    let called = names_called(alloc, settings, lowered, pairs.as_slice())?;
    let functions = exports_by_debug(alloc, lowered.aux.exports.as_slice())?;
    let roots = root_names(alloc, settings, &lowered.aux)?;
    let mut list = Seq::new(alloc);
    push_classes(alloc, lowered.aux.structs.as_slice(), &mut list)?;
    push_enums(alloc, enums.as_slice(), &mut list)?;
    push_imports(alloc, settings, called.as_slice(), &mut list)?;
    push_functions(alloc, functions.as_slice(), &mut list)?;
    push_reexports(alloc, settings, &lowered.aux, called.as_slice(), &mut list)?;
    push_roots(alloc, roots.as_slice(), &mut list)?;
    Ok(list)
}
