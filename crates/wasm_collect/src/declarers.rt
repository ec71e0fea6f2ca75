//! What declares functions, so that `ref.func` may take them (WebAssembly core specification, 3.4.10).

ghost use Rattle.std.specs.Prelude.{◌≡◌, None, replicate, slice_get, IfOk, OnOk};
ghost use Rattle.wasm_collect.specs.Reach.{ops_names, content_names, item_thing};
ghost use Rattle.wasm_collect.specs.Edges.{noted, with_declarer, without_declarer, without_exported, Fills, named_by, declared_by, first_declarer, AreForgotten, AreDeclarers};

use crate::naming::{push_content, push_ops};
use std::alloc::{AllocError, Global};
use wasm_core::{GlobalVar, Module};
use wasm_file::{Elem, Export, ExportItem};
use wasm_reach::Thing;

/// An entry that declares the functions that it names.
trait Declares {
    ghost use Rattle.std.specs.Prelude.{◌≡◌, ◌++◌, ℕ, List, OnOk};
    ghost use Rattle.wasm_reach.specs.declared.things.Thing.{Thing};

    /// What it names.
    ghost named: { Self → List Thing };

    /// The entry at a place.
    ghost thing: { ℕ → Thing };

    fn push_named(&self, out: &mut Vec<Thing>) -> Result<(), AllocError>
        ensures { OnOk result (out.new.items ≡ out.old.items ++ named self.now) };

    fn thing(place: u32) -> Thing
        ensures { result ≡ thing place };
}

impl Declares for Elem {
    ghost use Rattle.wasm_reach.specs.declared.things.Thing.TheVariants as things;

    ghost named = { content_names };

    ghost thing = { things.Elem };

    fn push_named(&self, out: &mut Vec<Thing>) -> Result<(), AllocError> {
        push_content(out, self)
    }

    fn thing(place: u32) -> Thing {
        Thing::Elem(place)
    }
}

impl Declares for GlobalVar {
    ghost use Rattle.wasm_reach.specs.declared.things.Thing.TheVariants as things;

    ghost named = { λ g. ops_names g.init };

    ghost thing = { things.Global };

    fn push_named(&self, out: &mut Vec<Thing>) -> Result<(), AllocError> {
        push_ops(out, &self.init)
    }

    fn thing(place: u32) -> Thing {
        Thing::Global(place)
    }
}

/// For each function of a module what declares it, where no export gives it out.
pub(crate) fn declarers(alloc: Global, from: &Module) -> Result<Vec<Option<Thing>>, AllocError>
    ensures { IfOk result (λ v. AreDeclarers from.now v.items) }
{
    let mut declarers = no_declarers(alloc, from.funcs().len())?;
    declare_all(alloc, &mut declarers, from.elems())?;
    declare_all(alloc, &mut declarers, from.globals())?;
    forget_exported(&mut declarers, from.exports());
    Ok(declarers)
}

/// Nothing for each of so many functions.
fn no_declarers(alloc: Global, count: usize) -> Result<Vec<Option<Thing>>, AllocError>
    ensures { IfOk result (λ v. v.items ≡ replicate count None) }
{
    Ok(vec![in alloc; None; count]?)
}

/// Notes which of the entries is the first to declare each function that has no declarer yet.
fn declare_all<T: Declares>(
    alloc: Global,
    declarers: &mut Vec<Option<Thing>>,
    entries: &[Option<T>],
) -> Result<(), AllocError>
    ensures { OnOk result (Fills (first_declarer T.named T.thing entries.now) declarers.old.items declarers.new.items) }
{
    if entries.len() > u32::MAX as usize {
        return Err(AllocError);
    }
    let mut names = Vec::new(alloc);
    for place in 0..entries.len() {
        declare(&mut names, declarers, &entries[place], place as u32)?;
    }
    Ok(())
}

/// Notes which functions an entry declares.
fn declare<T: Declares>(
    names: &mut Vec<Thing>,
    declarers: &mut Vec<Option<Thing>>,
    entry: &Option<T>,
    place: u32,
) -> Result<(), AllocError>
    ensures { OnOk result (Fills (declared_by T.named (T.thing place) entry.now) declarers.old.items declarers.new.items) }
{
    match entry {
        Some(entry) => {
            names.clear();
            entry.push_named(names)?;
            declare_names(declarers, names, T::thing(place));
            Ok(())
        }
        None => Ok(()),
    }
}

/// Notes that a thing declares those of the functions that have no declarer yet.
fn declare_names(declarers: &mut Vec<Option<Thing>>, names: &[Thing], thing: Thing)
    ensures { Fills (named_by thing names.now) declarers.old.items declarers.new.items }
{
    for name in names {
        declare_name(declarers, *name, thing);
    }
}

/// Notes that a thing declares a function, where the name is one and has no declarer yet.
fn declare_name(declarers: &mut Vec<Option<Thing>>, name: Thing, thing: Thing)
    ensures { declarers.new.items ≡ with_declarer declarers.old.items name thing }
{
    match name {
        Thing::Func(func) => declare_func(declarers, func, thing),
        Thing::Type(_)
        | Thing::Table(_)
        | Thing::Memory(_)
        | Thing::Global(_)
        | Thing::Tag(_)
        | Thing::Elem(_)
        | Thing::Segment(_) => {}
    }
}

/// Notes that a thing declares a function that has no declarer yet.
fn declare_func(declarers: &mut Vec<Option<Thing>>, func: u32, thing: Thing)
    ensures { declarers.new.items ≡ noted declarers.old.items func thing (slice_get declarers.old.items func) }
{
    match declarers.get(func as usize) {
        Some(None) => declarers[func as usize] = Some(thing),
        Some(Some(_)) | None => {}
    }
}

/// Forgets the declarers of functions that exports give out.
fn forget_exported(declarers: &mut Vec<Option<Thing>>, exports: &[Option<Export>])
    ensures { AreForgotten exports.now declarers.old.items declarers.new.items }
{
    for entry in exports {
        forget(declarers, entry);
    }
}

/// Forgets the declarer of the function that an export gives out.
fn forget(declarers: &mut Vec<Option<Thing>>, entry: &Option<Export>)
    ensures { declarers.new.items ≡ without_exported declarers.old.items entry.now }
{
    match entry {
        Some(entry) => forget_item(declarers, entry.item),
        None => {}
    }
}

/// Forgets the declarer of an item that is a function.
fn forget_item(declarers: &mut Vec<Option<Thing>>, item: ExportItem)
    ensures { declarers.new.items ≡ without_declarer declarers.old.items (item_thing item) }
{
    match item {
        ExportItem::Func(func) => {
            if (func.0 as usize) < declarers.len() {
                declarers[func.0 as usize] = None;
            }
        }
        ExportItem::Table(_) | ExportItem::Memory(_) | ExportItem::Global(_) | ExportItem::Tag(_) =>
            {}
    }
}
