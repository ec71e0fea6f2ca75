//! The names of the exports that give items of the module to the glue file: those that the module has, and those that are added.
ghost use Rattle.std.specs.Prelude.{◌≡◌, ◌++◌, ◌∷◌, ◌+◌, ◌<◌, ◌≤◌, ◌^◌, List, true, filter_map, length, IfOk, OnOk};
ghost use Rattle.std.specs.FinSet as set;
ghost use Rattle.std.specs.List.{flat_map};
ghost use Rattle.std.specs.Option.{option_copied};
ghost use Rattle.values.specs.TextSet.{with_texts};
ghost use Rattle.wasm_core.specs.entries.ExportItem.{ExportItem};
ghost use Rattle.glue_words.specs.Ident.{to_ident};
ghost use Rattle.glue_steps.specs.Exported.{export_name};
ghost use Rattle.glue_steps.specs.Resolving.{entry_at};
ghost use Rattle.taken_items.specs.ItemNames as spec;

use crate::asked::asked_items;
use glue_names::{START, with_name};
use glue_scope::Names;
use glue_shared::{Lowered, Settings};
use printed_adapters::SHIM;
use std::alloc::{AllocError, Global};
use std::cmp::Ordering;
use values::{Duplicate, Map, Seq, Text};
use wasm_core::{Export, ExportItem, Func, FuncId, Module};

/// As many exports, or as many items, come to want of memory.
const MOST: usize = 4_294_967_295;

// ---- the set of items

// Adds an item to a set of items.
fn put_item(set: &mut Map<ExportItem, ()>, item: ExportItem) -> Result<(), AllocError>
    ensures put { OnOk result (set.new ≡ spec.with_item set.old item) }
{
    set.insert(item, ())?;
    Ok(())
}

// Each of these items once, in their order.
fn each_item(alloc: Global, asked: &[ExportItem]) -> Result<Map<ExportItem, ()>, AllocError>
    ensures set { IfOk result (λ set. set ≡ spec.each_item asked.now) }
{
    let mut set = Map::new(alloc);
    for item in asked {
        put_item(&mut set, *item)?;
    }
    Ok(set)
}

// ---- the names that they get

// Whether an export stands, and gives the item.
fn gives(item: ExportItem, entry: &Option<Export>) -> bool
    ensures test { result ≡ spec.gives item entry.now }
{
    match entry {
        None => false,
        Some(export) => export.item.cmp(&item) == Ordering::Equal,
    }
}

// The name of an export, where it stands.
fn name_of(entry: &Option<Export>) -> Option<&Text>
    ensures name { option_copied result ≡ export_name entry.now }
{
    match entry {
        None => None,
        Some(export) => Some(&export.name),
    }
}

// The name of the first export that gives an item.
fn export_of(item: ExportItem, exports: &[Option<Export>]) -> Option<&Text>
    ensures name { option_copied result ≡ spec.export_of item exports.now }
{
    for entry in exports {
        if gives(item, entry) {
            return name_of(entry);
        }
    }
    None
}

// The name that is wanted for the export of an item without a name of its own.
const UNNAMED: &str = "__wbindgen_export";

// The name that a function of the module has itself, or one that is made for it.
fn own_name(funcs: &[Option<Func>], id: FuncId) -> &str
    ensures name { result.now ≡ spec.own_name (entry_at funcs.now id.0) }
{
    match funcs.get(id.0 as usize) {
        Some(Some(func)) => match &func.name {
            Some(name) => name.as_str(),
            None => UNNAMED,
        },
        _ => UNNAMED,
    }
}

// The name that is wanted for the export of an item.
fn wanted_export(module: &Module, item: ExportItem) -> &str
    ensures name { result.now ≡ spec.wanted_export «module».now item }
{
    match item {
        ExportItem::Memory(_) => "memory",
        ExportItem::Func(id) => own_name(module.funcs(), id),
        _ => UNNAMED,
    }
}

// With the names of the exports that stand.
fn with_exports<N: Names>(scope: N, exports: &[Option<Export>]) -> Result<N, AllocError>
    ensures bound { IfOk result (λ more. N.bound more ≡ with_texts (N.bound scope) (filter_map export_name exports.now)) }
{
    let mut more = scope;
    for entry in exports {
        if let Some(export) = entry {
            more = with_name(more, export.name.as_str())?;
        }
    }
    Ok(more)
}

// A scope in which the names are bound that no added export may have.
#[tactic(auto, using(crate::proofs::ItemNames::further_joined))]
fn export_scope<N: Names>(alloc: Global, lowered: &Lowered) -> Result<N, AllocError>
    ensures bound { IfOk result (λ scope. N.bound scope ≡ spec.bound_exports lowered.now) }
{
    let named = with_exports(N::new(alloc), lowered.module.exports())?;
    let started = with_name(named, START)?;
    with_name(started, SHIM)
}

// Draws a fresh name, made of this one.
fn draw_fresh<N: Names>(scope: &mut N, wanted: &str) -> Result<Text, AllocError>
    requires few { 2 + set.len (N.bound scope.old) < 2 ^ 64 }
    ensures fresh { IfOk result (λ name. name ≡ spec.fresh_name (N.bound scope.old) (to_ident wanted.now)) }
    ensures binds { IfOk result (λ name. N.bound scope.new ≡ set.insert (N.bound scope.old) name) }
{
    Ok(Text::new(scope.generate(wanted)?))
}

// Draws one for the export of an item.
fn draw_export<N: Names>(
    scope: &mut N,
    module: &Module,
    item: ExportItem,
) -> Result<Text, AllocError>
    requires few { 2 + set.len (N.bound scope.old) < 2 ^ 64 }
    ensures fresh { IfOk result (λ name. name ≡ spec.fresh_name (N.bound scope.old) (to_ident (spec.wanted_export «module».now item))) }
    ensures binds { IfOk result (λ name. N.bound scope.new ≡ set.insert (N.bound scope.old) name) }
{
    draw_fresh(scope, wanted_export(module, item))
}

// The name that an item gets: that of the first export that gives it, and else a fresh one.
#[tactic(auto, using(crate::proofs::ItemNames::grown_by_one))]
fn name_item<N: Names>(
    alloc: Global,
    scope: &mut N,
    module: &Module,
    item: ExportItem,
) -> Result<Text, AllocError>
    requires few { 2 + set.len (N.bound scope.old) < 2 ^ 64 }
    ensures named { IfOk result (λ name. name ≡ spec.item_name «module».now (N.bound scope.old) item) }
    ensures binds { OnOk result (N.bound scope.new ≡ spec.bound_with «module».now (N.bound scope.old) item) }
    ensures grown { OnOk result (set.len (N.bound scope.new) ≤ set.len (N.bound scope.old) + 1) }
{
    match export_of(item, module.exports()) {
        Some(name) => name.copy(alloc),
        None => draw_export(scope, module, item),
    }
}

// The names that these items get in turn.
fn named_items<N: Names>(
    alloc: Global,
    scope: N,
    module: &Module,
    items: &Map<ExportItem, ()>,
) -> Result<Seq<(ExportItem, Text)>, AllocError>
    requires few { 2 + set.len (N.bound scope) + length items.now < 2 ^ 64 }
    ensures named { IfOk result (λ named. named ≡ spec.named_items «module».now (N.bound scope) items.now) }
    ensures fresh { IfOk result (λ named. spec.AreFresh (N.bound scope) (flat_map (spec.added «module».now.exports) named)) }
{
    let mut scope = scope;
    let mut named = Seq::new(alloc);
    for entry in items.iter() {
        let name = name_item(alloc, &mut scope, module, *entry.0)?;
        named.push((*entry.0, name))?;
    }
    Ok(named)
}

/// The items of the module that are asked for, each once, with the names of the exports that give them: those that the module has, and else fresh
/// ones, made of the name that a function has itself, of `memory`, or of `__wbindgen_export`. Want of memory is the only error; 4,294,967,295 exports or items, and more, come to it too.
#[tactic(auto, unfolding(crate::specs::ItemNames::item_names), using(crate::proofs::ItemNames::few_bound))]
pub fn item_names<N: Names>(
    alloc: Global,
    settings: &Settings,
    lowered: &Lowered,
) -> Result<Seq<(ExportItem, Text)>, AllocError>
    ensures named { IfOk result (λ named. named ≡ spec.item_names settings.now lowered.now) }
    ensures fresh { IfOk result (λ named. spec.AreFresh (spec.bound_exports lowered.now) (flat_map (spec.added lowered.now.module.exports) named)) }
{
    let asked = asked_items(alloc, settings, lowered)?;
    let items = each_item(alloc, asked.as_slice())?;
    if lowered.module.exports().len() >= MOST || items.len() >= MOST {
        return Err(AllocError);
    }
    let scope: N = export_scope(alloc, lowered)?;
    named_items(alloc, scope, &lowered.module, &items)
}

/// These items by a map. Want of memory is the only error.
pub fn item_map(
    alloc: Global,
    named: &[(ExportItem, Text)],
) -> Result<Map<ExportItem, Text>, AllocError>
    ensures map { IfOk result (λ map. map ≡ spec.item_map named.now) }
{
    let mut map = Map::new(alloc);
    for entry in named {
        drop(map.insert(entry.0, entry.1.copy(alloc)?)?);
    }
    Ok(map)
}

// ---- the exports that are added

// Adds a named item, where no export of the module gives it.
fn push_added(
    alloc: Global,
    exports: &[Option<Export>],
    named: &(ExportItem, Text),
    added: &mut Seq<(Text, ExportItem)>,
) -> Result<(), AllocError>
    ensures pushed { OnOk result (added.new ≡ added.old ++ spec.added exports.now named.now) }
{
    if export_of(named.0, exports).is_none() {
        added.push((named.1.copy(alloc)?, named.0))?;
    }
    Ok(())
}

// Those of these.
fn added_of(
    alloc: Global,
    exports: &[Option<Export>],
    named: &[(ExportItem, Text)],
) -> Result<Seq<(Text, ExportItem)>, AllocError>
    ensures added { IfOk result (λ added. added ≡ flat_map (spec.added exports.now) named.now) }
{
    let mut added = Seq::new(alloc);
    for entry in named {
        push_added(alloc, exports, entry, &mut added)?;
    }
    Ok(added)
}

/// The exports that are added for the items that are asked for, in the order of the items; each has a name of its own, which no export of
/// the module has. Want of memory is the only error.
pub fn added_exports<N: Names>(
    alloc: Global,
    settings: &Settings,
    lowered: &Lowered,
) -> Result<Seq<(Text, ExportItem)>, AllocError>
    ensures added { IfOk result (λ added. added ≡ spec.added_exports settings.now lowered.now) }
    ensures fresh { IfOk result (λ added. spec.AreFresh (spec.bound_exports lowered.now) added) }
{
    let named = item_names::<N>(alloc, settings, lowered)?;
    added_of(alloc, lowered.module.exports(), named.as_slice())
}
