//! The items of the glue file, group by group: the lines that take modules, the vendor constants, what the description declares, the frame
//! with the definitions of imports, the functions of closures, the lists of string enums, the helpers for which these ask, and loading.
ghost use Rattle.std.specs.Prelude.{◌≡◌, List, ◌++◌, ◌∷◌, [], IfOk, map, None, true};
ghost use Rattle.std.specs.List.{list_all};
ghost use Rattle.wasm_core.specs.ids.ImportId.{ImportId};
ghost use Rattle.helper_table.specs.Closed as closed;
ghost use Rattle.glue_shared.specs.Names.{own_imports};
ghost use Rattle.glue_published.specs.Clash.{thing_clash};
ghost use Rattle.glue_naming.specs.Naming as naming;
ghost use Rattle.printed_adapters.specs.Printed as printed;
ghost use Rattle.glue_context.specs.ClosureItems as closures;
ghost use Rattle.glue_context.specs.DefinedItems as definitions;
ghost use Rattle.glue_context.specs.Items as spec;

use crate::closures::closure_functions;
use crate::defined::define_imports;
use crate::exported::{joined, published_items};
use crate::foreign::foreign_lines;
use crate::frame::{FrameParts, frame_parts};
use crate::imported::{imported_lines, vendor_constants};
use crate::listed::enum_lists;
use crate::parts::helper_parts;
use glue_check::has_start;
use glue_imports::Basis;
use glue_naming::{drawn_imports, own_pairs_by_import, own_places_by_name};
use glue_scope::Names;
use glue_shared::{JsImportName, Lowered, NameMap, Settings};
use glue_steps::Indexed;
use glue_targets::{frame_end, frame_start, loading_item};
use glue_words::Item;
use helper_table::{HelperParts, close_over};
use std::alloc::{AllocError, Global};
use values::{Seq, Text};
use wasm_core::ImportId;

// This item alone.
fn one_item(alloc: Global, item: Item) -> Result<Seq<Item>, AllocError>
    ensures items { IfOk result (λ items. items ≡ item ∷ []) }
{
    let mut items = Seq::new(alloc);
    items.push(item)?;
    Ok(items)
}

// The groups of items up to loading, but for helpers.
fn front_groups<N: Names>(
    alloc: Global,
    basis: &Basis<'_>,
    indexed: &Indexed<'_>,
    places: &[ImportId],
    called: &[(JsImportName, Text)],
    frame: &FrameParts,
) -> Result<Seq<Seq<Item>>, AllocError>
    requires bindable { list_all (spec.is_bindable basis.now.settings.now basis.now.names.now indexed.now) indexed.now.aux.exports ≡ true }
    requires definable { list_all (definitions.is_definable basis.now.settings.now basis.now.names.now indexed.now) (map (λ (id : ImportId). id.0) places.now) ≡ true }
    requires declarable { list_all (closures.is_declarable basis.now.settings.now basis.now.names.now indexed.now) (printed.used_closures basis.now.settings.now indexed.now) ≡ true }
    requires named { list_all (naming.is_named basis.now.names.now) indexed.now.aux.exports ≡ true }
    requires apart { thing_clash basis.now.settings.now indexed.now.aux ≡ None }
    ensures groups { IfOk result (λ groups. spec.AreGroups basis.now.settings.now basis.now.names.now indexed.now (map (λ (id : ImportId). id.0) places.now) called.now (spec.frame_by frame.now) groups) }
{
    let mut groups = Seq::new(alloc);
    let lines = imported_lines(alloc, basis.settings, called)?;
    groups.push(lines)?;
    let foreign = foreign_lines(alloc, frame.modules.as_slice())?;
    groups.push(foreign)?;
    let constants = vendor_constants(alloc, called)?;
    groups.push(constants)?;
    let declares = published_items::<N>(alloc, basis, indexed)?;
    groups.push(declares)?;
    let start = frame_start(alloc, basis.settings, frame.memory)?;
    let start_group = one_item(alloc, start)?;
    groups.push(start_group)?;
    let defines = define_imports::<N>(alloc, basis, indexed, places)?;
    groups.push(defines)?;
    let end = frame_end(
        alloc,
        basis.settings,
        frame.modules.as_slice(),
        frame.strings,
    )?;
    let end_group = one_item(alloc, end)?;
    groups.push(end_group)?;
    let functions = closure_functions::<N>(alloc, basis, indexed)?;
    groups.push(functions)?;
    let lists = enum_lists(alloc, basis.settings, indexed.lowered())?;
    groups.push(lists)?;
    Ok(groups)
}

// These items, the helpers for which they ask, and another item behind them.
fn with_helpers(
    alloc: Global,
    parts: &HelperParts,
    front: Seq<Item>,
    last: Item,
) -> Result<Seq<Item>, AllocError>
    ensures items { IfOk result (λ items. (group : List Item) × (closed.AreAsked parts.now front group × (items ≡ front ++ (group ++ last ∷ [])))) }
{
    let helpers = close_over(alloc, parts, front.as_slice())?;
    let mut items = front;
    items.append(helpers)?;
    items.push(last)?;
    Ok(items)
}

/// The items that settings and a description ask for, where the check has found steps for each adapter that becomes a function, that of
/// an export, that of an own import, and that of a closure that is made, each other own import brings in a memory whose definition is
/// built, the function of each export was given a name and that of each closure has one, and no two things that are published clash. What
/// an import begins with that was given none is printed under its own name, as one of the host. Want of memory is the only error.
pub fn glue_items<N: Names>(
    alloc: Global,
    settings: &Settings,
    lowered: &Lowered,
    names: &NameMap,
) -> Result<Seq<Item>, AllocError>
    requires bindable { list_all (spec.is_bindable settings.now names.now lowered.now) lowered.now.aux.exports ≡ true }
    requires definable { list_all (definitions.is_definable settings.now names.now lowered.now) (own_imports settings.now lowered.now.«module» lowered.now.wit lowered.now.aux) ≡ true }
    requires declarable { list_all (closures.is_declarable settings.now names.now lowered.now) (printed.used_closures settings.now lowered.now) ≡ true }
    requires named { list_all (naming.is_named names.now) lowered.now.aux.exports ≡ true }
    requires apart { thing_clash settings.now lowered.now.aux ≡ None }
    ensures items { IfOk result (λ items. spec.IsGlue settings.now names.now lowered.now items) }
{
    let basis = Basis { settings, names };
    let indexed = Indexed::new(alloc, lowered)?;
    let pairs = own_pairs_by_import(alloc, settings, lowered)?;
    let called = drawn_imports(alloc, settings, lowered, names, pairs.as_slice())?;
    let places = own_places_by_name(alloc, settings, lowered)?;
    let frame = frame_parts(alloc, settings, lowered)?;
    let groups = front_groups::<N>(
        alloc,
        &basis,
        &indexed,
        places.as_slice(),
        called.as_slice(),
        &frame,
    )?;
    let front = joined(alloc, groups)?;
    let loading = loading_item(alloc, settings, frame.strings, has_start(&lowered.module))?;
    let parts = helper_parts(alloc, settings, lowered, names)?;
    let items = with_helpers(alloc, &parts, front, loading)?;
    Ok(items)
}
