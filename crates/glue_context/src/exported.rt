//! What a description publishes: the declaration of each function, behind its note, and the items of the export tree that it stands in, with
//! enums and re-exports.
ghost use Rattle.std.specs.Prelude.{◌≡◌, [], IfOk, map, None, true};
ghost use Rattle.std.specs.List.{AllZip, list_all};
ghost use Rattle.glue_published.specs.Clash.{thing_clash};
ghost use Rattle.glue_public.specs.Described as described;
ghost use Rattle.glue_naming.specs.Naming as naming;
ghost use Rattle.glue_context.specs.ExportedItems as words;
ghost use Rattle.glue_context.specs.Items as spec;

use crate::function::{adapter_function, form_of, words_of};
use crate::noted::note_lines;
use glue_exports::push_note_of;
use glue_imports::Basis;
use glue_naming::function_name;
use glue_public::{lone_functions, unclashed_items};
use glue_scope::Names;
use glue_shared::{AuxExport, NameMap};
use glue_steps::Indexed;
use glue_words::{Item, Role, Thing, Word, WordBuilder, key};
use std::alloc::{AllocError, Global};
use values::{Duplicate, Seq, Text};

// The declaration of a function, behind the note of these lines.
fn declare_function(
    alloc: Global,
    export: &AuxExport,
    lines: &[Text],
    name: &Text,
    function: Seq<Word>,
) -> Result<Item, AllocError>
    ensures item { IfOk result (λ item. item ≡ words.declare_item lines.now export.now.adapter name.now function) }
{
    let mut words = WordBuilder::new(alloc);
    push_note_of(&mut words, lines)?;
    words.key(key::FUNCTION)?;
    words.space()?;
    words.push(Word::Bind(name.copy(alloc)?))?;
    words.append(function)?;
    words.line_feed()?;
    Ok(Item {
        role: Role::Declare(Thing::Adapter(export.adapter.0)),
        words: words.finish(),
    })
}

// The name that the function of an export was given.
#[tactic(auto, using(glue_naming::proofs::Functions::named_found, glue_naming::proofs::Functions::named_some))]
fn declared_name<'a>(
    alloc: Global,
    names: &'a NameMap,
    export: &AuxExport,
) -> Result<&'a Text, AllocError>
    requires named { naming.is_named names.now export.now ≡ true }
    ensures name { IfOk result (λ name. name.now ≡ naming.declared_name names.now export.now) }
{
    match function_name(alloc, names, export)? {
        Some(name) => Ok(name),
        None => unreachable!(),
    }
}

// The name of a function and its declaration.
fn function_items<N: Names>(
    alloc: Global,
    basis: &Basis<'_>,
    indexed: &Indexed<'_>,
    export: &AuxExport,
) -> Result<(Text, Seq<Item>), AllocError>
    requires bindable { spec.is_bindable basis.now.settings.now basis.now.names.now indexed.now export.now ≡ true }
    requires named { naming.is_named basis.now.names.now export.now ≡ true }
    ensures items { IfOk result (λ items. spec.AreFunctionItems basis.now.settings.now basis.now.names.now indexed.now export.now items) }
{
    let function = adapter_function::<N>(
        alloc,
        basis,
        indexed,
        export.adapter,
        form_of(export),
        &export.args,
        &[],
    )?;
    let name = declared_name(alloc, basis.names, export)?;
    let params = function.params.as_slice();
    let lines = note_lines(alloc, basis, indexed.lowered(), export, params)?;
    let item = declare_function(alloc, export, lines.as_slice(), name, words_of(function))?;
    let items = Seq::from_vec(vec![in alloc; item]?);
    Ok((name.copy(alloc)?, items))
}

// The names and declarations of these functions.
#[tactic(auto, using(crate::proofs::Lists::item_steps))]
fn each_function<N: Names>(
    alloc: Global,
    basis: &Basis<'_>,
    indexed: &Indexed<'_>,
    exports: &[&AuxExport],
) -> Result<Seq<(Text, Seq<Item>)>, AllocError>
    requires bindable { list_all (spec.is_bindable basis.now.settings.now basis.now.names.now indexed.now) (map (λ e. e.now) exports.now) ≡ true }
    requires named { list_all (naming.is_named basis.now.names.now) (map (λ e. e.now) exports.now) ≡ true }
    ensures functions { IfOk result (λ functions. AllZip (spec.AreFunctionItems basis.now.settings.now basis.now.names.now indexed.now) (map (λ e. e.now) exports.now) functions) }
{
    let mut functions = Seq::new(alloc);
    for export in exports {
        functions.push(function_items::<N>(alloc, basis, indexed, export)?)?;
    }
    Ok(functions)
}

/// The items that declare and publish what a description asks for, where the check has found steps for each function, each was given a name,
/// and no two things clash. Want of memory is the only error.
pub(crate) fn published_items<N: Names>(
    alloc: Global,
    basis: &Basis<'_>,
    indexed: &Indexed<'_>,
) -> Result<Seq<Item>, AllocError>
    requires bindable { list_all (spec.is_bindable basis.now.settings.now basis.now.names.now indexed.now) indexed.now.aux.exports ≡ true }
    requires named { list_all (naming.is_named basis.now.names.now) indexed.now.aux.exports ≡ true }
    requires apart { thing_clash basis.now.settings.now indexed.now.aux ≡ None }
    ensures items { IfOk result (λ items. spec.AreTreeItems basis.now.settings.now basis.now.names.now indexed.now items) }
{
    let aux = &indexed.lowered().aux;
    let lone = lone_functions(alloc, aux.exports.as_slice())?;
    let functions = each_function::<N>(alloc, basis, indexed, lone.as_slice())?;
    let items = unclashed_items(alloc, aux, basis.names, &[], functions)?;
    Ok(items)
}

/// The items of groups, one group behind the other. Want of memory is the only error.
pub(crate) fn joined(alloc: Global, groups: Seq<Seq<Item>>) -> Result<Seq<Item>, AllocError>
    ensures items { IfOk result (λ items. items ≡ spec.joined_groups groups) }
{
    let mut items = Seq::new(alloc);
    for group in groups.into_vec() {
        items.append(group)?;
    }
    Ok(items)
}
