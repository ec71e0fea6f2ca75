//! The functions of closures: a declaration for each closure that a function of an adapter makes, to which that function refers.
ghost use Rattle.std.specs.Prelude.{◌≡◌, IfOk, is_some, true};
ghost use Rattle.std.specs.List.{AllZip, list_all};
ghost use Rattle.printed_adapters.specs.Printed as printed;
ghost use Rattle.glue_context.specs.ClosureItems as spec;

use crate::function::{adapter_function, words_of};
use glue_imports::Basis;
use glue_operands::usual_form;
use glue_scope::Names;
use glue_shared::AdapterId;
use glue_steps::{Indexed, callback_name};
use glue_words::{Item, Role, Word, WordBuilder, key};
use printed_adapters::used_closures;
use std::alloc::{AllocError, Global};
use values::{Duplicate, Seq, Text};

// The declaration of a function, which nothing publishes.
fn declare_closure(alloc: Global, name: &Text, function: Seq<Word>) -> Result<Item, AllocError>
    ensures item { IfOk result (λ item. item ≡ spec.closure_item name.now function) }
{
    let mut words = WordBuilder::new(alloc);
    words.key(key::FUNCTION)?;
    words.space()?;
    words.push(Word::Bind(name.copy(alloc)?))?;
    words.append(function)?;
    words.line_feed()?;
    Ok(Item {
        role: Role::Body,
        words: words.finish(),
    })
}

// The declaration of the function of a closure's adapter.
fn closure_item<N: Names>(
    alloc: Global,
    basis: &Basis<'_>,
    indexed: &Indexed<'_>,
    id: AdapterId,
) -> Result<Item, AllocError>
    requires declarable { spec.is_declarable basis.now.settings.now basis.now.names.now indexed.now id ≡ true }
    ensures item { IfOk result (λ item. spec.IsClosureItem basis.now.settings.now basis.now.names.now indexed.now id item) }
{
    let none = Seq::new(alloc);
    let function = adapter_function::<N>(alloc, basis, indexed, id, usual_form(), &none, &[])?;
    match callback_name(indexed, id) {
        Some(name) => declare_closure(alloc, name, words_of(function)),
        None => unreachable!(),
    }
}

// The declarations of the functions of these adapters.
#[tactic(auto, using(crate::proofs::Lists::item_steps))]
fn closure_items<N: Names>(
    alloc: Global,
    basis: &Basis<'_>,
    indexed: &Indexed<'_>,
    ids: &[AdapterId],
) -> Result<Seq<Item>, AllocError>
    requires declarable { list_all (spec.is_declarable basis.now.settings.now basis.now.names.now indexed.now) ids.now ≡ true }
    ensures items { IfOk result (λ items. AllZip (spec.IsClosureItem basis.now.settings.now basis.now.names.now indexed.now) ids.now items) }
{
    let mut items = Seq::new(alloc);
    for id in ids {
        items.push(closure_item::<N>(alloc, basis, indexed, *id)?)?;
    }
    Ok(items)
}

/// The declarations of the functions of closures that functions of adapters make, by the ids of the closures' adapters, where the check has found
/// steps and a name for each. Want of memory is the only error.
pub(crate) fn closure_functions<N: Names>(
    alloc: Global,
    basis: &Basis<'_>,
    indexed: &Indexed<'_>,
) -> Result<Seq<Item>, AllocError>
    requires declarable { list_all (spec.is_declarable basis.now.settings.now basis.now.names.now indexed.now) (printed.used_closures basis.now.settings.now indexed.now) ≡ true }
    ensures items { IfOk result (λ items. spec.AreClosures basis.now.settings.now basis.now.names.now indexed.now items) }
{
    let lowered = indexed.lowered();
    // No two adapters have one id, so that no closure stands twice.
    let _count = lowered.wit.adapters.len();
    let ids = used_closures(alloc, basis.settings, lowered)?;
    let items = closure_items::<N>(alloc, basis, indexed, ids.as_slice())?;
    Ok(items)
}
