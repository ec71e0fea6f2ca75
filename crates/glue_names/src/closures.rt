//! The names of the exports after which functions of closures' adapters are named.
ghost use Rattle.std.specs.Prelude.{◌≡◌, ◌++◌, ◌∷◌, [], IfOk, OnOk, if◌then◌else◌, is_some};
ghost use Rattle.std.specs.BTreeMap.{insert_entry};
ghost use Rattle.std.specs.List.{flat_map};
ghost use Rattle.std.specs.Option.{option_copied, option_to_list};
ghost use Rattle.values.specs.Map.{look_up};
ghost use Rattle.glue_names.specs.Given as spec;
ghost use Rattle.glue_names.specs.Once as once_spec;
ghost use Rattle.glue_names.specs.Once.{number_pair_order};

use glue_shared::{AdapterId, Lowered};
use std::alloc::{AllocError, Global};
use values::{Duplicate, Map, Seq, Text};
use wasm_core::{Export, ExportId, Module};

// Adds a pair, where it hasn't come yet.
fn push_pair(
    seen: &mut Map<(u32, u32), ()>,
    pair: (ExportId, AdapterId),
    once: &mut Seq<(ExportId, AdapterId)>,
) -> Result<(), AllocError>
    ensures seen { OnOk result (seen.new ≡ insert_entry number_pair_order seen.old (pair.0.0, pair.1) tt) }
    ensures pushed { OnOk result (once.new ≡ once.old ++ (if is_some (look_up number_pair_order seen.old (pair.0.0, pair.1)) then [] else pair ∷ [])) }
{
    if seen.insert((pair.0.0, pair.1.0), ())?.is_none() {
        once.push(pair)?;
    }
    Ok(())
}

// Each of these pairs once, where it comes first.
fn each_pair(
    alloc: Global,
    pairs: &[(ExportId, AdapterId)],
) -> Result<Seq<(ExportId, AdapterId)>, AllocError>
    ensures once { IfOk result (λ once. once ≡ once_spec.each_pair pairs.now) }
{
    let mut seen = Map::new(alloc);
    let mut once = Seq::new(alloc);
    for pair in pairs {
        push_pair(&mut seen, *pair, &mut once)?;
    }
    Ok(once)
}

// The name of an export, where one stands.
fn export_name(exports: &[Option<Export>], id: ExportId) -> Option<&Text>
    ensures name { option_to_list (option_copied result) ≡ spec.export_name_at exports.now id.0 }
{
    match exports.get(id.0 as usize) {
        Some(Some(export)) => Some(&export.name),
        Some(None) | None => None,
    }
}

// Adds the name, where there is one.
#[tactic(auto, using(crate::proofs::ClosureNames::none_behind))]
fn push_name(alloc: Global, name: Option<&Text>, list: &mut Seq<Text>) -> Result<(), AllocError>
    ensures pushed { OnOk result (list.new ≡ list.old ++ option_to_list (option_copied name.entry)) }
{
    match name {
        Some(name) => list.push(name.copy(alloc)?),
        None => Ok(()),
    }
}

// Adds those of these pairs.
fn push_names(
    alloc: Global,
    module: &Module,
    pairs: &[(ExportId, AdapterId)],
    list: &mut Seq<Text>,
) -> Result<(), AllocError>
    ensures pushed { OnOk result (list.new ≡ list.old ++ flat_map (spec.closure_export «module».now) pairs.now) }
{
    for pair in pairs {
        push_name(alloc, export_name(module.exports(), pair.0), list)?;
    }
    Ok(())
}

/// Adds the names of the exports after which functions of closures' adapters are named, of each export and adapter once. Want of memory is the only
/// error.
pub fn push_closure_names(
    alloc: Global,
    lowered: &Lowered,
    list: &mut Seq<Text>,
) -> Result<(), AllocError>
    ensures pushed { OnOk result (list.new ≡ list.old ++ spec.closure_names lowered.now) }
{
    let once = each_pair(alloc, lowered.wit.exports.as_slice())?;
    push_names(alloc, &lowered.module, once.as_slice(), list)
}
