//! Entries with their sweeps.
ghost use Rattle.std.specs.Prelude.{◌≡◌, IfOk, map};
ghost use Rattle.glue_order.specs.Order.{IsArranged};
ghost use Rattle.glue_order.specs.Walks as spec;

use crate::entry::ExportEntry;
use crate::walks::Walk;
use std::alloc::{AllocError, Global};
use std::cmp::Ordering;
use values::{Seq, Text};

/// An entry of a level.
#[derive(Debug, Drop)]
pub(crate) struct Ranked {
    /// Its sweep.
    sweep: usize,
    /// Its name on the level.
    name: Text,
    /// What stands there.
    entry: ExportEntry,
}

// The sweep of the walk at a place, or 0 past the last.
fn sweep_at(walks: &[Walk], place: usize) -> usize
    ensures sweep { result ≡ spec.sweep_at walks.now place }
{
    match walks.get(place) {
        Some(walk) => walk.sweep,
        None => 0,
    }
}

/// Entries with the sweeps of these walks. Want of memory is the only error.
pub(crate) fn with_sweeps(
    alloc: Global,
    walks: &[Walk],
    level: Seq<(Text, ExportEntry)>,
) -> Result<Vec<Ranked>, AllocError>
    ensures ranked { IfOk result (λ ranked. ranked.items ≡ spec.sweeps_from walks.now 0 level) }
{
    let mut ranked = Vec::new(alloc);
    for (name, entry) in level.into_vec() {
        let sweep = sweep_at(walks, ranked.len());
        ranked.push(Ranked { sweep, name, entry })?;
    }
    Ok(ranked)
}

// Whether an entry comes before another, or after it.
fn rank_order(a: &Ranked, b: &Ranked) -> Ordering
    ensures order { result ≡ spec.rank_order a.now b.now }
{
    match a.sweep.cmp(&b.sweep) {
        Ordering::Equal => a.name.cmp(&b.name),
        order => order,
    }
}

/// Entries by sweep, and then by name. Want of memory is the only error.
pub(crate) fn by_rank(ranked: Vec<Ranked>) -> Result<Vec<Ranked>, AllocError>
    ensures sorted { IfOk result (λ sorted. IsArranged spec.rank_order ranked.items sorted.items) }
{
    let mut sorted = ranked;
    sorted.sort_by(|a, b| rank_order(a, b))?;
    Ok(sorted)
}

/// The entries, without their sweeps. Want of memory is the only error.
pub(crate) fn unranked(
    alloc: Global,
    ranked: Vec<Ranked>,
) -> Result<Seq<(Text, ExportEntry)>, AllocError>
    ensures level { IfOk result (λ level. level ≡ map spec.ranked_entry ranked.items) }
{
    let level = ranked
        .into_iter()
        .map(|ranked| (ranked.name, ranked.entry))
        .collect(alloc)?;
    Ok(Seq::from_vec(level))
}
