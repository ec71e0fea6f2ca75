//! The order of the entries of a level: by sweep and then by name, so that a class stands behind its parent.
ghost use Rattle.std.specs.Prelude.{IfOk};
ghost use Rattle.glue_order.specs.Order as spec;

use crate::entry::{ExportEntry, ExportedNamespace};
use crate::places::first_steps;
use crate::ranks::{by_rank, unranked, with_sweeps};
use crate::walks::far_walks;
use std::alloc::{AllocError, Global};
use values::{Seq, Text};

// The entries of a level by sweep, then by name, and then as they stood. The levels below namespaces stay as they are.
fn arranged_level(
    alloc: Global,
    entries: Seq<(Text, ExportEntry)>,
) -> Result<Seq<(Text, ExportEntry)>, AllocError>
    ensures parents { IfOk result (λ arranged. spec.AreBehindParents entries arranged) }
    ensures arranged { IfOk result (λ arranged. spec.IsArranged (spec.entry_order entries) entries arranged) }
{
    let steps = first_steps(alloc, entries.as_slice())?;
    let walks = far_walks(alloc, &steps)?;
    let ranked = with_sweeps(alloc, &walks, entries)?;
    let sorted = by_rank(ranked)?;
    let level = unranked(alloc, sorted)?;
    Ok(level)
}

// An entry, with the levels inside it sorted.
#[cycle(levels)]
fn sorted_entry(alloc: Global, entry: ExportEntry) -> Result<ExportEntry, AllocError>
    ensures sorted { IfOk result (λ sorted. spec.IsSortedInside entry sorted) }
{
    match entry {
        ExportEntry::Definition(definition) => Ok(ExportEntry::Definition(definition)),
        ExportEntry::Namespace(namespace) => {
            let ExportedNamespace { id, thing, ns } = namespace;
            let ns = topo_sort_class_entries(alloc, ns)?;
            Ok(ExportEntry::Namespace(ExportedNamespace { id, thing, ns }))
        }
    }
}

// The entries of a level as they stand, with the levels inside them sorted.
#[cycle(levels)]
fn sorted_inside(
    alloc: Global,
    entries: Seq<(Text, ExportEntry)>,
) -> Result<Seq<(Text, ExportEntry)>, AllocError>
    ensures sorted { IfOk result (λ inner. spec.AreSortedInside entries inner) }
{
    let mut inner = Seq::new(alloc);
    for (name, entry) in entries.into_vec() {
        inner.push((name, sorted_entry(alloc, entry)?))?;
    }
    Ok(inner)
}

/// The entries of a level and of each level inside it, on each by sweep, then by name, and then as they stood.
///
/// An entry has the sweep 0 without a parent on its level, and else the parent's, plus 1 where its own name is less
/// than the parent's name. So it stands behind its parent. The parent is the first entry of the level that is the class
/// of the parent's name. Where parents come back to an entry, no more of them count than the level has entries.
/// Namespaces keep their identifiers and their things. Want of memory is the only error.
#[cycle(levels)]
pub fn topo_sort_class_entries(
    alloc: Global,
    entries: Seq<(Text, ExportEntry)>,
) -> Result<Seq<(Text, ExportEntry)>, AllocError>
    ensures levels { IfOk result (λ sorted. spec.AreSorted entries sorted) }
{
    let inner = sorted_inside(alloc, entries)?;
    let sorted = arranged_level(alloc, inner)?;
    Ok(sorted)
}
