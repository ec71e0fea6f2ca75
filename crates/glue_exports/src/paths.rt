//! The proper fronts of paths, and sets of them.
ghost use Rattle.std.specs.Prelude.{◌≡◌, ◌<◌, true, IfOk, OnOk, OnErr};
ghost use Rattle.glue_targets.specs.PublicTree as public;
ghost use Rattle.glue_exports.specs.Fronts as spec;

use std::alloc::{AllocError, Global};
use values::{Duplicate, Map, Seq, Text};

/// The most segments that a path may have whose fronts are asked for: the text of what publishes a path has each of its fronts in it, so that
/// it grows with the square of the number of segments.
pub const MAX_SEGMENTS: usize = 1000;

// The fronts of segments that aren't empty, the shortest first, and all of them last.
fn all_fronts(alloc: Global, segments: &[Text]) -> Result<Vec<Seq<Text>>, AllocError>
    ensures fronts { IfOk result (λ fronts. fronts.items ≡ spec.all_fronts segments.now) }
{
    let mut found = Vec::new(alloc);
    let mut front = Seq::new(alloc);
    for segment in segments {
        front.push(segment.copy(alloc)?)?;
        found.push(front.copy(alloc)?)?;
    }
    Ok(found)
}

/// The proper fronts of a path that aren't empty, the shortest first. Want of memory is the only error; it answers a path of more than
/// [`MAX_SEGMENTS`] segments.
#[tactic(auto, using(crate::proofs::Keys::proper_fronts))]
pub fn fronts(alloc: Global, path: &[Text]) -> Result<Vec<Seq<Text>>, AllocError>
    ensures fronts { IfOk result (λ fronts. fronts.items ≡ public.fronts path.now) }
{
    if path.len() > MAX_SEGMENTS {
        return Err(AllocError);
    }
    match path {
        [] => Ok(Vec::new(alloc)),
        [segments @ .., _] => all_fronts(alloc, segments),
    }
}

/// Adds paths to a set of them. Want of memory is the only error, behind which some of them may have been added.
pub fn add_paths(set: &mut Map<Seq<Text>, bool>, paths: Vec<Seq<Text>>) -> Result<(), AllocError>
    ensures added { OnOk result (spec.AreAdded set.old paths.items set.new) }
{
    for path in paths {
        set.insert(path, true)?;
    }
    Ok(())
}
