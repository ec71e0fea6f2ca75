//! The first problem of a list of planned files.
ghost use Rattle.std.specs.Prelude.{◌≡◌, ◌<◌, length, IfOk, IfSome};
ghost use Rattle.planned_paths.specs.Paths as spec;

use crate::below::is_below;
use crate::heads::{heads_of, is_clash, with_names};
use glue_ends::PlannedFile;
use name_set::NameSet;
use std::alloc::{AllocError, Global};

/// Why a list of files can't be written below a folder, with the file's place in the list, counted from 0.
#[derive(Clone, Copy, Debug, PartialEq, Eq)]
pub enum PathProblem {
    /// The path is absolute, has a step that is empty, `.` or `..`, or has a NUL.
    Astray(usize),

    /// The path is that of an earlier file, or one of the two is a folder of the other.
    Clash(usize),
}

fn first_astray(alloc: Global, files: &[PlannedFile]) -> Result<Option<usize>, AllocError>
    ensures first { IfOk result (λ place. place ≡ spec.first_astray files.now) }
    ensures within { IfOk result (λ place. IfSome place (λ p. p < length files.now)) }
{
    for (place, file) in files.iter().enumerate() {
        if !is_below(alloc, file.path.as_str())? {
            return Ok(Some(place));
        }
    }
    Ok(None)
}

fn first_clash(alloc: Global, files: &[PlannedFile]) -> Result<Option<usize>, AllocError>
    ensures first { IfOk result (λ place. place ≡ spec.first_clash files.now) }
    ensures within { IfOk result (λ place. IfSome place (λ p. p < length files.now)) }
{
    let mut before = NameSet::new(alloc);
    let mut heads = NameSet::new(alloc);
    for (place, file) in files.iter().enumerate() {
        let path = file.path.as_str();
        let own = heads_of(alloc, path)?;
        if is_clash(&before, &heads, path, own.as_slice()) {
            return Ok(Some(place));
        }
        before = before.with(alloc, path)?;
        heads = with_names(alloc, heads, own.as_slice())?;
    }
    Ok(None)
}

/// The first problem of a list of files, or none: the first path that leads elsewhere, and where each leads below the folder, the first file
/// that clashes with an earlier one. Want of memory is the only error.
pub fn problem_of(alloc: Global, files: &[PlannedFile]) -> Result<Option<PathProblem>, AllocError>
    ensures problem { IfOk result (λ problem. problem ≡ spec.problem_in files.now) }
    ensures within { IfOk result (λ problem. IfSome problem (λ p. spec.place_of p < length files.now)) }
{
    if let Some(place) = first_astray(alloc, files)? {
        return Ok(Some(PathProblem::Astray(place)));
    }
    match first_clash(alloc, files)? {
        Some(place) => Ok(Some(PathProblem::Clash(place))),
        None => Ok(None),
    }
}
