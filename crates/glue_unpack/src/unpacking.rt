//! Unpacking a listing.
ghost use Rattle.std.specs.Prelude.{◌≡◌, ◌≤◌, ◌<◌, List, length, map, IfOk, IfErr, OnOk, None};
ghost use Rattle.values.specs.Count.{Rose};
ghost use Rattle.glue_ends.specs.Listing as listed;
ghost use Rattle.glue_ends.specs.declared.plan.PlannedFile.{PlannedFile};
ghost use Rattle.planned_paths.specs.Paths.{problem_in};
ghost use Rattle.file_listing.specs.Reading.{AreListable};
ghost use Rattle.glue_unpack.specs.Putting as spec;
ghost use Rattle.glue_unpack.specs.Unpacking as told;
ghost use Rattle.glue_unpack.specs.declared.fault.UnpackFault.TheVariants.{OutOfMemory};

use crate::fault::UnpackFault;
use crate::folder::{Folder, PutFault};
use crate::stop::Stop;
use file_listing::read_listing;
use glue_ends::PlannedFile;
use planned_paths::{PathProblem, problem_of};
use std::alloc::{AllocError, Global};
use values::Text;

// Puts the files one after another, up to the first that can't be put.
fn put_all<F: Folder>(alloc: Global, files: &[PlannedFile], folder: &mut F) -> Result<(), Stop>
    ensures done { OnOk result (spec.Puts (F.files folder.old) (F.files folder.new) (map spec.put_of files.now)) }
    ensures stopped { IfErr result (λ stop. told.IsStop files.now (F.files folder.old) (F.files folder.new) (F.faults folder.old) (F.faults folder.new) stop) }
    ensures later { F.faults folder.old ≤ F.faults folder.new }
    ensures kept { OnOk result (F.faults folder.new ≡ F.faults folder.old) }
{
    for (place, file) in files.iter().enumerate() {
        match folder.put(alloc, file.path.as_str(), file.bytes.as_slice()) {
            Ok(()) => {}
            Err(PutFault::Failed) => return Err(Stop::At(place)),
            Err(PutFault::OutOfMemory) => return Err(Stop::OutOfMemory),
        }
    }
    Ok(())
}

// The path of the file at a place.
fn path_at(alloc: Global, files: &[PlannedFile], place: usize) -> Result<Text, AllocError>
    requires { place < length files.now }
    ensures { IfOk result (λ path. told.IsNamed files.now place path) }
{
    Text::from_str(alloc, files[place].path.as_str())
}

// Puts files whose paths have no problem.
fn put_planned<F: Folder>(
    alloc: Global,
    files: &[PlannedFile],
    folder: &mut F,
) -> Result<usize, UnpackFault>
    requires { problem_in files.now ≡ None }
    ensures done { IfOk result (λ count. told.IsAllPut files.now (F.files folder.old) (F.files folder.new) count) }
    ensures refused { IfErr result (told.IsRefusal files.now (F.files folder.old) (F.files folder.new) (F.faults folder.old) (F.faults folder.new)) }
    ensures later { F.faults folder.old ≤ F.faults folder.new }
    ensures kept { OnOk result (F.faults folder.new ≡ F.faults folder.old) }
{
    match put_all(alloc, files, folder) {
        Ok(()) => Ok(files.len()),
        Err(Stop::OutOfMemory) => Err(UnpackFault::OutOfMemory),
        Err(Stop::At(place)) => {
            let Ok(path) = path_at(alloc, files, place) else {
                return Err(UnpackFault::OutOfMemory);
            };
            Err(UnpackFault::Put(path))
        }
    }
}

// Puts files, or says which path is no path below the folder.
fn put_files<F: Folder>(
    alloc: Global,
    files: &[PlannedFile],
    folder: &mut F,
) -> Result<usize, UnpackFault>
    ensures done { IfOk result (λ count. told.IsAllPut files.now (F.files folder.old) (F.files folder.new) count) }
    ensures refused { IfErr result (told.IsRefusal files.now (F.files folder.old) (F.files folder.new) (F.faults folder.old) (F.faults folder.new)) }
    ensures later { F.faults folder.old ≤ F.faults folder.new }
    ensures kept { OnOk result (F.faults folder.new ≡ F.faults folder.old) }
{
    let Ok(problem) = problem_of(alloc, files) else {
        return Err(UnpackFault::OutOfMemory);
    };
    match problem {
        None => put_planned(alloc, files, folder),
        Some(PathProblem::Astray(place)) => {
            let Ok(path) = path_at(alloc, files, place) else {
                return Err(UnpackFault::OutOfMemory);
            };
            Err(UnpackFault::Astray(path))
        }
        Some(PathProblem::Clash(place)) => {
            let Ok(path) = path_at(alloc, files, place) else {
                return Err(UnpackFault::OutOfMemory);
            };
            Err(UnpackFault::Clash(path))
        }
    }
}

// As `unpack`.
fn unpack_text<F: Folder>(alloc: Global, text: &[u8], folder: &mut F) -> Result<usize, UnpackFault>
    ensures done { IfOk result (told.IsUnpacked text.now (F.files folder.old) (F.files folder.new)) }
    ensures refused { IfErr result (told.IsRefused text.now (F.files folder.old) (F.files folder.new) (F.faults folder.old) (F.faults folder.new)) }
    ensures later { F.faults folder.old ≤ F.faults folder.new }
    ensures kept { OnOk result (F.faults folder.new ≡ F.faults folder.old) }
{
    let Ok(read) = read_listing(alloc, text) else {
        return Err(UnpackFault::OutOfMemory);
    };
    match read {
        Ok(files) => put_files(alloc, files.as_slice(), folder),
        Err(fault) => Err(UnpackFault::Listing(fault)),
    }
}

/// Puts the files of a listing into a folder, in order, and answers how many they are.
///
/// Nothing is put where the text is no listing, or where a path leads elsewhere or clashes with an earlier one. Where a file can't be put,
/// those before it stay, and it is named. Where memory runs out, some of the first files may have been put.
pub fn unpack<F: Folder>(
    alloc: Global,
    listing: &[u8],
    folder: &mut F,
) -> Result<usize, UnpackFault>
    ensures done { IfOk result (told.IsUnpacked listing.now (F.files folder.old) (F.files folder.new)) }
    ensures refused { IfErr result (told.IsRefused listing.now (F.files folder.old) (F.files folder.new) (F.faults folder.old) (F.faults folder.new)) }
    ensures complete { (files : List PlannedFile) → AreListable files → listed.listing files ≡ listing.now → problem_in files ≡ None →
        ¬ Rose (F.faults folder.old) (F.faults folder.new) → IfErr result (λ fault. fault ≡ OutOfMemory) }
    ensures later { F.faults folder.old ≤ F.faults folder.new }
    ensures kept { OnOk result (F.faults folder.new ≡ F.faults folder.old) }
{
    unpack_text(alloc, listing, folder)
}
