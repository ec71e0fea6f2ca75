//! A folder of the file system.
//!
//! What its calls do to the machine is std's to say, and nothing here can check it.
ghost use Rattle.std.specs.Prelude.{◌≡◌, None};

use crate::folder::{Folder, PutFault};
use std::alloc::Global;
use std::fs::{File, OpenFile};
use std::io::Write;
use std::rt::Files;
use std::{fs, io};

// Under how many names of its own a file is tried to be written, before one is found that isn't taken.
const NAMES: u32 = 1000;

/// A folder of the file system. It is made where it isn't there.
#[derive(Drop)]
pub struct RealFolder<'a, R> {
    rt: &'a R,
    root: &'a str,
    faults: u64,
    why: Option<io::Error>,
}

impl<'a, R: Files> RealFolder<'a, R> {
    /// The folder with this path. No file was put yet.
    pub fn new(rt: &'a R, root: &'a str) -> RealFolder<'a, R>
        ensures { result.faults ≡ 0 }
    {
        RealFolder {
            rt,
            root,
            faults: 0,
            why: None,
        }
    }

    /// Why the last file that could not be put was not, as the system says.
    pub fn why(&self) -> Option<&io::Error> {
        self.why.as_ref()
    }
}

// A new file in a folder, under a name that isn't taken.
fn own_file<R: Files>(alloc: Global, rt: &R, folder: &str) -> io::Result<(String, R::File)> {
    for number in 0..NAMES {
        let name = format!(in alloc; "{folder}/.glue_unpack.{number}")?;
        match File::create_new(rt, name.as_str()) {
            Ok(file) => return Ok((name, file)),
            Err(error) => {
                if error.kind() != io::ErrorKind::AlreadyExists {
                    return Err(error);
                }
            }
        }
    }
    Err(io::Error::from(io::ErrorKind::AlreadyExists))
}

// Writes all of a file, up to the disk.
fn write_through<F: OpenFile + Write>(file: &mut F, bytes: &[u8]) -> io::Result<()> {
    file.write_all(bytes)?;
    file.sync_all()
}

// Writes the bytes into a folder, under a name of their own. Where they can't be written, the name is free again.
fn write_own<R: Files>(alloc: Global, rt: &R, folder: &str, bytes: &[u8]) -> io::Result<String> {
    let (name, mut file) = own_file(alloc, rt, folder)?;
    let written = write_through(&mut file, bytes);
    drop(file);
    match written {
        Ok(()) => Ok(name),
        Err(error) => {
            let _ = fs::remove_file(rt, name.as_str());
            Err(error)
        }
    }
}

// Writes the bytes under a name of their own in the folder of the wanted one, and renames them.
fn replace<R: Files>(alloc: Global, rt: &R, target: &str, bytes: &[u8]) -> io::Result<()> {
    let Some((folder, _)) = target.rsplit_once('/') else {
        return Err(io::Error::from(io::ErrorKind::InvalidInput));
    };
    fs::create_dir_all(rt, folder)?;
    let own = write_own(alloc, rt, folder, bytes)?;
    match fs::rename(rt, own.as_str(), target) {
        Ok(()) => Ok(()),
        Err(error) => {
            let _ = fs::remove_file(rt, own.as_str());
            Err(error)
        }
    }
}

fn put_below<R: Files>(
    alloc: Global,
    rt: &R,
    root: &str,
    path: &str,
    bytes: &[u8],
) -> io::Result<()> {
    let target = format!(in alloc; "{root}/{path}")?;
    replace(alloc, rt, target.as_str(), bytes)
}

impl<R: Files> Folder for RealFolder<'_, R> {
    ghost files = { λ _. None };

    ghost faults = { λ s. s.faults };

    fn put(&mut self, alloc: Global, path: &str, bytes: &[u8]) -> Result<(), PutFault> {
        match put_below(alloc, self.rt, self.root, path, bytes) {
            Ok(()) => Ok(()),
            Err(error) => {
                self.faults = self.faults.saturating_add(1);
                self.why = Some(error);
                Err(PutFault::Failed)
            }
        }
    }
}
