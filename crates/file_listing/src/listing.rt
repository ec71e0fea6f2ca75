//! A listing, file by file.
ghost use Rattle.std.specs.Prelude.{◌≡◌, ◌≢◌, List, MatchOption, IfOk, IfErr};
ghost use Rattle.glue_ends.specs.Listing.{listing};
ghost use Rattle.glue_ends.specs.declared.plan.PlannedFile.{PlannedFile};
ghost use Rattle.file_listing.specs.Reading as spec;

use crate::body::body_at;
use crate::heading::heading_at;
use crate::lines::first_line;
use glue_ends::PlannedFile;
use std::alloc::{AllocError, Global};
use values::{Seq, Text};

/// A text that is no listing.
#[derive(Clone, Copy, Debug, PartialEq, Eq)]
pub struct ListingFault {
    /// How many bytes of the text are the listing of files; at this place it goes on with what is no file's part.
    pub place: usize,
}

// A file, and what stands behind its part.
#[derive(Drop)]
struct Entry<'a> {
    file: PlannedFile,
    rest: &'a [u8],
}

// The file whose part stands at the head of a text.
fn entry_at(alloc: Global, text: &[u8]) -> Result<Option<Entry<'_>>, AllocError>
    ensures { IfOk result (λ entry. MatchOption entry (spec.HasNoEntry text.now) (λ e. spec.IsEntryOf text.now e.file e.rest.now)) }
{
    let Some((line, rest)) = first_line(text) else {
        return Ok(None);
    };
    let said = heading_at(alloc, line)?;
    let Some(heading) = said else {
        return Ok(None);
    };
    let shown = body_at(alloc, heading.is_text, heading.count, rest)?;
    let Some(body) = shown else {
        return Ok(None);
    };
    let file = PlannedFile {
        path: Text::from_str(alloc, heading.path)?,
        bytes: body.bytes,
        is_text: heading.is_text,
    };
    Ok(Some(Entry {
        file,
        rest: body.rest,
    }))
}

/// The files whose listing a text is, or the place from which on it is none. Want of memory is the only other error.
pub fn read_listing(
    alloc: Global,
    text: &[u8],
) -> Result<Result<Seq<PlannedFile>, ListingFault>, AllocError>
    ensures read { IfOk result (λ answer. IfOk answer (λ files. (listing files ≡ text.now) × spec.AreListable files)) }
    ensures exact { IfOk result (λ answer. (files : List PlannedFile) → spec.AreListable files → listing files ≡ text.now → answer ≡ Ok files) }
    ensures refused { IfOk result (λ answer. IfErr answer (λ fault. (files : List PlannedFile) → spec.AreListable files → listing files ≢ text.now)) }
    ensures fault { IfOk result (λ answer. IfErr answer (λ fault. spec.IsFault text.now fault.place)) }
{
    let mut files = Seq::new(alloc);
    let mut rest = text;
    while !rest.is_empty() {
        let read = entry_at(alloc, rest)?;
        let Some(entry) = read else {
            return Ok(Err(ListingFault {
                place: text.len() - rest.len(),
            }));
        };
        files.push(entry.file)?;
        rest = entry.rest;
    }
    Ok(Ok(files))
}
