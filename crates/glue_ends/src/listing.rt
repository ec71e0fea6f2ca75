//! The listing of planned files.
ghost use Rattle.std.specs.Prelude.{◌≡◌, ◌≤◌, IfOk, OnOk, string_bytes};
ghost use Rattle.std.specs.Io.KnownBytes.{Appends};
ghost use Rattle.glue_ends.specs.Causes.{AppendsPrefix};
ghost use Rattle.values.specs.Count.{Rose};
ghost use Rattle.glue_ends.specs.Listing.{heading, heading_text, entry, listing, shown_bytes, form_word};

use crate::plan::PlannedFile;
use crate::sink::{Sink, WriteFault};
use std::alloc::{AllocError, Global};

fn word_of(is_text: bool) -> &'static str
    ensures { result.now ≡ form_word is_text }
{
    if is_text { "text" } else { "hex" }
}

#[tactic(auto, unfolding(crate::specs::Listing::heading_text))]
fn line_of(alloc: Global, path: &str, word: &str, count: usize) -> Result<String, AllocError>
    ensures { IfOk result (λ s. string_bytes s ≡ heading_text path.now word.now count) }
{
    format!(in alloc; "file {path} {word} {count}\n")
}

fn heading_of(alloc: Global, file: &PlannedFile) -> Result<String, AllocError>
    ensures { IfOk result (λ s. string_bytes s ≡ heading file.now) }
{
    line_of(
        alloc,
        file.path.as_str(),
        word_of(file.is_text),
        file.bytes.as_slice().len(),
    )
}

// Writes a file's first line.
fn write_heading<O: Sink>(
    alloc: Global,
    file: &PlannedFile,
    output: &mut O,
) -> Result<(), WriteFault>
    ensures ok { OnOk result (Appends (O.taken output.old) (O.taken output.new) (heading file.now)) }
    ensures prefix { AppendsPrefix (O.taken output.old) (O.taken output.new) (heading file.now) }
    ensures later { O.faults output.old ≤ O.faults output.new }
    ensures failed { result ≡ Err WriteFault.Failed → Rose (O.faults output.old) (O.faults output.new) }
    ensures kept { OnOk result (O.faults output.new ≡ O.faults output.old) }
{
    let line = heading_of(alloc, file)?;
    output.write_all(line.as_str().as_bytes())
}

// Writes a file's bytes as they are listed.
fn write_bytes<O: Sink>(alloc: Global, file: &PlannedFile, output: &mut O) -> Result<(), WriteFault>
    ensures ok { OnOk result (Appends (O.taken output.old) (O.taken output.new) (shown_bytes file.now.is_text file.now.bytes)) }
    ensures prefix { AppendsPrefix (O.taken output.old) (O.taken output.new) (shown_bytes file.now.is_text file.now.bytes) }
    ensures later { O.faults output.old ≤ O.faults output.new }
    ensures failed { result ≡ Err WriteFault.Failed → Rose (O.faults output.old) (O.faults output.new) }
    ensures kept { OnOk result (O.faults output.new ≡ O.faults output.old) }
{
    if file.is_text {
        output.write_all(file.bytes.as_slice())
    } else {
        let digits = hex::encode(alloc, file.bytes.as_slice())?;
        output.write_all(digits.as_str().as_bytes())
    }
}

// Writes a file's part of the listing.
fn write_entry<O: Sink>(alloc: Global, file: &PlannedFile, output: &mut O) -> Result<(), WriteFault>
    ensures ok { OnOk result (Appends (O.taken output.old) (O.taken output.new) (entry file.now)) }
    ensures prefix { AppendsPrefix (O.taken output.old) (O.taken output.new) (entry file.now) }
    ensures later { O.faults output.old ≤ O.faults output.new }
    ensures failed { result ≡ Err WriteFault.Failed → Rose (O.faults output.old) (O.faults output.new) }
    ensures kept { OnOk result (O.faults output.new ≡ O.faults output.old) }
{
    write_heading(alloc, file, output)?;
    write_bytes(alloc, file, output)?;
    output.write_all(b"\n")
}

/// Writes the listing of the files, by three calls for each: the line `file {path} text {count}` or
/// `file {path} hex {count}`, where the count is that of the bytes; the bytes, or two lower-case digits for each;
/// and a line feed.
///
/// After a refusal a prefix of the listing was written. `Failed` comes where a write failed, and
/// with `Ok` none failed: their count stays.
pub fn write_files<O: Sink>(
    alloc: Global,
    files: &[PlannedFile],
    output: &mut O,
) -> Result<(), WriteFault>
    ensures ok { OnOk result (Appends (O.taken output.old) (O.taken output.new) (listing files.now)) }
    ensures prefix { AppendsPrefix (O.taken output.old) (O.taken output.new) (listing files.now) }
    ensures later { O.faults output.old ≤ O.faults output.new }
    ensures failed { result ≡ Err WriteFault.Failed → Rose (O.faults output.old) (O.faults output.new) }
    ensures kept { OnOk result (O.faults output.new ≡ O.faults output.old) }
{
    for file in files {
        write_entry(alloc, file, output)?;
    }
    Ok(())
}
