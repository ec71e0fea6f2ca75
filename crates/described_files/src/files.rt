//! Planned files of snippets and local modules.
ghost use Rattle.std.specs.Prelude.{◌≡◌, ◌++◌, IfOk, OnOk, string_bytes};
ghost use Rattle.described_files.specs.Planned as spec;

use glue_ends::PlannedFile;
use std::alloc::{AllocError, Global};
use values::{Map, Seq, Text};

// A file of a text.
fn text_file(alloc: Global, path: String, text: &str) -> Result<PlannedFile, AllocError>
    ensures file { IfOk result (λ file. file ≡ spec.text_file (string_bytes path) text.now) }
{
    Ok(PlannedFile {
        path: Text::new(path),
        bytes: Seq::from_vec(text.as_bytes().to_vec(alloc)?),
        is_text: true,
    })
}

// The file of a snippet of a crate, at its place there.
fn inline_file(
    alloc: Global,
    name: &str,
    place: usize,
    text: &str,
) -> Result<PlannedFile, AllocError>
    ensures file { IfOk result (λ file. file ≡ spec.inline_file name.now place text.now) }
{
    let path = format!(in alloc; "snippets/{name}/inline{place}.js")?;
    text_file(alloc, path, text)
}

// Appends the files of the snippets of a crate.
fn push_inline(
    alloc: Global,
    files: &mut Seq<PlannedFile>,
    name: &str,
    texts: &[Text],
) -> Result<(), AllocError>
    ensures pushed { OnOk result (files.new ≡ files.old ++ spec.inline_files name.now 0 texts.now) }
{
    for (place, text) in texts.iter().enumerate() {
        files.push(inline_file(alloc, name, place, text.as_str())?)?;
    }
    Ok(())
}

/// The files of the snippets of each crate, crates in order of the bytes of their names: `snippets/`, the crate's name, `/inline`, the
/// snippet's place from 0 on and `.js`. Want of memory is the only error.
pub fn snippet_files(
    alloc: Global,
    snippets: &Map<Text, Seq<Text>>,
) -> Result<Seq<PlannedFile>, AllocError>
    ensures files { IfOk result (λ files. files ≡ spec.snippet_files snippets.now) }
{
    let mut files = Seq::new(alloc);
    for (name, texts) in snippets.iter() {
        push_inline(alloc, &mut files, name.as_str(), texts.as_slice())?;
    }
    Ok(files)
}

// The file of a local module.
fn local_file(alloc: Global, path: &str, text: &str) -> Result<PlannedFile, AllocError>
    ensures file { IfOk result (λ file. file ≡ spec.local_file (path.now, text.now)) }
{
    let path = format!(in alloc; "snippets/{path}")?;
    text_file(alloc, path, text)
}

/// The files of local modules, in order of the bytes of their paths: `snippets/` and the path. Want of memory is the only error.
pub fn local_files(alloc: Global, modules: &Map<Text, Text>) -> Result<Seq<PlannedFile>, AllocError>
    ensures files { IfOk result (λ files. files ≡ spec.local_files modules.now) }
{
    let mut files = Seq::new(alloc);
    for (path, text) in modules.iter() {
        files.push(local_file(alloc, path.as_str(), text.as_str())?)?;
    }
    Ok(files)
}
