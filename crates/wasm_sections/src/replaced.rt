//! The file that is left where custom sections go, and one that is put at its end.

ghost use Rattle.std.specs.Prelude.{◌≡◌, ◌≢◌, ◌++◌, length, codes, Ok, Some, IfOk, IfErr, OnOk};
ghost use Rattle.std.specs.List.{All, flat_map, list_any};
ghost use Rattle.wasm_core.specs.Parsing.{read_fault};
ghost use Rattle.wasm_core.specs.declared.faults.ParseFault.TheVariants.{OutOfMemory};
ghost use Rattle.wasm_sections.specs.Going.{is_going};
ghost use Rattle.wasm_sections.specs.Replaced.{IsInside, is_description_name, is_custom, kept_frame, put_section, replaced_frames, replaced, split_debug_info, described, has_description};

use crate::going::Going;
use std::alloc::{AllocError, Global};
use wasm_bytes::write_name;
use wasm_core::{ParseFault, Section, sections};
use wasm_file::write_section;

/// Appends a section, unless it goes.
fn push_frame(
    out: &mut Vec<u8>,
    wasm: &[u8],
    frame: &Section,
    going: Going,
) -> Result<(), AllocError>
    requires inside { IsInside (length wasm.now) frame.now }
    ensures { OnOk result (out.new.items ≡ out.old.items ++ kept_frame (is_going going) wasm.now frame.now) }
{
    if going.has(frame) {
        return Ok(());
    }
    out.extend_from_slice(&wasm[frame.begin..frame.end])
}

/// Appends the sections that don't go.
fn push_kept(
    out: &mut Vec<u8>,
    wasm: &[u8],
    frames: &[Section],
    going: Going,
) -> Result<(), AllocError>
    requires inside { All (IsInside (length wasm.now)) frames.now }
    ensures { OnOk result (out.new.items ≡ out.old.items ++ flat_map (kept_frame (is_going going) wasm.now) frames.now) }
{
    for frame in frames {
        push_frame(out, wasm, frame, going)?;
    }
    Ok(())
}

/// Appends a custom section.
#[tactic(auto, unfolding(wasm_file::specs::Spelling::custom_bytes, crate::specs::Replaced::put_section))]
fn push_custom(
    alloc: Global,
    out: &mut Vec<u8>,
    name: &str,
    content: &[u8],
) -> Result<(), AllocError>
    ensures { OnOk result (out.new.items ≡ out.old.items ++ put_section name.now content.now) }
{
    let mut bytes = Vec::new(alloc);
    write_name(&mut bytes, name)?;
    bytes.extend_from_slice(content)?;
    write_section(out, 0, &bytes)
}

/// The file of these frames without the sections that go, and with one at its end.
#[tactic(auto, unfolding(crate::specs::Replaced::replaced_frames))]
fn replaced_of(
    alloc: Global,
    wasm: &[u8],
    frames: &[Section],
    going: Going,
    name: &str,
    content: &[u8],
) -> Result<Vec<u8>, AllocError>
    requires inside { All (IsInside (length wasm.now)) frames.now }
    ensures { IfOk result (λ v. v.items ≡ replaced_frames (is_going going) name.now content.now wasm.now frames.now) }
{
    let mut out = Vec::new(alloc);
    out.extend_from_slice(b"\0asm\x01\0\0\0")?;
    push_kept(&mut out, wasm, frames, going)?;
    push_custom(alloc, &mut out, name, content)?;
    Ok(out)
}

/// The file without the sections that go, and with one at its end.
#[tactic(auto, unfolding(crate::specs::Replaced::replaced))]
fn replace(
    alloc: Global,
    wasm: &[u8],
    going: Going,
    name: &str,
    content: &[u8],
) -> Result<Vec<u8>, ParseFault>
    ensures ok { IfOk result (λ v. replaced (is_going going) name.now content.now wasm.now ≡ Ok v.items) }
    ensures err { IfErr result (λ e. e ≢ OutOfMemory → read_fault (replaced (is_going going) name.now content.now wasm.now) ≡ Some e) }
{
    let frames = sections(alloc, wasm)?;
    Ok(replaced_of(alloc, wasm, &frames, going, name, content)?)
}

/// The file without its debugging information, of which it tells where it is: without the custom sections `.debug_*`, the
/// other sections byte for byte and in order, and then the custom section `external_debug_info` whose content is the
/// address as a name (WebAssembly tool conventions, External DWARF). Nothing but frames is read.
///
/// `Parse` where the bytes are no frames: the place of the first fault, as `sections` has it.
#[tactic(auto, unfolding(crate::specs::Replaced::split_debug_info))]
pub fn split_debug_info(alloc: Global, wasm: &[u8], url: &str) -> Result<Vec<u8>, ParseFault>
    ensures ok { IfOk result (λ v. split_debug_info url.now wasm.now ≡ Ok v.items) }
    ensures err { IfErr result (λ e. e ≢ OutOfMemory → read_fault (split_debug_info url.now wasm.now) ≡ Some e) }
{
    let mut content = Vec::new(alloc);
    write_name(&mut content, url)?;
    replace(
        alloc,
        wasm,
        Going::DebugInfo,
        "external_debug_info",
        &content,
    )
}

/// The file with this description: without earlier custom sections `__wbg_glue`, the other sections byte for byte and in
/// order, and then the custom section `__wbg_glue` that holds these bytes. They aren't read.
///
/// `Parse` where the bytes are no frames: the place of the first fault, as `sections` has it.
#[tactic(auto, unfolding(crate::specs::Replaced::described))]
pub fn describe(alloc: Global, wasm: &[u8], description: &[u8]) -> Result<Vec<u8>, ParseFault>
    ensures ok { IfOk result (λ v. described description.now wasm.now ≡ Ok v.items) }
    ensures err { IfErr result (λ e. e ≢ OutOfMemory → read_fault (described description.now wasm.now) ≡ Some e) }
{
    replace(alloc, wasm, Going::Description, "__wbg_glue", description)
}

/// Whether one of these sections is a description.
fn is_any_description(frames: &[Section]) -> bool
    ensures { result ≡ list_any (is_custom is_description_name) frames.now }
{
    frames.iter().any(|frame| Going::Description.has(frame))
}

/// Whether the file has a custom section `__wbg_glue`.
///
/// `Parse` where the bytes are no frames: the place of the first fault, as `sections` has it.
#[tactic(auto, unfolding(crate::specs::Replaced::has_description))]
pub fn has_description(alloc: Global, wasm: &[u8]) -> Result<bool, ParseFault>
    ensures ok { IfOk result (λ has. has_description wasm.now ≡ Ok has) }
    ensures err { IfErr result (λ e. e ≢ OutOfMemory → read_fault (has_description wasm.now) ≡ Some e) }
{
    let frames = sections(alloc, wasm)?;
    Ok(is_any_description(&frames))
}
