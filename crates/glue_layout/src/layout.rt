//! Lines and their levels.
ghost use Rattle.std.specs.Prelude.{◌≡◌, ◌==◌, ◌<◌, ◌≤◌, ◌+◌, ◌*◌, ◌++◌, if◌then◌else◌, IfOk, OnOk, length, map, replicate, slice_index, string_bytes};
ghost use Rattle.std.specs.Str.{trim};
ghost use Rattle.std.specs.Str.Lines.{lines};
ghost use Rattle.glue_layout.specs.Layout.{columns, indented, laid_line, level_after, level_at, trimmed_lines};

use std::alloc::{AllocError, Global};

// The level at which a line stands.
#[tactic(auto, unfolding(crate::specs::Layout::level_at))]
fn level_at(level: usize, line: &str) -> usize
    ensures value { result ≡ level_at level line.now }
    ensures below { result ≤ level }
{
    if line.starts_with('}') {
        level.saturating_sub(1)
    } else {
        level
    }
}

// The level of the next line.
#[tactic(auto, unfolding(crate::specs::Layout::level_after))]
fn level_after(level: usize, line: &str) -> usize
    requires { level < usize.MAX }
    ensures value { result ≡ level_after level line.now }
    ensures room { result ≤ level + length line.now }
{
    let own = level_at(level, line);
    if line.ends_with('{') && !line.starts_with('*') {
        own + 1
    } else {
        own
    }
}

// Appends this many levels of four spaces.
fn push_levels(laid: &mut String, count: usize) -> Result<(), AllocError>
    ensures { OnOk result (string_bytes laid.new ≡ string_bytes laid.old ++ replicate (4 * count) 32) }
{
    for _ in 0..count {
        laid.push_str("    ")?;
    }
    Ok(())
}

// The levels before a line, none if it is empty.
#[tactic(auto, unfolding(crate::specs::Layout::columns))]
fn levels_before(level: usize, line: &str) -> usize
    requires { level < usize.MAX }
    ensures { columns level line.now ≡ 4 * result + (if slice_index line.now 0 == 42 then 1 else 0) }
{
    if line.is_empty() {
        0
    } else if line.starts_with('*') {
        level
    } else if line.starts_with(':') || line.starts_with('?') {
        level + 1
    } else {
        level_at(level, line)
    }
}

// Appends the spaces before a line.
fn push_columns(laid: &mut String, level: usize, line: &str) -> Result<(), AllocError>
    requires { level < usize.MAX }
    ensures { OnOk result (string_bytes laid.new ≡ string_bytes laid.old ++ replicate (columns level line.now) 32) }
{
    push_levels(laid, levels_before(level, line))?;
    if line.starts_with('*') {
        return laid.push(' ');
    }
    Ok(())
}

// Appends a trimmed line.
#[tactic(auto, unfolding(crate::specs::Layout::laid_line))]
fn push_line(laid: &mut String, level: usize, line: &str) -> Result<(), AllocError>
    requires { level < usize.MAX }
    ensures { OnOk result (string_bytes laid.new ≡ string_bytes laid.old ++ laid_line level line.now) }
{
    push_columns(laid, level, line)?;
    laid.push_str(line)?;
    laid.push('\n')
}

/// Lays out the lines of a text.
///
/// The text is trimmed, and each of its lines. A level is four spaces. A line that begins with `}` goes one level
/// back first, never below none, and one that ends with `{` goes one level on after it. A line that begins with `:`
/// or `?` gets one more level. A line that begins with `*`, as in a comment, gets one more space, and changes no
/// level. An empty line gets no spaces. Each line ends with a line feed, and the empty text gives the empty text.
pub fn reset_indentation(alloc: Global, text: &str) -> Result<String, AllocError>
    ensures value { IfOk result (λ s. string_bytes s ≡ indented text.now) }

    // The trimmed lines stay in order, and a text that is laid out stays as it is.
    ensures keeps { IfOk result (λ s. map trim (lines (string_bytes s)) ≡ trimmed_lines text.now) }
    ensures twice { indented (indented text.now) ≡ indented text.now }
{
    let mut laid = String::new(alloc);
    let mut level = 0;
    for untrimmed in text.trim().lines() {
        let line = untrimmed.trim();
        push_line(&mut laid, level, line)?;
        level = level_after(level, line);
    }
    Ok(laid)
}
