//! Comments as notes before what they describe.
ghost use Rattle.std.specs.Prelude.{◌≡◌, ◌++◌, IfOk, OnOk};
ghost use Rattle.std.specs.List.{flat_map};
ghost use Rattle.glue_exports.specs.Notes as spec;

use glue_words::{NoteKind, WordBuilder};
use std::alloc::{AllocError, Global};
use values::{Seq, Text};

// A line without the space that it begins with.
fn unspaced(line: &str) -> &str
    ensures line { result.now ≡ spec.unspaced line.now }
{
    match line.strip_prefix(' ') {
        Some(rest) => rest,
        None => line,
    }
}

/// The lines of a comment, as a note has them. Want of memory is the only error.
pub(crate) fn comment_lines(alloc: Global, comment: &str) -> Result<Seq<Text>, AllocError>
    ensures lines { IfOk result (λ lines. lines ≡ spec.comment_lines comment.now) }
{
    let mut lines = Seq::new(alloc);
    for line in comment.lines() {
        lines.push(Text::from_str(alloc, unspaced(line))?)?;
    }
    Ok(lines)
}

/// The lines of a comment that may be missing, as a note has them: without the space that each begins with. Want of memory is the only error.
pub fn lines_of(alloc: Global, comment: &Option<Text>) -> Result<Seq<Text>, AllocError>
    ensures lines { IfOk result (λ lines. lines ≡ spec.lines_of comment.now) }
{
    match comment {
        None => Ok(Seq::new(alloc)),
        Some(text) => comment_lines(alloc, text.as_str()),
    }
}

// A line of a note for each text.
fn push_lines(words: &mut WordBuilder, texts: &[Text]) -> Result<(), AllocError>
    ensures words { OnOk result (words.new ≡ words.old ++ flat_map spec.note_line texts.now) }
{
    for text in texts {
        words.note(NoteKind::Line, text.as_str())?;
        words.line_feed()?;
    }
    Ok(())
}

/// Adds the note of these lines. Want of memory is the only error.
pub(crate) fn push_note(words: &mut WordBuilder, texts: &[Text]) -> Result<(), AllocError>
    ensures words { OnOk result (words.new ≡ words.old ++ spec.note_words texts.now) }
{
    words.note(NoteKind::Open, "")?;
    words.line_feed()?;
    push_lines(words, texts)?;
    words.note(NoteKind::Close, "")?;
    words.line_feed()
}

/// Adds the note of these lines, none where there are none. Want of memory is the only error.
pub fn push_note_of(words: &mut WordBuilder, texts: &[Text]) -> Result<(), AllocError>
    ensures words { OnOk result (words.new ≡ words.old ++ spec.note_of texts.now) }
{
    match texts {
        [] => Ok(()),
        texts => push_note(words, texts),
    }
}

/// Adds the note of a comment, none where it has no lines. Want of memory is the only error.
pub(crate) fn push_comment(
    alloc: Global,
    words: &mut WordBuilder,
    comment: &str,
) -> Result<(), AllocError>
    ensures words { OnOk result (words.new ≡ words.old ++ spec.note_of (spec.comment_lines comment.now)) }
{
    let texts = comment_lines(alloc, comment)?;
    push_note_of(words, texts.as_slice())
}
