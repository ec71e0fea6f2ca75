//! Reading text literals.
ghost use Rattle.std.specs.Prelude.{◌≡◌, IfOk};
ghost use Rattle.glue_marked.specs.Marked as spec;

use crate::literal_bytes::literal_bytes;
use glue_words::{Word, js_string_literal};
use std::alloc::{AllocError, Global};
use values::Text;

/// The word of a text literal, as it is written for its text.
pub fn text_word(alloc: Global, front: &[u8]) -> Result<Option<Word>, AllocError>
    ensures { IfOk result (λ word. word ≡ spec.text_word front.now) }
{
    let Some(bytes) = literal_bytes(alloc, front)? else {
        return Ok(None);
    };
    let Ok(text) = String::from_utf8(bytes) else {
        return Ok(None);
    };
    if js_string_literal(alloc, text.as_str())?.as_bytes() == front {
        Ok(Some(Word::Text(Text::new(text))))
    } else {
        Ok(None)
    }
}
