//! The helpers of a glue file as a table of `helper_set`.
ghost use Rattle.std.specs.Prelude.{◌≡◌, IfOk};
ghost use Rattle.helper_table.specs.Closed as closed;

use crate::items::{count, helper_words, is_there};
use crate::parts::HelperParts;
use crate::reading::{binds, find_binder, find_key, helper_key};
use glue_words::Word;
use helper_set::Table;
use std::alloc::{AllocError, Global};
use values::{Seq, Text};

/// The helpers of a glue file with these parts.
#[derive(Debug, Clone, Copy)]
pub struct HelperTable<'a> {
    pub parts: &'a HelperParts,
}

/// The helper that binds a name, where it is there. Want of memory is the only error.
pub fn binder(alloc: Global, parts: &HelperParts, name: &str) -> Result<Option<usize>, AllocError>
    ensures binder { IfOk result (λ found. found ≡ closed.binder parts.now name.now) }
{
    let Some(node) = find_binder(alloc, name)? else {
        return Ok(None);
    };
    if node >= count(parts) {
        return Ok(None);
    }
    let words = helper_words(alloc, parts, node)?;
    if binds(words.as_slice(), name) {
        Ok(Some(node))
    } else {
        Ok(None)
    }
}

/// The helper with a key, where it is there. Want of memory is the only error.
pub fn keyed(alloc: Global, parts: &HelperParts, key: &str) -> Result<Option<usize>, AllocError>
    ensures keyed { IfOk result (λ found. found ≡ closed.keyed parts.now key.now) }
{
    let Some(node) = find_key(alloc, key)? else {
        return Ok(None);
    };
    if node >= count(parts) {
        return Ok(None);
    }
    if is_there(alloc, parts, node)? {
        Ok(Some(node))
    } else {
        Ok(None)
    }
}

impl<'a> Table for HelperTable<'a> {
    ghost use Rattle.helper_table.specs.Made as spec;
    ghost use Rattle.helper_table.specs.Closed as closed;
    ghost use Rattle.helper_table.specs.Laws.{binds_law, finds_law, apart_law};

    ghost count = { λ t. spec.count t.parts.now };

    ghost key = { λ t i. spec.helper_key i };

    ghost words = { λ t i. spec.helper_words t.parts.now i };

    ghost binder = { λ t name. closed.binder t.parts.now name };

    fn count(&self) -> usize {
        count(self.parts)
    }

    fn key(&self, alloc: Global, node: usize) -> Result<Text, AllocError> {
        helper_key(alloc, node)
    }

    fn words(&self, alloc: Global, node: usize) -> Result<Seq<Word>, AllocError> {
        helper_words(alloc, self.parts, node)
    }

    fn binder(&self, alloc: Global, name: &str) -> Result<Option<usize>, AllocError> {
        binder(alloc, self.parts, name)
    }

    ghost binds = { λ t name i e. binds_law t.parts.now name i e };

    ghost finds = { λ t name i lt h. finds_law t.parts.now name i lt h };

    ghost apart = { λ t i j a b e. apart_law t.parts.now i j a b e };
}
