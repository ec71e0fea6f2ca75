//! Sections that are to be written.

ghost use Rattle.std.specs.Prelude.{◌≡◌, ◌++◌, length, IfOk, OnOk};
ghost use Rattle.wasm_bytes.specs.Numbers.{number_bytes};
ghost use Rattle.wasm_file.specs.Spelling.{section_bytes};

use std::alloc::{AllocError, Global};
use std::marker::Model;
use wasm_bytes::push_number;

/// The id and the content of a section (WebAssembly core specification, 5.5.2). A contract sees these two. The content is
/// kept in two buffers, one behind the other, so that a count or a front comes before bytes that are there already without
/// copying them.
#[derive(Drop)]
pub struct SectionContent {
    id: u8,
    head: Vec<u8>,
    entries: Vec<u8>,
}

impl Model for SectionContent {
    ghost use Rattle.std.specs.Prelude.{ℕ, List, ◌++◌};
    ghost use Rattle.std.specs.Coded.{coded×, coded_ℕ, coded_list};

    ghost Value = { ℕ × List ℕ };

    ghost coded = { coded× coded_ℕ (coded_list coded_ℕ) };

    ghost view = { λ s. (s.id, s.head.items ++ s.entries.items) };
}

impl SectionContent {
    /// The section of this id and this content, without taking memory.
    pub fn new(alloc: Global, id: u8, content: Vec<u8>) -> SectionContent
        ensures { result ≡ (id, content.items) }
    {
        SectionContent {
            id,
            head: Vec::new(alloc),
            entries: content,
        }
    }

    /// The section of so many entries with these bytes.
    pub(crate) fn counted(
        alloc: Global,
        id: u8,
        count: usize,
        entries: Vec<u8>,
    ) -> Result<SectionContent, AllocError>
        ensures { IfOk result (λ s. s ≡ (id, number_bytes count ++ entries.items)) }
    {
        let mut head = Vec::new(alloc);
        push_number(&mut head, count as u64)?;
        Ok(SectionContent { id, head, entries })
    }

    /// The section whose content is these bytes and another section behind them.
    pub(crate) fn around(
        id: u8,
        front: Vec<u8>,
        inner: SectionContent,
    ) -> Result<SectionContent, AllocError>
        ensures { IfOk result (λ s. s ≡ (id, front.items ++ section_bytes inner)) }
    {
        let mut head = front;
        write_head(&mut head, inner.id, &inner.head, &inner.entries)?;
        Ok(SectionContent {
            id,
            head,
            entries: inner.entries,
        })
    }

    /// The id.
    pub(crate) fn id(&self) -> u8
        ensures { result ≡ self.now.0 }
    {
        self.id
    }

    /// The number of bytes of the content.
    pub(crate) fn len(&self) -> usize
        ensures { result ≡ length self.now.1 }
    {
        joint_len(&self.head, &self.entries)
    }

    /// Appends the section: its id, and its content behind its length.
    pub(crate) fn write(&self, out: &mut Vec<u8>) -> Result<(), AllocError>
        ensures { OnOk result (out.new.items ≡ out.old.items ++ section_bytes self.now) }
    {
        write_head(out, self.id, &self.head, &self.entries)?;
        out.extend_from_slice(&self.entries)
    }
}

/// The number of bytes of both.
fn joint_len(head: &[u8], entries: &[u8]) -> usize
    ensures { result ≡ length (head.now ++ entries.now) }
{
    head.len() + entries.len()
}

/// Appends what stands before the entries of a section: its id, the length of its content, and the content's head.
#[tactic(auto, unfolding(wasm_file::specs::Spelling::section_bytes, wasm_bytes::specs::Spelling::framed_bytes))]
pub(crate) fn write_head(
    out: &mut Vec<u8>,
    id: u8,
    head: &[u8],
    entries: &[u8],
) -> Result<(), AllocError>
    ensures { OnOk result (out.new.items ++ entries.now ≡ out.old.items ++ section_bytes (id, head.now ++ entries.now)) }
{
    out.push(id)?;
    push_number(out, joint_len(head, entries) as u64)?;
    out.extend_from_slice(head)
}
