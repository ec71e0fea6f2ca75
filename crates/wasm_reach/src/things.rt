//! What a module holds.

/// An entry of a module's lists, by its place there (WebAssembly core specification, 2.5).
#[derive(Clone, Copy, Debug, PartialEq, Eq)]
pub enum Thing {
    Type(u32),
    Func(u32),
    Table(u32),
    Memory(u32),
    Global(u32),
    Tag(u32),
    /// An element segment.
    Elem(u32),
    /// A data segment.
    Segment(u32),
}
