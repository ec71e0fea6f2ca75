//! How many items of each kind a file imports.

ghost use Rattle.std.specs.Prelude.{◌≡◌, ◌≤◌, length};
ghost use Rattle.wasm_file.specs.Kinds.{is_of};
ghost use Rattle.wasm_file.specs.Parts.{AreAtMost, AreNumbersOf, number_of};

use crate::entries::{FileImport, ImportType};

/// The numbers of imported items of each kind.
#[derive(Clone, Copy)]
pub(crate) struct Imported {
    pub funcs: usize,
    pub tables: usize,
    pub memories: usize,
    pub globals: usize,
    pub tags: usize,
}

/// A kind of item that is imported.
#[derive(Clone, Copy)]
enum Kind {
    Func,
    Table,
    Memory,
    Global,
    Tag,
}

/// Whether an item of this kind is asked for.
fn is_of(kind: Kind, ty: ImportType) -> bool
    ensures { result ≡ is_of kind ty }
{
    match kind {
        Kind::Func => matches!(ty, ImportType::Func(_)),
        Kind::Table => matches!(ty, ImportType::Table(_, _)),
        Kind::Memory => matches!(ty, ImportType::Memory(_)),
        Kind::Global => matches!(ty, ImportType::Global(_, _)),
        Kind::Tag => matches!(ty, ImportType::Tag(_)),
    }
}

/// How many imports ask for an item of this kind.
#[tactic(auto, unfolding(crate::specs::Parts::number_of), using(crate::proofs::Counting::at_most))]
fn count_of(kind: Kind, imports: &[FileImport]) -> usize
    ensures value { result ≡ number_of (is_of kind) imports.now }
    ensures below { result ≤ length imports.now }
{
    imports.iter().filter(|i| is_of(kind, i.ty)).count()
}

/// Counts the imports of each kind.
pub(crate) fn count_imports(imports: &[FileImport]) -> Imported
    ensures counted { AreNumbersOf imports.now result }
    ensures below { AreAtMost (length imports.now) result }
{
    Imported {
        funcs: count_of(Kind::Func, imports),
        tables: count_of(Kind::Table, imports),
        memories: count_of(Kind::Memory, imports),
        globals: count_of(Kind::Global, imports),
        tags: count_of(Kind::Tag, imports),
    }
}
