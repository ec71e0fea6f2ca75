//! Keeping what can be reached.

ghost use Rattle.std.specs.Prelude.{◌≡◌, List, All, IfOk, OnOk, OnErr};
ghost use Rattle.wasm_reach.specs.Marks.{is_marked};
ghost use Rattle.wasm_file.specs.declared.entries.ExportItem.{ExportItem};
ghost use Rattle.wasm_collect.specs.Collected.{collected};
ghost use Rattle.wasm_core.specs.Contents.{Contents};
ghost use Rattle.wasm_core.specs.Edits.{IsLiveItem};
ghost use Rattle.wasm_collect.specs.Reach.{IsReached, IsCollected};
ghost use Rattle.wasm_collect.specs.Edges.{sizes_of};

use crate::edges::Edges;
use std::alloc::{AllocError, Global};
use wasm_core::Module;
use wasm_file::ExportItem;
use wasm_reach::{Marks, Sizes, search};

/// Keeps exactly what can be reached from the exports, the start function, the roots, and the active segments of
/// imported tables and memories. What is dropped leaves its place empty. Without memory nothing is changed.
///
/// An entry reaches what its type, body, initial expression or segment names, and a table or memory its active
/// segments. A body that takes a function by `ref.func` reaches the first element segment that names the function,
/// without one the first global whose initial expression does, where no export gives the function out: so each
/// function that is taken stays declared (WebAssembly core specification, 3.4.10).
pub fn collect(alloc: Global, module: &mut Module, roots: &[ExportItem]) -> Result<(), AllocError>
    requires { All (IsLiveItem «module».old) roots.now }
    ensures ok { OnOk result (IsCollected «module».old roots.now «module».new) }
    ensures left { OnOk result («module».new ≡ collected roots.now «module».old) }
    ensures err { OnErr result («module».new ≡ «module».old) }
{
    let marks = reached(alloc, module, roots)?;
    module.keep(&marks);
    Ok(())
}

/// Marks what can be reached.
fn reached(alloc: Global, from: &Module, roots: &[ExportItem]) -> Result<Marks, AllocError>
    ensures { IfOk result (λ marks. IsReached from.now roots.now (is_marked marks)) }
{
    let edges = Edges::new(alloc, from)?;
    let mut things = Vec::new(alloc);
    edges.push_roots(&mut things, roots)?;
    search(alloc, &sizes_of(from), &edges, &things)
}

/// How many places each list has.
fn sizes_of(from: &Module) -> Sizes
    ensures { result ≡ sizes_of from.now }
{
    Sizes {
        types: from.types().len(),
        funcs: from.funcs().len(),
        tables: from.tables().len(),
        memories: from.memories().len(),
        globals: from.globals().len(),
        tags: from.tags().len(),
        elems: from.elems().len(),
        segments: from.segments().len(),
    }
}

/// The set of what can be reached is one, and so is the module that is left.
pub fn collected_module_is_one()
    ensures { (m : Contents) (roots : List ExportItem) (a b : Contents) → IsCollected m roots a → IsCollected m roots b → a ≡ b }
{}
