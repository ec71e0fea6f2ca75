//! Function bodies (WebAssembly core specification, 5.5.13).

use packed_ops::Ops;
use values::Seq;
use wasm_types::ValType;

/// The body of a function: runs of locals of one type, and operators without the last 0B.
#[derive(Debug, Drop)]
pub struct Body {
    pub locals: Seq<(u32, ValType)>,
    pub ops: Ops,
}
