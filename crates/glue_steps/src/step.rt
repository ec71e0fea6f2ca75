//! The steps of an adapter.
use glue_imports::Expression;
use values::{Seq, Text};

/// A step of an adapter, with what its ids name.
#[derive(Drop)]
pub enum Step {
    /// Pushes the parameter at this place, counted from 0.
    Parameter(u32),
    /// Leaves the newest operand as it is: a signed integer, or a truth, that the engine passes by itself.
    Unchanged,
    /// Calls a WebAssembly export with its operands.
    CallExport {
        /// The export's name.
        name: Text,
        /// How many operands it takes.
        params: usize,
        /// Whether it has a result, which is pushed.
        has_result: bool,
    },
    /// Calls an import adapter, which evaluates what its import is described as.
    CallImport {
        /// The adapter's id.
        adapter: u32,
        /// How many operands it takes.
        params: usize,
        /// Whether it has a result, which is pushed.
        has_result: bool,
        /// The import's expression.
        expression: Expression,
    },
    /// Reads the newest operand, a 32-bit integer from WebAssembly, as unsigned.
    ToUnsigned,
    /// Whether the newest operand, a 32-bit integer from WebAssembly, isn't 0.
    IsNotZero,
    /// Reads the newest operand, a 64-bit integer from WebAssembly, as unsigned.
    ToUnsigned64,
    /// Calls a helper with its operands, and pushes its answer.
    CallHelper {
        /// The helper's name.
        helper: Text,
        /// How many operands it takes.
        params: usize,
    },
    /// Lends the newest operand to the object table until the adapter ends, and pushes its handle.
    IndexFromBorrow,
    /// Pops a flag and a handle. Where the flag is true, a helper takes the object with that handle out of the table that
    /// it stands in, and the object is thrown.
    UnwrapResult {
        /// The helper's name.
        helper: Text,
    },
    /// Writes the newest operand to memory, by a helper that is handed exports too, and pushes the address that it answers and the length
    /// that it leaves.
    PassToMemory {
        /// The helper's name.
        helper: Text,
        /// The names of the exports, functions that allocate.
        exports: Seq<Text>,
        /// Whether the operand may be `undefined` or `null`, of which nothing is written and the address is 0.
        optional: bool,
    },
    /// Has an export free, when the adapter ends, what the two newest operands say, an address and a length. Both stay.
    DeferFree {
        /// The export's name.
        free: Text,
        /// The alignment, in bytes.
        align: u32,
    },
    /// Pops an address and a length, of which a helper makes a view of memory, and pushes a copy of what the view shows.
    CopyOut {
        /// The helper's name.
        helper: Text,
    },
    /// Takes room for results on the stack of the module until the adapter ends, and pushes its address, which later steps know.
    ReturnPointer {
        /// How much, in bytes.
        size: u32,
    },
    /// Pushes an integer that is read from that room, by a helper that gives a view of memory.
    LoadReturn {
        /// The helper's name.
        view: Text,
        /// Where it stands in the room, in bytes from its address.
        offset: u32,
        /// Whether it has 64 bits, and not 32.
        is_wide: bool,
    },
    /// Pops an integer and writes it to the room that a caller took, whose address is the first parameter, by a helper that gives a view of
    /// memory.
    StoreReturn {
        /// The helper's name.
        view: Text,
        /// Where it stands in the room, in bytes from its address.
        offset: u32,
        /// Whether it has 64 bits, and not 32.
        is_wide: bool,
    },
    /// Pops an address and what goes with it, and pushes a function that calls back into the module with both, which a helper makes of them
    /// and of a function of the file.
    MakeClosure {
        /// The helper's name.
        helper: Text,
        /// The name of the file's function.
        function: Text,
    },
    /// Pops a text of a string enum, and pushes its place in the enum's list, counted from 0, or -1 where it doesn't stand there.
    IndexOf {
        /// The list's name.
        list: Text,
    },
    /// Pops a place, and pushes the text that stands there in the list of a string enum, or `undefined`.
    ItemAt {
        /// The list's name.
        list: Text,
    },
}
