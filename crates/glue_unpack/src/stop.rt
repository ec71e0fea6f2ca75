//! Where the putting of files stops.

// Where the putting of files stops: at a file that can't be put, or for want of memory.
#[derive(Clone, Copy)]
pub(crate) enum Stop {
    At(usize),
    OutOfMemory,
}
