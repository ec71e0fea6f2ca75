//! Why a row can't be run.
use hex::FromHexError;
use std::alloc::{AllocError, AllocFailed};

/// Why a row can't be run.
#[derive(Clone, Copy, Debug)]
pub enum RowFault {
    /// A key has no value, or one of another kind.
    Row,
    OutOfMemory,
}

impl From<AllocError> for RowFault {
    fn from(_: AllocError) -> Self {
        RowFault::OutOfMemory
    }
}

impl<T: Drop> From<AllocFailed<T>> for RowFault {
    fn from(_: AllocFailed<T>) -> Self {
        RowFault::OutOfMemory
    }
}

impl From<FromHexError> for RowFault {
    fn from(error: FromHexError) -> Self {
        match error {
            FromHexError::OutOfMemory => RowFault::OutOfMemory,
            _ => RowFault::Row,
        }
    }
}
