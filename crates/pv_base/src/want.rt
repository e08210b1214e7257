//! Want of memory, the one answer that is free.
use std::alloc::{AllocError, AllocFailed};

/// Memory was refused. Any call that allocates may answer this, and then leaves what it was lent unchanged.
#[derive(Clone, Copy, Debug, PartialEq, Eq)]
pub struct Memory;

impl From<AllocError> for Memory {
    fn from(_error: AllocError) -> Memory {
        Memory
    }
}

impl<T: Drop> From<AllocFailed<T>> for Memory {
    fn from(_error: AllocFailed<T>) -> Memory {
        Memory
    }
}
