//! The refusal of a call that found no memory.

use std::alloc::AllocError;

/// The call found no memory, and has changed nothing.
#[derive(Clone, Copy, Debug, PartialEq, Eq)]
pub struct NoMemory;

impl From<AllocError> for NoMemory {
    fn from(_failed: AllocError) -> NoMemory {
        NoMemory
    }
}
