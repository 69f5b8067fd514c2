//! Want of memory, which every call that allocates may answer.

use std::alloc::{AllocError, AllocFailed};
use thiserror::Error;

/// Want of memory. What was asked for is not made, and nothing else is said by it.
#[derive(Clone, Copy, Debug, PartialEq, Eq, Error)]
#[error("out of memory")]
pub struct NoMemory;

impl From<AllocError> for NoMemory {
    fn from(_: AllocError) -> Self {
        NoMemory
    }
}

impl<T: Drop> From<AllocFailed<T>> for NoMemory {
    fn from(_: AllocFailed<T>) -> Self {
        NoMemory
    }
}
