// Running out of memory, the one answer that no clause ties to a cause.

use std::alloc::{AllocError, AllocFailed};

/// Running out of memory. It may come at any moment of a call that allocates, and is merged with no
/// other answer.
#[derive(Clone, Copy, Debug)]
pub struct NoMemory;

impl From<AllocError> for NoMemory {
    fn from(_error: AllocError) -> NoMemory {
        NoMemory
    }
}

impl<T: Drop> From<AllocFailed<T>> for NoMemory {
    fn from(_error: AllocFailed<T>) -> NoMemory {
        NoMemory
    }
}
