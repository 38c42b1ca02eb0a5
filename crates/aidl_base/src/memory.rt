//! Want of memory as a fault, and what turns into it.

use std::alloc::{AllocError, AllocFailed};

/// Memory was wanted and was not there.
#[derive(Clone, Copy, Debug, PartialEq, Eq)]
pub struct OutOfMemory;

impl From<AllocError> for OutOfMemory {
    fn from(_fault: AllocError) -> OutOfMemory {
        OutOfMemory
    }
}

impl<T: Drop> From<AllocFailed<T>> for OutOfMemory {
    fn from(_fault: AllocFailed<T>) -> OutOfMemory {
        OutOfMemory
    }
}
