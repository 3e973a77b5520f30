use std::alloc::{AllocError, AllocFailed};

/// Out of memory: the one answer that no contract ties to a cause.
///
/// A value lent by `&mut` to a call that answers it is not live from then on, and is only dropped.
/// A value that was given by value is gone.
#[derive(Clone, Copy)]
pub struct NoMemory;

impl From<AllocError> for NoMemory {
    fn from(_error: AllocError) -> Self {
        NoMemory
    }
}

impl<T: Drop> From<AllocFailed<T>> for NoMemory {
    fn from(_error: AllocFailed<T>) -> Self {
        NoMemory
    }
}
