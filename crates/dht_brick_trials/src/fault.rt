//! Why a line of a script was not carried out.

use std::alloc::{AllocError, AllocFailed};

/// Why a line of a script was not carried out.
#[derive(Clone, Copy)]
pub(crate) enum Fault {
    /// It is no line of a script, or not one for what is tried.
    Unreadable,
    /// There was no memory for it.
    OutOfMemory,
}

impl From<AllocError> for Fault {
    fn from(_error: AllocError) -> Fault {
        Fault::OutOfMemory
    }
}

impl<T: Drop> From<AllocFailed<T>> for Fault {
    fn from(_error: AllocFailed<T>) -> Fault {
        Fault::OutOfMemory
    }
}
