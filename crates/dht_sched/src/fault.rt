//! Why a line of a schedule is not read.

ghost use Rattle.std.specs.Prelude.{◌≡◌};
ghost use Rattle.dht_sched.specs.declared.fault.LineFault.TheVariants.{OutOfMemory};

use std::alloc::{AllocError, AllocFailed};

/// Why a line of a schedule is not read.
#[derive(Clone, Copy, PartialEq, Eq)]
pub enum LineFault {
    /// The line is no event's.
    Malformed,
    /// Memory ran out.
    OutOfMemory,
}

impl From<AllocError> for LineFault {
    ghost from_gives = { λ _ e. e ≡ OutOfMemory };

    fn from(_error: AllocError) -> LineFault {
        LineFault::OutOfMemory
    }
}

impl<T: Drop> From<AllocFailed<T>> for LineFault {
    ghost from_gives = { λ _ e. e ≡ OutOfMemory };

    fn from(_error: AllocFailed<T>) -> LineFault {
        LineFault::OutOfMemory
    }
}
