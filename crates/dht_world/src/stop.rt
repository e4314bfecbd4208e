//! Why a run stops before its last event.

ghost use Rattle.std.specs.Prelude.{◌≡◌};

use std::alloc::AllocError;

/// Why an event did not happen.
#[derive(Clone, Copy, Debug, PartialEq, Eq)]
pub enum Stop {
    /// It is a step, and the run has had all its steps.
    Limit,
    /// Memory ran out.
    OutOfMemory,
}

impl From<AllocError> for Stop {
    ghost use Rattle.dht_world.specs.declared.stop.Stop.TheVariants.{OutOfMemory};

    ghost from_gives = { λ _ e. e ≡ OutOfMemory };

    fn from(_error: AllocError) -> Stop {
        Stop::OutOfMemory
    }
}
