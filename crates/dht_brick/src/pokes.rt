//! Values that are set from outside, without a client.

ghost use Rattle.std.specs.Prelude.{◌≡◌};

use dht_types::identifiers::Gfid;
use dht_types::names::Name;
use std::alloc::AllocError;

/// Where a value is set.
#[derive(Clone, Copy)]
pub enum PokeAt {
    /// The attribute of a directory.
    Layout(Gfid),
    /// The linkto at a name of a directory.
    Linkto(Gfid, Name),
}

/// Why a value was not set.
#[derive(Clone, Copy, PartialEq, Eq)]
pub enum PokeFault {
    /// The brick has no record of the directory, or a directory or a file is at the name.
    Slot,
    /// The brick failed.
    Failed,
    /// Memory ran out.
    OutOfMemory,
}

impl From<AllocError> for PokeFault {
    ghost use Rattle.dht_brick.specs.declared.pokes.PokeFault.TheVariants.{OutOfMemory};

    ghost from_gives = { λ _ e. e ≡ OutOfMemory };

    fn from(_error: AllocError) -> PokeFault {
        PokeFault::OutOfMemory
    }
}
