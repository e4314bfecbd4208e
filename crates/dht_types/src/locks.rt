//! The keys of locks, and the modes in which they are held.

use super::identifiers::Gfid;
use super::names::Name;

/// What a lock is on. Locks are asked for in this order, and within a kind by gfid, then by name.
#[derive(Clone, Copy, PartialEq, Eq, PartialOrd, Ord)]
pub enum Key {
    /// The one rebalance of the volume. It stands on brick 0.
    Rebalance,
    /// A directory. It stands on the directory's anchor.
    Dir(Gfid),
    /// A name of a directory. It stands on the directory's anchor.
    Entry(Gfid, Name),
    /// The bytes of a file. It stands on the brick that has the file.
    Content(Gfid),
}

/// How a lock is held.
#[derive(Clone, Copy, PartialEq, Eq)]
pub enum Mode {
    /// Beside others that hold it so.
    Shared,
    /// By one client alone.
    Exclusive,
}
