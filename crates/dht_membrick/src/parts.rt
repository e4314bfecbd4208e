//! The requests about registrations, seals and locks.

ghost use Rattle.std.specs.Prelude.{◌≡◌, ◌≢◌};
ghost use Rattle.dht_brick.specs.LockRows.{lock_row, unlock_row};
ghost use Rattle.dht_brick.specs.OpenRows.{register_row, unregister_row, seal_row};
ghost use Rattle.dht_brick.specs.Outcome.{Serves};
ghost use Rattle.dht_locks.specs.Held.{locks_in};
ghost use Rattle.dht_opens.specs.Opens.{opens_in};

use dht_brick::replies::{Given, Reply, Why};
use dht_locks::{Asked, Locks};
use dht_opens::{OpenFault, Opens, SealFault};
use dht_types::identifiers::{CallNo, ClientNo, Gfid};
use dht_types::locks::{Key, Mode};

/// Registers a file as opened by this call of this client, where it is not sealed.
pub(crate) fn register(opens: &mut Opens, client: ClientNo, call: CallNo, file: Gfid) -> Reply
    ensures { Serves (register_row client call file (opens_in opens.old))
        (opens_in opens.old) result (opens_in opens.new) }
{
    match opens.register(file, client, call) {
        Ok(()) => Reply::Ok(Given::Nothing),
        Err(OpenFault::Sealed) => Reply::Refused(Why::Sealed),
        Err(OpenFault::OutOfMemory) => Reply::NoMemory,
    }
}

/// Takes a registration back, and says how many the file has left.
pub(crate) fn unregister(opens: &mut Opens, client: ClientNo, file: Gfid, opened: CallNo) -> Reply
    ensures row { Serves (unregister_row client file opened (opens_in opens.old))
        (opens_in opens.old) result (opens_in opens.new) }
    ensures memory { result ≢ Reply.NoMemory }
{
    let left = opens.unregister(file, client, opened);
    Reply::Ok(Given::Registrations(left))
}

/// Seals a file that has no registrations.
pub(crate) fn seal(opens: &mut Opens, file: Gfid) -> Reply
    ensures { Serves (seal_row file (opens_in opens.old)) (opens_in opens.old) result
        (opens_in opens.new) }
{
    match opens.seal(file) {
        Ok(()) => Reply::Ok(Given::Nothing),
        Err(SealFault::Open(registrations)) => Reply::Refused(Why::Open(registrations)),
        Err(SealFault::OutOfMemory) => Reply::NoMemory,
    }
}

/// The client holds the lock so, unless it has to wait for another one.
pub(crate) fn lock(locks: &mut Locks, client: ClientNo, key: &Key, mode: Mode) -> Reply
    ensures { Serves (lock_row client key.now mode (locks_in locks.old))
        (locks_in locks.old) result (locks_in locks.new) }
{
    match locks.ask(client, key, mode) {
        Asked::Granted => Reply::Ok(Given::Nothing),
        Asked::Wait(holder) => Reply::Wait(holder),
        Asked::OutOfMemory => Reply::NoMemory,
    }
}

/// The client does not hold the lock.
pub(crate) fn unlock(locks: &mut Locks, client: ClientNo, key: &Key) -> Reply
    ensures row { Serves (unlock_row client key.now (locks_in locks.old))
        (locks_in locks.old) result (locks_in locks.new) }
    ensures memory { result ≢ Reply.NoMemory }
{
    locks.free(client, key);
    Reply::Ok(Given::Nothing)
}
