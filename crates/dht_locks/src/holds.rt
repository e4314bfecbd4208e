//! The locks that clients hold on a brick.

ghost use Rattle.std.specs.Prelude.{◌≡◌, Some, None, nat_eq};
ghost use Rattle.std.specs.Option.{option_map};
ghost use Rattle.dht_brick.specs.Contents.{no_locks};
ghost use Rattle.dht_brick.specs.Events.{locks_without};
ghost use Rattle.dht_brick.specs.LockRows.{held, excludes, keeps_out, awaited};
ghost use Rattle.dht_locks.specs.Held.{locks_in, Asks};

use dht_types::identifiers::ClientNo;
use dht_types::locks::{Key, Mode};
use std::alloc::Global;
use std::collections::BTreeMap;

/// What comes of asking for a lock.
#[derive(Clone, Copy, PartialEq, Eq)]
pub enum Asked {
    /// The client holds it from now on, in the mode asked for.
    Granted,
    /// Another client holds it in a mode that excludes the one asked for: the lowest such one.
    Wait(ClientNo),
    /// There was no memory for it.
    OutOfMemory,
}

/// Whether a lock that is held so excludes another one.
fn excludes(held: Mode, asked: Mode) -> bool
    ensures { result ≡ excludes held asked }
{
    held == Mode::Exclusive || asked == Mode::Exclusive
}

/// That a client holds a lock. The holds of one key stand together, by client.
#[derive(Clone, Copy, PartialEq, Eq, PartialOrd, Ord)]
pub struct Hold {
    key: Key,
    client: ClientNo,
}

/// The locks that clients hold on a brick. Contracts speak of `locks_in`: how each client holds
/// each lock.
#[derive(Drop)]
pub struct Locks {
    held: BTreeMap<Hold, Mode>,
}

impl Locks {
    /// No locks.
    pub fn new(alloc: Global) -> Locks
        ensures { locks_in result ≡ no_locks }
    {
        Locks {
            held: BTreeMap::new(alloc),
        }
    }

    /// The lowest client that this one would have to wait for.
    fn awaited(&self, client: ClientNo, key: &Key, mode: Mode) -> Option<ClientNo>
        ensures { option_map (λ c. c.0) result ≡ awaited (locks_in self.now) client key.now mode }
    {
        let first = Hold {
            key: *key,
            client: ClientNo(0),
        };
        let last = Hold {
            key: *key,
            client: ClientNo(u16::MAX),
        };
        let mut holds = self.held.range(first..=last);
        let (hold, _) = holds.find(|(hold, held)| hold.client != client && excludes(**held, mode))?;
        Some(hold.client)
    }

    /// Asks for a lock. `Wait` comes exactly where another client holds it in a mode that excludes
    /// the one asked for, and names the lowest such client. What is not granted changes nothing.
    pub fn ask(&mut self, client: ClientNo, key: &Key, mode: Mode) -> Asked
        ensures { Asks client key.now mode (locks_in self.old) result (locks_in self.new) }
    {
        if let Some(holder) = self.awaited(client, key, mode) {
            return Asked::Wait(holder);
        }
        match self.held.insert(Hold { key: *key, client }, mode) {
            Ok(_) => Asked::Granted,
            Err(_) => Asked::OutOfMemory,
        }
    }

    /// From now on the client does not hold the lock. It takes no memory.
    pub fn free(&mut self, client: ClientNo, key: &Key)
        ensures { locks_in self.new ≡ held (locks_in self.old) key.now client.0 None }
    {
        self.held.remove(&Hold { key: *key, client });
    }

    /// From now on the client holds no lock.
    pub fn free_client(&mut self, client: ClientNo)
        ensures { locks_in self.new ≡ locks_without client.0 (locks_in self.old) }
    {
        self.held.retain(|hold, _| client != hold.client);
    }

    /// From now on no client holds a lock.
    pub fn clear(&mut self)
        ensures { locks_in self.new ≡ no_locks }
    {
        self.held.clear();
    }
}

#[cfg(test)]
mod tests;
