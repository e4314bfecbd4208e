//! The files that clients have opened, and those that can be opened no more.

ghost use Rattle.std.specs.Prelude.{◌≡◌, ◌↔◌, count_by, filter, not, nat_eq, OnOk, OnErr};
ghost use Rattle.std.specs.BTreeSet.{keys, IsOrdered};
ghost use Rattle.dht_types.specs.Gfid.{same_gfid};
ghost use Rattle.dht_brick.specs.Contents.{no_opens, registration_cmp};
ghost use Rattle.dht_brick.specs.Events.{opens_without};
ghost use Rattle.dht_brick.specs.OpenRows.{registration, registrations, unregistered};
ghost use Rattle.dht_opens.specs.Opens.{opens_in, Registers, Seals};

use dht_brick::opens::Registration;
use dht_types::identifiers::{CallNo, ClientNo, Gfid};
use std::alloc::Global;
use std::collections::BTreeSet;

/// Why a file was not registered.
#[derive(Clone, Copy, PartialEq, Eq)]
pub enum OpenFault {
    /// The file is sealed.
    Sealed,
    /// There was no memory for it.
    OutOfMemory,
}

/// Why a file was not sealed.
#[derive(Clone, Copy, PartialEq, Eq)]
pub enum SealFault {
    /// The file has so many registrations.
    Open(u64),
    /// There was no memory for it.
    OutOfMemory,
}

/// How many of these registrations are this file's.
fn count_of(registered: &BTreeSet<Registration>, file: Gfid) -> u64
    ensures count { result ≡ count_by (λ r. same_gfid file r.file) (keys registered.now) }
    ensures ordered { IsOrdered registration_cmp registered.now }
{
    registered
        .iter()
        .filter(|registration| file == registration.file)
        .count() as u64
}

/// The registrations and seals of a brick. Contracts speak of `opens_in`: these two as finite sets.
#[derive(Drop)]
pub struct Opens {
    registered: BTreeSet<Registration>,
    sealed: BTreeSet<Gfid>,
}

impl Opens {
    /// No registrations and no seals.
    pub fn new(alloc: Global) -> Opens
        ensures { opens_in result ≡ no_opens }
    {
        Opens {
            registered: BTreeSet::new(alloc),
            sealed: BTreeSet::new(alloc),
        }
    }

    /// Registers a file as opened by this call of this client. `Sealed` comes exactly where the
    /// file is sealed. A fault leaves everything as it was.
    pub fn register(&mut self, file: Gfid, client: ClientNo, call: CallNo) -> Result<(), OpenFault>
        ensures { Registers (registration file client call) (opens_in self.old) result
            (opens_in self.new) }
    {
        if self.sealed.contains(&file) {
            return Err(OpenFault::Sealed);
        }
        match self.registered.insert(Registration { file, client, call }) {
            Ok(_) => Ok(()),
            Err(_) => Err(OpenFault::OutOfMemory),
        }
    }

    /// Takes back the registration of a file by this call of this client, if there is one, and
    /// counts those that the file has left. It takes no memory.
    pub fn unregister(&mut self, file: Gfid, client: ClientNo, call: CallNo) -> u64
        ensures gone { opens_in self.new
            ≡ unregistered (opens_in self.old) (registration file client call) }
        ensures left { result ≡ registrations (opens_in self.new) file }
    {
        self.registered.remove(&Registration { file, client, call });
        self.registrations(file)
    }

    /// Seals a file: it can be registered no more. `Open` comes exactly where the file has
    /// registrations, and says how many. A fault leaves everything as it was.
    pub fn seal(&mut self, file: Gfid) -> Result<(), SealFault>
        ensures { Seals file (opens_in self.old) result (opens_in self.new) }
    {
        let open = self.registrations(file);
        if open != 0 {
            return Err(SealFault::Open(open));
        }
        match self.sealed.insert(file) {
            Ok(_) => Ok(()),
            Err(_) => Err(SealFault::OutOfMemory),
        }
    }

    /// Takes away all registrations of a client.
    pub fn free_client(&mut self, client: ClientNo)
        ensures { opens_in self.new ≡ opens_without client.0 (opens_in self.old) }
    {
        self.registered.retain(
            |registration: &Registration| -> bool
                ensures { result ≡ not (nat_eq client.0 registration.now.client.0) }
            { client != registration.client },
        );
    }

    /// Takes away all registrations and seals.
    pub fn clear(&mut self)
        ensures { opens_in self.new ≡ no_opens }
    {
        self.registered.clear();
        self.sealed.clear();
    }

    /// How many registrations a file has.
    fn registrations(&self, file: Gfid) -> u64
        ensures { result ≡ registrations (opens_in self.now) file }
    {
        count_of(&self.registered, file)
    }
}
