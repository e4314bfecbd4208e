//! The bricks of a new volume in memory, which serve requests and whole lookups.

ghost use Rattle.std.specs.Prelude.{ℕ, IsTrue};
ghost use Rattle.dht_brick.specs.Within.{MayBeSent};

use dht_brick::brick::Brick;
use dht_brick::replies::{Given, Reply};
use dht_brick::requests::{NameRequest, Request};
use dht_membrick::MemBrick;
use dht_resolve::lookup::{Lookup, Resolved};
use dht_section::machine::{Ask, Machine, Turn};
use dht_types::identifiers::{BrickNo, CallNo, ClientNo, Gfid};
use dht_types::locks::{Key, Mode};
use dht_types::names::Name;
use dht_types::stored::Slot;
use dht_types::volumes::{Volume, Weights};
use std::alloc::Global;
use std::test::Fail;

/// The client whose lookup is carried out.
const CLIENT: ClientNo = ClientNo(3);

/// Another client.
const OTHER: ClientNo = ClientNo(4);

/// More requests than any lookup sends.
const MANY: u64 = 100;

/// How a lookup ended: what it handed out, and how many requests it sent.
#[derive(Drop)]
pub struct Ended {
    pub resolved: Resolved,
    pub requests: u64,
}

/// The bricks of a volume.
#[derive(Drop)]
pub struct Bricks {
    each: Vec<MemBrick>,
}

/// Whether it is a request that a lookup sends, or one that makes a file or a linkto. These name no
/// brick, so they may be sent to a brick of any volume.
fn may_be_sent(request: &Request) -> bool
    ensures { IsTrue result → (count : ℕ) → MayBeSent count request.now }
{
    match request {
        Request::Lock(_, _) | Request::Unlock(_) => true,
        Request::OnNames(NameRequest::Dirinfo(_)) => true,
        Request::OnNames(NameRequest::Look(_, _)) => true,
        Request::OnNames(NameRequest::Create(_, _, _)) => true,
        Request::OnNames(NameRequest::MakeLinkto(_, _, value)) => {
            value.as_slice().len() <= usize::from(u16::MAX)
        }
        _ => false,
    }
}

impl Bricks {
    /// The bricks of a new volume of so many, all of one weight.
    pub fn new(alloc: Global, count: u16) -> Result<Bricks, Fail> {
        let mut weights = Vec::new(alloc);
        for _ in 0..count {
            weights.push(1u16)?;
        }
        let Ok(volume) = Volume::replay(alloc, &Weights::new(weights), 1) else {
            return Err(Fail::new("no volume"));
        };
        let mut each = Vec::new(alloc);
        for brick in 0..volume.bricks() {
            each.push(MemBrick::new(alloc, &volume, BrickNo(brick), true)?)?;
        }
        Ok(Bricks { each })
    }

    /// The reply to a request of a client.
    fn serve(&mut self, client: ClientNo, ask: &Ask) -> Result<Reply, Fail> {
        if !may_be_sent(&ask.request) {
            return Err(Fail::new("another request"));
        }
        let Some(brick) = self.each.get_mut(usize::from(ask.brick.0)) else {
            return Err(Fail::new("no such brick"));
        };
        brick.make_room()?;
        Ok(brick.serve(client, CallNo(1), &ask.request))
    }

    /// A brick carries out a request of the other client, and gives this.
    fn given(&mut self, brick: BrickNo, request: Request) -> Result<Given, Fail> {
        match self.serve(OTHER, &Ask { brick, request })? {
            Reply::Ok(given) => Ok(given),
            _ => Err(Fail::new("not carried out")),
        }
    }

    /// A brick carries out a request of the other client about names, which gives nothing.
    pub fn change(&mut self, brick: BrickNo, request: NameRequest) -> Result<(), Fail> {
        match self.given(brick, Request::OnNames(request))? {
            Given::Nothing => Ok(()),
            _ => Err(Fail::new("another reply")),
        }
    }

    /// What stands at a name of the root on a brick.
    pub fn slot(&mut self, brick: BrickNo, name: Name) -> Result<Slot, Fail> {
        let look = Request::OnNames(NameRequest::Look(Gfid::ROOT, name));
        match self.given(brick, look)? {
            Given::Look(look) => Ok(look.slot),
            _ => Err(Fail::new("another reply")),
        }
    }

    /// The other client gets a lock of the root or of a name in it, which nobody holds, and gives
    /// it back.
    pub fn is_free(&mut self, key: &Key) -> Result<(), Fail> {
        let anchor = BrickNo(0);
        self.given(anchor, Request::Lock(*key, Mode::Exclusive))?;
        self.given(anchor, Request::Unlock(*key))?;
        Ok(())
    }

    /// Carries a lookup out to its end. The line of a reply is the number of its request, from 1.
    pub fn carry_out(&mut self, lookup: Lookup) -> Result<Ended, Fail> {
        let mut lookup = lookup;
        for requests in 1..MANY {
            let reply = self.serve(CLIENT, &lookup.next())?;
            match lookup.take(reply, requests) {
                Turn::Go(next) => lookup = next,
                Turn::Done(resolved) => return Ok(Ended { resolved, requests }),
            }
        }
        Err(Fail::new("it does not end"))
    }
}
