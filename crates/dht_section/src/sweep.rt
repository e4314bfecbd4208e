//! The sweep: the linktos of a name are dropped, where one was seen. A linkto is a hint; before a
//! file is made at the name, and after it was taken away, none may lead to another one.

ghost use Rattle.std.specs.Prelude.{◌≡◌, ◌+◌, Option, MatchOption, List};
ghost use Rattle.dht_section.specs.Again.{IsUnanswered};
ghost use Rattle.dht_section.specs.Claims.{Lock as ALock};
ghost use Rattle.dht_section.specs.Parts.{EndsByFault, part_ending};
ghost use Rattle.dht_section.specs.Scene.{Scene};
ghost use Rattle.dht_section.specs.Stages.{Moves};
ghost use Rattle.dht_section.specs.Sweep.{sweep_stage, lone_sweep, lone_swept, IsLeft, IsSwept, Sweeps, seen_linktos, next_linkto, first_sweep, sweep_next, swept_to, sweep_after};
ghost use Rattle.dht_section.specs.SweepLaws.{lone_permitted, lone_stable};
ghost use Rattle.dht_section.specs.declared.looks.Place.{Place as APlace};
ghost use Rattle.dht_section.specs.declared.machine.Turn.TheVariants as turn;

use super::location::Location;
use super::looks::{Linkto, linkto_at};
use super::machine::{Ask, Machine, Turn};
use super::replies::{fault_of, is_carried};
use super::section::Held;
use dht_brick::replies::Reply;
use dht_brick::requests::{NameRequest, Request};
use dht_types::errors::Errno;
use dht_types::identifiers::BrickNo;

/// A sweep. On this brick a linkto of the name was seen, and no brick below it has one any more.
#[derive(Clone, Copy)]
pub struct Sweep {
    pub location: Location,
    /// Where the linktos led that were seen of the name.
    pub linktos: [Linkto; 32],
    pub brick: BrickNo,
}

/// The first brick, of so many and from this one on, of which a linkto was seen.
fn next_linkto(bricks: u16, linktos: &[Linkto; 32], from: u16) -> Option<BrickNo>
    ensures { result ≡ next_linkto bricks linktos.now from }
{
    for brick in from..bricks {
        if linkto_at(linktos, BrickNo(brick)).is_there() {
            return Some(BrickNo(brick));
        }
    }
    None
}

impl Sweep {
    /// The sweep of a name whose section is held; none, where no linkto of it was seen. It takes no
    /// memory.
    pub fn begin(location: Location, held: &Held) -> Option<Sweep>
        ensures first { result ≡ first_sweep location held.now }
        // where linktos are left as they were seen, it knows it; and without a sweep there is none
        ensures knows { (found : Option APlace) (s : Scene)
            → IsLeft location found (seen_linktos location held.now) 0 s
            → MatchOption result (IsSwept location found s) (λ m. Sweeps found m s) }
    {
        let looked = held.looked(location.directory, &location.name);
        let linktos = looked.sight.linktos;
        match next_linkto(location.bricks, &linktos, 0) {
            Some(brick) => Some(Sweep {
                location,
                linktos,
                brick,
            }),
            None => None,
        }
    }

    /// The next brick of which a linkto was seen.
    fn next_brick(&self) -> Option<BrickNo>
        ensures { result ≡ sweep_next self.now }
    {
        if self.brick.0 < self.location.bricks {
            next_linkto(self.location.bricks, &self.linktos, self.brick.0 + 1)
        } else {
            None
        }
    }

    /// Where it is after the linkto on its brick was dropped.
    fn dropped(self) -> Turn<Sweep, Option<Errno>>
        ensures { result ≡ swept_to self (sweep_next self) }
    {
        match self.next_brick() {
            Some(brick) => Turn::Go(Sweep {
                location: self.location,
                linktos: self.linktos,
                brick,
            }),
            None => Turn::Done(None),
        }
    }

    /// Where it is after the reply to its request.
    fn after(self, reply: &Reply) -> Turn<Sweep, Option<Errno>>
        ensures { result ≡ sweep_after self reply.now }
    {
        match fault_of(reply) {
            Some(errno) => Turn::Done(Some(errno)),
            None => {
                if is_carried(reply) {
                    self.dropped()
                } else {
                    Turn::Go(self)
                }
            }
        }
    }
}

impl Machine for Sweep {
    /// The error of a brick that ended it, if one did.
    type Done = Option<Errno>;

    ghost stage = { lone_sweep };

    ghost ending = { lone_swept };

    fn next(&self) -> Ask {
        Ask {
            brick: self.brick,
            request: Request::OnNames(NameRequest::DropLinkto(
                self.location.directory,
                self.location.name,
            )),
        }
    }

    fn take(self, reply: Reply, at: u64) -> Turn<Sweep, Option<Errno>>
        ensures moves { Moves lone_sweep lone_swept self reply at result }
        // so it does under the locks of the call that runs it, however the name stands; in the end
        // no brick has a linkto of it
        ensures within { (locks : List ALock) (found : Option APlace)
            → Moves (sweep_stage locks found)
            (part_ending locks (IsSwept self.location found)) self reply at result }
        ensures after { result ≡ sweep_after self reply }
        // it ends by the error of the reply, or by none
        ensures fault { EndsByFault reply result }
        // a request that has no answer is sent again
        ensures again { IsUnanswered (lone_sweep self) reply → result ≡ turn.Go self }
    {
        self.after(&reply)
    }

    ghost permitted = { lone_permitted };

    ghost stable = { lone_stable };
}
