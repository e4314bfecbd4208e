//! Reap: the end of a file that has no name left. It is sealed, so that nobody can open it any
//! more, and then its record goes.

ghost use Rattle.std.specs.Prelude.{◌≡◌, List};
ghost use Rattle.dht_section.specs.Again.{IsUnanswered};
ghost use Rattle.dht_section.specs.Claims.{Lock as ALock};
ghost use Rattle.dht_section.specs.Parts.{EndsByFault};
ghost use Rattle.dht_section.specs.Reap.{reap_stage, lone_reap, reap_ending, lone_ending, reap_brick, first_reap, seal_answered, drop_answered, reap_after};
ghost use Rattle.dht_section.specs.ReapLaws.{lone_permitted, lone_stable};
ghost use Rattle.dht_section.specs.Stages.{Moves};
ghost use Rattle.dht_section.specs.declared.machine.Turn.TheVariants as turn;

use super::machine::{Ask, Machine, Turn};
use super::replies::fault_of;
use dht_brick::replies::{Reply, Why};
use dht_brick::requests::{FileRequest, Request};
use dht_types::errors::Errno;
use dht_types::identifiers::{BrickNo, Gfid};

/// A file that has no name left, the brick that has its record, and how many bricks the volume has.
#[derive(Clone, Copy)]
pub struct Orphan {
    pub bricks: u16,
    pub file: Gfid,
    pub brick: BrickNo,
}

/// A reap. Each stage is one request.
#[derive(Clone, Copy)]
pub enum Reap {
    /// The file has no name, and gets none. Some client may have it open.
    Sealing(Orphan),
    /// Nobody has it open, and nobody can open it any more.
    Dropping(Orphan),
}

impl Orphan {
    /// The brick on which the file is sealed.
    fn anchor(&self) -> BrickNo
        ensures { result.0 ≡ reap_brick self.now }
    {
        if self.bricks == 0 {
            BrickNo(0)
        } else {
            self.file.anchor(self.bricks)
        }
    }
}

impl Reap {
    /// The reap of a file without names, whose record is on this brick, in a volume of so many
    /// bricks. It takes no memory.
    pub fn begin(bricks: u16, file: Gfid, brick: BrickNo) -> Reap
        ensures { result ≡ first_reap bricks file brick }
    {
        Reap::Sealing(Orphan {
            bricks,
            file,
            brick,
        })
    }
}

/// After the seal was answered. A file that is open stays until it is closed.
fn seal_answered(orphan: Orphan, reply: &Reply) -> Turn<Reap, Option<Errno>>
    ensures { result ≡ seal_answered orphan reply.now }
{
    match reply {
        Reply::Ok(_) => Turn::Go(Reap::Dropping(orphan)),
        Reply::Refused(Why::Open(_)) => Turn::Done(None),
        _ => Turn::Go(Reap::Sealing(orphan)),
    }
}

/// After the drop was answered. Where it was refused, another reap was first.
fn drop_answered(orphan: Orphan, reply: &Reply) -> Turn<Reap, Option<Errno>>
    ensures { result ≡ drop_answered orphan reply.now }
{
    match reply {
        Reply::Ok(_) => Turn::Done(None),
        Reply::Refused(_) => Turn::Done(None),
        _ => Turn::Go(Reap::Dropping(orphan)),
    }
}

impl Reap {
    /// Where it is after the reply to its request.
    fn after(self, reply: &Reply) -> Turn<Reap, Option<Errno>>
        ensures { result ≡ reap_after self reply.now }
    {
        match fault_of(reply) {
            Some(errno) => Turn::Done(Some(errno)),
            None => match self {
                Reap::Sealing(orphan) => seal_answered(orphan, reply),
                Reap::Dropping(orphan) => drop_answered(orphan, reply),
            },
        }
    }
}

impl Machine for Reap {
    /// The error of a brick that ended it, if one did.
    type Done = Option<Errno>;

    ghost stage = { lone_reap };

    ghost ending = { lone_ending };

    fn next(&self) -> Ask {
        match self {
            Reap::Sealing(orphan) => Ask {
                brick: orphan.anchor(),
                request: Request::Seal(orphan.file),
            },
            Reap::Dropping(orphan) => Ask {
                brick: orphan.brick,
                request: Request::OnFile(FileRequest::Drop(orphan.file)),
            },
        }
    }

    fn take(self, reply: Reply, at: u64) -> Turn<Reap, Option<Errno>>
        ensures moves { Moves lone_reap lone_ending self reply at result }
        // so it does under the locks of the call that runs it
        ensures within { (locks : List ALock)
            → Moves (reap_stage locks) (reap_ending locks) self reply at result }
        ensures after { result ≡ reap_after self reply }
        // it ends by the error of the reply, or by none
        ensures fault { EndsByFault reply result }
        // a request that has no answer is sent again
        ensures again { IsUnanswered (lone_reap self) reply → result ≡ turn.Go self }
    {
        self.after(&reply)
    }

    ghost permitted = { lone_permitted };

    ghost stable = { lone_stable };
}
