//! Heal: a directory is healed, after those above it, from the root down.

ghost use Rattle.std.specs.Prelude.{◌≡◌, length};
ghost use Rattle.dht_section.specs.Again.{IsUnanswered};
ghost use Rattle.dht_section.specs.Ended.{gone_at};
ghost use Rattle.dht_section.specs.Scene.{Scene, fault_finish};
ghost use Rattle.dht_section.specs.Stages.{Moves};
ghost use Rattle.dht_section.specs.declared.machine.Turn.TheVariants as turn;
ghost use Rattle.dht_heal.specs.Heal.{KeepsDir, MayHeal, NotesStop, StartsHeal, asked, climb_answered, climbed, end_of, first_heal, heal_after, heal_at, heal_dir, heal_ending, heal_from, heal_on, heal_stage, healed_at, longest, parent_shown};
ghost use Rattle.dht_heal.specs.HealLaws.{heal_permitted, heal_stable};

use super::heal_one::{HealOne, HealedOne};
use super::room::{HealRoom, LONGEST};
use dht_brick::replies::{Given, Reply};
use dht_brick::requests::{NameRequest, Request};
use dht_section::looks::is_nodir;
use dht_section::machine::{Ask, Finish, Machine, Turn, fault_finish};
use dht_section::replies::fault_of;
use dht_types::calls::Answer;
use dht_types::errors::Errno;
use dht_types::identifiers::{BrickNo, Gfid};

/// How far a heal is, in a volume of so many bricks: at a place of its path, which begins with the
/// directory that is to be healed and ends with the root.
#[derive(Drop)]
pub struct Climb {
    pub room: HealRoom,
    pub bricks: u16,
    pub place: usize,
}

/// A heal. Each stage is one request, or those of the healing of one directory.
#[derive(Drop)]
pub enum Heal {
    /// The directories below this place stand each in the next. The one at this place, which is not
    /// the root, is asked at its home where it stands.
    Climbing(Climb),
    /// The path is known up to the root. The directories above this place are healed, and the one
    /// at this place is being healed.
    Healing(HealOne, Climb),
}

/// What a heal hands out: how it ended, and its memory. It is done at the line on which the home of
/// the directory showed its copy under the lock; or the directory was gone, at the line on which a
/// brick said so; or the error of a brick ended it.
#[derive(Drop)]
pub struct HealEnd {
    pub finish: Finish,
    pub room: HealRoom,
}

/// The directory above the one whose record a reply shows, if it is not the root's.
fn parent_shown(reply: &Reply) -> Option<Gfid>
    ensures { result ≡ parent_shown reply.now }
{
    match reply {
        Reply::Ok(Given::Dirinfo(info)) => match &info.place {
            Some(place) => Some(place.dir),
            None => None,
        },
        _ => None,
    }
}

impl HealEnd {
    /// The end of a heal that healed the directory, whose home showed its copy on this line.
    fn healed(room: HealRoom, at: u64) -> HealEnd
        ensures { result ≡ end_of room (healed_at at) }
    {
        let finish = Finish {
            answer: Answer::Done,
            at: Some(at),
        };
        HealEnd { finish, room }
    }

    /// The end of a heal whose directory was gone, at this line.
    fn gone(room: HealRoom, at: u64) -> HealEnd
        ensures { result ≡ end_of room (gone_at at) }
    {
        let finish = Finish {
            answer: Answer::Fault(Errno::Estale),
            at: Some(at),
        };
        HealEnd { finish, room }
    }

    /// The end of a heal that was stopped by this error.
    fn stopped(room: HealRoom, errno: Errno) -> HealEnd
        ensures { result ≡ end_of room (fault_finish errno) }
    {
        let finish = fault_finish(errno);
        HealEnd { finish, room }
    }
}

impl Climb {
    /// The directory at its place.
    fn asked(&self) -> Gfid
        ensures { result ≡ asked self.now }
    {
        self.room.path.get(self.place)
    }

    /// The directory at its place is healed next.
    fn heal(self) -> Heal
        ensures { result ≡ heal_at self }
    {
        let directory = self.asked();
        let plan = self.room.plan(directory);
        Heal::Healing(HealOne::begin(self.bricks, plan, directory), self)
    }

    /// The directory at its place is asked for next; the root stands nowhere, and is healed.
    fn on(self) -> Heal
        ensures { result ≡ heal_on self }
    {
        if self.asked().0 == Gfid::ROOT.0 {
            self.heal()
        } else {
            Heal::Climbing(self)
        }
    }

    /// The directory at its place stands in this one. No path is longer than its memory.
    fn climbed(self, parent: Gfid) -> Heal
        ensures { result ≡ climbed self parent }
    {
        if self.place < LONGEST {
            let place = self.place + 1;
            Climb {
                room: self.room.with(place, parent),
                bricks: self.bricks,
                place,
            }
            .on()
        } else {
            Heal::Climbing(self)
        }
    }

    /// After the home of the directory at its place was asked where it stands.
    fn answered(self, reply: &Reply, at: u64) -> Turn<Heal, HealEnd>
        ensures { result ≡ climb_answered self reply.now at }
    {
        if let Some(errno) = fault_of(reply) {
            return Turn::Done(HealEnd::stopped(self.room, errno));
        }
        if is_nodir(reply) {
            return Turn::Done(HealEnd::gone(self.room, at));
        }
        match parent_shown(reply) {
            Some(parent) => Turn::Go(self.climbed(parent)),
            None => Turn::Go(Heal::Climbing(self)),
        }
    }

    /// After the healing of the directory at its place.
    fn healed(self, end: HealedOne) -> Turn<Heal, HealEnd>
        ensures { result ≡ heal_from self end }
    {
        match end {
            HealedOne::Healed(at) => {
                if self.place == 0 {
                    Turn::Done(HealEnd::healed(self.room, at))
                } else {
                    Turn::Go(Climb {
                        place: self.place - 1,
                        ..self
                    }
                    .heal())
                }
            }
            HealedOne::Gone(at) => Turn::Done(HealEnd::gone(self.room, at)),
            HealedOne::Parent(_) => Turn::Go(Climb { place: 0, ..self }.on()),
            HealedOne::Stopped(errno) => Turn::Done(HealEnd::stopped(self.room, errno)),
        }
    }
}

impl Heal {
    /// The heal of a directory, in a volume of so many bricks. It takes no memory.
    pub fn begin(room: HealRoom, bricks: u16, directory: Gfid) -> Heal
        ensures first { result ≡ first_heal room bricks directory }
        ensures knows { (s : Scene) → MayHeal room bricks directory s
            → (heal_stage result).knows s }
        ensures starts { StartsHeal bricks result }
        ensures directory { length room.path ≡ longest → heal_dir result ≡ directory }
    {
        Climb {
            room: room.with(0, directory),
            bricks,
            place: 0,
        }
        .on()
    }

    /// Where it is after the reply to its request.
    fn after(self, reply: Reply, at: u64) -> Turn<Heal, HealEnd>
        ensures { result ≡ heal_after self reply at }
    {
        match self {
            Heal::Climbing(climb) => climb.answered(&reply, at),
            Heal::Healing(one, climb) => match one.take(reply, at) {
                Turn::Go(one) => Turn::Go(Heal::Healing(one, climb)),
                Turn::Done(end) => climb.healed(end),
            },
        }
    }
}

impl Machine for Heal {
    type Done = HealEnd;

    ghost stage = { heal_stage };

    ghost ending = { heal_ending };

    fn next(&self) -> Ask {
        match self {
            Heal::Climbing(climb) => {
                let directory = climb.asked();
                Ask {
                    brick: directory.home(),
                    request: Request::OnNames(NameRequest::Dirinfo(directory)),
                }
            }
            Heal::Healing(one, _) => one.next(),
        }
    }

    fn take(self, reply: Reply, at: u64) -> Turn<Heal, HealEnd>
        ensures moves { Moves heal_stage heal_ending self reply at result }
        ensures after { result ≡ heal_after self reply at }
        // the directory stays the same
        ensures directory { KeepsDir self result }
        // it is stopped exactly where a request was not served, by the error of the reply
        ensures fault { NotesStop self reply result }
        // a request that has no answer is sent again
        ensures again { IsUnanswered (heal_stage self) reply → result ≡ turn.Go self }
    {
        self.after(reply, at)
    }

    ghost permitted = { heal_permitted };

    ghost stable = { heal_stable };
}
