//! The restart of a section whose directory has to be healed first: its locks are given back, the
//! directory is healed, and the section may begin anew with its memory.

ghost use Rattle.std.specs.Prelude.{◌≡◌, ◌<◌, length, option_map};
ghost use Rattle.dht_section.specs.Again.{IsUnanswered};
ghost use Rattle.dht_section.specs.Faults.{brick_fault};
ghost use Rattle.dht_section.specs.Scene.{Scene};
ghost use Rattle.dht_section.specs.Section.{IsHeld};
ghost use Rattle.dht_section.specs.Stages.{Moves};
ghost use Rattle.dht_section.specs.declared.machine.Turn.TheVariants as turn;
ghost use Rattle.dht_heal.specs.Heal.{IsRoom};
ghost use Rattle.dht_heal.specs.Restart.{KeepsScope, NotesFault, Restarts, first_restart, heal_first, ready_holder, restart_after, restart_ended, restart_stage, restarted_ending};
ghost use Rattle.dht_heal.specs.RestartLaws.{restart_permitted, restart_stable};

use super::heal::{Heal, HealEnd};
use super::room::HealRoom;
use dht_brick::replies::Reply;
use dht_section::location::Location;
use dht_section::machine::{Ask, Machine, Turn};
use dht_section::release::Release;
use dht_section::section::{Held, Prepared};
use dht_types::calls::Answer;
use dht_types::errors::Errno;
use dht_types::identifiers::BrickNo;

/// A restart. Each stage is one request of a part that is a program of its own.
#[derive(Drop)]
pub enum Restart {
    /// The locks are given back. There is memory for the heal.
    Releasing(Release, HealRoom),
    /// No lock is held, and the directory of the section's first name is healed.
    Healing(Heal, Prepared),
}

/// How a restart ends.
#[derive(Drop)]
pub enum Restarted {
    /// The directory was healed, or was gone, which the section finds out. There is memory for
    /// another heal.
    Ready(Prepared, HealRoom),
    /// A request of the heal was not served, and the call answers this error.
    Stopped(Errno),
}

/// The brick that holds a name by the layout that was read, if it showed its copy of the directory.
/// Where there is none, the directory has to be healed.
pub fn ready_holder(location: &Location, held: &Held) -> Option<BrickNo>
    ensures { option_map (λ b. b.0) result ≡ ready_holder location.now held.now }
{
    let holder = held.holder(location.directory, &location.name)?;
    if held.is_copied(location.directory, &location.name, holder) {
        Some(holder)
    } else {
        None
    }
}

/// The error of a brick that an answer tells of.
fn brick_fault(answer: &Answer) -> Option<Errno>
    ensures { result ≡ brick_fault answer.now }
{
    match answer {
        Answer::Fault(Errno::Enotconn) => Some(Errno::Enotconn),
        Answer::Fault(Errno::Eio) => Some(Errno::Eio),
        Answer::Fault(Errno::Enomem) => Some(Errno::Enomem),
        _ => None,
    }
}

/// No lock is held any more: the directory is healed.
fn heal_first(room: HealRoom, prepared: Prepared) -> Restart
    ensures { result ≡ heal_first room prepared }
{
    let (directory, _) = prepared.scope.name(0);
    Restart::Healing(
        Heal::begin(room, prepared.scope.bricks(), directory),
        prepared,
    )
}

/// How a restart ends whose heal ended so.
fn ended(prepared: Prepared, end: HealEnd) -> Restarted
    ensures { result ≡ restart_ended prepared end }
{
    match brick_fault(&end.finish.answer) {
        None => Restarted::Ready(prepared, end.room),
        Some(errno) => Restarted::Stopped(errno),
    }
}

impl Restart {
    /// Gives back the locks of a section that is held, and heals the directory of its first name.
    /// It takes no memory.
    pub fn begin(held: Held, room: HealRoom) -> Restart
        ensures first { result ≡ first_restart held room }
        ensures restarts { (s : Scene) → IsHeld held s → IsRoom room s
            → 0 < length held.scope.names → Restarts held room s }
    {
        Restart::Releasing(held.release(), room)
    }

    /// Where it is after the reply to its request.
    fn after(self, reply: Reply, at: u64) -> Turn<Restart, Restarted>
        ensures { result ≡ restart_after self reply at }
    {
        match self {
            Restart::Releasing(release, room) => match release.take(reply, at) {
                Turn::Go(release) => Turn::Go(Restart::Releasing(release, room)),
                Turn::Done(prepared) => Turn::Go(heal_first(room, prepared)),
            },
            Restart::Healing(heal, prepared) => match heal.take(reply, at) {
                Turn::Go(heal) => Turn::Go(Restart::Healing(heal, prepared)),
                Turn::Done(end) => Turn::Done(ended(prepared, end)),
            },
        }
    }
}

impl Machine for Restart {
    type Done = Restarted;

    ghost stage = { restart_stage };

    ghost ending = { restarted_ending };

    fn next(&self) -> Ask {
        match self {
            Restart::Releasing(release, _) => release.next(),
            Restart::Healing(heal, _) => heal.next(),
        }
    }

    fn take(self, reply: Reply, at: u64) -> Turn<Restart, Restarted>
        ensures moves { Moves restart_stage restarted_ending self reply at result }
        ensures after { result ≡ restart_after self reply at }
        // it is of the same locks and names
        ensures scope { KeepsScope self result }
        // it is stopped exactly where a request of the heal was not served
        ensures fault { NotesFault self reply result }
        // a request that has no answer is sent again
        ensures again { IsUnanswered (restart_stage self) reply → result ≡ turn.Go self }
    {
        self.after(reply, at)
    }

    ghost permitted = { restart_permitted };

    ghost stable = { restart_stable };
}
