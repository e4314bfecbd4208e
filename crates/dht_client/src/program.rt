//! The program of a call, whichever it is.

ghost use Rattle.std.specs.Prelude.{◌≡◌, true};
ghost use Rattle.dht_types.specs.declared.identifiers.Gfid.{Gfid as AGfid};
ghost use Rattle.dht_section.specs.Stages.{MatchTurn, Moves};
ghost use Rattle.dht_section.specs.declared.machine.Turn.TheVariants as turn;
ghost use Rattle.dht_section.specs.Again.{IsUnanswered};
ghost use Rattle.dht_section.specs.Ended.{Learns};
ghost use Rattle.dht_section.specs.Faults.{NotesFault};
ghost use Rattle.dht_resolve.specs.Found.{IsDirFound, IsFound, ShowsDir, ShowsFile};
ghost use Rattle.dht_resolve.specs.Lookup.{as_ended};
ghost use Rattle.dht_client.specs.Program.{KeepsWay, is_lookup, program_ended, program_fault, program_layout, program_stage, program_taught};
ghost use Rattle.dht_client.specs.ProgramLaws.{program_permitted, program_stable};

use dht_brick::replies::Reply;
use dht_dirops::mkdir::Mkdir;
use dht_dirops::rmdir::Rmdir;
use dht_fileops::create::Create;
use dht_fileops::unlink::Unlink;
use dht_heal::call::HealCall;
use dht_resolve::lookup::{Lookup, Resolved};
use dht_section::ended::Ended;
use dht_section::machine::{Ask, Machine, Turn};

/// The program of a call.
#[derive(Drop)]
pub enum Program {
    LookingUp(Lookup),
    Creating(Create),
    Making(Mkdir),
    Unlinking(Unlink),
    Removing(Rmdir),
    Healing(HealCall),
}

/// What a lookup hands out as any call does. The brick of the file and
/// the memory of the section are not asked for.
fn as_ended(end: Resolved) -> Ended
    ensures { result ≡ as_ended end }
{
    Ended {
        finish: end.answered.finish,
        layout: end.answered.layout,
    }
}

impl Machine for Program {
    type Done = Ended;

    ghost stage = { program_stage };

    ghost ending = { program_ended };

    #[tactic(auto, unfolding(crate::specs::Program::program_stage))]
    fn next(&self) -> Ask {
        match self {
            Program::LookingUp(call) => call.next(),
            Program::Creating(call) => call.next(),
            Program::Making(call) => call.next(),
            Program::Unlinking(call) => call.next(),
            Program::Removing(call) => call.next(),
            Program::Healing(call) => call.next(),
        }
    }

    #[tactic(auto, unfolding(crate::specs::Program::program_stage, crate::specs::Program::program_fault, crate::specs::Program::program_layout, crate::specs::Program::program_taught, crate::specs::Program::is_lookup))]
    fn take(self, reply: Reply, at: u64) -> Turn<Program, Ended>
        ensures moves { Moves program_stage program_ended self reply at result }
        ensures layout { Learns program_layout program_taught self reply result }
        ensures fault { NotesFault program_fault self (program_stage self).asks.request
            reply result }
        // a first lookup stays on its way, and finds a file that is placed in time
        ensures way { KeepsWay self reply at result }
        // it is a lookup, or none, up to its end
        ensures verb { MatchTurn result (λ n. is_lookup n ≡ is_lookup self) (λ d. Unit {0}) }
        // a lookup answers at once what one look shows, before any lock: a file or a directory
        ensures found { is_lookup self ≡ true → (f : AGfid)
            → ShowsFile (program_stage self) reply f → IsFound f at result }
        ensures folder { is_lookup self ≡ true → (g : AGfid)
            → ShowsDir (program_stage self) reply g → IsDirFound g at result }
        // a request that has no answer is sent again
        ensures again { IsUnanswered (program_stage self) reply → result ≡ turn.Go self }
    {
        match self {
            Program::LookingUp(call) => match call.take(reply, at) {
                Turn::Go(call) => Turn::Go(Program::LookingUp(call)),
                Turn::Done(end) => Turn::Done(as_ended(end)),
            },
            Program::Creating(call) => match call.take(reply, at) {
                Turn::Go(call) => Turn::Go(Program::Creating(call)),
                Turn::Done(end) => Turn::Done(end),
            },
            Program::Making(call) => match call.take(reply, at) {
                Turn::Go(call) => Turn::Go(Program::Making(call)),
                Turn::Done(end) => Turn::Done(end),
            },
            Program::Unlinking(call) => match call.take(reply, at) {
                Turn::Go(call) => Turn::Go(Program::Unlinking(call)),
                Turn::Done(end) => Turn::Done(end),
            },
            Program::Removing(call) => match call.take(reply, at) {
                Turn::Go(call) => Turn::Go(Program::Removing(call)),
                Turn::Done(end) => Turn::Done(end),
            },
            Program::Healing(call) => match call.take(reply, at) {
                Turn::Go(call) => Turn::Go(Program::Healing(call)),
                Turn::Done(end) => Turn::Done(end),
            },
        }
    }

    ghost permitted = { program_permitted };

    ghost stable = { program_stable };
}
