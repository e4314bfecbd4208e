//! The call that heals a directory.

ghost use Rattle.std.specs.Prelude.{◌≡◌, ◌≤◌, IfOk};
ghost use Rattle.dht_types.specs.Cost.{heal_cost};
ghost use Rattle.dht_section.specs.Again.{IsUnanswered};
ghost use Rattle.dht_section.specs.Ended.{Learns};
ghost use Rattle.dht_section.specs.Faults.{NotesFault};
ghost use Rattle.dht_section.specs.Scene.{Scene};
ghost use Rattle.dht_section.specs.Stages.{Moves};
ghost use Rattle.dht_section.specs.declared.machine.Turn.TheVariants as turn;
ghost use Rattle.dht_heal.specs.HealCall.{MayCallHeal, call_after, call_ended, call_fault, call_layout, call_stage, call_taught, ended_by, first_call};
ghost use Rattle.dht_heal.specs.HealCallLaws.{call_permitted, call_stable};

use super::heal::{Heal, HealEnd};
use super::room::HealRoom;
use dht_brick::replies::Reply;
use dht_section::ended::Ended;
use dht_section::machine::{Ask, Machine, Turn};
use dht_types::identifiers::Gfid;
use dht_types::volumes::Weights;
use std::alloc::{AllocError, Global};

/// A call that heals a directory and answers how that ended.
#[derive(Drop)]
pub struct HealCall {
    pub heal: Heal,
}

/// The end of the call whose heal ended so. It learns no layout.
fn ended(end: HealEnd) -> Ended
    ensures { result ≡ ended_by end }
{
    Ended {
        finish: end.finish,
        layout: None,
    }
}

impl HealCall {
    /// The heal of a directory, in a volume of so many bricks, which have these weights. It takes
    /// the memory that the heal will need.
    pub fn begin(
        alloc: Global,
        weights: &Weights,
        bricks: u16,
        directory: Gfid,
    ) -> Result<HealCall, AllocError>
        ensures first { IfOk result (λ m. m ≡ first_call weights.now bricks directory) }
        ensures knows { IfOk result (λ m. (s : Scene)
            → MayCallHeal weights.now bricks directory s → (call_stage m).knows s) }
        // it sends so many requests at most
        ensures starts { IfOk result (λ m. (call_stage m).variant ≤ heal_cost bricks) }
    {
        let room = HealRoom::new(alloc, weights)?;
        Ok(HealCall {
            heal: Heal::begin(room, bricks, directory),
        })
    }

    /// Where it is after the reply to its request.
    fn after(self, reply: Reply, at: u64) -> Turn<HealCall, Ended>
        ensures { result ≡ call_after self reply at }
    {
        match self.heal.take(reply, at) {
            Turn::Go(heal) => Turn::Go(HealCall { heal }),
            Turn::Done(end) => Turn::Done(ended(end)),
        }
    }
}

impl Machine for HealCall {
    type Done = Ended;

    ghost stage = { call_stage };

    ghost ending = { call_ended };

    fn next(&self) -> Ask {
        self.heal.next()
    }

    fn take(self, reply: Reply, at: u64) -> Turn<HealCall, Ended>
        ensures moves { Moves call_stage call_ended self reply at result }
        ensures after { result ≡ call_after self reply at }
        ensures layout { Learns call_layout call_taught self reply result }
        ensures fault { NotesFault call_fault self (call_stage self).asks.request reply result }
        // a request that has no answer is sent again
        ensures again { IsUnanswered (call_stage self) reply → result ≡ turn.Go self }
    {
        self.after(reply, at)
    }

    ghost permitted = { call_permitted };

    ghost stable = { call_stable };
}
