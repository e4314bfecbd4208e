//! The closing: the end of a call that holds a section. The locks are given back, the last first,
//! and then the call answers.

ghost use Rattle.std.specs.Prelude.{◌≡◌};
ghost use Rattle.dht_section.specs.Scene.{Scene, MayAnswer};
ghost use Rattle.dht_section.specs.Stages.{Moves, answered};
ghost use Rattle.dht_section.specs.Section.{IsHeld};
ghost use Rattle.dht_section.specs.Closing.{closing_stage, closing_of, closing_after, Closes};
ghost use Rattle.dht_section.specs.ClosingLaws.{closing_permitted, closing_stable};

use super::machine::{Ask, Finish, Machine, Turn};
use super::section::{Held, last_lock, unlock_ask};
use super::want::Scope;
use dht_brick::replies::Reply;

/// A closing, with what the call will answer. The locks above this one were given back.
#[derive(Drop)]
pub struct Closing {
    pub scope: Scope,
    pub place: usize,
    pub finish: Finish,
}

impl Closing {
    /// Gives back the locks of a section that is held, and answers so. It takes no memory.
    pub fn new(held: Held, finish: Finish) -> Closing
        ensures closing { result ≡ closing_of held finish }
        ensures closes { (s : Scene) → IsHeld held s → MayAnswer finish s → Closes held finish s }
    {
        let place = last_lock(&held.scope);
        Closing {
            scope: held.scope,
            place,
            finish,
        }
    }

    /// Where it is after the reply to its request.
    fn after(self) -> Turn<Closing, Finish>
        ensures { result ≡ closing_after self }
    {
        if 0 < self.place {
            Turn::Go(Closing {
                scope: self.scope,
                place: self.place - 1,
                finish: self.finish,
            })
        } else {
            Turn::Done(self.finish)
        }
    }
}

impl Machine for Closing {
    type Done = Finish;

    ghost stage = { closing_stage };

    ghost ending = { answered };

    fn next(&self) -> Ask {
        unlock_ask(&self.scope, self.place)
    }

    fn take(self, reply: Reply, at: u64) -> Turn<Closing, Finish>
        ensures moves { Moves closing_stage answered self reply at result }
        ensures after { result ≡ closing_after self }
    {
        self.after()
    }

    ghost permitted = { closing_permitted };

    ghost stable = { closing_stable };
}
