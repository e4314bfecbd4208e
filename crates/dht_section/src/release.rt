//! The release: a section that is held gives back its locks, the last first, and hands back its
//! memory, with which it may begin anew.

ghost use Rattle.std.specs.Prelude.{◌≡◌};
ghost use Rattle.dht_section.specs.Scene.{Scene};
ghost use Rattle.dht_section.specs.Stages.{Moves};
ghost use Rattle.dht_section.specs.Section.{IsHeld};
ghost use Rattle.dht_section.specs.Release.{release_stage, release_of, release_after, released_ending, Releases};
ghost use Rattle.dht_section.specs.ReleaseLaws.{release_permitted, release_stable};

use super::looks::Looks;
use super::machine::{Ask, Machine, Turn};
use super::section::{Held, Prepared, last_lock, unlock_ask};
use super::want::Scope;
use dht_brick::replies::Reply;

/// A release. The locks above this one were given back.
#[derive(Drop)]
pub struct Release {
    pub scope: Scope,
    pub looks: Looks,
    pub place: usize,
}

impl Release {
    /// Gives back the locks of a section that is held. It takes no memory.
    pub fn new(held: Held) -> Release
        ensures release { result ≡ release_of held }
        ensures releases { (s : Scene) → IsHeld held s → Releases held s }
    {
        let place = last_lock(&held.scope);
        Release {
            scope: held.scope,
            looks: held.looks,
            place,
        }
    }

    /// Where it is after the reply to its request.
    fn after(self) -> Turn<Release, Prepared>
        ensures { result ≡ release_after self }
    {
        if 0 < self.place {
            Turn::Go(Release {
                scope: self.scope,
                looks: self.looks,
                place: self.place - 1,
            })
        } else {
            Turn::Done(Prepared {
                scope: self.scope,
                looks: self.looks,
            })
        }
    }
}

impl Machine for Release {
    type Done = Prepared;

    ghost stage = { release_stage };

    ghost ending = { released_ending };

    fn next(&self) -> Ask {
        unlock_ask(&self.scope, self.place)
    }

    fn take(self, reply: Reply, at: u64) -> Turn<Release, Prepared>
        ensures moves { Moves release_stage released_ending self reply at result }
        ensures after { result ≡ release_after self }
    {
        self.after()
    }

    ghost permitted = { release_permitted };

    ghost stable = { release_stable };
}
