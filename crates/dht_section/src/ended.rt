//! What a call hands out when it has ended.

ghost use Rattle.std.specs.Prelude.{◌≡◌};
ghost use Rattle.dht_section.specs.Ended.{found_at, gone_at};
ghost use Rattle.dht_section.specs.Scene.{fault_finish};

use super::machine::{Finish, fault_finish};
use dht_types::calls::Answer;
use dht_types::errors::Errno;
use dht_types::identifiers::Gfid;
use dht_xattr::layout::Layout;

/// What a call hands out when it has ended: what it answers, and the layout of its directory, if it
/// has read the range of every brick.
#[derive(Clone, Copy)]
pub struct Ended {
    pub finish: Finish,
    pub layout: Option<Layout>,
}

impl Ended {
    /// The end of a call that holds nothing, where a brick was down, failed or had no memory.
    pub fn stopped(errno: Errno, layout: Option<Layout>) -> Ended
        ensures finish { result.finish ≡ fault_finish errno }
        ensures layout { result.layout ≡ layout }
    {
        Ended {
            finish: fault_finish(errno),
            layout,
        }
    }

    /// The end of a call whose directory was gone, at this line.
    pub fn gone(at: u64, layout: Option<Layout>) -> Ended
        ensures finish { result.finish ≡ gone_at at }
        ensures layout { result.layout ≡ layout }
    {
        let finish = Finish {
            answer: Answer::Fault(Errno::Estale),
            at: Some(at),
        };
        Ended { finish, layout }
    }

    /// The end of a lookup to which the name's holder showed this file, at this line.
    pub fn found(file: Gfid, at: u64, layout: Option<Layout>) -> Ended
        ensures finish { result.finish ≡ found_at file at }
        ensures layout { result.layout ≡ layout }
    {
        let finish = Finish {
            answer: Answer::File(file),
            at: Some(at),
        };
        Ended { finish, layout }
    }
}
