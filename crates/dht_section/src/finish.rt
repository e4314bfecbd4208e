//! How calls end, beside the errors of bricks.

ghost use Rattle.std.specs.Prelude.{◌≡◌};
ghost use Rattle.dht_section.specs.Finish.{done_at, made_at, refused_at};

use super::machine::Finish;
use dht_types::calls::Answer;
use dht_types::errors::Errno;
use dht_types::identifiers::Gfid;

/// The answer that it is done, at the line at which the tree changed.
pub fn done_at(at: u64) -> Finish
    ensures { result ≡ done_at at }
{
    Finish {
        answer: Answer::Done,
        at: Some(at),
    }
}

/// The answer that this file or directory was made, at the line at which it was.
pub fn made_at(made: Gfid, at: u64) -> Finish
    ensures { result ≡ made_at made at }
{
    Finish {
        answer: Answer::Made(made),
        at: Some(at),
    }
}

/// The answer that the call is refused, at the line of the last look.
pub fn refused_at(errno: Errno, at: u64) -> Finish
    ensures { result ≡ refused_at errno at }
{
    Finish {
        answer: Answer::Fault(errno),
        at: Some(at),
    }
}
