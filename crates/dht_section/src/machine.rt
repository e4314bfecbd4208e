//! A machine: the program of a call, one request after another. Its ghost members say what it knows
//! between its requests, and its laws that it may send each request and that nobody else's request
//! makes what it knows false.

ghost use Rattle.std.specs.Prelude.{◌≡◌};
ghost use Rattle.dht_section.specs.Scene.{fault_finish};
ghost use Rattle.dht_section.specs.Stages.{Stage, Ending, Moves, MaySend, IsStable};

use dht_brick::replies::Reply;
use dht_brick::requests::Request;
use dht_types::calls::Answer;
use dht_types::errors::Errno;
use dht_types::identifiers::BrickNo;

/// A request to one brick.
#[derive(Drop)]
pub struct Ask {
    pub brick: BrickNo,
    pub request: Request,
}

/// After a reply a machine goes on, or is done.
#[derive(Drop)]
pub enum Turn<M, D> {
    Go(M),
    Done(D),
}

/// What a finished call answers, and the line at which the answer holds, where it has one.
#[derive(Clone, Copy)]
pub struct Finish {
    pub answer: Answer,
    pub at: Option<u64>,
}

/// The answer of a call that was stopped by this error. It holds at no line.
pub fn fault_finish(errno: Errno) -> Finish
    ensures { result ≡ fault_finish errno }
{
    Finish {
        answer: Answer::Fault(errno),
        at: None,
    }
}

/// A program of requests. It learns from replies alone; `at` is the number of the line on which a
/// reply stands, which it may hand out as the point of an answer.
pub trait Machine: Sized {
    /// What it hands out when it is done.
    type Done;

    /// Where it is between its requests: the request that it sends next, what it claims, how many
    /// requests it still sends at most, and what it knows of the scene.
    ghost stage: { Self → Stage };

    /// What it still claims when it hands this out, and what is true of the scene then.
    ghost ending: { Self.Done → Ending };

    /// The request that it sends next.
    fn next(&self) -> Ask
        ensures { result ≡ (stage self.now).asks };

    /// Takes the reply to its request.
    fn take(self, reply: Reply, at: u64) -> Turn<Self, Self::Done>
        ensures moves { Moves stage ending self reply at result };

    /// It may send its request in every sound scene of which its knowledge holds.
    ghost permitted: { (m : Self) → MaySend (stage m) };

    /// What others may do leaves its knowledge true.
    ghost stable: { (m : Self) → IsStable (stage m) };
}
