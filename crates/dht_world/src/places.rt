//! The place of a client in the world.

ghost use Rattle.std.specs.Prelude.{◌≡◌, ◌≤◌, not, true, false, None, length};
ghost use Rattle.dht_world.specs.Clients.{is_dead, is_busy_at, IsBusy, IsIdle, Asks, Starts, Takes};

use dht_brick::replies::Reply;
use dht_section::caller::Caller;
use dht_section::machine::{Ask, Finish};
use dht_types::calls::Call;
use dht_types::errors::Errno;
use dht_types::identifiers::{CallNo, Gfid};
use dht_types::volumes::Weights;
use std::alloc::Global;

/// The place of a client: one that lives, with the number of its last call, or one that has died.
#[derive(Drop)]
pub enum Place<C> {
    /// A client that lives. Its last call has this number, or 0 before its first.
    Living(C, CallNo),
    /// A client that has died.
    Dead,
}

impl<C: Caller> Place<C> {
    /// Whether the client has died.
    pub fn is_dead(&self) -> bool
        ensures { result ≡ is_dead self.now }
    {
        match self {
            Place::Living(_, _) => false,
            Place::Dead => true,
        }
    }

    /// Whether a client lives here that has no pending call, or none lives here.
    pub fn is_idle(&self) -> bool
        ensures { result ≡ not (is_busy_at C.Caller self.now) }
    {
        match self {
            Place::Living(client, _) => client.is_idle(),
            Place::Dead => true,
        }
    }

    /// The client calls, over bricks of these weights and in this run; or the call is refused
    /// before its first request, and the client stays idle.
    pub fn start(
        &mut self,
        alloc: Global,
        weights: &Weights,
        run: u32,
        call: CallNo,
        what: &Call<Gfid>,
    ) -> Result<(), Errno>
        requires idle { IsIdle C.Caller self.old }
        requires few { length weights.now ≤ 32 }
        ensures { Starts C.Caller self.old weights.now run call what.now result self.new }
    {
        match self {
            Place::Living(client, number) => {
                *number = call;
                client.start(alloc, weights, run, call, what)
            }
            Place::Dead => unreachable!(),
        }
    }

    /// The request that the client's pending call sends next, and the number of the call.
    pub fn next(&self) -> (CallNo, Ask)
        requires { IsBusy C.Caller self.now }
        ensures { Asks C.Caller self.now result.0 result.1 }
    {
        match self {
            Place::Living(client, call) => (*call, client.next()),
            Place::Dead => unreachable!(),
        }
    }

    /// The client's pending call takes the reply to its request, and is finished or not. `at` is
    /// the number of the call's last line.
    pub fn take(&mut self, reply: Reply, at: u64) -> Option<Finish>
        requires { IsBusy C.Caller self.old }
        ensures { Takes C.Caller self.old reply at result self.new }
    {
        match self {
            Place::Living(client, _) => client.take(reply, at),
            Place::Dead => unreachable!(),
        }
    }
}
