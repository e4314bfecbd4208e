//! A client, as the world sees it: it has at most one running call, whatever the call's program is.

ghost use Rattle.std.specs.Prelude.{◌≡◌, ◌<◌, ◌≤◌, Bool, true, false, not, None, OnOk, is_ok, length};
ghost use Rattle.dht_types.specs.Calls.{refusal_at_start};
ghost use Rattle.dht_types.specs.Cost.{cost};
ghost use Rattle.dht_types.specs.declared.identifiers.ClientNo.{ClientNo};
ghost use Rattle.dht_section.specs.Begins.{Begins, IsRefusal};
ghost use Rattle.dht_section.specs.Scene.{Scene};
ghost use Rattle.dht_section.specs.Stages.{Stage, CallMoves, MaySend, IsCallStable};

use super::machine::{Ask, Finish};
use dht_brick::replies::Reply;
use dht_types::calls::Call;
use dht_types::errors::Errno;
use dht_types::identifiers::{CallNo, ClientNo, Gfid};
use dht_types::volumes::Weights;
use std::alloc::Global;

/// A client that carries out one call at a time.
pub trait Caller: Sized {
    /// Its number.
    ghost number: { Self → ClientNo };

    /// Whether a call of it is running.
    ghost is_busy: { Self → Bool };

    /// Whether it knows no layout yet.
    ghost is_new: { Self → Bool };

    /// Where its call is between its requests.
    ghost stage: { Self → Stage };

    /// A client of this number that has called nothing yet.
    fn new(client: ClientNo) -> Self
        ensures number { number result ≡ client }
        ensures idle { is_busy result ≡ false }
        ensures unread { is_new result ≡ true };

    /// Whether no call of it is running.
    fn is_idle(&self) -> bool
        ensures { result ≡ not (is_busy self.now) };

    /// Begins a call, over bricks of these weights and in this run; or gives what the call answers
    /// before its first request, and stays idle: that its name is none (Einval, Enametoolong), that
    /// its directory is none of the tree, as its home is no brick (Estale), or, where none of these
    /// applies, that memory ran out (Enomem).
    fn start(
        &mut self,
        alloc: Global,
        weights: &Weights,
        run: u32,
        call: CallNo,
        what: &Call<Gfid>,
    ) -> Result<(), Errno>
        requires idle { is_busy self.old ≡ false }
        requires few { length weights.now ≤ 32 }
        ensures number { number self.new ≡ number self.old }
        ensures refused { IsRefusal (refusal_at_start (length weights.now) what.now) result }
        ensures busy { is_busy self.new ≡ is_ok result }
        ensures copy { OnOk result ((stage self.new).claims.copy ≡ None) }
        ensures knows { OnOk result ((s : Scene)
            → Begins (number self.old) (is_new self.old) weights.now run call what.now s
            → (stage self.new).knows s) }
        ensures variant { OnOk result
            ((stage self.new).variant ≤ cost (length weights.now) what.now) };

    /// The request that its call sends next.
    fn next(&self) -> Ask
        requires { is_busy self.now ≡ true }
        ensures { result ≡ (stage self.now).asks };

    /// Takes the reply to its request; `at` is the number of the line on which the call's last line
    /// stands. It gives what the call answers, if the call is finished.
    fn take(&mut self, reply: Reply, at: u64) -> Option<Finish>
        requires { is_busy self.old ≡ true }
        ensures number { number self.new ≡ number self.old }
        ensures moves { CallMoves is_busy stage self.old self.new reply at result };

    /// Its call may send its request in every sound scene of which its knowledge holds.
    ghost permitted: { (c : Self) → is_busy c ≡ true → MaySend (stage c) };

    /// What others may do leaves its knowledge true, while its call takes no step.
    ghost stable: { (c : Self) → IsCallStable (stage c) };

    /// A running call sends another request.
    ghost goes_on: { (c : Self) → is_busy c ≡ true → 0 < (stage c).variant };
}
