//! How a request that reached the brick is answered.

ghost use Rattle.std.specs.Prelude.{◌≡◌, ◌≢◌, length};
ghost use Rattle.dht_brick.specs.Memory.{TakesNoMemory};
ghost use Rattle.dht_brick.specs.Outcome.{Serves};
ghost use Rattle.dht_brick.specs.Rows.{row};
ghost use Rattle.dht_brick.specs.Within.{MayBeSent};
ghost use Rattle.dht_brick.specs.declared.replies.Reply.{Reply};
ghost use Rattle.dht_membrick.specs.State.{mem_state, Answered};

use crate::brick::MemBrick;
use crate::parts;
use dht_brick::replies::Reply;
use dht_brick::requests::Request;
use dht_types::identifiers::{CallNo, ClientNo};

impl MemBrick {
    /// Fails where it is armed, and else carries the request out or refuses it.
    #[tactic(auto, unfolding(crate::specs::State::mem_state))]
    pub(crate) fn answer(&mut self, client: ClientNo, call: CallNo, request: &Request) -> Reply
        requires { MayBeSent (length (mem_state self.old).volume.names) request.now }
        ensures { Answered client call request.now (mem_state self.old) result
            (mem_state self.new) }
    {
        if self.is_armed {
            self.is_armed = false;
            self.faults = self.faults.saturating_add(1);
            return Reply::Failed;
        }
        self.carry_out(client, call, request)
    }

    /// Carries a request out, or refuses it, by its row; or there is no memory for it, and nothing
    /// is done.
    #[tactic(auto, unfolding(crate::specs::State::mem_state))]
    fn carry_out(&mut self, client: ClientNo, call: CallNo, request: &Request) -> Reply
        requires { MayBeSent (length (mem_state self.old).volume.names) request.now }
        ensures row { Serves (row (mem_state self.old).volume.names client call request.now
            (mem_state self.old).contents)
            (mem_state self.old).contents result (mem_state self.new).contents }
        ensures memory { TakesNoMemory request.now → result ≢ Reply.NoMemory }
        ensures same { mem_state self.new
            ≡ record (mem_state self.old) { contents = (mem_state self.new).contents } }
    {
        match request {
            Request::Lock(key, mode) => parts::lock(&mut self.locks, client, key, *mode),
            Request::Unlock(key) => parts::unlock(&mut self.locks, client, key),
            Request::Register(file) => parts::register(&mut self.opens, client, call, *file),
            Request::Unregister(file, opened) => {
                parts::unregister(&mut self.opens, client, *file, *opened)
            }
            Request::Seal(file) => parts::seal(&mut self.opens, *file),
            Request::OnNames(request) => self.tables.serve(request, &mut self.files),
            Request::OnFile(request) => self.files.serve(request, &mut self.tables),
        }
    }
}
