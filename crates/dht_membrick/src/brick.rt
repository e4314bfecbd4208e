//! A brick that keeps what it contains in memory.

ghost use Rattle.std.specs.Prelude.{◌≡◌};
ghost use Rattle.dht_names.specs.Kept.{tables_in};

use dht_brick::brick::Brick;
use dht_brick::census::Census;
use dht_brick::journal::{Journal, JournalEntry};
use dht_brick::pokes::{PokeAt, PokeFault};
use dht_brick::replies::Reply;
use dht_brick::requests::Request;
use dht_files::Files;
use dht_locks::Locks;
use dht_names::Tables;
use dht_opens::Opens;
use dht_types::identifiers::{BrickNo, CallNo, ClientNo, Gfid};
use dht_types::lines::DumpLine;
use dht_types::volumes::Volume;
use std::alloc::{AllocError, Global};

/// A brick that keeps what it contains in memory. It fails only where it is armed. Contracts speak of
/// `mem_state`.
#[derive(Drop)]
pub struct MemBrick {
    pub(crate) alloc: Global,
    pub(crate) number: BrickNo,
    pub(crate) volume: Volume,
    pub(crate) tables: Tables,
    pub(crate) files: Files,
    pub(crate) opens: Opens,
    pub(crate) locks: Locks,
    pub(crate) is_up: bool,
    pub(crate) is_armed: bool,
    pub(crate) faults: u64,
    pub(crate) journal: Journal,
    /// The tables write and read linkto values by the names of the volume.
    ghost same_names: { (tables_in tables).bricks ≡ volume.names },
}

impl MemBrick {
    ghost use Rattle.std.specs.Prelude.{◌≡◌, length};
    ghost use Rattle.dht_brick.specs.Bricks.{is_unreachable};
    ghost use Rattle.dht_membrick.specs.State.{mem_state};

    /// What it served, the oldest first.
    #[tactic(auto, unfolding(crate::specs::State::mem_state))]
    pub fn entries(&self) -> &Journal
        ensures each { result.now.each ≡ (mem_state self.now).journal }
        ensures spare { result.now.spare ≡ (mem_state self.now).spare }
    {
        &self.journal
    }

    /// Whether it is down for this request: only an unlock reaches a brick that is down.
    #[tactic(auto, unfolding(crate::specs::State::mem_state))]
    fn is_unreachable(&self, request: &Request) -> bool
        ensures { result ≡ is_unreachable (mem_state self.now).is_up request.now }
    {
        match request {
            Request::Unlock(_) => false,
            _ => !self.is_up,
        }
    }
}

impl Brick for MemBrick {
    ghost use Rattle.std.specs.Prelude.{◌≢◌, ◌≤◌, length};
    ghost use Rattle.dht_brick.specs.Bricks.{ServesRequest};
    ghost use Rattle.dht_brick.specs.Memory.{TakesNoMemory};
    ghost use Rattle.dht_brick.specs.Within.{MayBeSent};
    ghost use Rattle.dht_membrick.specs.State.{mem_state};

    ghost state = { mem_state };

    #[tactic(auto, unfolding(crate::specs::State::mem_state))]
    fn serve(&mut self, client: ClientNo, call: CallNo, request: &Request) -> Reply
        requires spare { 1 ≤ (mem_state self.old).spare }
        requires sent { MayBeSent (length (mem_state self.old).volume.names) request.now }
        ensures served { ServesRequest client call request.now (mem_state self.old) result
            (mem_state self.new) }
        ensures memory { TakesNoMemory request.now → result ≢ Reply.NoMemory }
    {
        if self.is_unreachable(request) {
            return Reply::Down;
        }
        let reply = self.answer(client, call, request);
        self.journal
            .note(JournalEntry::of(client, call, request, &reply));
        reply
    }

    #[tactic(auto, unfolding(crate::specs::State::mem_state))]
    fn set_up(&mut self, up: bool) {
        self.is_up = up;
    }

    #[tactic(auto, unfolding(crate::specs::State::mem_state))]
    fn arm(&mut self) {
        self.is_armed = true;
    }

    #[tactic(auto, unfolding(crate::specs::State::mem_state))]
    fn free_client(&mut self, client: ClientNo) {
        self.opens.free_client(client);
        self.locks.free_client(client);
    }

    #[tactic(auto, unfolding(crate::specs::State::mem_state))]
    fn remount(&mut self, volume: &Volume) -> Result<(), AllocError> {
        let known = volume.copied(self.alloc)?;
        self.tables.know(volume)?;
        self.volume = known;
        self.files.forget();
        self.opens.clear();
        self.locks.clear();
        Ok(())
    }

    #[tactic(auto, unfolding(crate::specs::State::mem_state))]
    fn make_room(&mut self) -> Result<(), AllocError> {
        self.journal.make_room()
    }

    #[tactic(auto, unfolding(crate::specs::State::mem_state))]
    fn poke(&mut self, at: &PokeAt, value: &[u8]) -> Result<(), PokeFault> {
        self.tables.poke(at, value)
    }

    #[tactic(auto, unfolding(crate::specs::State::mem_state))]
    fn value(&self, dir: Gfid) -> Option<Option<&[u8]>> {
        self.tables.value(dir)
    }

    #[tactic(auto, unfolding(crate::specs::State::mem_state))]
    fn census(&self) -> Census {
        Census {
            dirs: self.tables.dirs(),
            slots: self.tables.slots(),
            files: self.files.count(),
            chunks: self.files.chunks(),
        }
    }

    #[tactic(auto, unfolding(crate::specs::State::mem_state))]
    fn dump(&self, brick: BrickNo, out: &mut Vec<DumpLine>) -> Result<(), AllocError> {
        out.push(DumpLine::Brick(brick, self.is_up))?;
        self.tables.dump_dirs(brick, out)?;
        self.tables.dump_slots(brick, out)?;
        self.files.dump(brick, &self.tables, out)
    }
}
