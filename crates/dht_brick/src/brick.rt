//! The interface of a brick, however it keeps what it contains.

ghost use Rattle.std.specs.Prelude.{◌≡◌, ◌≤◌, ◌<◌, ◌++◌, true, length, OnOk, OnErr};
ghost use Rattle.std.specs.Option.{option_map, option_copied};
ghost use Rattle.dht_brick.specs.Bricks.{BrickState, ServesRequest, Pokes};
ghost use Rattle.dht_brick.specs.Dump.{dump_of};
ghost use Rattle.dht_brick.specs.Events.{freed, remounted, value_of, census_of};
ghost use Rattle.dht_types.specs.Saved.{IsValue};
ghost use Rattle.dht_brick.specs.Within.{MayBeSent};

use super::census::Census;
use super::pokes::{PokeAt, PokeFault};
use super::replies::Reply;
use super::requests::Request;
use dht_types::identifiers::{BrickNo, CallNo, ClientNo, Gfid};
use dht_types::lines::DumpLine;
use dht_types::volumes::Volume;
use std::alloc::AllocError;

/// One brick of a volume: one machine's share of the directories, names and files.
pub trait Brick: Sized {
    /// Its number, what it contains, the volume that it knows, whether it is up and armed, its
    /// faults, its journal, and how many entries the journal still takes without memory.
    ghost state: { Self → BrickState };

    /// Serves one request of a client's call, at once. Where it is down, only an unlock is served,
    /// and nothing is noted. Else it fails, where it is armed; or it carries the request out or
    /// refuses it by the request's row; or it is out of memory. Where it failed or was out of
    /// memory, it did nothing with what it contains. Each reply but `Down` has an entry in its
    /// journal.
    fn serve(&mut self, client: ClientNo, call: CallNo, request: &Request) -> Reply
        requires spare { 1 ≤ (state self.old).spare }
        requires sent { MayBeSent (length (state self.old).volume.names) request.now }
        ensures { ServesRequest client call request.now (state self.old) result (state self.new) };

    /// Goes down, or comes back. A brick that is down keeps what it contains.
    fn set_up(&mut self, up: bool)
        ensures { state self.new ≡ record (state self.old) { is_up = up } };

    /// The next request that finds it up, or is an unlock, fails.
    fn arm(&mut self)
        ensures { state self.new ≡ record (state self.old) { is_armed = true } };

    /// Takes away all locks and registrations of a client, also while it is down.
    fn free_client(&mut self, client: ClientNo)
        ensures { state self.new
            ≡ record (state self.old) { contents = freed client.0 (state self.old).contents } };

    /// Takes away all locks, registrations, seals and pointers to where files went. From now on the
    /// brick knows this volume, by whose names it writes and reads linkto values.
    fn remount(&mut self, volume: &Volume) -> Result<(), AllocError>
        requires here { (state self.old).number < length volume.now.names }
        requires grown { length (state self.old).volume.names ≤ length volume.now.names }
        ensures ok { OnOk result (state self.new ≡ record (state self.old) {
          contents = remounted (state self.old).contents;
          volume = volume.now;
        }) }
        ensures err { OnErr result (state self.new ≡ state self.old) };

    /// Makes room for one more entry of the journal, and changes nothing else.
    fn make_room(&mut self) -> Result<(), AllocError>
        ensures room { OnOk result (1 ≤ (state self.new).spare) }
        ensures same { OnOk result (state self.new
            ≡ record (state self.old) { spare = (state self.new).spare }) }
        ensures err { OnErr result (state self.new ≡ state self.old) };

    /// Sets the attribute of a directory, or a linkto, also while the brick is down. `Slot` comes
    /// exactly where there is no such directory, or a directory or a file is at the name; `Failed`
    /// only where the brick failed.
    fn poke(&mut self, at: &PokeAt, value: &[u8]) -> Result<(), PokeFault>
        requires { IsValue value.now }
        ensures { Pokes at.now value.now (state self.old) result (state self.new) };

    /// The attribute of a directory, if there is a record of it, and if the record has one.
    fn value(&self, dir: Gfid) -> Option<Option<&[u8]>>
        ensures { option_map option_copied result
            ≡ value_of (state self.now).contents.store.dirs dir };

    /// How much it contains.
    fn census(&self) -> Census
        ensures { result ≡ census_of (state self.now).contents.store };

    /// Appends the lines of what it contains, as those of the brick of this number.
    fn dump(&self, brick: BrickNo, out: &mut Vec<DumpLine>) -> Result<(), AllocError>
        ensures { OnOk result (out.new.items ≡ out.old.items ++
            dump_of brick (state self.now).is_up (state self.now).contents.store) };
}
