//! The directory records and slots of a brick, and the volume that it knows.

ghost use Rattle.std.specs.Prelude.{◌≡◌, ◌≤◌, [], ◌∷◌, ◌++◌, Some, None, map, length, slice_get, unwrap_or, IfOk, OnOk, OnErr};
ghost use Rattle.std.specs.Option.{option_map, option_copied};
ghost use Rattle.std.specs.FinMap.{get, empty, entries, len};
ghost use Rattle.dht_brick.specs.Dump.{dir_line, slot_line};
ghost use Rattle.dht_brick.specs.Saving.{key_above, dir_saved};
ghost use Rattle.dht_types.specs.Linkto.{linkto_value};
ghost use Rattle.dht_types.specs.declared.stored.Main.{Main};
ghost use Rattle.dht_names.specs.Kept.{tables_in, main_of};

use crate::dirs::DirTable;
use crate::kept::KeptMain;
use crate::slots::SlotTable;
use dht_brick::replies::SlotShown;
use dht_brick::slots::Slots;
use dht_types::identifiers::{BrickNo, Gfid};
use dht_types::lines::DumpLine;
use dht_types::names::{EntryKey, Name};
use dht_types::stored::Standby;
use dht_types::volumes::Volume;
use std::alloc::{AllocError, Global};

/// A brick's name and a zero byte behind it.
fn terminated(name: &[u8]) -> Name
    requires { length name.now ≤ 64 }
    ensures { result ≡ name.now ++ 0 ∷ [] }
{
    let mut bytes = [0u8; 65];
    bytes[..name.len()].copy_from_slice(name);
    Name::of(&bytes[..name.len() + 1])
}

/// The bytes of a brick's name, or none where there is no such brick.
fn name_of(volume: &Volume, brick: BrickNo) -> &[u8]
    ensures name { result.now ≡ unwrap_or (slice_get volume.now.names brick.0) [] }
    ensures short { length result.now ≤ 64 }
{
    volume.bricks();
    match volume.name(brick) {
        None => &[],
        Some(name) => name,
    }
}

/// The linkto to a brick, which is short.
fn linkto(volume: &Volume, brick: BrickNo) -> KeptMain
    ensures { main_of result ≡ Main.Linkto (linkto_value volume.now.names brick.0) }
{
    KeptMain::Short(terminated(name_of(volume, brick)))
}

/// The directory records and slots of a brick in memory, and the volume that it knows, by whose
/// names it writes and reads linkto values. Contracts speak of `tables_in`.
#[derive(Drop)]
pub struct Tables {
    pub(crate) alloc: Global,
    pub(crate) dirs: DirTable,
    pub(crate) slots: SlotTable,
    pub(crate) volume: Volume,
}

impl Tables {
    /// No directory records and no slots, of a brick of this volume.
    pub fn new(alloc: Global, volume: &Volume) -> Result<Tables, AllocError>
        ensures { IfOk result (λ t. tables_in t
            ≡ record { dirs = empty; slots = empty; bricks = volume.now.names }) }
    {
        Ok(Tables {
            alloc,
            dirs: DirTable::new(alloc),
            slots: SlotTable::new(alloc),
            volume: volume.copied(alloc)?,
        })
    }

    /// Knows this volume from now on. Where there is no memory for it, nothing changes.
    pub fn know(&mut self, volume: &Volume) -> Result<(), AllocError>
        requires { length (tables_in self.old).bricks ≤ length volume.now.names }
        ensures ok { OnOk result (tables_in self.new
            ≡ record (tables_in self.old) { bricks = volume.now.names }) }
        ensures err { OnErr result (tables_in self.new ≡ tables_in self.old) }
    {
        self.volume = volume.copied(self.alloc)?;
        Ok(())
    }

    /// How many directory records there are.
    pub fn dirs(&self) -> u64
        ensures { result ≡ len (tables_in self.now).dirs }
    {
        self.dirs.len() as u64
    }

    /// How many slots there are.
    pub fn slots(&self) -> u64
        ensures { result ≡ len (tables_in self.now).slots }
    {
        self.slots.len() as u64
    }

    /// The least gfid of a directory that has a record, above one or from the start.
    pub fn next_key(&self, after: Option<Gfid>) -> Option<Gfid>
        ensures { result ≡ key_above (tables_in self.now).dirs after }
    {
        self.dirs.next(after)
    }

    /// Appends the lines of the directory records, by gfid, as those of the brick of this number.
    pub fn dump_dirs(&self, brick: BrickNo, out: &mut Vec<DumpLine>) -> Result<(), AllocError>
        ensures { OnOk result (out.new.items
            ≡ out.old.items ++ map (dir_line brick) (entries (tables_in self.now).dirs)) }
    {
        self.dirs.dump(self.alloc, brick, out)
    }

    /// Appends the lines of the slots, by directory and name, as those of the brick of this number.
    pub fn dump_slots(&self, brick: BrickNo, out: &mut Vec<DumpLine>) -> Result<(), AllocError>
        ensures { OnOk result (out.new.items
            ≡ out.old.items ++ map (slot_line brick) (entries (tables_in self.now).slots)) }
    {
        self.slots.dump(self.alloc, brick, out)
    }
}

impl Slots for Tables {
    ghost use Rattle.dht_names.specs.Kept.{tables_in};

    ghost tables = { tables_in };

    fn has_dir(&self, dir: Gfid) -> bool {
        self.dirs.contains(dir)
    }

    fn parts(&self, key: &EntryKey) -> SlotShown {
        self.slots.parts(key)
    }

    fn links(&self, file: Gfid) -> u64 {
        self.slots.links(file)
    }

    fn is_marked(&self, file: Gfid) -> bool {
        self.slots.is_marked(file)
    }

    fn put_copy(&mut self, key: &EntryKey, file: Gfid) -> Result<(), AllocError> {
        self.slots.put_standby(key, Standby::Copy(file))
    }

    fn take_standby(&mut self, key: &EntryKey) {
        self.slots.take_standby(key);
    }

    fn put_linkto(&mut self, key: &EntryKey, brick: BrickNo) {
        let main = linkto(&self.volume, brick);
        self.slots.replace_main(key, main);
    }

    fn put_file(&mut self, key: &EntryKey, file: Gfid) {
        self.slots.settle(key, file);
    }
}
