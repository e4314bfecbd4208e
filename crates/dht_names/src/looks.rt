//! The requests that change nothing, and that of an attribute.

ghost use Rattle.std.specs.Prelude.{◌≡◌, Option, IfOk};
ghost use Rattle.std.specs.Option.{option_map, option_copied};
ghost use Rattle.std.specs.FinMap.{get};
ghost use Rattle.dht_types.specs.declared.stored.DirRecord.{DirRecord};
ghost use Rattle.dht_types.specs.declared.stored.Record.{Record};
ghost use Rattle.dht_brick.specs.Contents.{Files, entry_at, store_of};
ghost use Rattle.dht_brick.specs.Looks.{dest_of, shape_of, file_look, look_of, file_hop, info_of};
ghost use Rattle.dht_brick.specs.Parts.{slot_shown};
ghost use Rattle.dht_brick.specs.declared.requests.NameRequest.{NameRequest};
ghost use Rattle.dht_names.specs.Kept.{tables_in};
ghost use Rattle.dht_names.specs.Served.{MeetsRow};

use crate::brick_tables::Tables;
use crate::dirs::{copied, stored};
use dht_brick::files::FileRecords;
use dht_brick::replies::{DirInfo, FileLook, Given, Look, MainShown, Reply, SlotShown, Why};
use dht_brick::shapes::Shape;
use dht_guard::State;
use dht_types::identifiers::{BrickNo, Gfid};
use dht_types::layouts::LayoutValue;
use dht_types::names::{EntryKey, Name};
use dht_types::stored::{DirRecord, Main, Slot};
use std::alloc::AllocError;

/// Where the file is being copied to, if it is.
fn dest_of(shape: &Shape) -> Option<BrickNo>
    ensures { (r : Option Record) → shape.now ≡ shape_of r → result ≡ dest_of r }
{
    match shape.state {
        State::Moving => Some(shape.brick),
        _ => None,
    }
}

/// The parts of a slot, as a refusal shows them.
fn shown(slot: &Slot) -> SlotShown
    ensures { result ≡ slot_shown slot.now }
{
    let main = match &slot.main {
        None => None,
        Some(Main::Dir(dir)) => Some(MainShown::Dir(*dir)),
        Some(Main::File(file, over)) => Some(MainShown::File(*file, *over)),
        Some(Main::Linkto(_)) => Some(MainShown::Linkto),
    };
    SlotShown {
        main,
        standby: slot.standby,
    }
}

impl Tables {
    /// What a look shows of the record of a file.
    fn file_look<F: FileRecords>(&self, file: Gfid, files: &F) -> FileLook
        ensures { result ≡ file_look (store_of (tables_in self.now) (F.files files.now)) file }
    {
        let shape = files.shape(file);
        FileLook {
            state: shape.state,
            hop: shape.hop,
            dest: dest_of(&shape),
            links: self.slots.links(file),
        }
    }

    /// What stands at a name of a directory, which has this record.
    fn seen<F: FileRecords>(
        &self,
        key: &EntryKey,
        dir: &DirRecord,
        files: &F,
    ) -> Result<Look, AllocError>
        ensures { IfOk result (λ l. l
            ≡ look_of (store_of (tables_in self.now) (F.files files.now))
            (entry_at key.now) dir.now) }
    {
        let slot = self.slots.slot(self.alloc, key)?;
        let parts = shown(&slot);
        let file = match parts.file() {
            None => None,
            Some(file) => Some(self.file_look(file, files)),
        };
        let copy = match parts.copy() {
            None => None,
            Some(file) => Some(files.shape(file).hop),
        };
        Ok(Look {
            slot,
            file,
            copy,
            value: copied(self.alloc, &dir.value)?,
        })
    }

    /// What stands at a name of a directory.
    pub(crate) fn look<F: FileRecords>(&self, key: &EntryKey, files: &F) -> Reply
        ensures { MeetsRow (NameRequest.Look key.now.dir key.now.name) (tables_in self.now)
            (F.files files.now) result (tables_in self.now) (F.files files.now) }
    {
        let Some(dir) = self.dirs.get(key.dir) else {
            return Reply::Refused(Why::Nodir);
        };
        match self.seen(key, dir, files) {
            Ok(look) => Reply::Ok(Given::Look(look)),
            Err(_) => Reply::NoMemory,
        }
    }

    /// Names of a directory above this one, or from the start.
    pub(crate) fn page(&self, dir: Gfid, after: &Option<Name>) -> Reply
        ensures { (f : Files)
            → MeetsRow (NameRequest.Page dir after.now) (tables_in self.now) f result
            (tables_in self.now) f }
    {
        if !self.dirs.contains(dir) {
            return Reply::Refused(Why::Nodir);
        }
        match self.slots.page(self.alloc, dir, after) {
            Ok(page) => Reply::Ok(Given::Page(page)),
            Err(_) => Reply::NoMemory,
        }
    }

    /// What the brick has of a directory, which has this record.
    fn info(&self, dir: Gfid, kept: &DirRecord) -> Result<DirInfo, AllocError>
        ensures { (f : Files)
            → IfOk result (λ i. i ≡ info_of (store_of (tables_in self.now) f) dir kept.now) }
    {
        Ok(DirInfo {
            place: kept.place,
            depth: kept.depth,
            value: copied(self.alloc, &kept.value)?,
            is_occupied: self.slots.is_occupied(dir),
        })
    }

    /// What the brick has of a directory.
    pub(crate) fn dirinfo(&self, dir: Gfid) -> Reply
        ensures { (f : Files)
            → MeetsRow (NameRequest.Dirinfo dir) (tables_in self.now) f result
            (tables_in self.now) f }
    {
        let Some(kept) = self.dirs.get(dir) else {
            return Reply::Refused(Why::Nodir);
        };
        match self.info(dir, kept) {
            Ok(info) => Reply::Ok(Given::Dirinfo(info)),
            Err(_) => Reply::NoMemory,
        }
    }

    /// Gives a directory's record this attribute, or none.
    pub(crate) fn set_layout(&mut self, dir: Gfid, value: &Option<LayoutValue>) -> Reply
        ensures { (f : Files)
            → MeetsRow (NameRequest.SetLayout dir value.now) (tables_in self.old) f result
            (tables_in self.new) f }
    {
        if !self.dirs.contains(dir) {
            return Reply::Refused(Why::Nodir);
        }
        let Ok(value) = stored(self.alloc, value) else {
            return Reply::NoMemory;
        };
        self.dirs.set_value(dir, value);
        Reply::Ok(Given::Nothing)
    }
}
