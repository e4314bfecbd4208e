//! The requests that change a slot. The directory of the slot is there.

ghost use Rattle.std.specs.Prelude.{◌≡◌, ◌≢◌, ◌≤◌, Some, length, is_none, OnOk, OnErr, IfSome};
ghost use Rattle.std.specs.Option.{option_map};
ghost use Rattle.std.specs.FinMap.{get, insert};
ghost use Rattle.dht_types.specs.Linkto.{linked_brick};
ghost use Rattle.dht_types.specs.declared.stored.Main.{Main};
ghost use Rattle.dht_brick.specs.Contents.{Files, entry_at, slot_in};
ghost use Rattle.dht_brick.specs.Links.{is_occupied};
ghost use Rattle.dht_brick.specs.NameRows.{slot_change, if_empty};
ghost use Rattle.dht_brick.specs.Parts.{is_live, put_slot, with_main};
ghost use Rattle.dht_brick.specs.declared.requests.NameRequest.{NameRequest};
ghost use Rattle.dht_names.specs.Kept.{tables_in, main_of};
ghost use Rattle.dht_names.specs.Served.{Meets, Changes, ChangesAlone};

use crate::brick_tables::Tables;
use crate::dirs::stored;
use crate::kept::KeptMain;
use dht_brick::files::FileRecords;
use dht_brick::replies::{Given, Reply, SlotShown, Why};
use dht_guard::State;
use dht_types::bytes::Bytes;
use dht_types::identifiers::{BrickNo, Gfid};
use dht_types::layouts::LayoutValue;
use dht_types::linktos::LinktoValue;
use dht_types::names::EntryKey;
use dht_types::stored::{DirRecord, Standby};
use dht_xattr::linkto::linkto_brick;
use std::alloc::AllocError;

/// Whether the brick has this file, and it is not being moved.
fn is_live<F: FileRecords>(files: &F, file: Gfid) -> bool
    ensures { result ≡ is_live (get (F.files files.now) file) }
{
    matches!(files.shape(file).state, State::Live)
}

/// Whether the brick has no record of this file.
fn is_absent<F: FileRecords>(files: &F, file: Gfid) -> bool
    ensures { result ≡ is_none (get (F.files files.now) file) }
{
    matches!(files.shape(file).state, State::Absent)
}

/// The refusal that shows these parts.
fn refused(parts: SlotShown) -> Reply
    ensures { result ≡ Reply.Refused (Why.Slot parts) }
{
    Reply::Refused(Why::Slot(parts))
}

impl Tables {
    /// Makes a directory at a name that stands for nothing.
    pub(crate) fn make_dir(
        &mut self,
        key: &EntryKey,
        made: Gfid,
        depth: u16,
        value: &Option<LayoutValue>,
    ) -> Reply
        ensures { ChangesAlone (NameRequest.MakeDir key.now.dir key.now.name made depth value.now)
            (tables_in self.old) result (tables_in self.new) }
    {
        let parts = self.slots.parts(key);
        if !parts.is_free() {
            return refused(parts);
        }
        match self.add_dir(key, made, depth, value) {
            Ok(()) => Reply::Ok(Given::Nothing),
            Err(_) => Reply::NoMemory,
        }
    }

    /// Gives a name to a directory, and the directory a record.
    fn add_dir(
        &mut self,
        key: &EntryKey,
        made: Gfid,
        depth: u16,
        value: &Option<LayoutValue>,
    ) -> Result<(), AllocError>
        ensures ok { OnOk result (tables_in self.new ≡ record (tables_in self.old) {
          dirs = insert (tables_in self.old).dirs made
              (record { place = Some key.now; depth = depth; value = value.now });
          slots = put_slot (tables_in self.old).slots (entry_at key.now)
              (with_main (slot_in (tables_in self.old).slots (entry_at key.now)) (Main.Dir made));
        }) }
        ensures err { OnErr result (tables_in self.new ≡ tables_in self.old) }
    {
        let record = DirRecord {
            place: Some(*key),
            depth,
            value: stored(self.alloc, value)?,
        };
        let old = self.dirs.put(made, record)?;
        match self.slots.put_main(key, KeptMain::Dir(made)) {
            Ok(()) => Ok(()),
            Err(error) => {
                self.dirs.put_back(made, old);
                Err(error)
            }
        }
    }

    /// Takes away the copy of a directory that stands at a name, if nothing stands in it.
    pub(crate) fn drop_dir(&mut self, key: &EntryKey, dir: Gfid) -> Reply
        ensures { (f : Files) → Meets (λ s. if_empty (is_occupied s.slots dir)
            (slot_change (tables_in self.old).bricks
            (NameRequest.DropDir key.now.dir key.now.name dir) s (entry_at key.now)))
            (tables_in self.old) f result (tables_in self.new) f }
    {
        let parts = self.slots.parts(key);
        if !parts.is_dir(dir) {
            return refused(parts);
        }
        if self.slots.is_occupied(dir) {
            return Reply::Refused(Why::NotEmpty);
        }
        self.slots.take_main(key);
        self.slots.drop_dir(dir);
        self.dirs.remove(dir);
        Reply::Ok(Given::Nothing)
    }

    /// Makes a new, empty file at a name that has no slot.
    pub(crate) fn create<F: FileRecords>(
        &mut self,
        key: &EntryKey,
        file: Gfid,
        files: &mut F,
    ) -> Reply
        ensures { Changes (NameRequest.Create key.now.dir key.now.name file) (tables_in self.old)
            (F.files files.old) result (tables_in self.new) (F.files files.new) }
    {
        let parts = self.slots.parts(key);
        if !parts.is_bare() || !is_absent(files, file) {
            return refused(parts);
        }
        if files.make(file).is_err() {
            return Reply::NoMemory;
        }
        match self.slots.put_main(key, KeptMain::File(file, None)) {
            Ok(()) => Reply::Ok(Given::Nothing),
            Err(_) => {
                files.remove(file);
                Reply::NoMemory
            }
        }
    }

    /// Puts a linkto of this value at a name that stands for nothing.
    pub(crate) fn make_linkto(&mut self, key: &EntryKey, value: &LinktoValue) -> Reply
        ensures { ChangesAlone (NameRequest.MakeLinkto key.now.dir key.now.name value.now)
            (tables_in self.old) result (tables_in self.new) }
    {
        let parts = self.slots.parts(key);
        if !parts.is_vacant() {
            return refused(parts);
        }
        let Ok(main) = KeptMain::linkto(self.alloc, value.as_slice()) else {
            return Reply::NoMemory;
        };
        match self.slots.put_main(key, main) {
            Ok(()) => Reply::Ok(Given::Nothing),
            Err(_) => Reply::NoMemory,
        }
    }

    /// Takes the linkto at a name away.
    pub(crate) fn drop_linkto(&mut self, key: &EntryKey) -> Reply
        ensures change { ChangesAlone (NameRequest.DropLinkto key.now.dir key.now.name)
            (tables_in self.old) result (tables_in self.new) }
        ensures memory { result ≢ Reply.NoMemory }
    {
        let parts = self.slots.parts(key);
        if !parts.is_linkto() {
            return refused(parts);
        }
        self.slots.take_main(key);
        Reply::Ok(Given::Nothing)
    }

    /// Takes the name of a file away, and says how many links are left.
    pub(crate) fn unlink<F: FileRecords>(&mut self, key: &EntryKey, file: Gfid, files: &F) -> Reply
        ensures { Changes (NameRequest.Unlink key.now.dir key.now.name file) (tables_in self.old)
            (F.files files.now) result (tables_in self.new) (F.files files.now) }
    {
        let parts = self.slots.parts(key);
        if !parts.is_plain(file) || !is_live(files, file) {
            return refused(parts);
        }
        let left = self.slots.unlink(key, file);
        Reply::Ok(Given::Links(left))
    }

    /// Gives a name that stands for nothing to a file.
    pub(crate) fn link<F: FileRecords>(&mut self, key: &EntryKey, file: Gfid, files: &F) -> Reply
        ensures { Changes (NameRequest.Link key.now.dir key.now.name file) (tables_in self.old)
            (F.files files.now) result (tables_in self.new) (F.files files.now) }
    {
        let parts = self.slots.parts(key);
        if !parts.is_free() || !is_live(files, file) {
            return refused(parts);
        }
        match self.slots.put_main(key, KeptMain::File(file, None)) {
            Ok(()) => Reply::Ok(Given::Nothing),
            Err(_) => Reply::NoMemory,
        }
    }

    /// Gives a name to the first file in place of the second, and says how many links the second
    /// has left.
    pub(crate) fn link_over<F: FileRecords>(
        &mut self,
        key: &EntryKey,
        file: Gfid,
        over: Gfid,
        files: &F,
    ) -> Reply
        ensures { Changes (NameRequest.LinkOver key.now.dir key.now.name file over)
            (tables_in self.old) (F.files files.now) result (tables_in self.new)
            (F.files files.now) }
    {
        let parts = self.slots.parts(key);
        let are_two = file != over && is_live(files, file) && is_live(files, over);
        if !parts.is_plain(over) || !are_two {
            return refused(parts);
        }
        match self.slots.put_main(key, KeptMain::File(file, None)) {
            Ok(()) => Reply::Ok(Given::Links(self.slots.links(over))),
            Err(_) => Reply::NoMemory,
        }
    }

    /// Marks the name of a file: it will be that of a file on this other brick.
    pub(crate) fn contest<F: FileRecords>(
        &mut self,
        key: &EntryKey,
        file: Gfid,
        brick: BrickNo,
        files: &F,
    ) -> Reply
        ensures { Changes (NameRequest.Contest key.now.dir key.now.name file brick)
            (tables_in self.old) (F.files files.now) result (tables_in self.new)
            (F.files files.now) }
    {
        let parts = self.slots.parts(key);
        if !parts.is_plain(file) || !is_live(files, file) {
            return refused(parts);
        }
        self.slots
            .replace_main(key, KeptMain::File(file, Some(brick)));
        Reply::Ok(Given::Nothing)
    }

    /// Takes that mark away.
    pub(crate) fn uncontest(&mut self, key: &EntryKey, file: Gfid) -> Reply
        ensures change { ChangesAlone (NameRequest.Uncontest key.now.dir key.now.name file)
            (tables_in self.old) result (tables_in self.new) }
        ensures memory { result ≢ Reply.NoMemory }
    {
        let parts = self.slots.parts(key);
        if !parts.is_contested(file) {
            return refused(parts);
        }
        self.slots.replace_main(key, KeptMain::File(file, None));
        Reply::Ok(Given::Nothing)
    }

    /// Readies a name that stands for nothing for a file.
    pub(crate) fn stand_link<F: FileRecords>(
        &mut self,
        key: &EntryKey,
        file: Gfid,
        files: &F,
    ) -> Reply
        ensures { Changes (NameRequest.StandLink key.now.dir key.now.name file)
            (tables_in self.old) (F.files files.now) result (tables_in self.new)
            (F.files files.now) }
    {
        let parts = self.slots.parts(key);
        if !parts.is_free() || !is_live(files, file) {
            return refused(parts);
        }
        match self.slots.put_standby(key, Standby::StandLink(file)) {
            Ok(()) => Reply::Ok(Given::Nothing),
            Err(_) => Reply::NoMemory,
        }
    }

    /// Takes that back.
    pub(crate) fn drop_stand_link(&mut self, key: &EntryKey, file: Gfid) -> Reply
        ensures change { ChangesAlone (NameRequest.DropStandLink key.now.dir key.now.name file)
            (tables_in self.old) result (tables_in self.new) }
        ensures memory { result ≢ Reply.NoMemory }
    {
        let parts = self.slots.parts(key);
        if !parts.is_standlink(file) {
            return refused(parts);
        }
        self.slots.take_standby(key);
        Reply::Ok(Given::Nothing)
    }

    /// Takes the marked name of a file away, leaves a linkto to the brick for which it was marked,
    /// and says how many links are left.
    pub(crate) fn swap(&mut self, key: &EntryKey, file: Gfid, value: &Bytes) -> Reply
        ensures change { ChangesAlone (NameRequest.Swap key.now.dir key.now.name file value.now)
            (tables_in self.old) result (tables_in self.new) }
        ensures memory { result ≢ Reply.NoMemory }
    {
        let parts = self.slots.parts(key);
        match self.brick_of(value.as_slice()) {
            Some(brick) if parts.is_over(file, brick) => {
                let main = KeptMain::short(value.as_slice());
                self.slots.replace_main(key, main);
                Reply::Ok(Given::Links(self.slots.links(file)))
            }
            _ => refused(parts),
        }
    }

    /// Gives a name to the file for which it was readied.
    pub(crate) fn promote_link(&mut self, key: &EntryKey, file: Gfid) -> Reply
        ensures change { ChangesAlone (NameRequest.PromoteLink key.now.dir key.now.name file)
            (tables_in self.old) result (tables_in self.new) }
        ensures memory { result ≢ Reply.NoMemory }
    {
        let parts = self.slots.parts(key);
        if !parts.is_standlink(file) {
            return refused(parts);
        }
        self.slots.settle(key, file);
        Reply::Ok(Given::Nothing)
    }

    /// The brick that a linkto value names, if it names one. Such a value is short.
    fn brick_of(&self, value: &[u8]) -> Option<BrickNo>
        ensures brick { option_map (λ b. b.0) result
            ≡ linked_brick (tables_in self.now).bricks value.now }
        ensures short { IfSome result (λ b. length value.now ≤ 255) }
    {
        self.volume.bricks();
        linkto_brick(&self.volume, value)
    }
}
