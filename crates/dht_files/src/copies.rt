//! The requests about the copy of a file that is moved to this brick.

ghost use Rattle.std.specs.Prelude.{◌≡◌, ◌≢◌, if◌then◌else◌, OnOk, OnErr};
ghost use Rattle.dht_brick.specs.Contents.{entry_at, slot, slot_in, store_of};
ghost use Rattle.dht_brick.specs.FileRows.{changed, is_same_copy, new_copy, takes_copy, copy_name, saved};
ghost use Rattle.dht_brick.specs.Parts.{is_copy, put_slot, slot_shown, with_slot, with_standby, without_standby};
ghost use Rattle.dht_types.specs.declared.stored.Slot.{Slot};
ghost use Rattle.dht_brick.specs.Outcome.{Serves};
ghost use Rattle.dht_brick.specs.declared.requests.FileRequest.{FileRequest};
ghost use Rattle.dht_files.specs.Records.{files_in};
ghost use Rattle.dht_files.specs.Served.{CarriesOut, CarriesOutAlone};

use crate::records::Files;
use crate::serve::refusal;
use crate::writes::made;
use dht_brick::replies::{Given, Reply, SlotShown, Why};
use dht_brick::requests::Change;
use dht_brick::slots::Slots;
use dht_types::bytes::Bytes;
use dht_types::identifiers::{BrickNo, Gfid};
use dht_types::names::EntryKey;
use dht_types::stored::{Record, Standby, StandbyRecord};
use std::alloc::{AllocError, Global};

/// Whether the name may take the copy of this file: it stands for nothing, and for no other file to
/// come.
fn takes_copy(file: Gfid, parts: SlotShown) -> bool
    ensures { (p : Slot) → parts ≡ slot_shown p → result ≡ takes_copy file p }
{
    (parts.standby.is_none() || parts.is_copy(file)) && parts.is_vacant()
}

/// Whether a copy is of this name, source and hop.
fn is_same_copy(copy: &StandbyRecord, key: &EntryKey, source: BrickNo, hop: u64) -> bool
    ensures { result ≡ is_same_copy copy.now (entry_at key.now) source hop }
{
    source == copy.source && hop == copy.hop && key.dir == copy.dir && key.name == copy.name
}

/// A new, empty copy.
fn new_copy(alloc: Global, key: &EntryKey, source: BrickNo, hop: u64) -> Record
    ensures { result ≡ new_copy (entry_at key.now) source hop }
{
    Record::Standby(StandbyRecord {
        hop,
        source,
        is_dirty: false,
        dir: key.dir,
        name: key.name,
        bytes: Bytes::new(Vec::new(alloc)),
    })
}

/// A copy, but for its bytes: it has these, and is dirty or not.
fn copy_of(copy: &StandbyRecord, is_dirty: bool, bytes: Bytes) -> StandbyRecord
    ensures { result ≡ record copy.now { is_dirty = is_dirty; bytes = bytes } }
{
    StandbyRecord {
        hop: copy.hop,
        source: copy.source,
        is_dirty,
        dir: copy.dir,
        name: copy.name,
        bytes,
    }
}

/// A copy with these bytes.
fn filled(copy: StandbyRecord, bytes: Bytes) -> Record
    ensures { result ≡ Record.Standby (record copy { bytes = bytes }) }
{
    Record::Standby(copy_of(&copy, copy.is_dirty, bytes))
}

/// Changes the bytes of a copy as a writer does. Where there is no memory for it, nothing changes.
fn change_in_place(bytes: &mut Bytes, change: &Change) -> Result<(), AllocError>
    ensures ok { OnOk result (bytes.new ≡ changed change.now bytes.old) }
    ensures err { OnErr result (bytes.new ≡ bytes.old) }
{
    match change {
        Change::Write(offset, piece) => bytes.write(*offset, piece.as_slice()),
        Change::Cut(size) => bytes.cut(*size),
    }
}

/// The name of a copy.
fn key_of(copy: &StandbyRecord) -> EntryKey
    ensures { entry_at result ≡ copy_name copy.now }
{
    EntryKey {
        dir: copy.dir,
        name: copy.name,
    }
}

/// The copy of this file does not stand at the name from now on.
fn take_copy<S: Slots>(file: Gfid, key: &EntryKey, slots: &mut S)
    ensures { S.tables slots.new ≡ record (S.tables slots.old) {
      slots = if is_copy file (slot_in (S.tables slots.old).slots (entry_at key.now)).standby
          then put_slot (S.tables slots.old).slots (entry_at key.now)
          (without_standby (slot_in (S.tables slots.old).slots (entry_at key.now)))
          else (S.tables slots.old).slots;
    } }
{
    if slots.parts(key).is_copy(file) {
        slots.take_standby(key);
    }
}

impl Files {
    /// Makes an empty copy of a file, which is to have this name, is copied from this brick and has
    /// this hop; or empties the copy that is here, if it is of the same name, source and hop.
    pub(crate) fn make_standby<S: Slots>(
        &mut self,
        file: Gfid,
        key: &EntryKey,
        source: BrickNo,
        hop: u64,
        slots: &mut S,
    ) -> Reply
        ensures row { CarriesOut
            (FileRequest.MakeStandby file key.now.dir key.now.name source hop)
            (S.tables slots.old) (files_in self.old) result (S.tables slots.new)
            (files_in self.new) }
        ensures bricks { (S.tables slots.new).bricks ≡ (S.tables slots.old).bricks }
    {
        if !slots.has_dir(key.dir) {
            return Reply::Refused(Why::Nodir);
        }
        let parts = slots.parts(key);
        if !takes_copy(file, parts) {
            return Reply::Refused(Why::Slot(parts));
        }
        match self.kept(file) {
            Some(Record::Standby(copy)) => {
                if !is_same_copy(copy, key, source, hop) {
                    return Reply::Refused(refusal(self.kept(file)));
                }
                let emptied = copy_of(copy, false, Bytes::new(Vec::new(self.alloc)));
                self.save(file, Record::Standby(emptied))
            }
            _ => self.add_copy(file, new_copy(self.alloc, key, source, hop), key, slots),
        }
    }

    /// Gives a file this record, and puts its copy at the name.
    fn add_copy<S: Slots>(
        &mut self,
        file: Gfid,
        kept: Record,
        key: &EntryKey,
        slots: &mut S,
    ) -> Reply
        ensures row { let s = store_of (S.tables slots.old) (files_in self.old) in
            Serves (saved (with_slot s (entry_at key.now)
            (with_standby (slot s (entry_at key.now)) (Standby.Copy file))) file kept)
            s result (store_of (S.tables slots.new) (files_in self.new)) }
        ensures bricks { (S.tables slots.new).bricks ≡ (S.tables slots.old).bricks }
    {
        let Ok(before) = self.exchange(file, kept) else {
            return Reply::NoMemory;
        };
        if slots.put_copy(key, file).is_err() {
            self.put_back(file, before);
            return Reply::NoMemory;
        }
        Reply::Ok(Given::Nothing)
    }

    /// Changes a copy that is not dirty as a writer does, and marks it as dirty.
    pub(crate) fn standby_write(&mut self, file: Gfid, change: &Change) -> Reply
        ensures { CarriesOutAlone (FileRequest.StandbyWrite file change.now)
            (files_in self.old) result (files_in self.new) }
    {
        let Some(Record::Standby(copy)) = self.kept(file) else {
            return Reply::Refused(refusal(self.kept(file)));
        };
        if copy.is_dirty {
            return Reply::Refused(Why::Dirty);
        }
        let dirty = copy_of(copy, true, Bytes::new(Vec::new(self.alloc)));
        let clean = copy_of(copy, false, Bytes::new(Vec::new(self.alloc)));
        let mut bytes = self.take_bytes(file);
        match change_in_place(&mut bytes, change) {
            Ok(()) => self.save(file, filled(dirty, bytes)),
            Err(_) => {
                self.save(file, filled(clean, bytes));
                Reply::NoMemory
            }
        }
    }

    /// Writes bytes of its source into a copy that is not dirty.
    pub(crate) fn copy_write(&mut self, file: Gfid, offset: u64, piece: &Bytes) -> Reply
        ensures { CarriesOutAlone (FileRequest.CopyWrite file offset piece.now)
            (files_in self.old) result (files_in self.new) }
    {
        let Some(Record::Standby(copy)) = self.kept(file) else {
            return Reply::Refused(refusal(self.kept(file)));
        };
        if copy.is_dirty {
            return Reply::Refused(Why::Dirty);
        }
        if piece.as_slice().is_empty() {
            return Reply::Ok(Given::Nothing);
        }
        let header = copy_of(copy, false, Bytes::new(Vec::new(self.alloc)));
        let mut bytes = self.take_bytes(file);
        let written = bytes.write(offset, piece.as_slice());
        self.save(file, filled(header, bytes));
        made(written)
    }

    /// Says that a copy is no longer dirty.
    pub(crate) fn clear_dirty(&mut self, file: Gfid) -> Reply
        ensures row { CarriesOutAlone (FileRequest.ClearDirty file) (files_in self.old) result
            (files_in self.new) }
        ensures memory { result ≢ Reply.NoMemory }
    {
        let Some(Record::Standby(copy)) = self.kept(file) else {
            return Reply::Refused(refusal(self.kept(file)));
        };
        let clean = copy_of(copy, false, Bytes::new(Vec::new(self.alloc)));
        let bytes = self.take_bytes(file);
        self.save(file, filled(clean, bytes))
    }

    /// Gives a copy up: a pointer to its source is left, and no copy at its name.
    pub(crate) fn drop_standby<S: Slots>(&mut self, file: Gfid, slots: &mut S) -> Reply
        ensures row { CarriesOut (FileRequest.DropStandby file) (S.tables slots.old)
            (files_in self.old) result (S.tables slots.new) (files_in self.new) }
        ensures bricks { (S.tables slots.new).bricks ≡ (S.tables slots.old).bricks }
    {
        let Some(Record::Standby(copy)) = self.kept(file) else {
            return Reply::Refused(refusal(self.kept(file)));
        };
        let pointer = Record::Forward(copy.hop.saturating_sub(1), copy.source);
        take_copy(file, &key_of(copy), slots);
        self.save(file, pointer)
    }

    /// Makes the copy of this hop the file, at its name, where the copy stands.
    pub(crate) fn promote<S: Slots>(&mut self, file: Gfid, hop: u64, slots: &mut S) -> Reply
        ensures row { CarriesOut (FileRequest.Promote file hop) (S.tables slots.old)
            (files_in self.old) result (S.tables slots.new) (files_in self.new) }
        ensures bricks { (S.tables slots.new).bricks ≡ (S.tables slots.old).bricks }
        ensures memory { result ≢ Reply.NoMemory }
    {
        let Some(Record::Standby(copy)) = self.kept(file) else {
            return Reply::Refused(refusal(self.kept(file)));
        };
        let key = key_of(copy);
        if hop != copy.hop || !slots.parts(&key).is_copy(file) {
            return Reply::Refused(refusal(self.kept(file)));
        }
        slots.put_file(&key, file);
        let bytes = self.take_bytes(file);
        self.save(file, Record::Live(hop, bytes))
    }
}
