//! The records of sidecar files, in which a folder keeps what a brick stores.

ghost use Rattle.std.specs.Prelude.{◌≡◌};

use super::bytes::Bytes;
use super::identifiers::Gfid;
use super::names::Name;
use super::stored::{DirRecord, Record, Slot};
use std::marker::Model;

/// The record of one sidecar file.
#[derive(Drop)]
pub enum Saved {
    /// Of a directory, with its slots.
    Dir(SavedDir),
    /// Of a file.
    File(SavedFile),
    /// Of a change that is under way.
    Intent(SavedIntent),
}

/// A directory and what stands in it.
#[derive(Drop)]
pub struct SavedDir {
    /// The directory.
    pub gfid: Gfid,
    /// Its record.
    pub dir: DirRecord,
    /// Its slots, in strictly rising order of their names.
    pub slots: SavedSlots,
}

/// A slot and its name.
#[derive(Drop)]
pub struct SavedSlot {
    /// The name in the directory.
    pub name: Name,
    /// What stands there.
    pub slot: Slot,
}

/// Slots and their names. Contracts see them as a list.
#[derive(Drop)]
pub struct SavedSlots {
    each: Vec<SavedSlot>,
}

impl Model for SavedSlots {
    ghost use Rattle.std.specs.Prelude.{List};
    ghost use Rattle.dht_types.specs.declared.saved.SavedSlot.{SavedSlot};

    ghost Value = { List SavedSlot };

    ghost view = { λ s. s.each.items };
}

impl SavedSlots {
    /// These slots.
    pub fn new(each: Vec<SavedSlot>) -> SavedSlots
        ensures { result ≡ each.items }
    {
        SavedSlots { each }
    }

    /// Each slot.
    pub fn as_slice(&self) -> &[SavedSlot]
        ensures { result.now ≡ self.now }
    {
        self.each.as_slice()
    }
}

/// A file.
#[derive(Drop)]
pub struct SavedFile {
    /// The file.
    pub gfid: Gfid,
    /// Its record.
    pub file: Record,
}

/// A change of several files, which counts from the time when it is written.
#[derive(Drop)]
pub struct SavedIntent {
    /// What becomes of each file.
    pub entries: IntentEntries,
}

/// What becomes of one file.
#[derive(Drop)]
pub struct IntentEntry {
    /// The file's name in the folder.
    pub name: Bytes,
    /// What it contains from then on, or nothing where it is removed.
    pub bytes: Option<Bytes>,
}

/// What becomes of files. Contracts see a list.
#[derive(Drop)]
pub struct IntentEntries {
    each: Vec<IntentEntry>,
}

impl Model for IntentEntries {
    ghost use Rattle.std.specs.Prelude.{List};
    ghost use Rattle.dht_types.specs.declared.saved.IntentEntry.{IntentEntry};

    ghost Value = { List IntentEntry };

    ghost view = { λ e. e.each.items };
}

impl IntentEntries {
    /// These.
    pub fn new(each: Vec<IntentEntry>) -> IntentEntries
        ensures { result ≡ each.items }
    {
        IntentEntries { each }
    }

    /// Each one.
    pub fn as_slice(&self) -> &[IntentEntry]
        ensures { result.now ≡ self.now }
    {
        self.each.as_slice()
    }
}
