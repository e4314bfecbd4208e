//! Records of directories and files in words, and which of them have a spelling.

ghost use Rattle.std.specs.Prelude.{◌≡◌, ◌≢◌, ◌⊎◌, ◌↔◌, true, None, All, IfSome};
ghost use Rattle.dht_brick.specs.Saving.{IsDirOf, IsFileOf};
ghost use Rattle.dht_types.specs.Gfid.{root};
ghost use Rattle.dht_types.specs.Name.{IsName};
ghost use Rattle.dht_types.specs.Saved.{IsValue, IsSpelledMain, IsSpelledSlot, IsSpelledDir, Rise};

use crate::words::Words;
use dht_types::bytes::Bytes;
use dht_types::identifiers::Gfid;
use dht_types::names::{EntryKey, Name};
use dht_types::saved::{Saved, SavedDir, SavedFile, SavedSlot, SavedSlots};
use dht_types::stored::{DirRecord, Main, Record, Slot, Standby, StandbyRecord};
use std::alloc::{AllocError, Global};

/// Whose record it is.
#[derive(Clone, Copy)]
pub(crate) enum Owner {
    Dir(Gfid),
    File(Gfid),
}

/// The words `dir` or `file` and which one.
pub(crate) fn read_owner(words: &mut Words<'_>) -> Owner
    ensures { words.new.bricks ≡ words.old.bricks }
{
    match words.word() {
        "dir" => Owner::Dir(words.gfid()),
        "file" => Owner::File(words.gfid()),
        _ => {
            words.is_refused = true;
            Owner::Dir(Gfid::ROOT)
        }
    }
}

/// The record that the words give it.
pub(crate) fn read_saved(
    alloc: Global,
    owner: Owner,
    words: &mut Words<'_>,
) -> Result<Saved, AllocError>
    ensures { words.new.bricks ≡ words.old.bricks }
{
    match owner {
        Owner::Dir(gfid) => Ok(Saved::Dir(SavedDir {
            gfid,
            dir: directory(gfid, words),
            slots: slots(alloc, words)?,
        })),
        Owner::File(gfid) => Ok(Saved::File(SavedFile {
            gfid,
            file: record(words),
        })),
    }
}

/// The record of a directory: its attribute, and where it stands unless it is the root.
fn directory(gfid: Gfid, words: &mut Words<'_>) -> DirRecord
    ensures { words.new.bricks ≡ words.old.bricks }
{
    let value = words.value();
    if gfid == Gfid::ROOT {
        return DirRecord {
            place: None,
            depth: 0,
            value,
        };
    }
    DirRecord {
        place: Some(EntryKey {
            dir: words.gfid(),
            name: words.name(),
        }),
        depth: words.short(),
        value,
    }
}

/// A name and its parts, or no names: `-`.
fn slots(alloc: Global, words: &mut Words<'_>) -> Result<SavedSlots, AllocError>
    ensures { words.new.bricks ≡ words.old.bricks }
{
    let mut slots = Vec::new(alloc);
    let name = words.name();
    if name.as_bytes() != b"-".as_slice() {
        let main = main_part(words);
        let standby = standby_part(words);
        slots.push(SavedSlot {
            name,
            slot: Slot { main, standby },
        })?;
    }
    Ok(SavedSlots::new(slots))
}

/// The main part of a name, or none: `-`.
fn main_part(words: &mut Words<'_>) -> Option<Main>
    ensures { words.new.bricks ≡ words.old.bricks }
{
    match words.word() {
        "dir" => Some(Main::Dir(words.gfid())),
        "file" => Some(Main::File(words.gfid(), None)),
        "marked" => Some(Main::File(words.gfid(), Some(words.brick()))),
        "linkto" => Some(Main::Linkto(words.bytes())),
        _ => None,
    }
}

/// The standby part of a name, or none: `-`.
fn standby_part(words: &mut Words<'_>) -> Option<Standby>
    ensures { words.new.bricks ≡ words.old.bricks }
{
    match words.word() {
        "readied" => Some(Standby::StandLink(words.gfid())),
        "copy" => Some(Standby::Copy(words.gfid())),
        _ => None,
    }
}

/// The record of a file. A copy is clean or dirty.
fn record(words: &mut Words<'_>) -> Record
    ensures { words.new.bricks ≡ words.old.bricks }
{
    let word = words.word();
    let hop = words.number();
    match word {
        "live" => Record::Live(hop, words.bytes()),
        "moving" => Record::Moving(hop, words.brick(), words.bytes()),
        "forward" => Record::Forward(hop, words.brick()),
        _ => Record::Standby(StandbyRecord {
            hop,
            source: words.brick(),
            is_dirty: word == "dirty",
            dir: words.gfid(),
            name: words.name(),
            bytes: words.bytes(),
        }),
    }
}

/// Whether it is a record of this file which has a spelling.
pub(crate) fn is_file_of(file: Gfid, saved: &Saved) -> bool
    ensures { result ≡ true → IsFileOf file saved.now }
{
    match saved {
        Saved::File(saved) => match &saved.file {
            Record::Standby(copy) => {
                saved.gfid == file && Name::check(copy.name.as_bytes()).is_ok()
            }
            _ => saved.gfid == file,
        },
        _ => false,
    }
}

/// Whether it is a record of this directory which has a spelling, with one name at most.
pub(crate) fn is_dir_of(dir: Gfid, saved: &Saved) -> bool
    ensures { result ≡ true → IsDirOf dir saved.now }
{
    match saved {
        Saved::Dir(saved) => saved.gfid == dir && is_spelled_dir(saved),
        _ => false,
    }
}

/// Whether the record of a directory has a spelling, and one name at most.
fn is_spelled_dir(saved: &SavedDir) -> bool
    ensures { result ≡ true → IsSpelledDir saved.now }
{
    is_at_its_place(saved.gfid, &saved.dir.place)
        && is_text(&saved.dir.value)
        && are_spelled(saved.slots.as_slice())
}

/// Whether a directory has a place that it may have.
fn is_at_its_place(dir: Gfid, place: &Option<EntryKey>) -> bool
    ensures root { result ≡ true → (place.now ≡ None) ↔ (dir ≡ root) }
    ensures name { result ≡ true → IfSome place.now (λ key. IsName key.name) }
{
    match place {
        None => dir == Gfid::ROOT,
        Some(key) => dir != Gfid::ROOT && Name::check(key.name.as_bytes()).is_ok(),
    }
}

/// Whether a value is short enough.
fn is_text(value: &Option<Bytes>) -> bool
    ensures { result ≡ true → IfSome value.now IsValue }
{
    match value {
        None => true,
        Some(value) => value.as_slice().len() <= 65_535,
    }
}

/// Whether they are one name at most, which has a spelling.
fn are_spelled(slots: &[SavedSlot]) -> bool
    ensures each { result ≡ true → All IsSpelledSlot slots.now }
    ensures rising { result ≡ true → Rise slots.now }
{
    match slots {
        [] => true,
        [slot] => is_spelled_slot(slot),
        _ => false,
    }
}

/// Whether a name and its parts have a spelling.
fn is_spelled_slot(saved: &SavedSlot) -> bool
    ensures { result ≡ true → IsSpelledSlot saved.now }
{
    Name::check(saved.name.as_bytes()).is_ok()
        && is_spelled_main(&saved.slot.main)
        && (saved.slot.main.is_some() || saved.slot.standby.is_some())
}

/// Whether the main part of a name has a spelling.
fn is_spelled_main(main: &Option<Main>) -> bool
    ensures { result ≡ true → IfSome main.now IsSpelledMain }
{
    match main {
        None | Some(Main::Dir(_)) | Some(Main::File(_, None)) => true,
        Some(Main::File(_, Some(brick))) => brick.0 < 65_535,
        Some(Main::Linkto(value)) => value.as_slice().len() <= 65_535,
    }
}
