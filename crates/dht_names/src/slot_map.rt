//! The map of the slots of a brick in memory.

ghost use Rattle.std.specs.Prelude.{◌≡◌, ◌++◌, ◌<◌, ◌^◌, None, IsSome, filter, map, length, IfOk, IfSome, IfNone, OnOk, OnErr};
ghost use Rattle.std.specs.Option.{option_copied, option_map};
ghost use Rattle.std.specs.FinMap.{get, insert, remove, empty, entries, len};
ghost use Rattle.dht_types.specs.declared.names.EntryKey.{EntryKey};
ghost use Rattle.dht_types.specs.declared.stored.Standby.{Standby};
ghost use Rattle.dht_brick.specs.Contents.{entry_at, slot_in};
ghost use Rattle.dht_brick.specs.Dump.{slot_line};
ghost use Rattle.dht_brick.specs.Looks.{page_of};
ghost use Rattle.dht_brick.specs.Parts.{slot_shown, slots_outside};
ghost use Rattle.dht_brick.specs.Saving.{slots_saved};
ghost use Rattle.dht_names.specs.Slots.{slot_of, map_in, start_of};

use crate::kept::KeptSlot;
use dht_brick::order::PAGE_SIZE;
use dht_brick::replies::{Page, PageEntry, SlotShown};
use dht_types::identifiers::{BrickNo, Gfid};
use dht_types::lines::DumpLine;
use dht_types::names::{EntryKey, Name};
use dht_types::saved::{SavedSlot, SavedSlots};
use dht_types::stored::{Slot, Standby};
use std::alloc::{AllocError, Global};
use std::collections::BTreeMap;
use std::ops::Bound;

/// Where the names of a directory above one begin, or all of them.
fn names_from(dir: Gfid, after: &Option<Name>) -> Bound<EntryKey>
    ensures { result ≡ start_of dir after.now }
{
    match after {
        None => Bound::Included(EntryKey {
            dir,
            name: Name::of(&[]),
        }),
        Some(name) => Bound::Excluded(EntryKey { dir, name: *name }),
    }
}

/// The slots of a brick, by directory and name. Contracts speak of `map_in`.
#[derive(Drop)]
pub(crate) struct SlotMap {
    pub(crate) kept: BTreeMap<EntryKey, KeptSlot>,
}

impl SlotMap {
    /// No slots.
    pub(crate) fn new(alloc: Global) -> SlotMap
        ensures { map_in result ≡ empty }
    {
        SlotMap {
            kept: BTreeMap::new(alloc),
        }
    }

    /// How many there are.
    pub(crate) fn len(&self) -> usize
        ensures len { result ≡ len (map_in self.now) }
        ensures few { result < 2 ^ 63 }
    {
        self.kept.len()
    }

    /// What is kept at a key.
    fn get(&self, key: &EntryKey) -> Option<&KeptSlot>
        ensures { option_map slot_of (option_copied result)
            ≡ get (map_in self.now) (entry_at key.now) }
    {
        self.kept.get(key)
    }

    /// Keeps these parts at a key. It takes memory only where there was no slot.
    pub(crate) fn insert(&mut self, key: EntryKey, slot: KeptSlot) -> Result<(), AllocError>
        ensures ok { OnOk result (map_in self.new
            ≡ insert (map_in self.old) (entry_at key) (slot_of slot)) }
        ensures err { OnErr result (map_in self.new ≡ map_in self.old) }
        ensures absent { OnErr result (get (map_in self.old) (entry_at key) ≡ None) }
    {
        self.kept.insert(key, slot)?;
        Ok(())
    }

    /// Keeps these parts where there was a slot.
    pub(crate) fn replace(&mut self, key: &EntryKey, slot: KeptSlot)
        requires { IsSome (get (map_in self.old) (entry_at key.now)) }
        ensures { map_in self.new ≡ insert (map_in self.old) (entry_at key.now) (slot_of slot) }
    {
        let Some(kept) = self.kept.get_mut(key) else {
            return;
        };
        *kept = slot;
    }

    /// Gives a slot that is there this standby part, or none.
    pub(crate) fn set_standby(&mut self, key: &EntryKey, standby: Option<Standby>)
        requires { IsSome (get (map_in self.old) (entry_at key.now)) }
        ensures { map_in self.new ≡ insert (map_in self.old) (entry_at key.now)
            (record (slot_in (map_in self.old) (entry_at key.now)) { standby = standby }) }
    {
        let Some(kept) = self.kept.get_mut(key) else {
            return;
        };
        kept.standby = standby;
    }

    /// Takes a slot away, if it is there.
    pub(crate) fn remove(&mut self, key: &EntryKey)
        ensures { map_in self.new ≡ remove (map_in self.old) (entry_at key.now) }
    {
        self.kept.remove(key);
    }

    /// The parts of a slot, as a refusal shows them.
    pub(crate) fn parts(&self, key: &EntryKey) -> SlotShown
        ensures { result ≡ slot_shown (slot_in (map_in self.now) (entry_at key.now)) }
    {
        match self.get(key) {
            None => SlotShown {
                main: None,
                standby: None,
            },
            Some(slot) => slot.shown(),
        }
    }

    /// The parts of a slot.
    pub(crate) fn slot(&self, alloc: Global, key: &EntryKey) -> Result<Slot, AllocError>
        ensures { IfOk result (λ s. s ≡ slot_in (map_in self.now) (entry_at key.now)) }
    {
        match self.get(key) {
            None => Ok(Slot {
                main: None,
                standby: None,
            }),
            Some(slot) => slot.copied(alloc),
        }
    }

    /// The names of a directory above one, as far as a page goes.
    pub(crate) fn page(
        &self,
        alloc: Global,
        dir: Gfid,
        after: &Option<Name>,
    ) -> Result<Page, AllocError>
        ensures { IfOk result (λ p. p ≡ page_of (map_in self.now) dir after.now) }
    {
        let mut page = Vec::new(alloc);
        for (key, slot) in self.kept.range((names_from(dir, after), Bound::Unbounded)) {
            if dir != key.dir || page.len() == PAGE_SIZE {
                return Ok(Page::new(page));
            }
            if slot.is_visible() {
                page.push(PageEntry {
                    name: key.name,
                    dir: slot.dir(),
                })?;
            }
        }
        Ok(Page::new(page))
    }

    /// The slots in a directory, as they are saved.
    pub(crate) fn saved(&self, alloc: Global, dir: Gfid) -> Result<SavedSlots, AllocError>
        ensures { IfOk result (λ s. s ≡ slots_saved (map_in self.now) dir) }
    {
        let mut saved = Vec::new(alloc);
        for (key, slot) in self.kept.range((names_from(dir, &None), Bound::Unbounded)) {
            if dir != key.dir {
                return Ok(SavedSlots::new(saved));
            }
            saved.push(SavedSlot {
                name: key.name,
                slot: slot.copied(alloc)?,
            })?;
        }
        Ok(SavedSlots::new(saved))
    }

    /// The key of the first slot in a directory.
    pub(crate) fn first_in(&self, dir: Gfid) -> Option<EntryKey>
        ensures there { IfSome result (λ k. IsSome (get (map_in self.now) (entry_at k))) }
        ensures in_dir { IfSome result (λ k. k.dir ≡ dir) }
        ensures none { IfNone result (slots_outside (map_in self.now) dir ≡ map_in self.now) }
    {
        let all = (names_from(dir, &None), Bound::Unbounded);
        match self.kept.range(all).next() {
            Some((key, _)) if key.dir == dir => Some(*key),
            _ => None,
        }
    }

    /// Appends a line for each slot, by directory and name.
    pub(crate) fn dump(
        &self,
        alloc: Global,
        brick: BrickNo,
        out: &mut Vec<DumpLine>,
    ) -> Result<(), AllocError>
        ensures { OnOk result (out.new.items
            ≡ out.old.items ++ map (slot_line brick) (entries (map_in self.now))) }
    {
        for (key, slot) in &self.kept {
            out.push(DumpLine::Slot(brick, key.dir, key.name, slot.copied(alloc)?))?;
        }
        Ok(())
    }
}
