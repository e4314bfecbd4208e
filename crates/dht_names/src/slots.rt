//! The slots of a brick in memory, and for which gfids they stand.

ghost use Rattle.std.specs.Prelude.{◌≡◌, ◌++◌, None, false, true, map, IfOk, OnOk, OnErr};
ghost use Rattle.std.specs.FinMap.{insert, remove, empty, entries, len};
ghost use Rattle.dht_types.specs.declared.stored.Main.{Main};
ghost use Rattle.dht_types.specs.declared.stored.Standby.{Standby};
ghost use Rattle.dht_brick.specs.Contents.{entry_at, slot_in, bare};
ghost use Rattle.dht_brick.specs.Dump.{slot_line};
ghost use Rattle.dht_brick.specs.Links.{links, is_marked, is_occupied};
ghost use Rattle.dht_brick.specs.Looks.{page_of};
ghost use Rattle.dht_brick.specs.Parts.{slot_shown, slots_outside, put_slot, is_bare, with_main, without_main, with_standby, without_standby};
ghost use Rattle.dht_brick.specs.Saving.{slots_saved, slots_restored};
ghost use Rattle.dht_names.specs.Counts.{IsCounted, Covers, keeps_main, is_to_be, tallies_in};
ghost use Rattle.dht_names.specs.Slots.{main_of, slot_of, map_in};

use crate::counts::{Counts, Kind};
use crate::kept::{KeptMain, KeptSlot};
use crate::slot_map::SlotMap;
use dht_brick::replies::{Page, SlotShown};
use dht_types::identifiers::{BrickNo, Gfid};
use dht_types::lines::DumpLine;
use dht_types::names::{EntryKey, Name};
use dht_types::saved::{SavedSlot, SavedSlots};
use dht_types::stored::{Slot, Standby};
use std::alloc::{AllocError, Global};

/// The slots of a brick, by directory and name, and for how many each gfid stands. Contracts speak of
/// `slots_in`. No slot is kept that has neither part.
#[derive(Drop)]
pub(crate) struct SlotTable {
    map: SlotMap,
    counts: Counts,
    /// The counts are those of the slots.
    ghost counted: { IsCounted (map_in map) (tallies_in counts) },
}

impl SlotTable {
    ghost use Rattle.dht_names.specs.Kept.{slots_in};

    /// No slots.
    pub(crate) fn new(alloc: Global) -> SlotTable
        ensures { slots_in result ≡ empty }
    {
        SlotTable {
            map: SlotMap::new(alloc),
            counts: Counts::new(alloc),
        }
    }

    /// How many there are.
    pub(crate) fn len(&self) -> usize
        ensures { result ≡ len (slots_in self.now) }
    {
        self.map.len()
    }

    /// The parts of a slot, as a refusal shows them.
    pub(crate) fn parts(&self, key: &EntryKey) -> SlotShown
        ensures { result ≡ slot_shown (slot_in (slots_in self.now) (entry_at key.now)) }
    {
        self.map.parts(key)
    }

    /// The parts of a slot.
    pub(crate) fn slot(&self, alloc: Global, key: &EntryKey) -> Result<Slot, AllocError>
        ensures { IfOk result (λ s. s ≡ slot_in (slots_in self.now) (entry_at key.now)) }
    {
        self.map.slot(alloc, key)
    }

    /// Keeps these parts at a key. Where there is no memory for it, nothing changes.
    fn put(&mut self, key: EntryKey, slot: KeptSlot) -> Result<(), AllocError>
        ensures ok { OnOk result (slots_in self.new
            ≡ insert (slots_in self.old) (entry_at key) (slot_of slot)) }
        ensures err { OnErr result (slots_in self.new ≡ slots_in self.old) }
    {
        self.map.len();
        let old = self.map.parts(&key);
        let new = slot.shown();
        self.counts.admit(key.dir, &new)?;
        match self.map.insert(key, slot) {
            Ok(()) => {
                self.counts.recount(key.dir, &old, &new);
                Ok(())
            }
            Err(error) => {
                self.counts.tidy(key.dir, &new);
                Err(error)
            }
        }
    }

    /// Keeps these parts where there was a slot that counted for each gfid for which they count.
    fn replace(&mut self, key: &EntryKey, slot: KeptSlot)
        requires there { is_bare (slot_in (slots_in self.old) (entry_at key.now)) ≡ false }
        requires known { Covers key.now.dir (slot_shown (slot_in (slots_in self.old)
            (entry_at key.now))) (slot_shown (slot_of slot)) }
        ensures { slots_in self.new ≡ insert (slots_in self.old) (entry_at key.now) (slot_of slot) }
    {
        self.map.len();
        let old = self.map.parts(key);
        let new = slot.shown();
        self.map.replace(key, slot);
        self.counts.recount(key.dir, &old, &new);
    }

    /// Gives a slot this main part. It takes memory only where there was no slot, or none of its
    /// file.
    pub(crate) fn put_main(&mut self, key: &EntryKey, main: KeptMain) -> Result<(), AllocError>
        ensures ok { OnOk result (slots_in self.new
            ≡ put_slot (slots_in self.old) (entry_at key.now)
            (with_main (slot_in (slots_in self.old) (entry_at key.now)) (main_of main))) }
        ensures err { OnErr result (slots_in self.new ≡ slots_in self.old) }
    {
        let standby = self.parts(key).standby;
        self.put(
            *key,
            KeptSlot {
                main: Some(main),
                standby,
            },
        )
    }

    /// Gives a slot that is there this main part, which is a linkto or the name of the file that
    /// has it.
    pub(crate) fn replace_main(&mut self, key: &EntryKey, main: KeptMain)
        requires there { is_bare (slot_in (slots_in self.old) (entry_at key.now)) ≡ false }
        requires known { keeps_main (slot_in (slots_in self.old) (entry_at key.now)).main
            (main_of main) ≡ true }
        ensures { slots_in self.new ≡ put_slot (slots_in self.old) (entry_at key.now)
            (with_main (slot_in (slots_in self.old) (entry_at key.now)) (main_of main)) }
    {
        let standby = self.parts(key).standby;
        self.replace(
            key,
            KeptSlot {
                main: Some(main),
                standby,
            },
        );
    }

    /// Gives a name to the file for which it is readied, or whose copy is at it.
    pub(crate) fn settle(&mut self, key: &EntryKey, file: Gfid)
        requires { is_to_be file (slot_in (slots_in self.old) (entry_at key.now)).standby ≡ true }
        ensures { slots_in self.new
            ≡ put_slot (slots_in self.old) (entry_at key.now) (with_main bare
            (Main.File file None)) }
    {
        self.replace(
            key,
            KeptSlot {
                main: Some(KeptMain::File(file, None)),
                standby: None,
            },
        );
    }

    /// Takes the main part of a slot away.
    pub(crate) fn take_main(&mut self, key: &EntryKey)
        ensures { slots_in self.new ≡ put_slot (slots_in self.old) (entry_at key.now)
            (without_main (slot_in (slots_in self.old) (entry_at key.now))) }
    {
        let standby = self.parts(key).standby;
        if standby.is_some() {
            self.replace(
                key,
                KeptSlot {
                    main: None,
                    standby,
                },
            );
        } else {
            self.remove(key);
        }
    }

    /// Takes the main part of a slot away, and counts the links that a file has left.
    pub(crate) fn unlink(&mut self, key: &EntryKey, file: Gfid) -> u64
        ensures gone { slots_in self.new ≡ put_slot (slots_in self.old) (entry_at key.now)
            (without_main (slot_in (slots_in self.old) (entry_at key.now))) }
        ensures left { result ≡ links (slots_in self.new) file }
    {
        self.take_main(key);
        self.links(file)
    }

    /// Gives a slot this standby part. Where there is no memory for it, nothing changes.
    pub(crate) fn put_standby(&mut self, key: &EntryKey, standby: Standby) -> Result<(), AllocError>
        ensures ok { OnOk result (slots_in self.new
            ≡ put_slot (slots_in self.old) (entry_at key.now)
            (with_standby (slot_in (slots_in self.old) (entry_at key.now)) standby)) }
        ensures err { OnErr result (slots_in self.new ≡ slots_in self.old) }
    {
        let old = self.parts(key);
        if old.is_bare() {
            return self.put(
                *key,
                KeptSlot {
                    main: None,
                    standby: Some(standby),
                },
            );
        }
        let new = SlotShown {
            main: old.main,
            standby: Some(standby),
        };
        self.counts.admit(key.dir, &new)?;
        self.map.len();
        self.map.set_standby(key, Some(standby));
        self.counts.recount(key.dir, &old, &new);
        Ok(())
    }

    /// Takes the standby part of a slot away.
    pub(crate) fn take_standby(&mut self, key: &EntryKey)
        ensures { slots_in self.new ≡ put_slot (slots_in self.old) (entry_at key.now)
            (without_standby (slot_in (slots_in self.old) (entry_at key.now))) }
    {
        let old = self.parts(key);
        if old.main.is_none() {
            self.remove(key);
            return;
        }
        let new = SlotShown {
            main: old.main,
            standby: None,
        };
        self.map.len();
        self.map.set_standby(key, None);
        self.counts.recount(key.dir, &old, &new);
    }

    /// Takes a slot away, if it is there.
    pub(crate) fn remove(&mut self, key: &EntryKey)
        ensures { slots_in self.new ≡ remove (slots_in self.old) (entry_at key.now) }
    {
        self.map.len();
        let old = self.map.parts(key);
        let new = SlotShown {
            main: None,
            standby: None,
        };
        self.map.remove(key);
        self.counts.recount(key.dir, &old, &new);
    }

    /// Takes away the slots in a directory.
    pub(crate) fn drop_dir(&mut self, dir: Gfid)
        ensures { slots_in self.new ≡ slots_outside (slots_in self.old) dir }
    {
        while let Some(key) = self.map.first_in(dir) {
            self.remove(&key);
        }
    }

    /// How many links a file has: the names that are its, and those that are readied for it.
    pub(crate) fn links(&self, file: Gfid) -> u64
        ensures { result ≡ links (slots_in self.now) file }
    {
        self.map.len();
        self.counts.of(file, Kind::Named) + self.counts.of(file, Kind::Readied)
    }

    /// Whether a name of the file is marked for a rename.
    pub(crate) fn is_marked(&self, file: Gfid) -> bool
        ensures { result ≡ is_marked (slots_in self.now) file }
    {
        self.counts.of(file, Kind::Marked) != 0
    }

    /// Whether a name in a directory is visible.
    pub(crate) fn is_occupied(&self, dir: Gfid) -> bool
        ensures { result ≡ is_occupied (slots_in self.now) dir }
    {
        self.counts.of(dir, Kind::Visible) != 0
    }

    /// The names of a directory above one, as far as a page goes.
    pub(crate) fn page(
        &self,
        alloc: Global,
        dir: Gfid,
        after: &Option<Name>,
    ) -> Result<Page, AllocError>
        ensures { IfOk result (λ p. p ≡ page_of (slots_in self.now) dir after.now) }
    {
        self.map.page(alloc, dir, after)
    }

    /// The slots in a directory, as they are saved.
    pub(crate) fn saved(&self, alloc: Global, dir: Gfid) -> Result<SavedSlots, AllocError>
        ensures { IfOk result (λ s. s ≡ slots_saved (slots_in self.now) dir) }
    {
        self.map.saved(alloc, dir)
    }

    /// The slots outside a directory, and these in it.
    pub(crate) fn restored(
        &self,
        alloc: Global,
        dir: Gfid,
        saved: &[SavedSlot],
    ) -> Result<SlotTable, AllocError>
        ensures { IfOk result (λ t. slots_in t
            ≡ slots_restored dir saved.now (slots_outside (slots_in self.now) dir)) }
    {
        let mut table = self.outside(alloc, dir)?;
        for part in saved.iter().rev() {
            let key = EntryKey {
                dir,
                name: part.name,
            };
            table.put(key, KeptSlot::of(alloc, &part.slot)?)?;
        }
        Ok(table)
    }

    /// The slots outside a directory.
    fn outside(&self, alloc: Global, dir: Gfid) -> Result<SlotTable, AllocError>
        ensures { IfOk result (λ t. slots_in t ≡ slots_outside (slots_in self.now) dir) }
    {
        let mut table = SlotTable::new(alloc);
        for (key, slot) in self.map.kept.iter().rev() {
            table.put(*key, slot.again(alloc)?)?;
        }
        table.drop_dir(dir);
        Ok(table)
    }

    /// Appends a line for each slot, by directory and name.
    pub(crate) fn dump(
        &self,
        alloc: Global,
        brick: BrickNo,
        out: &mut Vec<DumpLine>,
    ) -> Result<(), AllocError>
        ensures { OnOk result (out.new.items
            ≡ out.old.items ++ map (slot_line brick) (entries (slots_in self.now))) }
    {
        self.map.dump(alloc, brick, out)
    }
}
