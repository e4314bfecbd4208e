//! How the parts of a slot are kept in memory.

ghost use Rattle.std.specs.Prelude.{◌≡◌, ◌≤◌, length, IfOk};
ghost use Rattle.dht_types.specs.declared.stored.Main.{Main};
ghost use Rattle.dht_brick.specs.Parts.{slot_shown, main_shown, is_file, is_standlink, is_contested, is_visible};
ghost use Rattle.dht_brick.specs.Looks.{dir_at};
ghost use Rattle.dht_names.specs.Kept.{main_of, slot_of};

use dht_brick::replies::{MainShown, SlotShown};
use dht_types::bytes::Bytes;
use dht_types::identifiers::{BrickNo, Gfid};
use dht_types::names::{LONGEST_NAME, Name};
use dht_types::stored::{Main, Slot, Standby};
use std::alloc::{AllocError, Global};

/// The main part of a slot.
///
/// A linkto value that names a brick has 65 bytes at most, and a request that puts one in the place
/// of a file is to take no memory. So a value of up to 255 bytes is kept in place, and a longer
/// one, which names no brick, on the heap.
#[derive(Drop)]
pub(crate) enum KeptMain {
    Dir(Gfid),
    File(Gfid, Option<BrickNo>),
    /// A linkto of a short value.
    Short(Name),
    /// A linkto of a long value.
    Long(Bytes),
}

impl KeptMain {
    /// A linkto of this value, which is short.
    pub(crate) fn short(value: &[u8]) -> KeptMain
        requires { length value.now ≤ 255 }
        ensures { main_of result ≡ Main.Linkto value.now }
    {
        KeptMain::Short(Name::of(value))
    }

    /// A linkto of this value.
    pub(crate) fn linkto(alloc: Global, value: &[u8]) -> Result<KeptMain, AllocError>
        ensures { IfOk result (λ m. main_of m ≡ Main.Linkto value.now) }
    {
        if value.len() <= LONGEST_NAME {
            return Ok(KeptMain::short(value));
        }
        Ok(KeptMain::Long(Bytes::new(Vec::from_slice(alloc, value)?)))
    }

    /// This part.
    fn of(alloc: Global, main: &Main) -> Result<KeptMain, AllocError>
        ensures { IfOk result (λ m. main_of m ≡ main.now) }
    {
        match main {
            Main::Dir(dir) => Ok(KeptMain::Dir(*dir)),
            Main::File(file, over) => Ok(KeptMain::File(*file, *over)),
            Main::Linkto(value) => KeptMain::linkto(alloc, value.as_slice()),
        }
    }

    /// The same part again.
    fn again(&self, alloc: Global) -> Result<KeptMain, AllocError>
        ensures { IfOk result (λ m. m ≡ self.now) }
    {
        match self {
            KeptMain::Dir(dir) => Ok(KeptMain::Dir(*dir)),
            KeptMain::File(file, over) => Ok(KeptMain::File(*file, *over)),
            KeptMain::Short(value) => Ok(KeptMain::Short(*value)),
            KeptMain::Long(value) => Ok(KeptMain::Long(value.copied(alloc)?)),
        }
    }

    /// The part that is kept here.
    fn copied(&self, alloc: Global) -> Result<Main, AllocError>
        ensures { IfOk result (λ m. m ≡ main_of self.now) }
    {
        match self {
            KeptMain::Dir(dir) => Ok(Main::Dir(*dir)),
            KeptMain::File(file, over) => Ok(Main::File(*file, *over)),
            KeptMain::Short(value) => Ok(Main::Linkto(Bytes::new(Vec::from_slice(
                alloc,
                value.as_bytes(),
            )?))),
            KeptMain::Long(value) => Ok(Main::Linkto(value.copied(alloc)?)),
        }
    }

    /// The part as a refusal shows it.
    fn shown(&self) -> MainShown
        ensures { result ≡ main_shown (main_of self.now) }
    {
        match self {
            KeptMain::Dir(dir) => MainShown::Dir(*dir),
            KeptMain::File(file, over) => MainShown::File(*file, *over),
            KeptMain::Short(_) | KeptMain::Long(_) => MainShown::Linkto,
        }
    }
}

/// The parts of a slot.
#[derive(Drop)]
pub(crate) struct KeptSlot {
    pub(crate) main: Option<KeptMain>,
    pub(crate) standby: Option<Standby>,
}

impl KeptSlot {
    /// The parts as a refusal shows them.
    pub(crate) fn shown(&self) -> SlotShown
        ensures { result ≡ slot_shown (slot_of self.now) }
    {
        let main = match &self.main {
            None => None,
            Some(main) => Some(main.shown()),
        };
        SlotShown {
            main,
            standby: self.standby,
        }
    }

    /// These parts.
    pub(crate) fn of(alloc: Global, slot: &Slot) -> Result<KeptSlot, AllocError>
        ensures { IfOk result (λ k. slot_of k ≡ slot.now) }
    {
        let main = match &slot.main {
            None => None,
            Some(main) => Some(KeptMain::of(alloc, main)?),
        };
        Ok(KeptSlot {
            main,
            standby: slot.standby,
        })
    }

    /// The same parts again.
    pub(crate) fn again(&self, alloc: Global) -> Result<KeptSlot, AllocError>
        ensures { IfOk result (λ k. k ≡ self.now) }
    {
        let main = match &self.main {
            None => None,
            Some(main) => Some(main.again(alloc)?),
        };
        Ok(KeptSlot {
            main,
            standby: self.standby,
        })
    }

    /// The slot that is kept here.
    pub(crate) fn copied(&self, alloc: Global) -> Result<Slot, AllocError>
        ensures { IfOk result (λ s. s ≡ slot_of self.now) }
    {
        let main = match &self.main {
            None => None,
            Some(main) => Some(main.copied(alloc)?),
        };
        Ok(Slot {
            main,
            standby: self.standby,
        })
    }

    /// Whether the name is this file's, marked or not.
    pub(crate) fn is_file(&self, file: Gfid) -> bool
        ensures { result ≡ is_file file (slot_of self.now).main }
    {
        self.shown().is_file(file)
    }

    /// Whether the name is this file's, and is marked.
    pub(crate) fn is_contested(&self, file: Gfid) -> bool
        ensures { result ≡ is_contested file (slot_of self.now).main }
    {
        self.shown().is_contested(file)
    }

    /// Whether the name is readied for this file.
    pub(crate) fn is_standlink(&self, file: Gfid) -> bool
        ensures { result ≡ is_standlink file (slot_of self.now).standby }
    {
        self.shown().is_standlink(file)
    }

    /// Whether the name is a directory's or a file's, or may become a file's.
    pub(crate) fn is_visible(&self) -> bool
        ensures { result ≡ is_visible (slot_of self.now) }
    {
        self.shown().is_visible()
    }

    /// The directory of the name.
    pub(crate) fn dir(&self) -> Option<Gfid>
        ensures { result ≡ dir_at (slot_of self.now).main }
    {
        self.shown().dir()
    }
}
