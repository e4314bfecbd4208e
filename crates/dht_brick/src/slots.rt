//! The slots of a brick, as the requests about files use them.

ghost use Rattle.std.specs.Prelude.{◌≡◌, false, true, is_some, None, OnOk, OnErr};
ghost use Rattle.std.specs.FinMap.{get};
ghost use Rattle.dht_types.specs.Linkto.{linkto_value};
ghost use Rattle.dht_brick.specs.Contents.{Tables, entry_at, slot_in, bare};
ghost use Rattle.dht_brick.specs.Links.{links, is_marked};
ghost use Rattle.dht_brick.specs.Parts.{is_bare, is_copy, put_slot, slot_shown, with_main, with_standby, without_standby};

use super::replies::SlotShown;
use dht_types::identifiers::{BrickNo, Gfid};
use dht_types::names::EntryKey;
use dht_types::stored::{Main, Standby};
use std::alloc::AllocError;

/// The slots of a brick, as a request about a file reads and changes them. What it changes is one
/// slot; the directory records and the names of the bricks stay.
pub trait Slots {
    /// The directory records and slots, and the names of the bricks that are known.
    ghost tables: { Self → Tables };

    /// Whether the brick has a record of this directory.
    fn has_dir(&self, dir: Gfid) -> bool
        ensures { result ≡ is_some (get (tables self.now).dirs dir) };

    /// The parts of a slot.
    fn parts(&self, key: &EntryKey) -> SlotShown
        ensures { result ≡ slot_shown (slot_in (tables self.now).slots (entry_at key.now)) };

    /// The links of a file: the names that are the file's, and those that are readied for it.
    fn links(&self, file: Gfid) -> u64
        ensures { result ≡ links (tables self.now).slots file };

    /// Whether a name of the file is marked for a rename.
    fn is_marked(&self, file: Gfid) -> bool
        ensures { result ≡ is_marked (tables self.now).slots file };

    /// The copy of this file stands at the name from now on. A slot may be made for it, which takes
    /// memory.
    fn put_copy(&mut self, key: &EntryKey, file: Gfid) -> Result<(), AllocError>
        ensures ok { OnOk result (tables self.new ≡ record (tables self.old) {
          slots = put_slot (tables self.old).slots (entry_at key.now)
              (with_standby (slot_in (tables self.old).slots (entry_at key.now))
              (Standby.Copy file));
        }) }
        ensures err { OnErr result (tables self.new ≡ tables self.old) };

    /// No standby is at the name from now on.
    fn take_standby(&mut self, key: &EntryKey)
        ensures { tables self.new ≡ record (tables self.old) {
          slots = put_slot (tables self.old).slots (entry_at key.now)
              (without_standby (slot_in (tables self.old).slots (entry_at key.now)));
        } };

    /// A linkto to this brick is at the name from now on. The slot is there, so that it takes no
    /// memory.
    fn put_linkto(&mut self, key: &EntryKey, brick: BrickNo)
        requires { is_bare (slot_in (tables self.old).slots (entry_at key.now)) ≡ false }
        ensures { tables self.new ≡ record (tables self.old) {
          slots = put_slot (tables self.old).slots (entry_at key.now)
              (with_main (slot_in (tables self.old).slots (entry_at key.now))
              (Main.Linkto (linkto_value (tables self.old).bricks brick.0)));
        } };

    /// The name, where the copy of this file stands, is this file's from now on, and no standby is
    /// at it. It takes no memory.
    fn put_file(&mut self, key: &EntryKey, file: Gfid)
        requires there { is_bare (slot_in (tables self.old).slots (entry_at key.now)) ≡ false }
        requires copy { is_copy file (slot_in (tables self.old).slots (entry_at key.now)).standby
            ≡ true }
        ensures { tables self.new ≡ record (tables self.old) {
          slots = put_slot (tables self.old).slots (entry_at key.now)
              (with_main bare (Main.File file None));
        } };
}
