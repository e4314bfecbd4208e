//! What the shown parts of a slot tell of it.

ghost use Rattle.std.specs.Prelude.{◌≡◌};
ghost use Rattle.dht_brick.specs.Looks.{file_or_readied, copy_at, dir_at};
ghost use Rattle.dht_brick.specs.Parts.{is_vacant, is_linkto, is_dir, is_file, is_plain, is_contested, is_over, is_standlink, is_copy, is_bare, is_free, is_visible, slot_shown};
ghost use Rattle.dht_types.specs.declared.stored.Slot.{Slot};

use super::replies::{MainShown, SlotShown};
use dht_types::identifiers::{BrickNo, Gfid};
use dht_types::stored::Standby;

impl SlotShown {
    /// Whether the name stands for nothing: it has no main part, or a linkto.
    pub fn is_vacant(self) -> bool
        ensures { (p : Slot) → self ≡ slot_shown p → result ≡ is_vacant p.main }
    {
        matches!(self.main, None | Some(MainShown::Linkto))
    }

    /// Whether there is neither part.
    pub fn is_bare(self) -> bool
        ensures { (p : Slot) → self ≡ slot_shown p → result ≡ is_bare p }
    {
        self.main.is_none() && self.standby.is_none()
    }

    /// Whether the name stands for nothing, and for nothing to come.
    pub fn is_free(self) -> bool
        ensures { (p : Slot) → self ≡ slot_shown p → result ≡ is_free p }
    {
        self.is_vacant() && self.standby.is_none()
    }

    /// Whether the name is a directory's or a file's, or may become a file's.
    pub fn is_visible(self) -> bool
        ensures { (p : Slot) → self ≡ slot_shown p → result ≡ is_visible p }
    {
        !self.is_vacant() || self.standby.is_some()
    }

    /// Whether there is a linkto.
    pub fn is_linkto(self) -> bool
        ensures { (p : Slot) → self ≡ slot_shown p → result ≡ is_linkto p.main }
    {
        matches!(self.main, Some(MainShown::Linkto))
    }

    /// Whether the name is this directory's.
    pub fn is_dir(self, dir: Gfid) -> bool
        ensures { (p : Slot) → self ≡ slot_shown p → result ≡ is_dir dir p.main }
    {
        match self.main {
            Some(MainShown::Dir(other)) => dir == other,
            _ => false,
        }
    }

    /// Whether the name is this file's, marked for a rename or not.
    pub fn is_file(self, file: Gfid) -> bool
        ensures { (p : Slot) → self ≡ slot_shown p → result ≡ is_file file p.main }
    {
        match self.main {
            Some(MainShown::File(other, _)) => file == other,
            _ => false,
        }
    }

    /// Whether the name is this file's, and is not marked for a rename.
    pub fn is_plain(self, file: Gfid) -> bool
        ensures { (p : Slot) → self ≡ slot_shown p → result ≡ is_plain file p.main }
    {
        match self.main {
            Some(MainShown::File(other, None)) => file == other,
            _ => false,
        }
    }

    /// Whether the name is this file's, and is marked for a rename.
    pub fn is_contested(self, file: Gfid) -> bool
        ensures { (p : Slot) → self ≡ slot_shown p → result ≡ is_contested file p.main }
    {
        match self.main {
            Some(MainShown::File(other, Some(_))) => file == other,
            _ => false,
        }
    }

    /// Whether the name is this file's, and is marked for this brick.
    pub fn is_over(self, file: Gfid, brick: BrickNo) -> bool
        ensures { (p : Slot) → self ≡ slot_shown p → result ≡ is_over file brick.0 p.main }
    {
        match self.main {
            Some(MainShown::File(other, Some(over))) => file == other && brick == over,
            _ => false,
        }
    }

    /// Whether the name is readied for this file.
    pub fn is_standlink(self, file: Gfid) -> bool
        ensures { (p : Slot) → self ≡ slot_shown p → result ≡ is_standlink file p.standby }
    {
        match self.standby {
            Some(Standby::StandLink(other)) => file == other,
            _ => false,
        }
    }

    /// Whether the copy of this file is at the name.
    pub fn is_copy(self, file: Gfid) -> bool
        ensures { (p : Slot) → self ≡ slot_shown p → result ≡ is_copy file p.standby }
    {
        match self.standby {
            Some(Standby::Copy(other)) => file == other,
            _ => false,
        }
    }

    /// The directory of the name.
    pub fn dir(self) -> Option<Gfid>
        ensures { (p : Slot) → self ≡ slot_shown p → result ≡ dir_at p.main }
    {
        match self.main {
            Some(MainShown::Dir(dir)) => Some(dir),
            _ => None,
        }
    }

    /// The file of the name, or else the one for which it is readied.
    pub fn file(self) -> Option<Gfid>
        ensures { (p : Slot) → self ≡ slot_shown p → result ≡ file_or_readied p }
    {
        match (self.main, self.standby) {
            (Some(MainShown::File(file, _)), _) => Some(file),
            (_, Some(Standby::StandLink(file))) => Some(file),
            _ => None,
        }
    }

    /// The file whose copy is at the name.
    pub fn copy(self) -> Option<Gfid>
        ensures { (p : Slot) → self ≡ slot_shown p → result ≡ copy_at p.standby }
    {
        match self.standby {
            Some(Standby::Copy(file)) => Some(file),
            _ => None,
        }
    }
}
