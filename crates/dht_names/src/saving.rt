//! Directories as they are saved, and brought back.

ghost use Rattle.std.specs.Prelude.{◌≡◌, Some, IfOk, IfSome, OnOk, OnErr};
ghost use Rattle.std.specs.Option.{option_map, option_copied, option_and_then};
ghost use Rattle.dht_types.specs.declared.saved.Saved.{Saved};
ghost use Rattle.dht_brick.specs.Saving.{dir_saved, dir_restored, dir_in, IsDirOf};
ghost use Rattle.dht_names.specs.Kept.{tables_in};

use crate::brick_tables::Tables;
use crate::dirs::copied;
use dht_types::identifiers::Gfid;
use dht_types::saved::{Saved, SavedDir};
use dht_types::stored::DirRecord;
use std::alloc::{AllocError, Global};

/// The same record again.
fn copied_record(alloc: Global, kept: &DirRecord) -> Result<DirRecord, AllocError>
    ensures { IfOk result (λ r. r ≡ kept.now) }
{
    Ok(DirRecord {
        place: kept.place,
        depth: kept.depth,
        value: copied(alloc, &kept.value)?,
    })
}

impl Tables {
    /// The record of a directory with its slots, as it is saved, if there is one.
    pub fn saved(&self, dir: Gfid) -> Result<Option<Saved>, AllocError>
        ensures { IfOk result (λ s. s ≡ option_map Saved.Dir (dir_saved (tables_in self.now) dir)) }
    {
        let Some(kept) = self.dirs.get(dir) else {
            return Ok(None);
        };
        Ok(Some(Saved::Dir(SavedDir {
            gfid: dir,
            dir: copied_record(self.alloc, kept)?,
            slots: self.slots.saved(self.alloc, dir)?,
        })))
    }

    /// Puts a saved record in place of a directory's record and slots, or takes these away where
    /// none is given. Where there is no memory for it, nothing changes.
    pub fn restore(&mut self, dir: Gfid, saved: Option<&Saved>) -> Result<(), AllocError>
        requires { IfSome (option_copied saved) (IsDirOf dir) }
        ensures ok { OnOk result (tables_in self.new
            ≡ dir_restored dir (option_and_then dir_in (option_copied saved.entry))
            (tables_in self.old)) }
        ensures err { OnErr result (tables_in self.new ≡ tables_in self.old) }
    {
        match saved {
            Some(Saved::Dir(saved)) => self.put_saved(dir, saved),
            _ => {
                self.slots.drop_dir(dir);
                self.dirs.remove(dir);
                Ok(())
            }
        }
    }

    /// Puts a saved record in place of a directory's record and slots.
    pub(crate) fn put_saved(&mut self, dir: Gfid, saved: &SavedDir) -> Result<(), AllocError>
        ensures ok { OnOk result (tables_in self.new
            ≡ dir_restored dir (Some saved.now) (tables_in self.old)) }
        ensures err { OnErr result (tables_in self.new ≡ tables_in self.old) }
    {
        let kept = copied_record(self.alloc, &saved.dir)?;
        let slots = self
            .slots
            .restored(self.alloc, dir, saved.slots.as_slice())?;
        self.dirs.put(dir, kept)?;
        self.slots = slots;
        Ok(())
    }
}
