//! The file records as they are saved, and brought back.

ghost use Rattle.std.specs.Prelude.{◌≡◌, IfOk, IfSome, OnOk, OnErr};
ghost use Rattle.std.specs.Option.{option_copied, option_map, option_and_then};
ghost use Rattle.std.specs.FinMap.{get};
ghost use Rattle.dht_brick.specs.Saving.{IsFileOf, file_in, file_restored, file_saved, key_above};
ghost use Rattle.dht_files.specs.Records.{files_in};

use crate::records::Files;
use dht_brick::order::gfids_from;
use dht_types::identifiers::Gfid;
use dht_types::saved::{Saved, SavedFile};
use dht_types::stored::{Record, StandbyRecord};
use std::alloc::{AllocError, Global};
use std::ops::Bound;

/// The same record again.
fn copied(alloc: Global, kept: &Record) -> Result<Record, AllocError>
    ensures { IfOk result (λ r. r ≡ kept.now) }
{
    Ok(match kept {
        Record::Live(hop, bytes) => Record::Live(*hop, bytes.copied(alloc)?),
        Record::Moving(hop, dest, bytes) => Record::Moving(*hop, *dest, bytes.copied(alloc)?),
        Record::Standby(copy) => Record::Standby(StandbyRecord {
            hop: copy.hop,
            source: copy.source,
            is_dirty: copy.is_dirty,
            dir: copy.dir,
            name: copy.name,
            bytes: copy.bytes.copied(alloc)?,
        }),
        Record::Forward(hop, brick) => Record::Forward(*hop, *brick),
    })
}

impl Files {
    /// The least file with a record above this one, or the first of all; none exactly where there
    /// is none.
    pub fn next_key(&self, after: Option<Gfid>) -> Option<Gfid>
        ensures { result ≡ key_above (files_in self.now) after }
    {
        let (file, _) = self
            .records
            .range((gfids_from(after), Bound::Unbounded))
            .next()?;
        Some(*file)
    }

    /// The sidecar record of a file's record, and none where it has no record.
    pub fn saved(&self, key: Gfid) -> Result<Option<Saved>, AllocError>
        ensures { IfOk result (λ saved. saved
            ≡ option_map Saved.File (file_saved (files_in self.now) key)) }
    {
        let Some(record) = self.kept(key) else {
            return Ok(None);
        };
        let file = copied(self.alloc, record)?;
        Ok(Some(Saved::File(SavedFile { gfid: key, file })))
    }

    /// Puts the record of a sidecar record of this file in place of the file's, or takes the file's
    /// away where none is given. Where there is no memory for it, nothing changes.
    pub fn restore(&mut self, key: Gfid, saved: Option<&Saved>) -> Result<(), AllocError>
        requires { IfSome (option_copied saved) (IsFileOf key) }
        ensures ok { OnOk result (files_in self.new
            ≡ file_restored key (option_and_then file_in (option_copied saved.entry))
            (files_in self.old)) }
        ensures err { OnErr result (files_in self.new ≡ files_in self.old) }
    {
        match saved {
            Some(Saved::File(saved)) => self.put(key, copied(self.alloc, &saved.file)?),
            _ => {
                self.remove(key);
                Ok(())
            }
        }
    }
}
