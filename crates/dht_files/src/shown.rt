//! What is shown of all file records: the files without links, the lines of a dump, and how many
//! there are.

ghost use Rattle.std.specs.Prelude.{◌≡◌, ◌<◌, ◌^◌, ◌++◌, None, Some, IfOk, OnOk, map, sum_by};
ghost use Rattle.std.specs.FinMap.{entries, len, values};
ghost use Rattle.dht_brick.specs.Contents.{Files as Records, store_of};
ghost use Rattle.dht_brick.specs.Parts.{is_live};
ghost use Rattle.dht_brick.specs.Dump.{file_line, record_told};
ghost use Rattle.dht_brick.specs.Events.{chunks_of};
ghost use Rattle.dht_brick.specs.Looks.{is_orphan, orphans_of};
ghost use Rattle.dht_files.specs.Records.{files_in};

use crate::records::{self, Files};
use dht_brick::order::{PAGE_SIZE, gfids_from};
use dht_brick::replies::Gfids;
use dht_brick::slots::Slots;
use dht_types::identifiers::{BrickNo, Gfid};
use dht_types::lines::{DumpLine, RecordLine};
use dht_types::stored::Record;
use sha2::{Digest, Sha256};
use std::alloc::AllocError;
use std::ops::Bound;

/// Whether the file is here.
fn is_live(kept: &Record) -> bool
    ensures { result ≡ is_live (Some kept.now) }
{
    matches!(kept, Record::Live(_, _))
}

/// Whether a file is here and has no links.
fn is_orphan<S: Slots>(file: Gfid, kept: &Record, slots: &S) -> bool
    ensures { (files : Records)
        → result ≡ is_orphan (store_of (S.tables slots.now) files) None (file, kept.now) }
{
    is_live(kept) && slots.links(file) == 0
}

/// The line of a record, of a file with so many links.
fn line(kept: &Record, links: u64) -> RecordLine
    ensures { result ≡ record_told links kept.now }
{
    match kept {
        Record::Live(hop, bytes) => RecordLine::Live {
            hop: *hop,
            links,
            length: bytes.as_slice().len() as u64,
            digest: Sha256::digest(bytes.as_slice()),
        },
        Record::Moving(hop, dest, bytes) => RecordLine::Moving {
            hop: *hop,
            links,
            length: bytes.as_slice().len() as u64,
            digest: Sha256::digest(bytes.as_slice()),
            dest: *dest,
        },
        Record::Standby(copy) => RecordLine::Standby {
            hop: copy.hop,
            source: copy.source,
            length: copy.bytes.as_slice().len() as u64,
            digest: Sha256::digest(copy.bytes.as_slice()),
            is_dirty: copy.is_dirty,
        },
        Record::Forward(hop, brick) => RecordLine::Forward {
            brick: *brick,
            hop: *hop,
        },
    }
}

/// How many chunks of 65,536 bytes a record has, rounded up.
fn chunks(kept: &Record) -> u128
    ensures chunks { result ≡ chunks_of kept.now }
    ensures few { result < 2 ^ 48 }
{
    (records::bytes(kept).len() as u128 + 65_535) / 65_536
}

impl Files {
    /// The files above this one, or from the start, that are here and have no links: the first 256,
    /// in their order.
    pub fn orphans<S: Slots>(&self, after: Option<Gfid>, slots: &S) -> Result<Gfids, AllocError>
        ensures { IfOk result (λ orphans. orphans
            ≡ orphans_of (store_of (S.tables slots.now) (files_in self.now)) after) }
    {
        let mut each = Vec::new(self.alloc);
        for (file, record) in self.records.range((gfids_from(after), Bound::Unbounded)) {
            if each.len() == PAGE_SIZE {
                return Ok(Gfids::new(each));
            }
            if is_orphan(*file, record, slots) {
                each.push(*file)?;
            }
        }
        Ok(Gfids::new(each))
    }

    /// Appends a line for each record, in the order of the files.
    pub fn dump<S: Slots>(
        &self,
        brick: BrickNo,
        slots: &S,
        out: &mut Vec<DumpLine>,
    ) -> Result<(), AllocError>
        ensures { OnOk result (out.new.items
            ≡ out.old.items ++ map (file_line brick (store_of (S.tables slots.now)
            (files_in self.now))) (entries (files_in self.now))) }
    {
        for (file, record) in &self.records {
            let links = slots.links(*file);
            out.push(DumpLine::File(brick, *file, line(record, links)))?;
        }
        Ok(())
    }

    /// How many records there are.
    pub fn count(&self) -> u64
        ensures { result ≡ len (files_in self.now) }
    {
        self.records.len() as u64
    }

    /// How many chunks of 65,536 bytes the records have, each record's rounded up.
    pub fn chunks(&self) -> u128
        ensures { result ≡ sum_by chunks_of (values (files_in self.now)) }
    {
        let mut total = 0;
        for (_, record) in &self.records {
            total += chunks(record);
        }
        total
    }
}
