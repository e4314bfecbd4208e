//! The requests about file records: the table first, and then each request's own conditions.

ghost use Rattle.std.specs.Prelude.{◌≡◌, ◌≢◌};
ghost use Rattle.std.specs.Option.{option_copied};
ghost use Rattle.dht_brick.specs.Contents.{store_of};
ghost use Rattle.dht_brick.specs.FileRows.{file_row, state_refusal};
ghost use Rattle.dht_brick.specs.Memory.{FileTakesNoMemory};
ghost use Rattle.dht_brick.specs.Outcome.{Serves};
ghost use Rattle.dht_files.specs.Records.{files_in};
ghost use Rattle.dht_files.specs.Served.{CarriesOut};

use crate::records::{Files, state};
use dht_brick::replies::{Reply, Why};
use dht_brick::requests::FileRequest;
use dht_brick::slots::Slots;
use dht_guard::{Cell, file_cell};
use dht_types::identifiers::Gfid;
use dht_types::names::{EntryKey, Name};
use dht_types::stored::Record;

/// The refusal that names the state of a record.
pub(crate) fn refusal(kept: Option<&Record>) -> Why
    ensures { result ≡ state_refusal (option_copied kept.entry) }
{
    match kept {
        None => Why::Absent,
        Some(Record::Live(_, _)) => Why::Live,
        Some(Record::Moving(_, dest, _)) => Why::Moving(*dest),
        Some(Record::Standby(copy)) => Why::Standby(copy.source, copy.hop),
        Some(Record::Forward(hop, brick)) => Why::Forward(*brick, *hop),
    }
}

/// The key of a slot.
fn key(dir: Gfid, name: &Name) -> EntryKey
    ensures { result ≡ record { dir = dir; name = name.now } }
{
    EntryKey { dir, name: *name }
}

impl Files {
    /// Serves a request about a file's record, on a brick with these slots, by the request's row.
    /// Where the table's cell refuses, the refusal names the record's state; where a further
    /// condition fails, it has that condition's word, or else names the state. Where there is no
    /// memory, nothing is done; but to unmark, demote, promote or drop a file, and to say that a
    /// copy is clean, takes none.
    pub fn serve<S: Slots>(&mut self, request: &FileRequest, slots: &mut S) -> Reply
        ensures row { Serves (file_row (S.tables slots.old).bricks request.now (store_of
            (S.tables slots.old) (files_in self.old)))
            (store_of (S.tables slots.old) (files_in self.old)) result
            (store_of (S.tables slots.new) (files_in self.new)) }
        ensures bricks { (S.tables slots.new).bricks ≡ (S.tables slots.old).bricks }
        ensures memory { FileTakesNoMemory request.now → result ≢ Reply.NoMemory }
    {
        let kept = self.kept(request.file());
        match file_cell(request.row(), state(kept)) {
            Cell::Refuse => Reply::Refused(refusal(kept)),
            Cell::Keep | Cell::To(_) | Cell::Test(_) => self.carry_out(request, slots),
        }
    }

    /// Carries out a request that the table lets through, or refuses it by its further conditions.
    fn carry_out<S: Slots>(&mut self, request: &FileRequest, slots: &mut S) -> Reply
        ensures row { CarriesOut request.now (S.tables slots.old) (files_in self.old) result
            (S.tables slots.new) (files_in self.new) }
        ensures bricks { (S.tables slots.new).bricks ≡ (S.tables slots.old).bricks }
        ensures memory { FileTakesNoMemory request.now → result ≢ Reply.NoMemory }
    {
        match request {
            FileRequest::Read(file, offset, size) => self.read(*file, *offset, *size),
            FileRequest::Write(file, offset, bytes)
            | FileRequest::LockedWrite(file, offset, bytes) => self.write(*file, *offset, bytes),
            FileRequest::Truncate(file, size) | FileRequest::LockedTruncate(file, size) => {
                self.truncate(*file, *size)
            }
            FileRequest::Stat(file) => self.stat(*file, slots),
            FileRequest::Mark(file, dest) => self.mark(*file, *dest, slots),
            FileRequest::Unmark(file) => self.unmark(*file),
            FileRequest::MakeStandby {
                file,
                dir,
                name,
                source,
                hop,
            } => { self.make_standby(*file, &key(*dir, name), *source, *hop, slots) }
            FileRequest::StandbyWrite(file, change) => self.standby_write(*file, change),
            FileRequest::CopyWrite(file, offset, bytes) => self.copy_write(*file, *offset, bytes),
            FileRequest::ClearDirty(file) => self.clear_dirty(*file),
            FileRequest::DropStandby(file) => self.drop_standby(*file, slots),
            FileRequest::Demote(file, dir, name) => self.demote(*file, &key(*dir, name), slots),
            FileRequest::Promote(file, hop) => self.promote(*file, *hop, slots),
            FileRequest::Drop(file) => self.drop_file(*file, slots),
        }
    }
}
