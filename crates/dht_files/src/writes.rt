//! The requests that change the bytes of a file. They are changed in place.

ghost use Rattle.std.specs.Prelude.{◌≡◌, IsSome, OnOk, OnErr};
ghost use Rattle.std.specs.Option.{option_copied};
ghost use Rattle.std.specs.FinMap.{get, insert};
ghost use Rattle.dht_brick.specs.declared.requests.FileRequest.{FileRequest};
ghost use Rattle.dht_files.specs.Headers.{header_of, record_of};
ghost use Rattle.dht_files.specs.Records.{files_in};
ghost use Rattle.dht_files.specs.Served.{CarriesOutAlone};

use crate::records::Files;
use crate::serve::refusal;
use dht_brick::replies::{Given, Reply};
use dht_types::bytes::Bytes;
use dht_types::identifiers::{BrickNo, Gfid};
use dht_types::stored::Record;
use std::alloc::AllocError;

/// What the record of a file that is here has beside its bytes.
#[derive(Clone, Copy)]
pub(crate) struct Header {
    hop: u64,
    /// Where the file is being copied to, if it is.
    dest: Option<BrickNo>,
}

impl Header {
    /// That of a record, if the file is here.
    fn of(kept: Option<&Record>) -> Option<Header>
        ensures { result ≡ header_of (option_copied kept.entry) }
    {
        match kept {
            Some(Record::Live(hop, _)) => Some(Header {
                hop: *hop,
                dest: None,
            }),
            Some(Record::Moving(hop, dest, _)) => Some(Header {
                hop: *hop,
                dest: Some(*dest),
            }),
            _ => None,
        }
    }

    /// The record of these bytes.
    fn with(self, bytes: Bytes) -> Record
        ensures { result ≡ record_of self bytes }
    {
        match self.dest {
            None => Record::Live(self.hop, bytes),
            Some(dest) => Record::Moving(self.hop, dest, bytes),
        }
    }
}

/// A change was made, or there was no memory for it.
pub(crate) fn made(change: Result<(), AllocError>) -> Reply
    ensures ok { OnOk change (result ≡ Reply.Ok Given.Nothing) }
    ensures err { OnErr change (result ≡ Reply.NoMemory) }
{
    match change {
        Ok(()) => Reply::Ok(Given::Nothing),
        Err(_) => Reply::NoMemory,
    }
}

impl Files {
    /// Writes bytes at an offset.
    pub(crate) fn write(&mut self, file: Gfid, offset: u64, piece: &Bytes) -> Reply
        ensures write { CarriesOutAlone (FileRequest.Write file offset piece.now)
            (files_in self.old) result (files_in self.new) }
        ensures locked { CarriesOutAlone (FileRequest.LockedWrite file offset piece.now)
            (files_in self.old) result (files_in self.new) }
    {
        let Some(header) = Header::of(self.kept(file)) else {
            return Reply::Refused(refusal(self.kept(file)));
        };
        let mut bytes = self.take_bytes(file);
        let written = bytes.write(offset, piece.as_slice());
        self.save(file, header.with(bytes));
        made(written)
    }

    /// Sets the length.
    pub(crate) fn truncate(&mut self, file: Gfid, size: u64) -> Reply
        ensures truncate { CarriesOutAlone (FileRequest.Truncate file size)
            (files_in self.old) result (files_in self.new) }
        ensures locked { CarriesOutAlone (FileRequest.LockedTruncate file size)
            (files_in self.old) result (files_in self.new) }
    {
        let Some(header) = Header::of(self.kept(file)) else {
            return Reply::Refused(refusal(self.kept(file)));
        };
        let mut bytes = self.take_bytes(file);
        let cut = bytes.cut(size);
        self.save(file, header.with(bytes));
        made(cut)
    }

    /// Puts this record in place of the file's, which takes no memory.
    pub(crate) fn save(&mut self, file: Gfid, kept: Record) -> Reply
        requires { IsSome (get (files_in self.old) file) }
        ensures reply { result ≡ Reply.Ok Given.Nothing }
        ensures after { files_in self.new ≡ insert (files_in self.old) file kept }
    {
        self.replace(file, kept);
        Reply::Ok(Given::Nothing)
    }
}
