//! The requests that read a file's record.

ghost use Rattle.std.specs.Prelude.{◌≡◌, Some};
ghost use Rattle.std.specs.Option.{option_copied};
ghost use Rattle.dht_brick.specs.Looks.{dest_of};
ghost use Rattle.dht_brick.specs.declared.requests.FileRequest.{FileRequest};
ghost use Rattle.dht_files.specs.Records.{files_in};
ghost use Rattle.dht_files.specs.Served.{CarriesOut, CarriesOutAlone};

use crate::bytes;
use crate::records::{self, Files};
use crate::serve::refusal;
use dht_brick::replies::{Given, Reply, Stat};
use dht_brick::slots::Slots;
use dht_types::identifiers::{BrickNo, Gfid};
use dht_types::stored::Record;

/// Where the file is being copied to, if it is.
fn dest(kept: &Record) -> Option<BrickNo>
    ensures { result ≡ dest_of (Some kept.now) }
{
    match kept {
        Record::Moving(_, dest, _) => Some(*dest),
        _ => None,
    }
}

impl Files {
    /// Bytes of a file.
    pub(crate) fn read(&self, file: Gfid, offset: u64, size: u64) -> Reply
        ensures { CarriesOutAlone (FileRequest.Read file offset size) (files_in self.now) result
            (files_in self.now) }
    {
        let Some(record) = self.kept(file) else {
            return Reply::Refused(refusal(None));
        };
        match bytes::read(self.alloc, records::bytes(record), offset, size) {
            Ok(bytes) => Reply::Ok(Given::Bytes(bytes)),
            Err(_) => Reply::NoMemory,
        }
    }

    /// A file's length, hops and links.
    pub(crate) fn stat<S: Slots>(&self, file: Gfid, slots: &S) -> Reply
        ensures { CarriesOut (FileRequest.Stat file) (S.tables slots.now)
            (files_in self.now) result (S.tables slots.now) (files_in self.now) }
    {
        let Some(record) = self.kept(file) else {
            return Reply::Refused(refusal(None));
        };
        Reply::Ok(Given::Stat(Stat {
            length: records::bytes(record).len() as u64,
            hop: records::hop(record),
            links: slots.links(file),
            dest: dest(record),
        }))
    }
}
