//! The requests that begin and end the move of a file where it is, and the one that drops a file.

ghost use Rattle.std.specs.Prelude.{◌≡◌, ◌≢◌, IsSome, IfSome};
ghost use Rattle.std.specs.FinMap.{get, insert};
ghost use Rattle.dht_brick.specs.Looks.{bytes_of};
ghost use Rattle.dht_types.specs.declared.stored.Record.{Record};
ghost use Rattle.dht_brick.specs.declared.requests.FileRequest.{FileRequest};
ghost use Rattle.dht_files.specs.Records.{files_in};
ghost use Rattle.dht_files.specs.Served.{CarriesOut, CarriesOutAlone};

use crate::records::{self, Files};
use crate::serve::refusal;
use dht_brick::replies::{Given, Reply, Why};
use dht_brick::slots::Slots;
use dht_types::bytes::Bytes;
use dht_types::identifiers::{BrickNo, Gfid};
use dht_types::names::EntryKey;
use dht_types::stored::Record;

impl Files {
    /// Says that a file is being copied to this brick. A file that has not just one link, or has a
    /// name that is marked for a rename, is refused with its links.
    pub(crate) fn mark<S: Slots>(&mut self, file: Gfid, dest: BrickNo, slots: &S) -> Reply
        ensures { CarriesOut (FileRequest.Mark file dest) (S.tables slots.now)
            (files_in self.old) result (S.tables slots.now) (files_in self.new) }
    {
        let Some(record) = self.kept(file) else {
            return Reply::Refused(refusal(None));
        };
        let links = slots.links(file);
        if links != 1 || slots.is_marked(file) {
            return Reply::Refused(Why::Links(links));
        }
        let hop = records::hop(record);
        let bytes = self.take_bytes(file);
        self.save(file, Record::Moving(hop, dest, bytes))
    }

    /// Says that a file is no longer being copied.
    pub(crate) fn unmark(&mut self, file: Gfid) -> Reply
        ensures row { CarriesOutAlone (FileRequest.Unmark file) (files_in self.old) result
            (files_in self.new) }
        ensures memory { result ≢ Reply.NoMemory }
    {
        match self.kept(file) {
            Some(Record::Moving(hop, _, _)) => {
                let hop = *hop;
                let bytes = self.take_bytes(file);
                self.save(file, Record::Live(hop, bytes))
            }
            record => Reply::Refused(refusal(record)),
        }
    }

    /// Gives a file up to the brick to which it was copied. At its name, which has to be its own
    /// and not marked for a rename, a linkto to that brick is left, and of its record a pointer.
    pub(crate) fn demote<S: Slots>(&mut self, file: Gfid, key: &EntryKey, slots: &mut S) -> Reply
        ensures row { CarriesOut (FileRequest.Demote file key.now.dir key.now.name)
            (S.tables slots.old) (files_in self.old) result (S.tables slots.new)
            (files_in self.new) }
        ensures bricks { (S.tables slots.new).bricks ≡ (S.tables slots.old).bricks }
        ensures memory { result ≢ Reply.NoMemory }
    {
        match self.kept(file) {
            Some(Record::Moving(hop, dest, _)) if slots.parts(key).is_plain(file) => {
                let (hop, dest) = (*hop, *dest);
                slots.put_linkto(key, dest);
                self.save(file, Record::Forward(hop.saturating_add(1), dest))
            }
            record => Reply::Refused(refusal(record)),
        }
    }

    /// Takes away the record of a file that has no links.
    pub(crate) fn drop_file<S: Slots>(&mut self, file: Gfid, slots: &S) -> Reply
        ensures row { CarriesOut (FileRequest.Drop file) (S.tables slots.now)
            (files_in self.old) result (S.tables slots.now) (files_in self.new) }
        ensures memory { result ≢ Reply.NoMemory }
    {
        if !self.contains(file) {
            return Reply::Refused(refusal(None));
        }
        let links = slots.links(file);
        if links != 0 {
            return Reply::Refused(Why::Links(links));
        }
        self.remove(file);
        Reply::Ok(Given::Nothing)
    }

    /// Takes the bytes out of a file's record, which is to be replaced: until then a record without
    /// bytes stands in its place. It takes no memory.
    pub(crate) fn take_bytes(&mut self, file: Gfid) -> Bytes
        requires { IsSome (get (files_in self.old) file) }
        ensures bytes { IfSome (get (files_in self.old) file) (λ r. result ≡ bytes_of r) }
        ensures kept { IsSome (get (files_in self.new) file) }
        ensures others { (r : Record)
            → insert (files_in self.new) file r ≡ insert (files_in self.old) file r }
    {
        match self.replace(file, Record::Forward(0, BrickNo(0))) {
            Some(Record::Live(_, bytes) | Record::Moving(_, _, bytes)) => bytes,
            Some(Record::Standby(copy)) => copy.bytes,
            Some(Record::Forward(_, _)) | None => Bytes::new(Vec::new(self.alloc)),
        }
    }
}
