//! The file records of a brick, by the files' gfids.

ghost use Rattle.std.specs.Prelude.{◌≡◌, None, [], IfOk, IsSome, OnOk, OnErr, is_some};
ghost use Rattle.std.specs.Option.{option_copied};
ghost use Rattle.std.specs.FinMap.{get, insert, remove, empty};
ghost use Rattle.dht_brick.specs.Events.{forgotten};
ghost use Rattle.dht_brick.specs.Looks.{brick_of, hop_of, bytes_of, shape_of};
ghost use Rattle.dht_brick.specs.Parts.{state_of};
ghost use Rattle.dht_files.specs.Records.{files_in, with_record};

use dht_brick::files::FileRecords;
use dht_brick::replies::Gfids;
use dht_brick::shapes::Shape;
use dht_brick::slots::Slots;
use dht_guard::State;
use dht_types::bytes::Bytes;
use dht_types::identifiers::{BrickNo, Gfid};
use dht_types::stored::Record;
use std::alloc::{AllocError, Global};
use std::collections::BTreeMap;

/// The file records of a brick in memory. Contracts speak of `files_in`: a finite map of them by
/// the files' gfids.
#[derive(Drop)]
pub struct Files {
    pub(crate) alloc: Global,
    pub(crate) records: BTreeMap<Gfid, Record>,
}

impl Files {
    /// No records.
    pub fn new(alloc: Global) -> Files
        ensures { files_in result ≡ empty }
    {
        Files {
            alloc,
            records: BTreeMap::new(alloc),
        }
    }

    /// Whether there is a record of this file.
    pub fn contains(&self, file: Gfid) -> bool
        ensures { result ≡ is_some (get (files_in self.now) file) }
    {
        self.records.contains_key(&file)
    }

    /// The record of a file.
    pub(crate) fn kept(&self, file: Gfid) -> Option<&Record>
        ensures { option_copied result ≡ get (files_in self.now) file }
    {
        self.records.get(&file)
    }

    /// The outline of a file's record. A file without one is Absent, with each number 0.
    pub fn shape(&self, file: Gfid) -> Shape
        ensures { result ≡ shape_of (get (files_in self.now) file) }
    {
        shape(self.kept(file))
    }

    /// Gives a file that has no record that of a new, empty file. Where there is no memory for it,
    /// nothing changes.
    pub fn make(&mut self, file: Gfid) -> Result<(), AllocError>
        requires { get (files_in self.old) file ≡ None }
        ensures ok { OnOk result (files_in self.new
            ≡ insert (files_in self.old) file (Record.Live 0 [])) }
        ensures err { OnErr result (files_in self.new ≡ files_in self.old) }
    {
        self.put(file, Record::Live(0, Bytes::new(Vec::new(self.alloc))))
    }

    /// Takes the record of a file away, if it has one.
    pub fn remove(&mut self, file: Gfid)
        ensures { files_in self.new ≡ remove (files_in self.old) file }
    {
        self.records.remove(&file);
    }

    /// Takes away the records of files that were moved on.
    pub fn forget(&mut self)
        ensures { files_in self.new ≡ forgotten (files_in self.old) }
    {
        self.records
            .retain(|_, record| !matches!(record, Record::Forward(_, _)));
    }

    /// A file has this record from now on. Where there is no memory for it, nothing changes.
    pub(crate) fn put(&mut self, file: Gfid, kept: Record) -> Result<(), AllocError>
        ensures ok { OnOk result (files_in self.new ≡ insert (files_in self.old) file kept) }
        ensures err { OnErr result (files_in self.new ≡ files_in self.old) }
    {
        self.exchange(file, kept)?;
        Ok(())
    }

    /// A file has this record from now on, and the one that it had is given back. Where there is no
    /// memory for it, nothing changes.
    pub(crate) fn exchange(
        &mut self,
        file: Gfid,
        kept: Record,
    ) -> Result<Option<Record>, AllocError>
        ensures before { IfOk result (λ before. before ≡ get (files_in self.old) file) }
        ensures ok { OnOk result (files_in self.new ≡ insert (files_in self.old) file kept) }
        ensures err { OnErr result (files_in self.new ≡ files_in self.old) }
    {
        Ok(self.records.insert(file, kept)?)
    }

    /// Puts this record in place of the one that a file has, which is given back. It takes no
    /// memory, since the map has the file already.
    pub(crate) fn replace(&mut self, file: Gfid, kept: Record) -> Option<Record>
        requires { IsSome (get (files_in self.old) file) }
        ensures before { result ≡ get (files_in self.old) file }
        ensures after { files_in self.new ≡ insert (files_in self.old) file kept }
    {
        match self.records.insert(file, kept) {
            Ok(before) => before,
            Err(_) => None,
        }
    }

    /// Gives a file back the record that it had before it was given another one, or none. It takes
    /// no memory.
    pub(crate) fn put_back(&mut self, file: Gfid, before: Option<Record>)
        requires { IsSome (get (files_in self.old) file) }
        ensures { files_in self.new ≡ with_record (files_in self.old) file before }
    {
        match before {
            None => self.remove(file),
            Some(kept) => {
                self.replace(file, kept);
            }
        }
    }
}

impl FileRecords for Files {
    ghost use Rattle.dht_files.specs.Records.{files_in};

    ghost files = { files_in };

    fn shape(&self, file: Gfid) -> Shape {
        Files::shape(self, file)
    }

    fn make(&mut self, file: Gfid) -> Result<(), AllocError> {
        Files::make(self, file)
    }

    fn remove(&mut self, file: Gfid) {
        Files::remove(self, file);
    }

    fn orphans<S: Slots>(&self, after: Option<Gfid>, slots: &S) -> Result<Gfids, AllocError> {
        Files::orphans(self, after, slots)
    }
}

/// The state of a record.
pub(crate) fn state(kept: Option<&Record>) -> State
    ensures { result ≡ state_of (option_copied kept.entry) }
{
    match kept {
        None => State::Absent,
        Some(Record::Live(_, _)) => State::Live,
        Some(Record::Moving(_, _, _)) => State::Moving,
        Some(Record::Standby(_)) => State::Standby,
        Some(Record::Forward(_, _)) => State::Forward,
    }
}

/// How often the file was moved.
pub(crate) fn hop(kept: &Record) -> u64
    ensures { result ≡ hop_of kept.now }
{
    match kept {
        Record::Live(hop, _) | Record::Moving(hop, _, _) | Record::Forward(hop, _) => *hop,
        Record::Standby(copy) => copy.hop,
    }
}

/// The bytes of a record.
pub(crate) fn bytes(kept: &Record) -> &[u8]
    ensures { result.now ≡ bytes_of kept.now }
{
    match kept {
        Record::Live(_, bytes) | Record::Moving(_, _, bytes) => bytes.as_slice(),
        Record::Standby(copy) => copy.bytes.as_slice(),
        Record::Forward(_, _) => &[],
    }
}

/// The brick that a record names, or else brick 0.
fn brick(kept: &Record) -> BrickNo
    ensures { result ≡ brick_of kept.now }
{
    match kept {
        Record::Live(_, _) => BrickNo(0),
        Record::Moving(_, brick, _) | Record::Forward(_, brick) => *brick,
        Record::Standby(copy) => copy.source,
    }
}

/// The outline of a record.
fn shape(kept: Option<&Record>) -> Shape
    ensures { result ≡ shape_of (option_copied kept.entry) }
{
    match kept {
        None => Shape {
            state: State::Absent,
            hop: 0,
            brick: BrickNo(0),
            length: 0,
        },
        Some(record) => Shape {
            state: state(kept),
            hop: hop(record),
            brick: brick(record),
            length: bytes(record).len() as u64,
        },
    }
}
