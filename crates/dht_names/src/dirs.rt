//! The directory records of a brick in memory.

ghost use Rattle.std.specs.Prelude.{◌≡◌, ◌++◌, Some, None, IsSome, map, is_some, OnOk, OnErr, IfOk};
ghost use Rattle.std.specs.Option.{option_copied};
ghost use Rattle.std.specs.FinMap.{get, insert, remove, empty, entries, len};
ghost use Rattle.dht_types.specs.declared.stored.DirRecord.{DirRecord};
ghost use Rattle.dht_brick.specs.Contents.{Dirs};
ghost use Rattle.dht_brick.specs.Dump.{dir_line};
ghost use Rattle.dht_brick.specs.Saving.{key_above};
ghost use Rattle.dht_names.specs.Kept.{dirs_in};

use dht_brick::order::gfids_from;
use dht_types::bytes::Bytes;
use dht_types::identifiers::{BrickNo, Gfid};
use dht_types::layouts::LayoutValue;
use dht_types::lines::DumpLine;
use dht_types::stored::DirRecord;
use std::alloc::{AllocError, Global};
use std::collections::BTreeMap;
use std::ops::Bound;

/// The same value again.
pub(crate) fn copied(alloc: Global, value: &Option<Bytes>) -> Result<Option<Bytes>, AllocError>
    ensures { IfOk result (λ v. v ≡ value.now) }
{
    match value {
        None => Ok(None),
        Some(value) => Ok(Some(value.copied(alloc)?)),
    }
}

/// The value of a request, as a record stores it: in memory of its own.
pub(crate) fn stored(
    alloc: Global,
    value: &Option<LayoutValue>,
) -> Result<Option<Bytes>, AllocError>
    ensures { IfOk result (λ v. v ≡ value.now) }
{
    match value {
        None => Ok(None),
        Some(value) => Ok(Some(Bytes::new(Vec::from_slice(alloc, value.as_slice())?))),
    }
}

/// The directory records of a brick, by the directories' gfids. Contracts speak of `dirs_in`.
#[derive(Drop)]
pub(crate) struct DirTable {
    kept: BTreeMap<Gfid, DirRecord>,
}

impl DirTable {
    /// No records.
    pub(crate) fn new(alloc: Global) -> DirTable
        ensures { dirs_in result ≡ empty }
    {
        DirTable {
            kept: BTreeMap::new(alloc),
        }
    }

    /// How many there are.
    pub(crate) fn len(&self) -> usize
        ensures { result ≡ len (dirs_in self.now) }
    {
        self.kept.len()
    }

    /// The record of a directory.
    pub(crate) fn get(&self, dir: Gfid) -> Option<&DirRecord>
        ensures { option_copied result ≡ get (dirs_in self.now) dir }
    {
        self.kept.get(&dir)
    }

    /// Whether there is a record of a directory.
    pub(crate) fn contains(&self, dir: Gfid) -> bool
        ensures { result ≡ is_some (get (dirs_in self.now) dir) }
    {
        self.kept.contains_key(&dir)
    }

    /// Gives a directory this record, and gives back the one that it had. It takes memory only
    /// where it had none.
    pub(crate) fn put(&mut self, dir: Gfid, new: DirRecord) -> Result<Option<DirRecord>, AllocError>
        ensures old { IfOk result (λ old. old ≡ get (dirs_in self.old) dir) }
        ensures ok { OnOk result (dirs_in self.new ≡ insert (dirs_in self.old) dir new) }
        ensures err { OnErr result (dirs_in self.new ≡ dirs_in self.old) }
    {
        Ok(self.kept.insert(dir, new)?)
    }

    /// Takes back what `put` did: a directory has again the record that it had.
    pub(crate) fn put_back(&mut self, dir: Gfid, old: Option<DirRecord>)
        requires { IsSome (get (dirs_in self.old) dir) }
        ensures { (m : Dirs) → (r : DirRecord) → dirs_in self.old ≡ insert m dir r
            → old ≡ get m dir → dirs_in self.new ≡ m }
    {
        match old {
            None => self.remove(dir),
            Some(old) => self.replace(dir, old),
        }
    }

    /// Gives the record of a directory this attribute, or none.
    pub(crate) fn set_value(&mut self, dir: Gfid, value: Option<Bytes>)
        ensures { (r : DirRecord) → get (dirs_in self.old) dir ≡ Some r
            → dirs_in self.new ≡ insert (dirs_in self.old) dir (record r { value = value }) }
    {
        let Some(kept) = self.kept.get_mut(&dir) else {
            return;
        };
        kept.value = value;
    }

    /// Gives a directory that has a record this one.
    fn replace(&mut self, dir: Gfid, new: DirRecord)
        requires { IsSome (get (dirs_in self.old) dir) }
        ensures { dirs_in self.new ≡ insert (dirs_in self.old) dir new }
    {
        let Some(kept) = self.kept.get_mut(&dir) else {
            return;
        };
        *kept = new;
    }

    /// Takes the record of a directory away, if it has one.
    pub(crate) fn remove(&mut self, dir: Gfid)
        ensures { dirs_in self.new ≡ remove (dirs_in self.old) dir }
    {
        self.kept.remove(&dir);
    }

    /// The least gfid of a directory above one, or the first.
    pub(crate) fn next(&self, after: Option<Gfid>) -> Option<Gfid>
        ensures { result ≡ key_above (dirs_in self.now) after }
    {
        let (dir, _) = self
            .kept
            .range((gfids_from(after), Bound::Unbounded))
            .next()?;
        Some(*dir)
    }

    /// Appends a line for each record, by the directories' gfids.
    pub(crate) fn dump(
        &self,
        alloc: Global,
        brick: BrickNo,
        out: &mut Vec<DumpLine>,
    ) -> Result<(), AllocError>
        ensures { OnOk result (out.new.items
            ≡ out.old.items ++ map (dir_line brick) (entries (dirs_in self.now))) }
    {
        for (dir, record) in &self.kept {
            out.push(DumpLine::Dir(brick, *dir, copied(alloc, &record.value)?))?;
        }
        Ok(())
    }
}
