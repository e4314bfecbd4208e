//! What a client may ask of a brick.

ghost use Rattle.std.specs.Prelude.{◌≡◌};
ghost use Rattle.dht_brick.specs.Kinds.{kind_of, name_kind, file_kind, row_of};
ghost use Rattle.dht_brick.specs.Named.{key_named, name_named, file_named, file_of, named, change_span, file_span, span};

use dht_guard::FileRow;
use dht_types::bytes::Bytes;
use dht_types::identifiers::{BrickNo, CallNo, Gfid};
use dht_types::layouts::LayoutValue;
use dht_types::lines::RequestKind;
use dht_types::linktos::LinktoValue;
use dht_types::locks::{Key, Mode};
use dht_types::names::Name;

/// A request about directories and names. Most name a slot first: a directory and a name in it. Each
/// that names a directory is refused as `Nodir` where the brick has no record of it, and then as
/// `Slot` where the slot, or the record of a file that is named, is not as the request wants it.
#[derive(Drop)]
pub enum NameRequest {
    /// What stands at a name of a directory.
    Look(Gfid, Name),
    /// Names of a directory above this one, or from the start: those that are a directory or a
    /// file, or may become one.
    Page(Gfid, Option<Name>),
    /// The record of a directory.
    Dirinfo(Gfid),
    /// Gives a directory's record this attribute, or none.
    SetLayout(Gfid, Option<LayoutValue>),
    /// Makes a directory at a name of a directory: a copy of it on this brick, with its depth and
    /// its attribute.
    MakeDir {
        dir: Gfid,
        name: Name,
        made: Gfid,
        depth: u16,
        value: Option<LayoutValue>,
    },
    /// Takes away the copy of the directory that stands at this name, if nothing stands in it.
    DropDir(Gfid, Name, Gfid),
    /// Makes a new, empty file at a name of a directory.
    Create(Gfid, Name, Gfid),
    /// Puts a linkto of this value at a name.
    MakeLinkto(Gfid, Name, LinktoValue),
    /// Takes the linkto at a name away.
    DropLinkto(Gfid, Name),
    /// Takes the name of this file away.
    Unlink(Gfid, Name, Gfid),
    /// Gives a name to this file of this brick.
    Link(Gfid, Name, Gfid),
    /// Gives a name to the first file in place of the second, both of this brick.
    LinkOver(Gfid, Name, Gfid, Gfid),
    /// Marks the name of this file: it will be that of a file on this other brick.
    Contest(Gfid, Name, Gfid, BrickNo),
    /// Takes that mark away.
    Uncontest(Gfid, Name, Gfid),
    /// Readies a name for this file of this brick.
    StandLink(Gfid, Name, Gfid),
    /// Takes that back.
    DropStandLink(Gfid, Name, Gfid),
    /// Takes the marked name of this file away, and leaves a linkto to the brick for which it was
    /// marked.
    Swap(Gfid, Name, Gfid, Bytes),
    /// Gives a name to the file for which it was readied.
    PromoteLink(Gfid, Name, Gfid),
    /// Files of this brick above this one, or from the start, that have no links.
    Orphans(Option<Gfid>),
}

/// How a writer changes the bytes of a file.
#[derive(Drop)]
pub enum Change {
    /// Writes these bytes at an offset.
    Write(u64, Bytes),
    /// Sets the length.
    Cut(u64),
}

/// A request about a file's record, which is named first. What it does in each state of the record
/// is a row of dht_guard's table.
#[derive(Drop)]
pub enum FileRequest {
    /// Bytes from an offset on, at most so many and none past the end.
    Read(Gfid, u64, u64),
    /// Writes bytes at an offset, without the lock on the file's bytes.
    Write(Gfid, u64, Bytes),
    /// Writes bytes at an offset under that lock.
    LockedWrite(Gfid, u64, Bytes),
    /// Sets the length, without the lock on the file's bytes.
    Truncate(Gfid, u64),
    /// Sets the length under that lock.
    LockedTruncate(Gfid, u64),
    /// The file's length, hops and links.
    Stat(Gfid),
    /// Says that the file is being copied to this brick.
    Mark(Gfid, BrickNo),
    /// Says that it is no longer being copied.
    Unmark(Gfid),
    /// Makes an empty copy of a file that has this name, to be copied from this brick and to have
    /// this hop; or empties the copy that is here.
    MakeStandby {
        file: Gfid,
        dir: Gfid,
        name: Name,
        source: BrickNo,
        hop: u64,
    },
    /// Changes the copy as a writer changes its source, and marks it as dirty.
    StandbyWrite(Gfid, Change),
    /// Writes bytes that were read at the source into the copy, at an offset.
    CopyWrite(Gfid, u64, Bytes),
    /// Says that the copy is no longer dirty.
    ClearDirty(Gfid),
    /// Gives the copy up, and leaves a pointer to its source.
    DropStandby(Gfid),
    /// Gives the file up to the brick to which it was copied: at its name, which is given, a linkto
    /// to that brick is left, and of its record a pointer.
    Demote(Gfid, Gfid, Name),
    /// Makes the copy of this hop the file, at its name.
    Promote(Gfid, u64),
    /// Takes away the record of a file that has no links.
    Drop(Gfid),
}

/// A request to a brick.
#[derive(Drop)]
pub enum Request {
    /// To hold a lock.
    Lock(Key, Mode),
    /// To hold it no longer.
    Unlock(Key),
    /// Registers a file as opened by this call of this client.
    Register(Gfid),
    /// Takes back the registration of a file by a call of this client.
    Unregister(Gfid, CallNo),
    /// Seals a file: it can be registered no more.
    Seal(Gfid),
    /// About directories and names.
    OnNames(NameRequest),
    /// About a file's record.
    OnFile(FileRequest),
}

impl Request {
    /// Its kind.
    pub fn kind(&self) -> RequestKind
        ensures { result ≡ kind_of self.now }
    {
        match self {
            Request::Lock(_, _) => RequestKind::Lock,
            Request::Unlock(_) => RequestKind::Unlock,
            Request::Register(_) => RequestKind::Register,
            Request::Unregister(_, _) => RequestKind::Unregister,
            Request::Seal(_) => RequestKind::Seal,
            Request::OnNames(request) => request.kind(),
            Request::OnFile(request) => request.kind(),
        }
    }

    /// The slot, lock, directory or file that it names. Where it names no name the name is empty,
    /// and where it names nothing the gfid is 0.
    pub fn names(&self) -> (Gfid, Name)
        ensures { result ≡ named self.now }
    {
        match self {
            Request::Lock(key, _) | Request::Unlock(key) => key_names(key),
            Request::Register(file) | Request::Unregister(file, _) | Request::Seal(file) => {
                (*file, Name::of(&[]))
            }
            Request::OnNames(request) => request.names(),
            Request::OnFile(request) => request.names(),
        }
    }

    /// The offset and the length of the bytes that it reads or writes. A length that it sets counts
    /// as one from 0.
    pub fn span(&self) -> (u64, u64)
        ensures { result ≡ span self.now }
    {
        match self {
            Request::OnFile(request) => request.span(),
            _ => (0, 0),
        }
    }
}

impl NameRequest {
    /// Its kind.
    pub fn kind(&self) -> RequestKind
        ensures { result ≡ name_kind self.now }
    {
        match self {
            NameRequest::Look(_, _) => RequestKind::Look,
            NameRequest::Page(_, _) => RequestKind::Page,
            NameRequest::Dirinfo(_) => RequestKind::Dirinfo,
            NameRequest::SetLayout(_, _) => RequestKind::SetLayout,
            NameRequest::MakeDir { .. } => RequestKind::MakeDir,
            NameRequest::DropDir(_, _, _) => RequestKind::DropDir,
            NameRequest::Create(_, _, _) => RequestKind::Create,
            NameRequest::MakeLinkto(_, _, _) => RequestKind::MakeLinkto,
            NameRequest::DropLinkto(_, _) => RequestKind::DropLinkto,
            NameRequest::Unlink(_, _, _) => RequestKind::Unlink,
            NameRequest::Link(_, _, _) => RequestKind::Link,
            NameRequest::LinkOver(_, _, _, _) => RequestKind::LinkOver,
            NameRequest::Contest(_, _, _, _) => RequestKind::Contest,
            NameRequest::Uncontest(_, _, _) => RequestKind::Uncontest,
            NameRequest::StandLink(_, _, _) => RequestKind::StandLink,
            NameRequest::DropStandLink(_, _, _) => RequestKind::DropStandLink,
            NameRequest::Swap(_, _, _, _) => RequestKind::Swap,
            NameRequest::PromoteLink(_, _, _) => RequestKind::PromoteLink,
            NameRequest::Orphans(_) => RequestKind::Orphans,
        }
    }

    /// The slot or directory that it names, as [`Request::names`] gives it.
    pub fn names(&self) -> (Gfid, Name)
        ensures { result ≡ name_named self.now }
    {
        match self {
            NameRequest::Look(dir, name)
            | NameRequest::MakeDir { dir, name, .. }
            | NameRequest::DropDir(dir, name, _)
            | NameRequest::Create(dir, name, _)
            | NameRequest::MakeLinkto(dir, name, _)
            | NameRequest::DropLinkto(dir, name)
            | NameRequest::Unlink(dir, name, _)
            | NameRequest::Link(dir, name, _)
            | NameRequest::LinkOver(dir, name, _, _)
            | NameRequest::Contest(dir, name, _, _)
            | NameRequest::Uncontest(dir, name, _)
            | NameRequest::StandLink(dir, name, _)
            | NameRequest::DropStandLink(dir, name, _)
            | NameRequest::Swap(dir, name, _, _)
            | NameRequest::PromoteLink(dir, name, _) => (*dir, *name),
            NameRequest::Page(dir, _)
            | NameRequest::Dirinfo(dir)
            | NameRequest::SetLayout(dir, _) => (*dir, Name::of(&[])),
            NameRequest::Orphans(_) => (Gfid(0), Name::of(&[])),
        }
    }
}

impl Change {
    /// The offset and the length of the bytes that it writes. A length that it sets counts as one
    /// from 0.
    pub fn span(&self) -> (u64, u64)
        ensures { result ≡ change_span self.now }
    {
        match self {
            Change::Write(offset, bytes) => (*offset, bytes.as_slice().len() as u64),
            Change::Cut(length) => (0, *length),
        }
    }
}

impl FileRequest {
    /// Its kind.
    pub fn kind(&self) -> RequestKind
        ensures { result ≡ file_kind self.now }
    {
        match self {
            FileRequest::Read(_, _, _) => RequestKind::Read,
            FileRequest::Write(_, _, _) => RequestKind::Write,
            FileRequest::LockedWrite(_, _, _) => RequestKind::LockedWrite,
            FileRequest::Truncate(_, _) => RequestKind::Truncate,
            FileRequest::LockedTruncate(_, _) => RequestKind::LockedTruncate,
            FileRequest::Stat(_) => RequestKind::Stat,
            FileRequest::Mark(_, _) => RequestKind::Mark,
            FileRequest::Unmark(_) => RequestKind::Unmark,
            FileRequest::MakeStandby { .. } => RequestKind::MakeStandby,
            FileRequest::StandbyWrite(_, _) => RequestKind::StandbyWrite,
            FileRequest::CopyWrite(_, _, _) => RequestKind::CopyWrite,
            FileRequest::ClearDirty(_) => RequestKind::ClearDirty,
            FileRequest::DropStandby(_) => RequestKind::DropStandby,
            FileRequest::Demote(_, _, _) => RequestKind::Demote,
            FileRequest::Promote(_, _) => RequestKind::Promote,
            FileRequest::Drop(_) => RequestKind::Drop,
        }
    }

    /// Its row in dht_guard's table.
    pub fn row(&self) -> FileRow
        ensures { result ≡ row_of self.now }
    {
        match self {
            FileRequest::Read(_, _, _) => FileRow::Read,
            FileRequest::Write(_, _, _) => FileRow::Write,
            FileRequest::LockedWrite(_, _, _) => FileRow::LockedWrite,
            FileRequest::Truncate(_, _) => FileRow::Truncate,
            FileRequest::LockedTruncate(_, _) => FileRow::LockedTruncate,
            FileRequest::Stat(_) => FileRow::Stat,
            FileRequest::Mark(_, _) => FileRow::Mark,
            FileRequest::Unmark(_) => FileRow::Unmark,
            FileRequest::MakeStandby { .. } => FileRow::MakeStandby,
            FileRequest::StandbyWrite(_, _) => FileRow::StandbyWrite,
            FileRequest::CopyWrite(_, _, _) => FileRow::CopyWrite,
            FileRequest::ClearDirty(_) => FileRow::ClearDirty,
            FileRequest::DropStandby(_) => FileRow::DropStandby,
            FileRequest::Demote(_, _, _) => FileRow::Demote,
            FileRequest::Promote(_, _) => FileRow::Promote,
            FileRequest::Drop(_) => FileRow::Drop,
        }
    }

    /// The file that it names.
    pub fn file(&self) -> Gfid
        ensures { result ≡ file_of self.now }
    {
        match self {
            FileRequest::Read(file, _, _)
            | FileRequest::Write(file, _, _)
            | FileRequest::LockedWrite(file, _, _)
            | FileRequest::Truncate(file, _)
            | FileRequest::LockedTruncate(file, _)
            | FileRequest::Stat(file)
            | FileRequest::Mark(file, _)
            | FileRequest::Unmark(file)
            | FileRequest::MakeStandby { file, .. }
            | FileRequest::StandbyWrite(file, _)
            | FileRequest::CopyWrite(file, _, _)
            | FileRequest::ClearDirty(file)
            | FileRequest::DropStandby(file)
            | FileRequest::Demote(file, _, _)
            | FileRequest::Promote(file, _)
            | FileRequest::Drop(file) => *file,
        }
    }

    /// The slot or file that it names, as [`Request::names`] gives it.
    pub fn names(&self) -> (Gfid, Name)
        ensures { result ≡ file_named self.now }
    {
        match self {
            FileRequest::MakeStandby { dir, name, .. } | FileRequest::Demote(_, dir, name) => {
                (*dir, *name)
            }
            request => (request.file(), Name::of(&[])),
        }
    }

    /// The offset and the length of the bytes that it reads or writes, as [`Request::span`] gives
    /// them.
    pub fn span(&self) -> (u64, u64)
        ensures { result ≡ file_span self.now }
    {
        match self {
            FileRequest::Read(_, offset, size) => (*offset, *size),
            FileRequest::Write(_, offset, bytes)
            | FileRequest::LockedWrite(_, offset, bytes)
            | FileRequest::CopyWrite(_, offset, bytes) => (*offset, bytes.as_slice().len() as u64),
            FileRequest::Truncate(_, size) | FileRequest::LockedTruncate(_, size) => (0, *size),
            FileRequest::StandbyWrite(_, change) => change.span(),
            _ => (0, 0),
        }
    }
}

/// What the key of a lock names, as [`Request::names`] gives it.
fn key_names(key: &Key) -> (Gfid, Name)
    ensures { result ≡ key_named key.now }
{
    match *key {
        Key::Rebalance => (Gfid(0), Name::of(&[])),
        Key::Dir(gfid) | Key::Content(gfid) => (gfid, Name::of(&[])),
        Key::Entry(dir, name) => (dir, name),
    }
}
