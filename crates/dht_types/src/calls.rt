//! What a client may call, what a call answers, and the steps of the directory tree.

ghost use Rattle.std.specs.Prelude.{◌≡◌, IfOk};
ghost use Rattle.std.specs.Option.{option_copied};
ghost use Rattle.dht_types.specs.Calls.{directory_of, in_directory, name_of, refusal_at_once};

use super::bytes::Bytes;
use super::errors::Errno;
use super::identifiers::Gfid;
use super::names::Name;
use std::alloc::{AllocError, Global};

/// A call of a client, which names its directories in this way: by their gfids, or as a schedule
/// does. Its names are whatever bytes the caller gives.
#[derive(Drop)]
pub enum Call<D> {
    /// What stands at this name of this directory.
    Lookup(D, Bytes),
    /// Makes an empty file at this name of this directory.
    Create(D, Bytes),
    /// Makes an empty directory at this name of this directory.
    Mkdir(D, Bytes),
    /// Takes this name of this directory away, which is a file's.
    Unlink(D, Bytes),
    /// Takes this name of this directory away, which is an empty directory's.
    Rmdir(D, Bytes),
    /// Gives every brick its copy of this directory and of each above it, with ranges that leave no
    /// hash out and have none twice.
    Heal(D),
}

impl<D: Copy> Call<D> {
    /// The directory that the call names, or that of its name.
    pub fn directory(&self) -> D
        ensures { result ≡ directory_of self.now }
    {
        match self {
            Call::Lookup(directory, _)
            | Call::Create(directory, _)
            | Call::Mkdir(directory, _)
            | Call::Unlink(directory, _)
            | Call::Rmdir(directory, _)
            | Call::Heal(directory) => *directory,
        }
    }

    /// The call's name, if it has one.
    pub fn name(&self) -> Option<&[u8]>
        ensures { option_copied result ≡ name_of self.now }
    {
        match self {
            Call::Lookup(_, name)
            | Call::Create(_, name)
            | Call::Mkdir(_, name)
            | Call::Unlink(_, name)
            | Call::Rmdir(_, name) => Some(name.as_slice()),
            Call::Heal(_) => None,
        }
    }

    /// Why the call is refused before its first request: its name is empty, `.` or `..`, or has a
    /// `/` or a zero byte, or else more than 255 bytes.
    pub fn refusal_at_once(&self) -> Option<Errno>
        ensures { result ≡ refusal_at_once self.now }
    {
        Name::check(self.name()?).err()
    }

    /// The same call in another directory.
    pub fn in_directory<E: Copy>(&self, alloc: Global, directory: E) -> Result<Call<E>, AllocError>
        ensures { IfOk result (λ call. call ≡ in_directory self.now directory) }
    {
        Ok(match self {
            Call::Lookup(_, name) => Call::Lookup(directory, name.copied(alloc)?),
            Call::Create(_, name) => Call::Create(directory, name.copied(alloc)?),
            Call::Mkdir(_, name) => Call::Mkdir(directory, name.copied(alloc)?),
            Call::Unlink(_, name) => Call::Unlink(directory, name.copied(alloc)?),
            Call::Rmdir(_, name) => Call::Rmdir(directory, name.copied(alloc)?),
            Call::Heal(_) => Call::Heal(directory),
        })
    }
}

/// What a call answers.
#[derive(Clone, Copy)]
pub enum Answer {
    /// The name is this file's.
    File(Gfid),
    /// The name is this directory's.
    Dir(Gfid),
    /// This file or directory was made.
    Made(Gfid),
    /// It is done.
    Done,
    /// The call was refused, or was cut short.
    Fault(Errno),
}

/// A step of the directory tree.
#[derive(Clone, Copy)]
pub enum TreeStep {
    /// In this directory this name is now this new, empty file's.
    AddFile(Gfid, Name, Gfid),
    /// In this directory this name is now this new, empty directory's.
    AddDir(Gfid, Name, Gfid),
    /// In this directory this name, which was a file's, stands for nothing now.
    RemoveFile(Gfid, Name),
    /// In this directory this name, which was an empty directory's, stands for nothing now, and
    /// that directory is none any more.
    RemoveDir(Gfid, Name),
}
