//! What a brick keeps of directories, names and files.

use super::bytes::Bytes;
use super::identifiers::{BrickNo, Gfid};
use super::names::{EntryKey, Name};

/// A brick's record of a directory.
#[derive(Drop)]
pub struct DirRecord {
    /// The directory above it and its name there. The root alone has none.
    pub place: Option<EntryKey>,
    /// How many names lead to it from the root.
    pub depth: u16,
    /// Its attribute `trusted.glusterfs.dht`, if it has one: its range of hashes on this brick.
    pub value: Option<Bytes>,
}

/// The main part of a slot: what a name stands for.
#[derive(Drop)]
pub enum Main {
    /// This directory.
    Dir(Gfid),
    /// This file, which is on this brick. Where there is a brick too, a rename is under way by
    /// which the name will be that of a file on that brick.
    File(Gfid, Option<BrickNo>),
    /// A linkto file, as GlusterFS has it: its value, the attribute `trusted.glusterfs.dht.linkto`,
    /// names the brick where the file is.
    Linkto(Bytes),
}

/// The standby part of a slot: a file that the name may be given to.
#[derive(Clone, Copy, PartialEq, Eq)]
pub enum Standby {
    /// A file of this brick, to which a rename gives the name.
    StandLink(Gfid),
    /// The copy of a file that is moved to this brick.
    Copy(Gfid),
}

/// What a brick has at a name of a directory. A slot with neither part is not kept.
#[derive(Drop)]
pub struct Slot {
    /// What the name stands for, if anything.
    pub main: Option<Main>,
    /// What the name may be given to, if anything.
    pub standby: Option<Standby>,
}

/// The copy of a file that is being moved, as the brick keeps it to which the file is moved.
#[derive(Drop)]
pub struct StandbyRecord {
    /// How often the file will have been moved.
    pub hop: u64,
    /// The brick that it is copied from.
    pub source: BrickNo,
    /// Whether a writer has changed the copy and not yet said that the source was changed too.
    pub is_dirty: bool,
    /// The directory of the file's name.
    pub dir: Gfid,
    /// The file's name in it.
    pub name: Name,
    /// The bytes that were copied so far.
    pub bytes: Bytes,
}

/// A brick's record of a file.
#[derive(Drop)]
pub enum Record {
    /// The file: how often it was moved, and its bytes.
    Live(u64, Bytes),
    /// The file while it is copied to another brick: how often it was moved, that brick, and its
    /// bytes.
    Moving(u64, BrickNo, Bytes),
    /// A copy of it.
    Standby(StandbyRecord),
    /// That the file was moved on: how often it had been moved then, and the brick that it went to.
    Forward(u64, BrickNo),
}
