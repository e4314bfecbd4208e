//! What a brick replies.

ghost use Rattle.std.specs.Prelude.{◌≡◌};
ghost use Rattle.dht_brick.specs.Kinds.{reply_kind, refusal_of};

use dht_guard::State;
use dht_types::bytes::Bytes;
use dht_types::identifiers::{BrickNo, ClientNo, Gfid};
use dht_types::lines::{Refusal, ReplyKind};
use dht_types::names::{EntryKey, Name};
use dht_types::stored::{Slot, Standby};
use std::marker::Model;

/// What a look shows of the record of a file.
#[derive(Clone, Copy)]
pub struct FileLook {
    /// The record's state.
    pub state: State,
    /// How often the file was moved, by its record.
    pub hop: u64,
    /// Where it is being copied to, if it is.
    pub dest: Option<BrickNo>,
    /// Its links on the brick.
    pub links: u64,
}

/// What stands at a name of a directory.
#[derive(Drop)]
pub struct Look {
    /// The parts of the slot.
    pub slot: Slot,
    /// Of the file of the name, or of the one for which it was readied: its record.
    pub file: Option<FileLook>,
    /// Of the copy of a file at the name: its hop.
    pub copy: Option<u64>,
    /// The directory's attribute.
    pub value: Option<Bytes>,
}

/// What a brick has of a directory.
#[derive(Drop)]
pub struct DirInfo {
    /// The directory above it and its name there; the root alone has none.
    pub place: Option<EntryKey>,
    /// How many names lead to it from the root.
    pub depth: u16,
    /// Its attribute.
    pub value: Option<Bytes>,
    /// Whether a directory, a file or a standby stands in it here.
    pub is_occupied: bool,
}

/// What a brick has of a file.
#[derive(Clone, Copy)]
pub struct Stat {
    /// How many bytes it has.
    pub length: u64,
    /// How often it was moved.
    pub hop: u64,
    /// Its links on the brick.
    pub links: u64,
    /// Where it is being copied to, if it is.
    pub dest: Option<BrickNo>,
}

/// A name of a directory, and its directory where it is one.
#[derive(Clone, Copy)]
pub struct PageEntry {
    /// The name.
    pub name: Name,
    /// The directory of the name.
    pub dir: Option<Gfid>,
}

/// Names of a directory in their order. Contracts see a list.
#[derive(Drop)]
pub struct Page {
    each: Vec<PageEntry>,
}

impl Model for Page {
    ghost use Rattle.std.specs.Prelude.{List};
    ghost use Rattle.dht_brick.specs.declared.replies.PageEntry.{PageEntry};

    ghost Value = { List PageEntry };

    ghost view = { λ p. p.each.items };
}

impl Page {
    /// These names.
    pub fn new(each: Vec<PageEntry>) -> Page
        ensures { result ≡ each.items }
    {
        Page { each }
    }

    /// Each name.
    pub fn as_slice(&self) -> &[PageEntry]
        ensures { result.now ≡ self.now }
    {
        self.each.as_slice()
    }
}

/// Files in their order. Contracts see a list.
#[derive(Drop)]
pub struct Gfids {
    each: Vec<Gfid>,
}

impl Model for Gfids {
    ghost use Rattle.std.specs.Prelude.{List};
    ghost use Rattle.dht_types.specs.declared.identifiers.Gfid.{Gfid};

    ghost Value = { List Gfid };

    ghost view = { λ g. g.each.items };
}

impl Gfids {
    /// These files.
    pub fn new(each: Vec<Gfid>) -> Gfids
        ensures { result ≡ each.items }
    {
        Gfids { each }
    }

    /// Each file.
    pub fn as_slice(&self) -> &[Gfid]
        ensures { result.now ≡ self.now }
    {
        self.each.as_slice()
    }
}

/// What a brick gives with a request that it carried out.
#[derive(Drop)]
pub enum Given {
    /// Nothing.
    Nothing,
    /// What stands at a name.
    Look(Look),
    /// Up to 256 names.
    Page(Page),
    /// What it has of a directory.
    Dirinfo(DirInfo),
    /// How many links a file has left.
    Links(u64),
    /// How many registrations a file has left.
    Registrations(u64),
    /// Up to 256 files without links.
    Orphans(Gfids),
    /// Bytes of a file.
    Bytes(Bytes),
    /// What it has of a file.
    Stat(Stat),
}

/// The main part of a slot as a refusal shows it: without the value of a linkto.
#[derive(Clone, Copy)]
pub enum MainShown {
    Dir(Gfid),
    File(Gfid, Option<BrickNo>),
    Linkto,
}

/// The parts of a slot as a refusal shows them.
#[derive(Clone, Copy)]
pub struct SlotShown {
    pub main: Option<MainShown>,
    pub standby: Option<Standby>,
}

/// Why a brick refused a request.
#[derive(Clone, Copy)]
pub enum Why {
    /// It has no record of the directory.
    Nodir,
    /// The slot, or a file record that the request names, is not as it has to be. The slot's parts
    /// are shown.
    Slot(SlotShown),
    /// Something stands in the directory.
    NotEmpty,
    /// It has no record of the file.
    Absent,
    /// The file is here.
    Live,
    /// The file is here, and is being copied to this brick.
    Moving(BrickNo),
    /// A copy of the file is here: from this brick, and of this hop.
    Standby(BrickNo, u64),
    /// The file was moved on to this brick, and had this hop then.
    Forward(BrickNo, u64),
    /// The file has so many links.
    Links(u64),
    /// A writer has changed the copy.
    Dirty,
    /// The file is sealed.
    Sealed,
    /// The file has so many registrations.
    Open(u64),
}

/// What a brick replies.
#[derive(Drop)]
pub enum Reply {
    /// The request was carried out.
    Ok(Given),
    /// It was refused, and nothing was changed.
    Refused(Why),
    /// Another client holds the lock that was asked for, this one, and nothing was changed.
    Wait(ClientNo),
    /// The brick is down, and nothing was changed.
    Down,
    /// The brick failed, and nothing was changed.
    Failed,
    /// The brick was out of memory, and nothing was changed.
    NoMemory,
}

impl Why {
    /// Its kind.
    pub fn kind(&self) -> Refusal
        ensures { result ≡ refusal_of self.now }
    {
        match self {
            Why::Nodir => Refusal::Nodir,
            Why::Slot(_) => Refusal::Slot,
            Why::NotEmpty => Refusal::NotEmpty,
            Why::Absent => Refusal::Absent,
            Why::Live => Refusal::Live,
            Why::Moving(_) => Refusal::Moving,
            Why::Standby(_, _) => Refusal::Standby,
            Why::Forward(_, _) => Refusal::Forward,
            Why::Links(_) => Refusal::Links,
            Why::Dirty => Refusal::Dirty,
            Why::Sealed => Refusal::Sealed,
            Why::Open(_) => Refusal::Open,
        }
    }
}

impl Reply {
    /// Its kind.
    pub fn kind(&self) -> ReplyKind
        ensures { result ≡ reply_kind self.now }
    {
        match self {
            Reply::Ok(_) => ReplyKind::Ok,
            Reply::Refused(why) => ReplyKind::Refused(why.kind()),
            Reply::Wait(_) => ReplyKind::Wait,
            Reply::Down => ReplyKind::Down,
            Reply::Failed => ReplyKind::Failed,
            Reply::NoMemory => ReplyKind::NoMemory,
        }
    }
}
