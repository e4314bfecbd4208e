//! The lines of a transcript.

ghost use Rattle.std.specs.Prelude.{List};
ghost use Rattle.dht_types.specs.History.{AreTrees, LegalFrom, history_of, start};

use super::bytes::Bytes;
use super::calls::{Answer, Call, TreeStep};
use super::identifiers::{BrickNo, CallNo, ClientNo, Gfid};
use super::names::Name;
use super::stored::Slot;
use super::volumes::Weights;

/// The kind of a request to a brick.
#[derive(Clone, Copy, Debug, PartialEq, Eq)]
pub enum RequestKind {
    // locks, registrations and seals
    Lock,
    Unlock,
    Register,
    Unregister,
    Seal,
    // directories and names
    Look,
    Page,
    Dirinfo,
    SetLayout,
    MakeDir,
    DropDir,
    Create,
    MakeLinkto,
    DropLinkto,
    Unlink,
    Link,
    LinkOver,
    Contest,
    Uncontest,
    StandLink,
    DropStandLink,
    Swap,
    PromoteLink,
    Orphans,
    // files
    Read,
    Write,
    LockedWrite,
    Truncate,
    LockedTruncate,
    Stat,
    Mark,
    Unmark,
    MakeStandby,
    StandbyWrite,
    CopyWrite,
    ClearDirty,
    DropStandby,
    Demote,
    Promote,
    Drop,
}

/// Why a brick refused a request.
#[derive(Clone, Copy, PartialEq, Eq)]
pub enum Refusal {
    /// The brick has no record of the directory.
    Nodir,
    /// The slot, or a file record that the request names, is not as it has to be.
    Slot,
    /// A name stands in the directory.
    NotEmpty,
    /// The brick has no record of the file.
    Absent,
    /// The file is here.
    Live,
    /// The file is here, and is being copied to another brick.
    Moving,
    /// A copy of the file is here.
    Standby,
    /// The file was moved on to another brick.
    Forward,
    /// The file has links, or not the one that it has to have.
    Links,
    /// A writer has changed the copy.
    Dirty,
    /// The file is sealed: it can be opened no more.
    Sealed,
    /// The file is open.
    Open,
}

/// The kind of a brick's reply.
#[derive(Clone, Copy, PartialEq, Eq)]
pub enum ReplyKind {
    /// The request was carried out.
    Ok,
    /// It was refused.
    Refused(Refusal),
    /// Another client holds the lock.
    Wait,
    /// The brick is down, and nothing was done.
    Down,
    /// The brick failed, and nothing was done.
    Failed,
    /// The brick was out of memory, and nothing was done.
    NoMemory,
}

/// Why an event of a schedule was refused.
#[derive(Clone, Copy, PartialEq, Eq)]
pub enum Cause {
    /// There is no such client, or no such brick.
    Unknown,
    /// The client has died.
    Dead,
    /// The client's call is still running.
    Busy,
    /// The client has no running call.
    Idle,
    /// It names a directory by the answer of a call that has not answered a file or a directory.
    Answer,
    /// A call is running.
    Open,
    /// There would be fewer bricks.
    Fewer,
}

/// A line of a transcript that tells of an event.
#[derive(Drop)]
pub enum Line {
    /// The volume, by its bricks' weights.
    Volume(Weights),
    /// The volume was mounted anew, with these weights of its bricks; there may be more of them
    /// now.
    Remounted(Weights),
    /// A client's call was accepted.
    Called(CallNo, ClientNo, Call<Gfid>),
    /// A brick served a request of a call.
    Stepped(CallNo, ClientNo, BrickNo, RequestKind, ReplyKind),
    /// A lock that a call asked for waits for this other client, which holds it.
    Waited(CallNo, ClientNo, BrickNo, ClientNo),
    /// The request of the line above did this step of the tree.
    Tree(CallNo, TreeStep),
    /// A call answered. The number is that of the line at which the answer holds, where it has one.
    Answered(CallNo, ClientNo, Option<u64>, Answer),
    /// A brick went down.
    WentDown(BrickNo),
    /// A brick came back.
    CameUp(BrickNo),
    /// A client died, and its call, if it had one, ended without an answer.
    Died(ClientNo),
    /// The event of this line of the schedule was refused.
    Refused(u64, Cause),
}

/// What a dump tells of a file's record. A digest is the SHA-256 of the bytes.
#[derive(Clone, Copy)]
pub enum RecordLine {
    /// The file.
    Live {
        hop: u64,
        links: u64,
        length: u64,
        digest: [u8; 32],
    },
    /// The file while it is copied to another brick.
    Moving {
        hop: u64,
        links: u64,
        length: u64,
        digest: [u8; 32],
        dest: BrickNo,
    },
    /// A copy of it.
    Standby {
        hop: u64,
        source: BrickNo,
        length: u64,
        digest: [u8; 32],
        is_dirty: bool,
    },
    /// That it was moved on.
    Forward {
        brick: BrickNo,
        hop: u64,
    },
}

/// A line of what the bricks contain in the end.
#[derive(Drop)]
pub enum DumpLine {
    /// What follows is of this brick. Whether it is up.
    Brick(BrickNo, bool),
    /// A directory's record, with its attribute.
    Dir(BrickNo, Gfid, Option<Bytes>),
    /// A name of a directory, and what stands there.
    Slot(BrickNo, Gfid, Name, Slot),
    /// A file's record.
    File(BrickNo, Gfid, RecordLine),
    /// The dump is whole.
    End,
}

/// Each tree of a legal transcript is one, as `specs/Tree.antt` says: this is a law for readers of
/// the definitions, and does nothing.
pub fn each_tree_is_one()
    ensures { (lines : List Line) → LegalFrom start lines → AreTrees (history_of lines) }
{}
