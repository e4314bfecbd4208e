//! Requests in words: the kind as transcripts have it, and then what the request names.

ghost use Rattle.std.specs.Prelude.{◌≡◌, IfSome};
ghost use Rattle.dht_brick.specs.Within.{MayBeSent, NameMayBeSent, FileMayBeSent};

use crate::words::Words;
use dht_brick::requests::{Change, FileRequest, NameRequest, Request};
use dht_types::identifiers::CallNo;

/// The request of this kind that the words name, if it is a kind of request. It may be sent to a
/// brick of the volume.
pub(crate) fn request(kind: &str, words: &mut Words<'_>) -> Option<Request>
    ensures same { words.new.bricks ≡ words.old.bricks }
    ensures may { IfSome result (MayBeSent words.old.bricks) }
{
    if let Some(request) = on_directories(kind, words) {
        return Some(Request::OnNames(request));
    }
    if let Some(request) = on_names(kind, words) {
        return Some(Request::OnNames(request));
    }
    if let Some(request) = on_files(kind, words) {
        return Some(Request::OnFile(request));
    }
    if let Some(request) = on_copies(kind, words) {
        return Some(Request::OnFile(request));
    }
    Some(match kind {
        "lock" => Request::Lock(words.key(), words.mode()),
        "unlock" => Request::Unlock(words.key()),
        "register" => Request::Register(words.gfid()),
        "unregister" => Request::Unregister(words.gfid(), CallNo(words.number())),
        "seal" => Request::Seal(words.gfid()),
        _ => return None,
    })
}

/// A request about what a brick has of a directory, or of files without links.
fn on_directories(kind: &str, words: &mut Words<'_>) -> Option<NameRequest>
    ensures same { words.new.bricks ≡ words.old.bricks }
    ensures may { IfSome result (NameMayBeSent words.old.bricks) }
{
    Some(match kind {
        "look" => NameRequest::Look(words.gfid(), words.name()),
        "page" => NameRequest::Page(words.gfid(), None),
        "pageafter" => NameRequest::Page(words.gfid(), Some(words.name())),
        "dirinfo" => NameRequest::Dirinfo(words.gfid()),
        "setlayout" => NameRequest::SetLayout(words.gfid(), words.layout()),
        "mkdir" => NameRequest::MakeDir {
            dir: words.gfid(),
            name: words.name(),
            made: words.made(),
            depth: words.short(),
            value: words.layout(),
        },
        "orphans" => NameRequest::Orphans(None),
        "orphansafter" => NameRequest::Orphans(Some(words.gfid())),
        _ => return None,
    })
}

/// A request about a name: a directory, the name in it, and mostly a directory or file of the name.
fn on_names(kind: &str, words: &mut Words<'_>) -> Option<NameRequest>
    ensures same { words.new.bricks ≡ words.old.bricks }
    ensures may { IfSome result (NameMayBeSent words.old.bricks) }
{
    Some(match kind {
        "mklinkto" => NameRequest::MakeLinkto(words.gfid(), words.name(), words.linkto()),
        "droplinkto" => NameRequest::DropLinkto(words.gfid(), words.name()),
        "dropdir" => NameRequest::DropDir(words.gfid(), words.name(), words.gfid()),
        "create" => NameRequest::Create(words.gfid(), words.name(), words.gfid()),
        "unlink" => NameRequest::Unlink(words.gfid(), words.name(), words.gfid()),
        "link" => NameRequest::Link(words.gfid(), words.name(), words.gfid()),
        "uncontest" => NameRequest::Uncontest(words.gfid(), words.name(), words.gfid()),
        "standlink" => NameRequest::StandLink(words.gfid(), words.name(), words.gfid()),
        "dropstandlink" => NameRequest::DropStandLink(words.gfid(), words.name(), words.gfid()),
        "promotelink" => NameRequest::PromoteLink(words.gfid(), words.name(), words.gfid()),
        "linkover" => {
            NameRequest::LinkOver(words.gfid(), words.name(), words.gfid(), words.gfid())
        }
        "contest" => {
            NameRequest::Contest(words.gfid(), words.name(), words.gfid(), words.brick())
        }
        "swap" => NameRequest::Swap(words.gfid(), words.name(), words.gfid(), words.bytes()),
        _ => return None,
    })
}

/// A request about a file of which the brick has the bytes.
fn on_files(kind: &str, words: &mut Words<'_>) -> Option<FileRequest>
    ensures same { words.new.bricks ≡ words.old.bricks }
    ensures may { IfSome result (FileMayBeSent words.old.bricks) }
{
    Some(match kind {
        "read" => FileRequest::Read(words.gfid(), words.number(), words.number()),
        "write" => FileRequest::Write(words.gfid(), words.number(), words.bytes()),
        "lwrite" => FileRequest::LockedWrite(words.gfid(), words.number(), words.bytes()),
        "truncate" => FileRequest::Truncate(words.gfid(), words.number()),
        "ltruncate" => FileRequest::LockedTruncate(words.gfid(), words.number()),
        "stat" => FileRequest::Stat(words.gfid()),
        "mark" => FileRequest::Mark(words.gfid(), words.brick()),
        "unmark" => FileRequest::Unmark(words.gfid()),
        "demote" => FileRequest::Demote(words.gfid(), words.gfid(), words.name()),
        "drop" => FileRequest::Drop(words.gfid()),
        _ => return None,
    })
}

/// A request about the copy of a file that is moved here.
fn on_copies(kind: &str, words: &mut Words<'_>) -> Option<FileRequest>
    ensures same { words.new.bricks ≡ words.old.bricks }
    ensures may { IfSome result (FileMayBeSent words.old.bricks) }
{
    Some(match kind {
        "mkstandby" => FileRequest::MakeStandby {
            file: words.gfid(),
            dir: words.gfid(),
            name: words.name(),
            source: words.brick(),
            hop: words.number(),
        },
        "standbywrite" => {
            let file = words.gfid();
            let change = Change::Write(words.number(), words.bytes());
            FileRequest::StandbyWrite(file, change)
        }
        "standbycut" => FileRequest::StandbyWrite(words.gfid(), Change::Cut(words.number())),
        "copywrite" => FileRequest::CopyWrite(words.gfid(), words.number(), words.bytes()),
        "cleardirty" => FileRequest::ClearDirty(words.gfid()),
        "dropstandby" => FileRequest::DropStandby(words.gfid()),
        "promote" => FileRequest::Promote(words.gfid(), words.number()),
        _ => return None,
    })
}
