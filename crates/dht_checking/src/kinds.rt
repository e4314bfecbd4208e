//! The words of requests, replies, errors and causes.

use dht_types::errors::Errno;
use dht_types::lines::{Cause, Refusal, ReplyKind, RequestKind};

/// The word of each kind of request.
pub const REQUESTS: [(&str, RequestKind); 40] = [
    ("lock", RequestKind::Lock),
    ("unlock", RequestKind::Unlock),
    ("register", RequestKind::Register),
    ("unregister", RequestKind::Unregister),
    ("seal", RequestKind::Seal),
    ("look", RequestKind::Look),
    ("page", RequestKind::Page),
    ("dirinfo", RequestKind::Dirinfo),
    ("setlayout", RequestKind::SetLayout),
    ("mkdir", RequestKind::MakeDir),
    ("dropdir", RequestKind::DropDir),
    ("create", RequestKind::Create),
    ("mklinkto", RequestKind::MakeLinkto),
    ("droplinkto", RequestKind::DropLinkto),
    ("unlink", RequestKind::Unlink),
    ("link", RequestKind::Link),
    ("linkover", RequestKind::LinkOver),
    ("contest", RequestKind::Contest),
    ("uncontest", RequestKind::Uncontest),
    ("standlink", RequestKind::StandLink),
    ("dropstandlink", RequestKind::DropStandLink),
    ("swap", RequestKind::Swap),
    ("promotelink", RequestKind::PromoteLink),
    ("orphans", RequestKind::Orphans),
    ("read", RequestKind::Read),
    ("write", RequestKind::Write),
    ("lwrite", RequestKind::LockedWrite),
    ("truncate", RequestKind::Truncate),
    ("ltruncate", RequestKind::LockedTruncate),
    ("stat", RequestKind::Stat),
    ("mark", RequestKind::Mark),
    ("unmark", RequestKind::Unmark),
    ("mkstandby", RequestKind::MakeStandby),
    ("standbywrite", RequestKind::StandbyWrite),
    ("copywrite", RequestKind::CopyWrite),
    ("cleardirty", RequestKind::ClearDirty),
    ("dropstandby", RequestKind::DropStandby),
    ("demote", RequestKind::Demote),
    ("promote", RequestKind::Promote),
    ("drop", RequestKind::Drop),
];

/// The word of each kind of reply.
pub const REPLIES: [(&str, ReplyKind); 17] = [
    ("ok", ReplyKind::Ok),
    ("refused:nodir", ReplyKind::Refused(Refusal::Nodir)),
    ("refused:slot", ReplyKind::Refused(Refusal::Slot)),
    ("refused:notempty", ReplyKind::Refused(Refusal::NotEmpty)),
    ("refused:absent", ReplyKind::Refused(Refusal::Absent)),
    ("refused:live", ReplyKind::Refused(Refusal::Live)),
    ("refused:moving", ReplyKind::Refused(Refusal::Moving)),
    ("refused:standby", ReplyKind::Refused(Refusal::Standby)),
    ("refused:forward", ReplyKind::Refused(Refusal::Forward)),
    ("refused:links", ReplyKind::Refused(Refusal::Links)),
    ("refused:dirty", ReplyKind::Refused(Refusal::Dirty)),
    ("refused:sealed", ReplyKind::Refused(Refusal::Sealed)),
    ("refused:open", ReplyKind::Refused(Refusal::Open)),
    ("wait", ReplyKind::Wait),
    ("down", ReplyKind::Down),
    ("failed", ReplyKind::Failed),
    ("nomem", ReplyKind::NoMemory),
];

/// The word of each error of a call.
pub const ERRORS: [(&str, Errno); 11] = [
    ("enoent", Errno::Enoent),
    ("enomem", Errno::Enomem),
    ("eexist", Errno::Eexist),
    ("einval", Errno::Einval),
    ("enametoolong", Errno::Enametoolong),
    ("enotdir", Errno::Enotdir),
    ("eisdir", Errno::Eisdir),
    ("enotempty", Errno::Enotempty),
    ("estale", Errno::Estale),
    ("enotconn", Errno::Enotconn),
    ("eio", Errno::Eio),
];

/// The word of each cause for which an event is refused.
pub const CAUSES: [(&str, Cause); 7] = [
    ("unknown", Cause::Unknown),
    ("dead", Cause::Dead),
    ("busy", Cause::Busy),
    ("idle", Cause::Idle),
    ("answer", Cause::Answer),
    ("open", Cause::Open),
    ("fewer", Cause::Fewer),
];

/// What a word stands for in a table of words.
pub fn meaning<T: Copy>(table: &[(&str, T)], word: &str) -> Option<T> {
    for (spelled, meant) in table {
        if *spelled == word {
            return Some(*meant);
        }
    }
    None
}
