//! The words of calls, requests and replies.

ghost use Rattle.std.specs.Prelude.{◌≡◌, ◌++◌, codes, IsTrue};
ghost use Rattle.dht_sched.specs.Kinds.{verb_word, is_on_file, request_word, refusal_word, reply_word};

use dht_types::calls::Call;
use dht_types::lines::{Refusal, ReplyKind, RequestKind};

/// The word of a call.
pub(crate) fn verb_word<D>(call: &Call<D>) -> &'static str
    ensures { result.now ≡ verb_word call.now }
{
    match call {
        Call::Lookup(_, _) => "lookup",
        Call::Create(_, _) => "create",
        Call::Mkdir(_, _) => "mkdir",
        Call::Unlink(_, _) => "unlink",
        Call::Rmdir(_, _) => "rmdir",
        Call::Heal(_) => "heal",
    }
}

/// The word of a kind of request on a file's record.
fn file_request_word(kind: RequestKind) -> &'static str
    requires { IsTrue (is_on_file kind) }
    ensures { result.now ≡ request_word kind }
{
    match kind {
        RequestKind::Read => "read",
        RequestKind::Write => "write",
        RequestKind::LockedWrite => "lwrite",
        RequestKind::Truncate => "truncate",
        RequestKind::LockedTruncate => "ltruncate",
        RequestKind::Stat => "stat",
        RequestKind::Mark => "mark",
        RequestKind::Unmark => "unmark",
        RequestKind::MakeStandby => "mkstandby",
        RequestKind::StandbyWrite => "standbywrite",
        RequestKind::CopyWrite => "copywrite",
        RequestKind::ClearDirty => "cleardirty",
        RequestKind::DropStandby => "dropstandby",
        RequestKind::Demote => "demote",
        RequestKind::Promote => "promote",
        RequestKind::Drop => "drop",
        _ => unreachable!(),
    }
}

/// The word of a kind of request.
pub(crate) fn request_word(kind: RequestKind) -> &'static str
    ensures { result.now ≡ request_word kind }
{
    match kind {
        RequestKind::Lock => "lock",
        RequestKind::Unlock => "unlock",
        RequestKind::Register => "register",
        RequestKind::Unregister => "unregister",
        RequestKind::Seal => "seal",
        RequestKind::Look => "look",
        RequestKind::Page => "page",
        RequestKind::Dirinfo => "dirinfo",
        RequestKind::SetLayout => "setlayout",
        RequestKind::MakeDir => "mkdir",
        RequestKind::DropDir => "dropdir",
        RequestKind::Create => "create",
        RequestKind::MakeLinkto => "mklinkto",
        RequestKind::DropLinkto => "droplinkto",
        RequestKind::Unlink => "unlink",
        RequestKind::Link => "link",
        RequestKind::LinkOver => "linkover",
        RequestKind::Contest => "contest",
        RequestKind::Uncontest => "uncontest",
        RequestKind::StandLink => "standlink",
        RequestKind::DropStandLink => "dropstandlink",
        RequestKind::Swap => "swap",
        RequestKind::PromoteLink => "promotelink",
        RequestKind::Orphans => "orphans",
        _ => file_request_word(kind),
    }
}

/// The word of a refusal.
fn refusal_word(why: Refusal) -> &'static str
    ensures { result.now ≡ codes "refused:" ++ refusal_word why }
{
    match why {
        Refusal::Nodir => "refused:nodir",
        Refusal::Slot => "refused:slot",
        Refusal::NotEmpty => "refused:notempty",
        Refusal::Absent => "refused:absent",
        Refusal::Live => "refused:live",
        Refusal::Moving => "refused:moving",
        Refusal::Standby => "refused:standby",
        Refusal::Forward => "refused:forward",
        Refusal::Links => "refused:links",
        Refusal::Dirty => "refused:dirty",
        Refusal::Sealed => "refused:sealed",
        Refusal::Open => "refused:open",
    }
}

/// The word of a kind of reply.
pub(crate) fn reply_word(reply: ReplyKind) -> &'static str
    ensures { result.now ≡ reply_word reply }
{
    match reply {
        ReplyKind::Ok => "ok",
        ReplyKind::Refused(why) => refusal_word(why),
        ReplyKind::Wait => "wait",
        ReplyKind::Down => "down",
        ReplyKind::Failed => "failed",
        ReplyKind::NoMemory => "nomem",
    }
}
