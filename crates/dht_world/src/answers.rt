//! What calls answered, by their numbers: the first call's answer stands first.

ghost use Rattle.std.specs.Prelude.{◌≡◌, ◌-◌, ◌≤◌, ◌<◌, true, is_some, Some, None, [], ◌∷◌, ◌++◌, IfOk, OnOk, OnErr, vec_len, slice_set};
ghost use Rattle.dht_types.specs.Calls.{named_call, named_gfid};
ghost use Rattle.dht_types.specs.History.{gfid_in};
ghost use Rattle.dht_world.specs.Answers.{answered_in};
ghost use Rattle.dht_world.specs.Following.{answer_cause};

use dht_types::calls::{Answer, Call};
use dht_types::events::Directory;
use dht_types::identifiers::{CallNo, Gfid};
use dht_types::lines::Cause;
use std::alloc::{AllocError, Global};

/// The file or directory that an answer names.
fn gfid_in(answer: &Answer) -> Option<Gfid>
    ensures { result ≡ gfid_in answer.now }
{
    match answer {
        Answer::File(file) | Answer::Made(file) => Some(*file),
        Answer::Dir(dir) => Some(*dir),
        Answer::Done | Answer::Fault(_) => None,
    }
}

/// Keeps what the answer of this call names.
pub fn keep_answer(answers: &mut Vec<Option<Gfid>>, call: CallNo, answer: &Answer)
    requires from_one { 0 < call.0 }
    requires there { call.0 ≤ vec_len answers.old }
    ensures { answers.new.items
        ≡ slice_set answers.old.items (call.0 - 1) (gfid_in answer.now) }
{
    answers[(call.0 - 1) as usize] = gfid_in(answer);
}

/// The file or directory that the call of this number answered.
fn answer_of(answers: &[Option<Gfid>], call: u64) -> Option<Gfid>
    ensures { result ≡ answered_in answers.now call }
{
    if call == 0 {
        return None;
    }
    match answers.get((call - 1) as usize) {
        Some(answer) => *answer,
        None => None,
    }
}

/// The gfid of a directory that a schedule names.
fn named_gfid(answers: &[Option<Gfid>], directory: Directory) -> Option<Gfid>
    ensures { result ≡ named_gfid (answered_in answers.now) directory }
{
    match directory {
        Directory::Root => Some(Gfid::ROOT),
        Directory::OfCall(call) => answer_of(answers, call),
        Directory::Gfid(gfid) => Some(gfid),
    }
}

/// Why a call is refused whose client may call: it names its directory by the answer of a call that
/// has answered none.
pub fn answer_cause(answers: &[Option<Gfid>], what: &Call<Directory>) -> Option<Cause>
    ensures { result ≡ answer_cause (named_call (answered_in answers.now) what.now) }
{
    match named_gfid(answers, what.directory()) {
        Some(_) => None,
        None => Some(Cause::Answer),
    }
}

/// The call that a schedule names, with its directory's gfid, once there is a place for its answer.
pub fn admit(
    alloc: Global,
    answers: &mut Vec<Option<Gfid>>,
    what: &Call<Directory>,
) -> Result<Call<Gfid>, AllocError>
    requires named { is_some (named_call (answered_in answers.old.items) what.now) ≡ true }
    ensures call { IfOk result (λ call.
        named_call (answered_in answers.old.items) what.now ≡ Some call) }
    ensures ok { OnOk result (answers.new.items ≡ answers.old.items ++ None ∷ []) }
    ensures err { OnErr result (answers.new.items ≡ answers.old.items) }
{
    let Some(directory) = named_gfid(answers, what.directory()) else {
        unreachable!()
    };
    let call = what.in_directory(alloc, directory)?;
    answers.push(None)?;
    Ok(call)
}
