//! `Legal`: whether a line may come next.

use crate::history::{
    Deed, Running, bricks, call_running, calls, is_dead, is_quiet, line_due, line_owed, run,
    was_replied,
};
use crate::trees::{
    Node, Said, Told, has_file, is_directory, is_empty, is_shallow, made_in, node_at, says, slot_of,
};
use crate::verdict::{Definition, require};
use dht_types::calls::{Answer, Call, TreeStep};
use dht_types::errors::Errno;
use dht_types::identifiers::{BrickNo, CallNo, ClientNo, Gfid};
use dht_types::lines::{Line, ReplyKind, RequestKind};

fn is_same_step(told: &Told<'_>, step: &TreeStep) -> bool {
    match (*told, step) {
        (Told::AddFile(directory, name, file), TreeStep::AddFile(at, called, made)) => {
            directory == *at && name == called.as_bytes() && file == *made
        }
        (Told::AddDir(directory, name, dir), TreeStep::AddDir(at, called, made)) => {
            directory == *at && name == called.as_bytes() && dir == *made
        }
        (Told::RemoveFile(directory, name), TreeStep::RemoveFile(at, called)) => {
            directory == *at && name == called.as_bytes()
        }
        (Told::RemoveDir(directory, name), TreeStep::RemoveDir(at, called)) => {
            directory == *at && name == called.as_bytes()
        }
        _ => false,
    }
}

fn is_same_answer(a: &Answer, b: &Answer) -> bool {
    match (a, b) {
        (Answer::File(a), Answer::File(b)) => *a == *b,
        (Answer::Dir(a), Answer::Dir(b)) => *a == *b,
        (Answer::Made(a), Answer::Made(b)) => *a == *b,
        (Answer::Done, Answer::Done) => true,
        (Answer::Fault(a), Answer::Fault(b)) => *a == *b,
        _ => false,
    }
}

/// `IsIn`: a client's call, if it is the one of this number.
fn is_in<'a>(past: &'a [Line], client: ClientNo, number: CallNo) -> Option<Running<'a>> {
    match call_running(past, u64::from(client.0)) {
        Some(running) if running.number == number => Some(running),
        _ => None,
    }
}

/// `IsOf`: whether a tree step is of the kind that a request stands for.
fn is_of(request: RequestKind, step: &TreeStep) -> bool {
    match (request, step) {
        (RequestKind::Create, TreeStep::AddFile(_, _, _)) => true,
        (RequestKind::Unlink, TreeStep::RemoveFile(_, _)) => true,
        (RequestKind::MakeDir, TreeStep::AddDir(_, _, _)) => true,
        (RequestKind::DropDir, TreeStep::RemoveDir(_, _)) => true,
        _ => false,
    }
}

/// `IsAtHome`: whether a directory is made or taken away where its home makes or drops its copy.
fn is_at_home(past: &[Line], brick: BrickNo, step: &TreeStep) -> bool {
    match step {
        TreeStep::AddFile(_, _, _) | TreeStep::RemoveFile(_, _) => true,
        TreeStep::AddDir(_, _, made) => made.home() == brick,
        TreeStep::RemoveDir(directory, name) => {
            match node_at(past, *directory, name.as_bytes()) {
                Some(Node::Dir(dir)) => dir.home() == brick,
                _ => true,
            }
        }
    }
}

/// `IsNext`: whether a step is the next that a call is to do. No call does a second step.
fn is_next(past: &[Line], running: &Running<'_>, step: &TreeStep) -> bool {
    match (running.first, says(past, running.call, made_in(step))) {
        (None, Said::Do(next, _)) => is_same_step(&next, step),
        _ => false,
    }
}

/// `Fits`: whether a step can be done.
fn fits(past: &[Line], step: &TreeStep) -> bool {
    let (directory, name) = slot_of(step);
    match (step, node_at(past, directory, name)) {
        (TreeStep::AddFile(_, _, file), None) => {
            is_directory(past, directory) && !has_file(past, *file)
        }
        (TreeStep::AddDir(_, _, made), None) => {
            let is_new = !is_directory(past, *made);
            is_directory(past, directory) && is_shallow(past, directory) && is_new
        }
        (TreeStep::RemoveFile(_, _), Some(Node::File(_))) => true,
        (TreeStep::RemoveDir(_, _), Some(Node::Dir(dir))) => is_empty(past, dir),
        _ => false,
    }
}

/// `IsOwn`: whether a gfid is one that this call of this client makes in a run, with some home.
fn is_own(run: u32, client: ClientNo, number: CallNo, gfid: Gfid) -> bool {
    let home = BrickNo((gfid.0 % 0x1_0000) as u16);
    Gfid::made(run, client, number, home) == gfid
}

/// `MakesOwn`: whether the file or directory that a step makes, if it makes one, is this call's own.
fn makes_own(run: u32, client: ClientNo, number: CallNo, step: &TreeStep) -> bool {
    match step {
        TreeStep::AddFile(_, _, made) | TreeStep::AddDir(_, _, made) => {
            is_own(run, client, number, *made)
        }
        TreeStep::RemoveFile(_, _) | TreeStep::RemoveDir(_, _) => true,
    }
}

/// `refusal_at_once`: why a call with a name is refused before its first request. The name is empty, `.` or `..`,
/// or has a slash or a zero byte, or else it is too long.
pub fn refusal_at_once(call: &Call<Gfid>) -> Option<Errno> {
    let name = call.name()?;
    let is_dots = name == b".".as_slice() || name == b"..".as_slice();
    if name.is_empty() || is_dots || name.contains(&b'/') || name.contains(&0) {
        return Some(Errno::Einval);
    }
    (name.len() > 255).then_some(Errno::Enametoolong)
}

/// Whether the tree before the first of a call's steps told it to do what it did, and then to say
/// this.
fn is_answer_to(past: &[Line], running: &Running<'_>, first: &Deed<'_>, answer: &Answer) -> bool {
    let Some(front) = past.get(..first.before) else {
        return false;
    };
    match says(front, running.call, made_in(first.step)) {
        Said::Do(step, told) => {
            running.changes == 1 && is_same_step(&step, first.step) && is_same_answer(&told, answer)
        }
        _ => false,
    }
}

/// `Tells`: whether the tree says this to a call at a line: that of the first of its steps, or where
/// it did none one at which it is to do nothing.
fn tells(past: &[Line], running: &Running<'_>, point: u64, answer: &Answer) -> bool {
    match (&running.first, past.get(..point as usize)) {
        (Some(first), _) => {
            (first.before as u64).checked_add(1) == Some(point)
                && is_answer_to(past, running, first, answer)
        }
        // what a tree says without a step is the same whatever file the call would make
        (None, Some(front)) => match says(front, running.call, Gfid::ROOT) {
            Said::Refuse(errno) => is_same_answer(&Answer::Fault(errno), answer),
            Said::Say(said) => is_same_answer(&said, answer),
            Said::Do(_, _) => false,
        },
        (None, None) => false,
    }
}

/// `HasPoint`: an answer has a point within its call at which the tree says so.
fn has_point(
    past: &[Line],
    running: &Running<'_>,
    at: Option<u64>,
    answer: &Answer,
) -> Result<(), Definition> {
    let Some(point) = at else {
        return Err(Definition::HasPoint);
    };
    require(running.since <= point, Definition::HasPoint)?;
    require(point <= past.len() as u64, Definition::HasPoint)?;
    require(tells(past, running, point, answer), Definition::Tells)
}

/// `IsAtOnce`: a refusal at once is that of what the call names, and has no point.
fn is_at_once(running: &Running<'_>, at: Option<u64>, errno: Errno) -> Result<(), Definition> {
    let is_refused = refusal_at_once(running.call) == Some(errno);
    require(is_refused && at.is_none(), Definition::IsAtOnce)
}

/// `HeedsRefusal`: a call that is to be refused at once answers so.
fn heeds_refusal(running: &Running<'_>, answer: &Answer) -> Result<(), Definition> {
    let heeds = match refusal_at_once(running.call) {
        Some(errno) => is_same_answer(&Answer::Fault(errno), answer),
        None => true,
    };
    require(heeds, Definition::HeedsRefusal)
}

/// `Answers`: a call may answer so.
fn answers(
    past: &[Line],
    running: &Running<'_>,
    at: Option<u64>,
    answer: &Answer,
) -> Result<(), Definition> {
    match answer {
        Answer::Fault(Errno::Enomem) => require(at.is_none(), Definition::FaultHolds),
        Answer::Fault(Errno::Enotconn) => {
            let was_down = was_replied(past, running.number, ReplyKind::Down);
            require(at.is_none() && was_down, Definition::FaultHolds)
        }
        Answer::Fault(Errno::Eio) => {
            let has_failed = was_replied(past, running.number, ReplyKind::Failed);
            require(at.is_none() && has_failed, Definition::FaultHolds)
        }
        Answer::Fault(Errno::Einval) => is_at_once(running, at, Errno::Einval),
        // of a name that is too long, or of a directory that is too deep to have one in it
        Answer::Fault(Errno::Enametoolong) if at.is_none() => {
            is_at_once(running, at, Errno::Enametoolong)
        }
        _ => has_point(past, running, at, answer),
    }
}

/// A tree line may come next: it stands directly under the line of its request.
fn tree_follows(past: &[Line], number: CallNo, step: &TreeStep) -> Result<(), Definition> {
    let Some(owed) = line_due(past) else {
        return Err(Definition::Follows);
    };
    require(owed.call == number, Definition::Follows)?;
    require(is_of(owed.request, step), Definition::IsOf)?;
    require(is_at_home(past, owed.brick, step), Definition::IsAtHome)?;
    match is_in(past, owed.client, number) {
        Some(running) => require(is_next(past, &running, step), Definition::IsNext)?,
        None => return Err(Definition::IsIn),
    }
    require(fits(past, step), Definition::Fits)?;
    let makes_own = makes_own(run(past), owed.client, number, step);
    require(makes_own, Definition::IsOwn)
}

/// `Follows`: the line may come next.
pub fn follows(past: &[Line], line: &Line) -> Result<(), Definition> {
    if let Line::Tree(number, step) = line {
        return tree_follows(past, *number, step);
    }
    require(line_owed(past).is_none(), Definition::Follows)?;
    match line {
        Line::Volume(_) => require(past.is_empty(), Definition::Follows),
        Line::Remounted(weights) => {
            let takes_none_away = bricks(past) <= weights.as_slice().len() as u64;
            require(is_quiet(past) && takes_none_away, Definition::Follows)
        }
        Line::Called(number, client, _) => {
            let is_idle = call_running(past, u64::from(client.0)).is_none();
            let is_next = number.0 == calls(past).saturating_add(1);
            require(is_idle && is_next, Definition::Follows)
        }
        Line::Stepped(number, client, _, _, _) | Line::Waited(number, client, _, _) => {
            match is_in(past, *client, *number) {
                Some(running) => {
                    let takes_steps = refusal_at_once(running.call).is_none();
                    require(takes_steps, Definition::Follows)
                }
                None => Err(Definition::IsIn),
            }
        }
        Line::Answered(number, client, at, answer) => {
            let Some(running) = is_in(past, *client, *number) else {
                return Err(Definition::IsIn);
            };
            answers(past, &running, *at, answer)?;
            heeds_refusal(&running, answer)
        }
        Line::Died(client) => {
            let is_first = !is_dead(past, u64::from(client.0));
            require(is_first, Definition::Follows)
        }
        Line::Tree(_, _) | Line::WentDown(_) | Line::CameUp(_) | Line::Refused(_, _) => Ok(()),
    }
}
