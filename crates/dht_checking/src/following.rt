//! `ComesFrom` and `InTime`: whether a line comes from the event whose turn it is, and in time.

use crate::history::{
    answered, bricks, call_running, calls, is_dead, is_down, is_quiet, is_undisturbed, requests,
};
use crate::legal::refusal_at_once;
use crate::verdict::{Definition, require};
use dht_types::calls::{Answer, Call};
use dht_types::errors::Errno;
use dht_types::events::{Directory, Event};
use dht_types::identifiers::{BrickNo, ClientNo, Gfid};
use dht_types::lines::{Cause, Line, ReplyKind, RequestKind};

/// How many clients there are.
const CLIENTS: u64 = 64;

/// How many step lines and wait lines a run has at most.
const MOST_REQUESTS: u64 = 200_000;

/// Whether a line is the first of an event's lines.
fn is_head_line(line: &Line) -> bool {
    match line {
        Line::Tree(_, _) | Line::Answered(_, _, _, _) => false,
        _ => true,
    }
}

/// How many events these lines are of.
pub fn heads(past: &[Line]) -> usize {
    past.iter().filter(|line| is_head_line(line)).count()
}

/// `named_gfid`: the directory that an event names, where calls have answered what these lines tell.
fn named_gfid(past: &[Line], directory: Directory) -> Option<Gfid> {
    match directory {
        Directory::Root => Some(Gfid::ROOT),
        Directory::OfCall(number) => answered(past, number),
        Directory::Gfid(gfid) => Some(gfid),
    }
}

/// Whether a call is the one that an event names.
fn is_named(past: &[Line], call: &Call<Gfid>, event: &Call<Directory>) -> bool {
    let is_same_verb = match (call, event) {
        (Call::Lookup(_, _), Call::Lookup(_, _)) => true,
        (Call::Create(_, _), Call::Create(_, _)) => true,
        (Call::Mkdir(_, _), Call::Mkdir(_, _)) => true,
        (Call::Unlink(_, _), Call::Unlink(_, _)) => true,
        (Call::Rmdir(_, _), Call::Rmdir(_, _)) => true,
        (Call::Heal(_), Call::Heal(_)) => true,
        _ => false,
    };
    let is_same_directory = named_gfid(past, event.directory()) == Some(call.directory());
    is_same_verb && is_same_directory && call.name() == event.name()
}

/// Why it is refused to mount the volume anew with so many bricks, if it is: a call is running, or
/// there would be fewer bricks.
fn remount_cause(past: &[Line], count: u64) -> Option<Cause> {
    if !is_quiet(past) {
        return Some(Cause::Open);
    }
    (count < bricks(past)).then_some(Cause::Fewer)
}

/// The first cause for which an event is refused after these lines, if there is one.
fn cause(past: &[Line], event: &Event) -> Option<Cause> {
    let client = match event {
        Event::Volume(_) => return None,
        Event::Remount(weights) => {
            return remount_cause(past, weights.as_slice().len() as u64);
        }
        Event::Down(brick) | Event::Up(brick) => {
            return (*brick >= bricks(past)).then_some(Cause::Unknown);
        }
        Event::Call(client, _) | Event::Step(client) | Event::Die(client) => *client,
    };
    if client >= CLIENTS {
        return Some(Cause::Unknown);
    }
    if is_dead(past, client) {
        return Some(Cause::Dead);
    }
    match (event, call_running(past, client)) {
        (Event::Call(_, _), Some(_)) => Some(Cause::Busy),
        (Event::Call(_, call), None) => {
            let has_answered = named_gfid(past, call.directory()).is_some();
            (!has_answered).then_some(Cause::Answer)
        }
        (Event::Step(_), None) => Some(Cause::Idle),
        _ => None,
    }
}

/// Whether the volume has this brick.
fn is_there(past: &[Line], brick: BrickNo) -> bool {
    u64::from(brick.0) < bricks(past)
}

/// Whether a brick may reply so. It is down exactly where the lines say so, but it carries out
/// every unlock; it does not fail; and that a lock waits is told by another line.
fn may_reply(past: &[Line], brick: BrickNo, kind: RequestKind, reply: ReplyKind) -> bool {
    let may_be = match (kind, reply) {
        (_, ReplyKind::Wait | ReplyKind::Failed) => false,
        (RequestKind::Unlock, _) => reply == ReplyKind::Ok,
        (_, ReplyKind::Down) => is_down(past, brick),
        (_, ReplyKind::Ok | ReplyKind::Refused(_) | ReplyKind::NoMemory) => !is_down(past, brick),
    };
    may_be && is_there(past, brick)
}

/// Whether a lock that a client asked for may wait for this one, which holds it: it is another one,
/// in a call of its own. A brick that is down lets nobody wait.
fn may_wait(past: &[Line], client: ClientNo, brick: BrickNo, holder: ClientNo) -> bool {
    let has_call = call_running(past, u64::from(holder.0)).is_some();
    client != holder && has_call && !is_down(past, brick) && is_there(past, brick)
}

/// `IsStep`: whether the line is a step of the client's call, or tells that its lock waits.
fn is_step(past: &[Line], client: u64, line: &Line) -> Result<(), Definition> {
    let (number, who, may_be) = match line {
        Line::Stepped(number, who, brick, kind, reply) => {
            (*number, *who, may_reply(past, *brick, *kind, *reply))
        }
        Line::Waited(number, who, brick, holder) => {
            (*number, *who, may_wait(past, *who, *brick, *holder))
        }
        _ => return Err(Definition::Head),
    };
    let is_of_call = match call_running(past, client) {
        Some(running) => running.number == number && u64::from(who.0) == client,
        None => false,
    };
    require(is_of_call, Definition::Head)?;
    require(may_be, Definition::IsStep)
}

/// `Head`: whether the line is the first of the event of the schedule's line of this number.
fn is_head(past: &[Line], number: u64, event: &Event, line: &Line) -> Result<(), Definition> {
    if let Some(cause) = cause(past, event) {
        let is_refused = match line {
            Line::Refused(told, why) => *told == number && *why == cause,
            _ => false,
        };
        return require(is_refused, Definition::Head);
    }
    let is_head = match (event, line) {
        (Event::Volume(weights), Line::Volume(told))
        | (Event::Remount(weights), Line::Remounted(told)) => {
            told.as_slice() == weights.as_slice()
        }
        (Event::Call(client, call), Line::Called(nth, who, what)) => {
            nth.0 == calls(past).saturating_add(1)
                && u64::from(who.0) == *client
                && is_named(past, what, call)
        }
        (Event::Step(client), _) => return is_step(past, *client, line),
        (Event::Down(brick), Line::WentDown(told)) => u64::from(told.0) == *brick,
        (Event::Up(brick), Line::CameUp(told)) => u64::from(told.0) == *brick,
        (Event::Die(client), Line::Died(told)) => u64::from(told.0) == *client,
        _ => false,
    };
    require(is_head, Definition::Head)
}

/// The head line that came last, its number, and the lines under it.
fn last_block(past: &[Line]) -> Option<(&Line, u64, &[Line])> {
    let mut block = None;
    for (index, line) in past.iter().enumerate() {
        if is_head_line(line) {
            let number = (index as u64).saturating_add(1);
            block = Some((line, number, &past[index + 1..]));
        }
    }
    block
}

/// `refusal_at_start`: what a call answers before its first request, if it is refused then. A
/// directory whose home is no brick is none of the tree.
fn refusal_at_start(past: &[Line], call: &Call<Gfid>) -> Option<Errno> {
    let home = u64::from(call.directory().home().0);
    let is_nowhere = (home >= bricks(past)).then_some(Errno::Estale);
    refusal_at_once(call).or(is_nowhere)
}

/// Whether a call may answer so directly under its call line, of this number: with the refusal of
/// one that is refused at the start, which holds at the call line if it is that of the directory,
/// and at no line else; and a call that is not refused only that it had no memory to begin.
fn may_begin_with(
    past: &[Line],
    call: &Call<Gfid>,
    number: u64,
    at: Option<u64>,
    answer: &Answer,
) -> bool {
    let Answer::Fault(told) = answer else {
        return false;
    };
    match refusal_at_start(past, call) {
        Some(Errno::Estale) => *told == Errno::Estale && at == Some(number),
        Some(errno) => *told == errno && at.is_none(),
        None => *told == Errno::Enomem && at.is_none(),
    }
}

/// Whether all lines that have to stand under the head line that came last are there: the answer of
/// a call that is refused at the start.
pub fn is_whole(past: &[Line]) -> bool {
    match last_block(past) {
        Some((Line::Called(_, _, call), _, under)) => {
            refusal_at_start(past, call).is_none() || !under.is_empty()
        }
        _ => true,
    }
}

/// `Block`: whether the line may stand under the head line that came last. Under a step line stand
/// the tree line of its call, where there is one, and then at most one answer, of its call alone;
/// under a call line only the call's own answer, as `may_begin_with` says; and under the other head
/// lines nothing.
fn is_under(past: &[Line], line: &Line) -> bool {
    let Some((head, head_number, between)) = last_block(past) else {
        return false;
    };
    match (head, line) {
        (Line::Stepped(call, _, _, _, _), Line::Tree(number, _)) => {
            between.is_empty() && *number == *call
        }
        (Line::Stepped(call, client, _, _, _), Line::Answered(number, who, _, _)) => {
            let is_first = match between {
                [] | [Line::Tree(_, _)] => true,
                _ => false,
            };
            is_first && *number == *call && *who == *client
        }
        (Line::Called(call, client, what), Line::Answered(number, who, at, answer)) => {
            between.is_empty()
                && *number == *call
                && *who == *client
                && may_begin_with(past, what, head_number, *at, answer)
        }
        _ => false,
    }
}

/// `ComesFrom`: the line is of the event whose turn it is. It stands under the lines of one that
/// came, or is the first of the next.
pub fn comes_from(events: &[Event], past: &[Line], line: &Line) -> Result<(), Definition> {
    if !is_head_line(line) {
        return require(is_under(past, line), Definition::Block);
    }
    require(is_whole(past), Definition::Block)?;
    let count = heads(past);
    let Some(event) = events.get(count) else {
        return Err(Definition::ComesFrom);
    };
    let number = (count as u64).saturating_add(1);
    is_head(past, number, event, line)
}

/// `cost`: how many steps a call takes at most.
fn cost(bricks: u64, call: &Call<Gfid>) -> u64 {
    let (each_brick, more) = match call {
        Call::Lookup(_, _) | Call::Unlink(_, _) => (2, 10),
        Call::Create(_, _) => (263, 216),
        Call::Mkdir(_, _) => (264, 216),
        Call::Rmdir(_, _) => (5, 20),
        Call::Heal(_) => (260, 200),
    };
    bricks.saturating_mul(each_brick).saturating_add(more)
}

/// `InTime`: the line is no step of a call that has used up its cost, and no lock of the call waits,
/// where the call is alone in its span so far and nothing failed.
pub fn in_time(past: &[Line], line: &Line) -> Result<(), Definition> {
    let (Line::Stepped(_, client, _, _, _) | Line::Waited(_, client, _, _)) = line else {
        return Ok(());
    };
    let Some(running) = call_running(past, u64::from(client.0)) else {
        return Ok(());
    };
    let is_step = match line {
        Line::Stepped(_, _, _, _, _) => running.steps < cost(bricks(past), running.call),
        _ => false,
    };
    require(
        is_step || !is_undisturbed(past, &running),
        Definition::InTime,
    )
}

/// `IsWithinLimit`: the line is no step or wait line above those that a run may have.
pub fn is_within_limit(past: &[Line], line: &Line) -> Result<(), Definition> {
    let is_within = match line {
        Line::Stepped(_, _, _, _, _) | Line::Waited(_, _, _, _) => requests(past) < MOST_REQUESTS,
        _ => true,
    };
    require(is_within, Definition::IsWithinLimit)
}
