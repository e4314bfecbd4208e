//! What the lines of a transcript tell. Each thing is found by looking through the lines.

use dht_types::calls::{Answer, Call, TreeStep};
use dht_types::errors::Errno;
use dht_types::identifiers::{BrickNo, CallNo, ClientNo, Gfid};
use dht_types::lines::{Line, ReplyKind, RequestKind};

/// The first tree line of a call.
#[derive(Clone, Copy)]
pub struct Deed<'a> {
    /// How many lines stand before it.
    pub before: usize,
    /// Its step.
    pub step: &'a TreeStep,
}

/// A call that has begun and not ended.
#[derive(Clone, Copy)]
pub struct Running<'a> {
    /// The call's number.
    pub number: CallNo,
    /// What was called.
    pub call: &'a Call<Gfid>,
    /// The number of its call line.
    pub since: u64,
    /// How many step lines it has.
    pub steps: u64,
    /// How many tree lines it has.
    pub changes: u64,
    /// The first of them.
    pub first: Option<Deed<'a>>,
}

/// The tree line that comes next: for a request of this kind, which this brick carried out.
#[derive(Clone, Copy)]
pub struct Owed {
    /// The call that sent the request.
    pub call: CallNo,
    /// Its client.
    pub client: ClientNo,
    /// The brick.
    pub brick: BrickNo,
    /// The request's kind.
    pub request: RequestKind,
}

/// Whether a request changes the tree on whichever brick it was carried out, where this was the
/// reply.
pub fn is_change(request: RequestKind, reply: ReplyKind) -> bool {
    let changes = request == RequestKind::Create || request == RequestKind::Unlink;
    changes && reply == ReplyKind::Ok
}

/// Whether a request changes the tree where the brick is the home of the directory that it makes or
/// takes away, where this was the reply.
pub fn is_dir_change(request: RequestKind, reply: ReplyKind) -> bool {
    let changes = request == RequestKind::MakeDir || request == RequestKind::DropDir;
    changes && reply == ReplyKind::Ok
}

/// The tree line that may come next after these lines.
pub fn line_due(past: &[Line]) -> Option<Owed> {
    match past.last() {
        Some(Line::Stepped(call, client, brick, request, reply)) => {
            let may_change = is_change(*request, *reply) || is_dir_change(*request, *reply);
            may_change.then_some(Owed {
                call: *call,
                client: *client,
                brick: *brick,
                request: *request,
            })
        }
        _ => None,
    }
}

/// The tree line that has to come next after these lines. That of a directory's request need not: a
/// line does not tell whether its brick is the directory's home.
pub fn line_owed(past: &[Line]) -> Option<Owed> {
    let due = line_due(past)?;
    is_change(due.request, ReplyKind::Ok).then_some(due)
}

/// How many calls were accepted.
pub fn calls(past: &[Line]) -> u64 {
    let mut count = 0u64;
    for line in past {
        if let Line::Called(_, _, _) = line {
            count = count.saturating_add(1);
        }
    }
    count
}

/// The file or directory that the call of a number has answered, if it has answered one.
pub fn answered(past: &[Line], number: u64) -> Option<Gfid> {
    let mut found = None;
    for line in past {
        match line {
            Line::Answered(told, _, _, answer) if told.0 == number => {
                found = match answer {
                    Answer::File(gfid) | Answer::Dir(gfid) | Answer::Made(gfid) => Some(*gfid),
                    Answer::Done | Answer::Fault(_) => None,
                };
            }
            _ => {}
        }
    }
    found
}

/// How many bricks the volume has.
pub fn bricks(past: &[Line]) -> u64 {
    let mut count = 0;
    for line in past {
        if let Line::Volume(weights) | Line::Remounted(weights) = line {
            count = weights.as_slice().len() as u64;
        }
    }
    count
}

/// The number of the run, which is 1 until the volume is mounted anew.
pub fn run(past: &[Line]) -> u32 {
    let mut number = 1u32;
    for line in past {
        if let Line::Remounted(_) = line {
            number = number.saturating_add(1);
        }
    }
    number
}

/// How many step lines and wait lines there are.
pub fn requests(past: &[Line]) -> u64 {
    let mut count = 0u64;
    for line in past {
        if let Line::Stepped(_, _, _, _, _) | Line::Waited(_, _, _, _) = line {
            count = count.saturating_add(1);
        }
    }
    count
}

/// Whether a step line of a call has this reply.
pub fn was_replied(past: &[Line], call: CallNo, reply: ReplyKind) -> bool {
    let mut found = false;
    for line in past {
        if let Line::Stepped(number, _, _, _, told) = line {
            found = found || (*number == call && *told == reply);
        }
    }
    found
}

/// Whether a client has died in this run.
pub fn is_dead(past: &[Line], client: u64) -> bool {
    let mut found = false;
    for line in past {
        match line {
            Line::Died(who) => found = found || u64::from(who.0) == client,
            Line::Remounted(_) => found = false,
            _ => {}
        }
    }
    found
}

/// Whether a brick is down after these lines.
pub fn is_down(past: &[Line], brick: BrickNo) -> bool {
    let mut is_down = false;
    for line in past {
        match line {
            Line::WentDown(at) if *at == brick => is_down = true,
            Line::CameUp(at) if *at == brick => is_down = false,
            _ => {}
        }
    }
    is_down
}

/// Whether no line tells of a fault: of a brick that was down, failed or had no memory, of memory
/// that ran out, or of a death.
pub fn is_clean(past: &[Line]) -> bool {
    let mut is_clean = true;
    for line in past {
        match line {
            Line::WentDown(_) | Line::Died(_) => is_clean = false,
            Line::Answered(_, _, _, Answer::Fault(Errno::Enomem)) => is_clean = false,
            Line::Stepped(_, _, _, _, ReplyKind::Down | ReplyKind::Failed | ReplyKind::NoMemory) =>
                {
                    is_clean = false;
                }
            _ => {}
        }
    }
    is_clean
}

/// Whether no client's call is running after these lines.
pub fn is_quiet(past: &[Line]) -> bool {
    let mut is_quiet = true;
    for line in past {
        if let Line::Called(number, client, _) = line {
            match call_running(past, u64::from(client.0)) {
                Some(running) if running.number == *number => is_quiet = false,
                _ => {}
            }
        }
    }
    is_quiet
}

/// `IsUndisturbed`: whether a running call was the only one in its span so far, and no line tells of
/// a fault.
pub fn is_undisturbed(past: &[Line], running: &Running<'_>) -> bool {
    let is_first = match past.get(..(running.since as usize).saturating_sub(1)) {
        Some(front) => is_quiet(front),
        None => false,
    };
    is_first && running.number.0 == calls(past) && is_clean(past)
}

/// A client's call after these lines.
pub fn call_running<'a>(past: &'a [Line], client: u64) -> Option<Running<'a>> {
    let mut running: Option<Running<'a>> = None;
    for (index, line) in past.iter().enumerate() {
        match line {
            Line::Called(number, who, call) if u64::from(who.0) == client => {
                running = Some(Running {
                    number: *number,
                    call,
                    since: index as u64 + 1,
                    steps: 0,
                    changes: 0,
                    first: None,
                });
            }
            Line::Stepped(_, who, _, _, _) if u64::from(who.0) == client => {
                if let Some(call) = &mut running {
                    call.steps = call.steps.saturating_add(1);
                }
            }
            Line::Tree(_, step) => {
                if let (Some(call), Some(owed)) = (&mut running, line_due(&past[..index])) {
                    if u64::from(owed.client.0) == client {
                        call.changes = call.changes.saturating_add(1);
                        call.first = call.first.or(Some(Deed {
                            before: index,
                            step,
                        }));
                    }
                }
            }
            Line::Answered(_, who, _, _) if u64::from(who.0) == client => running = None,
            Line::Died(who) if u64::from(who.0) == client => running = None,
            _ => {}
        }
    }
    running
}
