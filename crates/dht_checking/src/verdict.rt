//! Whether a line may stand where it does, and a transcript end there, by all the definitions.

use crate::following::{comes_from, heads, in_time, is_whole, is_within_limit};
use crate::history::line_owed;
use crate::journals::{Entry, all_told, logged};
use crate::legal::follows;
use dht_types::events::Event;
use dht_types::lines::Line;

/// The definition that forbids a line, under its own name.
#[derive(Clone, Copy, Debug)]
pub enum Definition {
    /// A tree line is owed at the end.
    Legal,
    /// The line stands where no such line may stand, or a call has another number than the next.
    Follows,
    /// The client is not in this call.
    IsIn,
    /// The request does not stand for such a step of the tree.
    IsOf,
    /// The brick is not the home of the directory that the step makes or takes away.
    IsAtHome,
    /// The step is not the next of its call.
    IsNext,
    /// The step cannot be done.
    Fits,
    /// The gfid is not one that this call makes.
    IsOwn,
    /// The answer has no line within its call at which it holds.
    HasPoint,
    /// The tree does not say this answer at this line.
    Tells,
    /// No call answers this error so.
    FaultHolds,
    /// The call is not to be refused at once so, or such an answer has a line at which it holds.
    IsAtOnce,
    /// The call is to be refused at once, and this is another answer.
    HeedsRefusal,
    /// An event has no lines, or a line no event.
    ComesFrom,
    /// The line is not the first of the event whose turn it is.
    Head,
    /// No step of the call goes so: the brick is down or not, the lock waits for no such client.
    IsStep,
    /// The line may not stand under its head line, or one that has to stand there is missing.
    Block,
    /// The call has used up its cost, or waits, though it is alone and nothing failed.
    InTime,
    /// The steps that a run may have are used up.
    IsWithinLimit,
    /// The brick's journal tells otherwise.
    Logged,
}

/// Refused by a definition, unless what it asks for holds.
pub fn require(holds: bool, definition: Definition) -> Result<(), Definition> {
    if holds { Ok(()) } else { Err(definition) }
}

/// The next line may stand behind these lines.
pub fn may_come(
    events: &[Event],
    past: &[Line],
    line: &Line,
    journals: Option<&[Entry]>,
) -> Result<(), Definition> {
    follows(past, line)?;
    comes_from(events, past, line)?;
    in_time(past, line)?;
    is_within_limit(past, line)?;
    match journals {
        Some(entries) => logged(past, line, entries),
        None => Ok(()),
    }
}

/// A transcript may end with these lines, which may stand there.
pub fn may_end(
    events: &[Event],
    lines: &[Line],
    journals: Option<&[Entry]>,
) -> Result<(), Definition> {
    require(line_owed(lines).is_none(), Definition::Legal)?;
    require(is_whole(lines), Definition::Block)?;
    require(heads(lines) == events.len(), Definition::ComesFrom)?;
    match journals {
        Some(entries) => all_told(lines, entries),
        None => Ok(()),
    }
}
