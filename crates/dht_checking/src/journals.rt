//! `Logged`: whether the bricks' journals tell what the lines do.

use crate::history::{is_change, line_due, line_owed};
use crate::trees::slot_of;
use crate::verdict::{Definition, require};
use dht_types::identifiers::{BrickNo, CallNo, ClientNo, Gfid};
use dht_types::lines::{Line, ReplyKind, RequestKind};
use dht_types::names::Name;

/// An entry of a brick's journal.
#[derive(Clone, Copy)]
pub struct Entry {
    /// Whose journal it is.
    pub brick: BrickNo,
    /// Who asked.
    pub client: ClientNo,
    /// In which call.
    pub call: CallNo,
    /// What was asked.
    pub request: RequestKind,
    /// What was replied.
    pub reply: ReplyKind,
    /// The directory that the request names, or else a file.
    pub directory: Gfid,
    /// The name in it, or else the empty one.
    pub name: Name,
}

/// Which entries of a journal are counted.
#[derive(Clone, Copy)]
enum Among {
    /// All of them, each of which has a step line or a wait line.
    All,
    /// Those that changed the tree on whichever brick, each of which has a tree line.
    Changes,
}

/// The entry of this number, from 0, in a brick's journal; or among those that changed the tree.
fn entry_at(entries: &[Entry], brick: BrickNo, number: usize, among: Among) -> Option<Entry> {
    let mut count = 0usize;
    for entry in entries {
        let counts = match among {
            Among::All => true,
            Among::Changes => is_change(entry.request, entry.reply),
        };
        if entry.brick == brick && counts {
            if count == number {
                return Some(*entry);
            }
            count = count.saturating_add(1);
        }
    }
    None
}

/// How many requests a brick served, by its step lines and wait lines. A brick that is down serves
/// none.
fn served_at(past: &[Line], brick: BrickNo) -> usize {
    let mut count = 0usize;
    for line in past {
        match line {
            Line::Stepped(_, _, _, _, ReplyKind::Down) => {}
            Line::Stepped(_, _, at, _, _) | Line::Waited(_, _, at, _) if *at == brick => {
                count = count.saturating_add(1);
            }
            _ => {}
        }
    }
    count
}

/// How many tree lines stand under a brick's step lines.
fn changes_at(past: &[Line], brick: BrickNo) -> usize {
    let mut count = 0usize;
    for (index, line) in past.iter().enumerate() {
        if let (Line::Tree(_, _), Some(owed)) = (line, line_owed(&past[..index])) {
            if owed.brick == brick {
                count = count.saturating_add(1);
            }
        }
    }
    count
}

/// The entry of the request above a tree line: of those that change the tree on any brick the next
/// that did so, and else the last that the brick served.
fn entry_of_tree(past: &[Line], entries: &[Entry]) -> Option<Entry> {
    if let Some(owed) = line_owed(past) {
        let number = changes_at(past, owed.brick);
        return entry_at(entries, owed.brick, number, Among::Changes);
    }
    let due = line_due(past)?;
    let last = served_at(past, due.brick).checked_sub(1)?;
    entry_at(entries, due.brick, last, Among::All)
}

/// Whether the entry that a line tells of is of this call, and tells of this request and this
/// reply.
fn is_entry(
    entry: Option<Entry>,
    call: CallNo,
    client: ClientNo,
    request: RequestKind,
    reply: ReplyKind,
) -> bool {
    match entry {
        Some(entry) => {
            entry.client == client
                && entry.call == call
                && entry.request == request
                && entry.reply == reply
        }
        None => false,
    }
}

/// The journal of the line's brick has the entry that the line tells of, at its place.
pub fn logged(past: &[Line], line: &Line, entries: &[Entry]) -> Result<(), Definition> {
    let is_logged = match line {
        Line::Stepped(_, _, _, _, ReplyKind::Down) => true,
        Line::Stepped(call, client, brick, request, reply) => {
            let entry = entry_at(entries, *brick, served_at(past, *brick), Among::All);
            is_entry(entry, *call, *client, *request, *reply)
        }
        Line::Waited(call, client, brick, _) => {
            let entry = entry_at(entries, *brick, served_at(past, *brick), Among::All);
            is_entry(entry, *call, *client, RequestKind::Lock, ReplyKind::Wait)
        }
        Line::Tree(_, step) => {
            let (directory, name) = slot_of(step);
            match entry_of_tree(past, entries) {
                Some(entry) => entry.directory == directory && entry.name.as_bytes() == name,
                None => false,
            }
        }
        _ => true,
    };
    require(is_logged, Definition::Logged)
}

/// The lines tell of every entry of the journals.
pub fn all_told(lines: &[Line], entries: &[Entry]) -> Result<(), Definition> {
    for entry in entries {
        let served = served_at(lines, entry.brick);
        let changes = changes_at(lines, entry.brick);
        let is_told = entry_at(entries, entry.brick, served, Among::All).is_none()
            && entry_at(entries, entry.brick, changes, Among::Changes).is_none();
        require(is_told, Definition::Logged)?;
    }
    Ok(())
}
