//! Cases: what they say, and what comes of them.

use crate::journals::Entry;
use crate::reading::{entry, event, line, number};
use crate::verdict::{Definition, may_come, may_end};
use std::alloc::{AllocError, Global};
use std::fmt;

/// What is found of a case.
#[derive(Clone, Copy)]
pub enum Verdict {
    /// Its transcript is right.
    Right,
    /// This line of the transcript is the first that is wrong, and what forbids it.
    Wrong(usize, Definition),
    /// This line of the transcript is none, and those before it may stand there.
    NoLine(usize),
    /// This line of the schedule is none.
    NoEvent(usize),
    /// This entry of the journals is none.
    NoEntry(usize),
    /// This line under the name of a changed case is no change of a line that is there.
    NoChange(usize),
}

impl fmt::Display for Verdict {
    fn fmt<W: fmt::Write>(&self, f: &mut fmt::Formatter<W>) -> fmt::Result {
        match *self {
            Verdict::Right => write!(f, "right"),
            Verdict::Wrong(number, definition) => write!(f, "line {number}: {definition:?}"),
            Verdict::NoLine(number) => write!(f, "line {number}: no line of a transcript"),
            Verdict::NoEvent(number) => write!(f, "event {number}: no line of a schedule"),
            Verdict::NoEntry(number) => write!(f, "entry {number}: no entry of a journal"),
            Verdict::NoChange(number) => write!(f, "change {number}: no change of the case"),
        }
    }
}

/// Of what the lines of a case are.
#[derive(Clone, Copy)]
enum Section {
    Schedule,
    Transcript,
    Journals,
    /// What the bricks contain in the end, which is not looked at.
    Dump,
}

/// The lines of a case, as they are spelled.
#[derive(Drop)]
pub struct Case<'a> {
    schedule: Vec<&'a str>,
    transcript: Vec<&'a str>,
    journals: Vec<&'a str>,
}

/// Leaves a line out, puts another in its place, or adds one before it, if the text says so and
/// there is such a line.
fn edit<'a>(lines: &mut Vec<&'a str>, text: &'a str) -> Result<bool, AllocError> {
    let Some((verb, rest)) = text.split_once(' ') else {
        return Ok(false);
    };
    let (place, line) = rest.split_once(' ').unwrap_or((rest, ""));
    let index = match number(place) {
        None | Some(0) => return Ok(false),
        Some(place) => (place - 1) as usize,
    };
    match verb {
        "drop" if index < lines.len() => {
            let _ = lines.remove(index);
        }
        "put" if index < lines.len() => lines[index] = line,
        "add" if index <= lines.len() => lines.insert(index, line)?,
        _ => return Ok(false),
    }
    Ok(true)
}

impl<'a> Case<'a> {
    /// The case of these lines.
    pub fn of(alloc: Global, lines: &[&'a str]) -> Result<Case<'a>, AllocError> {
        let mut case = Case {
            schedule: Vec::new(alloc),
            transcript: Vec::new(alloc),
            journals: Vec::new(alloc),
        };
        let mut section = Section::Schedule;
        for line in lines {
            match (*line, section) {
                ("transcript", _) => section = Section::Transcript,
                ("journals", _) => section = Section::Journals,
                (_, Section::Transcript) if line.starts_with("brick ") => section = Section::Dump,
                (_, Section::Schedule) => case.schedule.push(*line)?,
                (_, Section::Transcript) => case.transcript.push(*line)?,
                (_, Section::Journals) => case.journals.push(*line)?,
                (_, Section::Dump) => {}
            }
        }
        Ok(case)
    }

    /// What comes of the case after these changes.
    pub fn changed(&self, alloc: Global, changes: &[&'a str]) -> Result<Verdict, AllocError> {
        let mut case = Case {
            schedule: self.schedule.as_slice().to_vec(alloc)?,
            transcript: self.transcript.as_slice().to_vec(alloc)?,
            journals: self.journals.as_slice().to_vec(alloc)?,
        };
        for (index, text) in changes.iter().enumerate() {
            let is_made = match text.split_once(' ') {
                Some(("transcript", change)) => edit(&mut case.transcript, change)?,
                Some(("journals", change)) => edit(&mut case.journals, change)?,
                _ => false,
            };
            if !is_made {
                return Ok(Verdict::NoChange(index + 1));
            }
        }
        case.verdict(alloc)
    }

    /// What comes of the case.
    pub fn verdict(&self, alloc: Global) -> Result<Verdict, AllocError> {
        let mut events = Vec::new(alloc);
        for text in self.schedule.as_slice() {
            match event(alloc, text)? {
                Some(event) => events.push(event)?,
                None => return Ok(Verdict::NoEvent(events.len() + 1)),
            }
        }
        let mut entries: Vec<Entry> = Vec::new(alloc);
        for text in self.journals.as_slice() {
            match entry(alloc, text)? {
                Some(entry) => entries.push(entry)?,
                None => return Ok(Verdict::NoEntry(entries.len() + 1)),
            }
        }
        let journals = (!entries.is_empty()).then_some(entries.as_slice());
        let mut lines = Vec::new(alloc);
        for text in self.transcript.as_slice() {
            let number = lines.len() + 1;
            let Some(line) = line(alloc, text)? else {
                return Ok(Verdict::NoLine(number));
            };
            if let Err(definition) = may_come(
                events.as_slice(),
                lines.as_slice(),
                &line,
                journals,
            ) {
                return Ok(Verdict::Wrong(number, definition));
            }
            lines.push(line)?;
        }
        Ok(
            match may_end(events.as_slice(), lines.as_slice(), journals) {
                Ok(()) => Verdict::Right,
                Err(definition) => Verdict::Wrong(lines.len() + 1, definition),
            },
        )
    }
}
