//! What a brick replies, told in words.

use crate::stored;
use crate::words::word_of;
use dht_brick::replies::{DirInfo, Gfids, Given, Look, MainShown, Page, Reply, SlotShown, Why};
use dht_guard::State;
use dht_types::bytes::Bytes;
use dht_types::identifiers::{BrickNo, Gfid};
use std::alloc::AllocError;

/// How many files of a list are told one by one.
const MOST_FILES_TOLD: usize = 8;

/// A directory or a file.
pub(crate) fn gfid(out: &mut String, gfid: Gfid) -> Result<(), AllocError> {
    match word_of(gfid) {
        Some(word) => out.push_str(word),
        None => write!(out, "{}", gfid.0),
    }
}

/// Bytes: `-` for none, `~` for a zero byte, and a byte that does not print in hexadecimal digits.
pub(crate) fn bytes(out: &mut String, bytes: &[u8]) -> Result<(), AllocError> {
    if bytes.is_empty() {
        return out.push('-');
    }
    for byte in bytes {
        match *byte {
            0 => out.push('~')?,
            0x21..=0x24 | 0x26..=0x7d => out.push(char::from(*byte))?,
            other => write!(out, "%{other:02x}")?,
        }
    }
    Ok(())
}

/// The attribute of a directory, if it has one.
pub(crate) fn value(out: &mut String, value: &Option<Bytes>) -> Result<(), AllocError> {
    if let Some(value) = value {
        out.push_str(", value ")?;
        bytes(out, value.as_slice())?;
    }
    Ok(())
}

/// Where a file is copied to, if it is.
fn destination(out: &mut String, dest: Option<BrickNo>) -> Result<(), AllocError> {
    match dest {
        None => Ok(()),
        Some(brick) => write!(out, " to {}", brick.0),
    }
}

/// The word of a state.
pub(crate) fn state_word(state: State) -> &'static str {
    match state {
        State::Absent => "absent",
        State::Live => "live",
        State::Moving => "moving",
        State::Standby => "standby",
        State::Forward => "forward",
    }
}

/// What stands at a name.
fn look(out: &mut String, look: &Look) -> Result<(), AllocError> {
    out.push_str("ok, ")?;
    stored::slot(out, &look.slot)?;
    if let Some(file) = &look.file {
        write!(out, ", {}", state_word(file.state))?;
        destination(out, file.dest)?;
        write!(out, ", hop {}, links {}", file.hop, file.links)?;
    }
    if let Some(hop) = look.copy {
        write!(out, ", hop {hop}")?;
    }
    value(out, &look.value)
}

/// Names of a directory.
fn page(out: &mut String, page: &Page) -> Result<(), AllocError> {
    out.push_str("ok, names")?;
    for entry in page.as_slice() {
        out.push(' ')?;
        bytes(out, entry.name.as_bytes())?;
        if let Some(dir) = entry.dir {
            out.push('=')?;
            gfid(out, dir)?;
        }
    }
    Ok(())
}

/// What a brick has of a directory.
fn directory(out: &mut String, info: &DirInfo) -> Result<(), AllocError> {
    out.push_str("ok, ")?;
    match &info.place {
        None => out.push_str("at the top")?,
        Some(place) => {
            gfid(out, place.dir)?;
            out.push('/')?;
            bytes(out, place.name.as_bytes())?;
        }
    }
    write!(out, ", depth {}", info.depth)?;
    value(out, &info.value)?;
    out.push_str(if info.is_occupied {
        ", occupied"
    } else {
        ", empty"
    })
}

/// Files without links: each, or of many how many, the first and the last.
fn orphans(out: &mut String, files: &Gfids) -> Result<(), AllocError> {
    let files = files.as_slice();
    out.push_str("ok, orphans")?;
    match files {
        [first, .., last] if files.len() > MOST_FILES_TOLD => {
            write!(out, ", {} from ", files.len())?;
            gfid(out, *first)?;
            out.push_str(" to ")?;
            gfid(out, *last)?;
        }
        _ => {
            for file in files {
                out.push(' ')?;
                gfid(out, *file)?;
            }
        }
    }
    Ok(())
}

/// What is given with a request that was carried out.
fn given(out: &mut String, given: &Given) -> Result<(), AllocError> {
    match given {
        Given::Nothing => out.push_str("ok"),
        Given::Look(shown) => look(out, shown),
        Given::Page(names) => page(out, names),
        Given::Dirinfo(info) => directory(out, info),
        Given::Links(links) => write!(out, "ok, links {links}"),
        Given::Registrations(left) => write!(out, "ok, registrations {left}"),
        Given::Orphans(files) => orphans(out, files),
        Given::Bytes(read) => {
            out.push_str("ok, bytes ")?;
            bytes(out, read.as_slice())
        }
        Given::Stat(stat) => {
            write!(out, "ok, length {}, hop {}", stat.length, stat.hop)?;
            write!(out, ", links {}", stat.links)?;
            destination(out, stat.dest)
        }
    }
}

/// The parts of a slot as a refusal shows them.
fn shown(out: &mut String, parts: &SlotShown) -> Result<(), AllocError> {
    match parts.main {
        None => out.push_str("nothing")?,
        Some(MainShown::Dir(dir)) => {
            out.push_str("dir ")?;
            gfid(out, dir)?;
        }
        Some(MainShown::File(file, over)) => stored::file(out, file, over)?,
        Some(MainShown::Linkto) => out.push_str("linkto")?,
    }
    stored::standby(out, parts.standby)
}

/// Why a request was refused.
fn refusal(out: &mut String, why: &Why) -> Result<(), AllocError> {
    match why {
        Why::Nodir => out.push_str("nodir"),
        Why::Slot(parts) => {
            out.push_str("slot, ")?;
            shown(out, parts)
        }
        Why::NotEmpty => out.push_str("notempty"),
        Why::Absent => out.push_str("absent"),
        Why::Live => out.push_str("live"),
        Why::Moving(dest) => write!(out, "moving to {}", dest.0),
        Why::Standby(source, hop) => write!(out, "standby of {}, hop {hop}", source.0),
        Why::Forward(brick, hop) => write!(out, "forward to {}, hop {hop}", brick.0),
        Why::Links(links) => write!(out, "links {links}"),
        Why::Dirty => out.push_str("dirty"),
        Why::Sealed => out.push_str("sealed"),
        Why::Open(registrations) => write!(out, "open {registrations}"),
    }
}

/// A reply: `ok` and what is given, or why not.
pub(crate) fn reply(out: &mut String, reply: &Reply) -> Result<(), AllocError> {
    match reply {
        Reply::Ok(shown) => given(out, shown),
        Reply::Refused(why) => refusal(out, why),
        Reply::Wait(client) => write!(out, "wait for client {}", client.0),
        Reply::Down => out.push_str("down"),
        Reply::Failed => out.push_str("failed"),
        Reply::NoMemory => out.push_str("no memory"),
    }
}
