//! What a brick contains, told in words: the lines of its dump.

use crate::told;
use dht_types::identifiers::{BrickNo, Gfid};
use dht_types::lines::{DumpLine, RecordLine};
use dht_types::stored::{Main, Slot, Standby};
use std::alloc::{AllocError, Global};

/// A main part that is a file, which may be marked with a brick.
pub(crate) fn file(out: &mut String, file: Gfid, over: Option<BrickNo>) -> Result<(), AllocError> {
    out.push_str("file ")?;
    told::gfid(out, file)?;
    match over {
        None => Ok(()),
        Some(brick) => write!(out, " marked with {}", brick.0),
    }
}

/// A standby part.
pub(crate) fn standby(out: &mut String, standby: Option<Standby>) -> Result<(), AllocError> {
    match standby {
        None => Ok(()),
        Some(Standby::StandLink(file)) => {
            out.push_str(" + readied for ")?;
            told::gfid(out, file)
        }
        Some(Standby::Copy(file)) => {
            out.push_str(" + copy of ")?;
            told::gfid(out, file)
        }
    }
}

/// Both parts of a slot.
pub(crate) fn slot(out: &mut String, slot: &Slot) -> Result<(), AllocError> {
    match &slot.main {
        None => out.push_str("nothing")?,
        Some(Main::Dir(dir)) => {
            out.push_str("dir ")?;
            told::gfid(out, *dir)?;
        }
        Some(Main::File(gfid, over)) => file(out, *gfid, *over)?,
        Some(Main::Linkto(value)) => {
            out.push_str("linkto ")?;
            told::bytes(out, value.as_slice())?;
        }
    }
    standby(out, slot.standby)
}

/// A file's record, but for the SHA-256 of its bytes, which is given back if there is one.
fn numbers(out: &mut String, record: &RecordLine) -> Result<Option<[u8; 32]>, AllocError> {
    match *record {
        RecordLine::Live {
            hop,
            links,
            length,
            digest,
        } => {
            write!(out, "live, hop {hop}, links {links}, length {length}, ")?;
            Ok(Some(digest))
        }
        RecordLine::Moving {
            hop,
            links,
            length,
            digest,
            dest,
        } => {
            write!(out, "moving to {}, hop {hop}", dest.0)?;
            write!(out, ", links {links}, length {length}, ")?;
            Ok(Some(digest))
        }
        RecordLine::Standby {
            hop,
            source,
            length,
            digest,
            is_dirty,
        } => {
            out.push_str(if is_dirty { "dirty" } else { "clean" })?;
            write!(out, " copy of {}, hop {hop}, length {length}, ", source.0)?;
            Ok(Some(digest))
        }
        RecordLine::Forward { brick, hop } => {
            write!(out, "forward to {}, hop {hop}", brick.0)?;
            Ok(None)
        }
    }
}

/// A file's record.
fn record(out: &mut String, record: &RecordLine) -> Result<(), AllocError> {
    if let Some(digest) = numbers(out, record)? {
        for byte in digest {
            write!(out, "{byte:02x}")?;
        }
    }
    Ok(())
}

/// A line of a dump. The number of the brick, which the dump was given, comes second.
fn line(out: &mut String, line: &DumpLine) -> Result<(), AllocError> {
    match line {
        DumpLine::Brick(brick, is_up) => {
            let word = if *is_up { "up" } else { "down" };
            write!(out, "brick {} {word}", brick.0)
        }
        DumpLine::Dir(brick, dir, value) => {
            write!(out, "dir {} ", brick.0)?;
            told::gfid(out, *dir)?;
            told::value(out, value)
        }
        DumpLine::Slot(brick, dir, name, parts) => {
            write!(out, "slot {} ", brick.0)?;
            told::gfid(out, *dir)?;
            out.push('/')?;
            told::bytes(out, name.as_bytes())?;
            out.push_str(": ")?;
            slot(out, parts)
        }
        DumpLine::File(brick, file, kept) => {
            write!(out, "file {} ", brick.0)?;
            told::gfid(out, *file)?;
            out.push_str(": ")?;
            record(out, kept)
        }
        DumpLine::End => out.push_str("end"),
    }
}

/// Each line of a dump.
pub(crate) fn lines(alloc: Global, dump: &[DumpLine]) -> Result<Vec<String>, AllocError> {
    let mut told = Vec::new(alloc);
    for shown in dump {
        let mut text = String::new(alloc);
        line(&mut text, shown)?;
        told.push(text)?;
    }
    Ok(told)
}
