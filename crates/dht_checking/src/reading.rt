//! The lines of schedules, transcripts and journals, read. What is not spelled as it is printed is
//! no line.

use crate::journals::Entry;
use crate::kinds::{CAUSES, ERRORS, REPLIES, REQUESTS, meaning};
use dht_types::bytes::Bytes;
use dht_types::calls::{Answer, Call, TreeStep};
use dht_types::events::{Directory, Event};
use dht_types::identifiers::{BrickNo, CallNo, ClientNo, Gfid};
use dht_types::lines::Line;
use dht_types::names::Name;
use dht_types::volumes::Weights;
use std::alloc::{AllocError, Global};

/// The most bytes of a line of a schedule, its newline included.
const LONGEST_LINE: usize = 16_384;

/// The most bricks that a volume has.
const MOST_BRICKS: usize = 32;

/// The greatest weight of a brick.
const GREATEST_WEIGHT: u16 = 1_000;

/// A number in decimal, with no sign and no zero in front.
pub fn number(word: &str) -> Option<u64> {
    let is_padded = word.len() > 1 && word.starts_with('0');
    if word.starts_with('+') || is_padded {
        return None;
    }
    word.parse::<u64>().ok()
}

fn small(word: &str) -> Option<u16> {
    u16::try_from(number(word)?).ok()
}

fn gfid(word: &str) -> Option<Gfid> {
    Gfid::parse(word.as_bytes())
}

/// The byte whose spelling a text begins with, and the rest of the text. A byte that does not print
/// in ASCII, a space and `%` are spelled `%` and two hexadecimal digits in lower case.
fn first_byte(text: &[u8]) -> Option<(u8, &[u8])> {
    let (byte, is_spelled_out, rest) = match text {
        [b'%', high, low, rest @ ..] => {
            if high.is_ascii_uppercase() || low.is_ascii_uppercase() {
                return None;
            }
            let mut byte = [0u8; 1];
            hex::decode_to_slice([*high, *low], &mut byte).ok()?;
            (byte[0], true, rest)
        }
        [byte, rest @ ..] => (*byte, false, rest),
        [] => return None,
    };
    let is_plain = byte.is_ascii_graphic() && byte != b'%';
    (is_plain != is_spelled_out).then_some((byte, rest))
}

/// The bytes that a word spells as a name, which may be any.
fn name(alloc: Global, word: &str) -> Result<Option<Bytes>, AllocError> {
    let mut bytes = Vec::new(alloc);
    if word == "%-" {
        return Ok(Some(Bytes::new(bytes)));
    }
    let mut rest = word.as_bytes();
    for _ in 0..word.len() {
        if !rest.is_empty() {
            let Some((byte, after)) = first_byte(rest) else {
                return Ok(None);
            };
            bytes.push(byte)?;
            rest = after;
        }
    }
    Ok((!bytes.is_empty()).then_some(Bytes::new(bytes)))
}

/// The name of a file or directory that a word spells.
fn file_name(alloc: Global, word: &str) -> Result<Option<Name>, AllocError> {
    let Some(bytes) = name(alloc, word)? else {
        return Ok(None);
    };
    Ok(Name::new(bytes.as_slice()).ok())
}

fn call<D: Drop>(verb: &str, directory: D, name: Bytes) -> Option<Call<D>> {
    match verb {
        "lookup" => Some(Call::Lookup(directory, name)),
        "create" => Some(Call::Create(directory, name)),
        "mkdir" => Some(Call::Mkdir(directory, name)),
        "unlink" => Some(Call::Unlink(directory, name)),
        "rmdir" => Some(Call::Rmdir(directory, name)),
        _ => None,
    }
}

/// A directory, as a line of a schedule names it.
fn directory(word: &str) -> Option<Directory> {
    match word.strip_prefix('@') {
        Some("") => Some(Directory::Root),
        Some(nth) => Some(Directory::OfCall(number(nth)?)),
        None => Some(Directory::Gfid(gfid(word)?)),
    }
}

/// Whether bricks of these weights make a volume: there are not too many, none is too heavy, and
/// not all are without weight.
fn is_volume(weights: &[u16]) -> bool {
    let mut has_weight = false;
    for weight in weights {
        if *weight > GREATEST_WEIGHT {
            return false;
        }
        has_weight = has_weight || *weight > 0;
    }
    has_weight && weights.len() <= MOST_BRICKS
}

/// The weights of a volume of so many bricks.
fn weights(alloc: Global, count: &str, words: &[&str]) -> Result<Option<Weights>, AllocError> {
    let mut each = Vec::new(alloc);
    for word in words {
        let Some(weight) = small(word) else {
            return Ok(None);
        };
        each.push(weight)?;
    }
    let is_counted = number(count) == Some(each.len() as u64);
    let makes_volume = is_counted && is_volume(each.as_slice());
    Ok(makes_volume.then_some(Weights::new(each)))
}

fn event_of_words(words: &[&str]) -> Option<Event> {
    match words {
        ["step", who] => Some(Event::Step(number(who)?)),
        ["call", who, "heal", at] => Some(Event::Call(number(who)?, Call::Heal(directory(at)?))),
        ["down", at] => Some(Event::Down(number(at)?)),
        ["up", at] => Some(Event::Up(number(at)?)),
        ["die", who] => Some(Event::Die(number(who)?)),
        _ => None,
    }
}

/// The call of a client that a line of a schedule names, by its words behind `call`.
fn event_of_call(who: &str, verb: &str, at: &str, name: Bytes) -> Option<Event> {
    let what = call(verb, directory(at)?, name)?;
    Some(Event::Call(number(who)?, what))
}

/// The event of a line of a schedule, which has a newline behind it.
pub fn event(alloc: Global, text: &str) -> Result<Option<Event>, AllocError> {
    if text.len() >= LONGEST_LINE {
        return Ok(None);
    }
    let words: Vec<&str> = text.split(' ').collect(alloc)?;
    match words.as_slice() {
        ["volume", count, rest @ ..] => Ok(weights(alloc, count, rest)?.map(Event::Volume)),
        ["remount", count, rest @ ..] => Ok(weights(alloc, count, rest)?.map(Event::Remount)),
        ["call", who, verb, at, called] => {
            let name = name(alloc, called)?;
            Ok(name.and_then(|name| event_of_call(who, verb, at, name)))
        }
        words => Ok(event_of_words(words)),
    }
}

fn answer(words: &[&str]) -> Option<Answer> {
    match words {
        ["file", file] => Some(Answer::File(gfid(file)?)),
        ["dir", dir] => Some(Answer::Dir(gfid(dir)?)),
        ["made", file] => Some(Answer::Made(gfid(file)?)),
        ["ok"] => Some(Answer::Done),
        [error] => Some(Answer::Fault(meaning(&ERRORS, error)?)),
        _ => None,
    }
}

/// The answer of a call, by the words behind those of its client.
fn answered(nth: &str, who: &str, words: &[&str]) -> Option<Line> {
    let (point, words) = match words {
        ["at", point, rest @ ..] => (Some(number(point)?), rest),
        words => (None, words),
    };
    Some(Line::Answered(
        CallNo(number(nth)?),
        ClientNo(small(who)?),
        point,
        answer(words)?,
    ))
}

fn line_of_words(words: &[&str]) -> Option<Line> {
    match words {
        ["step", nth, who, at, request, reply] => Some(Line::Stepped(
            CallNo(number(nth)?),
            ClientNo(small(who)?),
            BrickNo(small(at)?),
            meaning(&REQUESTS, request)?,
            meaning(&REPLIES, reply)?,
        )),
        ["wait", nth, who, at, holder] => Some(Line::Waited(
            CallNo(number(nth)?),
            ClientNo(small(who)?),
            BrickNo(small(at)?),
            ClientNo(small(holder)?),
        )),
        ["call", nth, who, "heal", at] => Some(Line::Called(
            CallNo(number(nth)?),
            ClientNo(small(who)?),
            Call::Heal(gfid(at)?),
        )),
        ["answer", nth, who, rest @ ..] => answered(nth, who, rest),
        ["down", at] => Some(Line::WentDown(BrickNo(small(at)?))),
        ["up", at] => Some(Line::CameUp(BrickNo(small(at)?))),
        ["die", who] => Some(Line::Died(ClientNo(small(who)?))),
        ["refused", nth, cause] => Some(Line::Refused(number(nth)?, meaning(&CAUSES, cause)?)),
        _ => None,
    }
}

/// The line of a call, by its words behind `call`.
fn line_of_call(nth: &str, who: &str, verb: &str, at: &str, name: Bytes) -> Option<Line> {
    let what = call(verb, gfid(at)?, name)?;
    Some(Line::Called(CallNo(number(nth)?), ClientNo(small(who)?), what))
}

/// The line of a change of the tree, by its words behind the name's.
fn line_of_tree(nth: &str, change: &str, at: &str, name: Name, rest: &[&str]) -> Option<Line> {
    let step = match (change, rest) {
        ("add-file", [file]) => TreeStep::AddFile(gfid(at)?, name, gfid(file)?),
        ("add-dir", [made]) => TreeStep::AddDir(gfid(at)?, name, gfid(made)?),
        ("remove-file", []) => TreeStep::RemoveFile(gfid(at)?, name),
        ("remove-dir", []) => TreeStep::RemoveDir(gfid(at)?, name),
        _ => return None,
    };
    Some(Line::Tree(CallNo(number(nth)?), step))
}

/// The line of a transcript of this text.
pub fn line(alloc: Global, text: &str) -> Result<Option<Line>, AllocError> {
    let words: Vec<&str> = text.split(' ').collect(alloc)?;
    match words.as_slice() {
        ["volume", count, rest @ ..] => Ok(weights(alloc, count, rest)?.map(Line::Volume)),
        ["remount", count, rest @ ..] => Ok(weights(alloc, count, rest)?.map(Line::Remounted)),
        ["call", nth, who, verb, at, called] => {
            let name = name(alloc, called)?;
            Ok(name.and_then(|name| line_of_call(nth, who, verb, at, name)))
        }
        ["tree", nth, change, at, called, rest @ ..] => {
            let name = file_name(alloc, called)?;
            Ok(name.and_then(|name| line_of_tree(nth, change, at, name, rest)))
        }
        words => Ok(line_of_words(words)),
    }
}

/// The entry of a journal of the words of its step line, and of directory and name.
fn entry_of_words(step: [&str; 5], place: &str, name: Name) -> Option<Entry> {
    let [nth, who, at, request, reply] = step;
    Some(Entry {
        brick: BrickNo(small(at)?),
        client: ClientNo(small(who)?),
        call: CallNo(number(nth)?),
        request: meaning(&REQUESTS, request)?,
        reply: meaning(&REPLIES, reply)?,
        directory: gfid(place)?,
        name,
    })
}

/// The entry of a journal of this text.
pub fn entry(alloc: Global, text: &str) -> Result<Option<Entry>, AllocError> {
    let words: Vec<&str> = text.split(' ').collect(alloc)?;
    match words.as_slice() {
        ["entry", nth, who, at, request, reply, place, called] => {
            let name = match *called {
                "%-" => Some(Name::of(&[])),
                called => file_name(alloc, called)?,
            };
            let step = [*nth, *who, *at, *request, *reply];
            Ok(name.and_then(|name| entry_of_words(step, place, name)))
        }
        _ => Ok(None),
    }
}
