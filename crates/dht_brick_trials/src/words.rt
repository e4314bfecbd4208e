//! The words of a line, which are read one after the other.

ghost use Rattle.std.specs.Prelude.{◌≡◌, ◌<◌, ◌≤◌, IfOk, IfSome};
ghost use Rattle.dht_brick.specs.Within.{MayBeMade};
ghost use Rattle.dht_types.specs.Saved.{IsValue};

use crate::fault::Fault;
use dht_types::bytes::Bytes;
use dht_types::identifiers::{BrickNo, Gfid};
use dht_types::layouts::LayoutValue;
use dht_types::linktos::{LONGEST_LINKTO, LinktoValue};
use dht_types::locks::{Key, Mode};
use dht_types::names::{LONGEST_NAME, Name};
use std::alloc::Global;

/// The directories and files that have a word. Any other is written as a number.
const GFIDS: [(&str, Gfid); 8] = [
    ("root", Gfid::ROOT),
    ("docs", Gfid(0x1_0001)),
    ("old", Gfid(0x2_0000)),
    ("more", Gfid(0x2_0001)),
    ("first", Gfid(0x3_0000)),
    ("second", Gfid(0x4_0000)),
    ("third", Gfid(0x5_0000)),
    ("fourth", Gfid(0x6_0000)),
];

/// The word of a directory or a file, if it has one.
pub(crate) fn word_of(gfid: Gfid) -> Option<&'static str> {
    for (word, other) in GFIDS {
        if other == gfid {
            return Some(word);
        }
    }
    None
}

/// The directory or file of a word, if it has one.
fn gfid_of(word: &str) -> Option<Gfid> {
    for (other, gfid) in GFIDS {
        if other == word {
            return Some(gfid);
        }
    }
    None
}

/// The bytes of a word: none for `-`, and else `~` stands for a zero byte.
fn unescaped(alloc: Global, word: &str) -> Result<Bytes, Fault>
    ensures { IfOk result IsValue }
{
    let mut bytes = Vec::new(alloc);
    if word != "-" {
        for byte in word.bytes() {
            bytes.push(if byte == b'~' { 0 } else { byte })?;
        }
    }
    if bytes.len() > 65_535 {
        return Err(Fault::Unreadable);
    }
    Ok(Bytes::new(bytes))
}

/// The words of a line that are left. A word that is not what was asked for is noted, and something
/// is given in its place, so that a line is read to its end before it is refused.
#[derive(Drop)]
pub(crate) struct Words<'a> {
    alloc: Global,
    bricks: u16,
    rest: &'a str,
    /// Whether a word was not what was asked for.
    pub(crate) is_refused: bool,
    ghost some: { 1 ≤ bricks },
}

impl<'a> Words<'a> {
    /// The words of a line about a brick of a volume of so many.
    pub(crate) fn new(alloc: Global, bricks: u16, line: &'a str) -> Words<'a>
        requires { 1 ≤ bricks }
        ensures { result.bricks ≡ bricks }
    {
        Words {
            alloc,
            bricks,
            rest: line,
            is_refused: false,
        }
    }

    /// The next word, or nothing.
    pub(crate) fn word(&mut self) -> &'a str
        ensures { self.new.bricks ≡ self.old.bricks }
    {
        let text = self.rest.trim_start();
        let (word, rest) = text.split_once(' ').unwrap_or((text, ""));
        self.rest = rest;
        word
    }

    /// Each word has to be what was asked for, and nothing may be left.
    pub(crate) fn end(&self) -> Result<(), Fault> {
        if self.is_refused || !self.rest.is_empty() {
            return Err(Fault::Unreadable);
        }
        Ok(())
    }

    /// A number.
    pub(crate) fn number(&mut self) -> u64
        ensures { self.new.bricks ≡ self.old.bricks }
    {
        match self.word().parse::<u64>() {
            Ok(number) => number,
            Err(_) => {
                self.is_refused = true;
                0
            }
        }
    }

    /// A number of a client, a brick or a depth.
    pub(crate) fn short(&mut self) -> u16
        ensures { self.new.bricks ≡ self.old.bricks }
    {
        match u16::try_from(self.number()) {
            Ok(number) => number,
            Err(_) => {
                self.is_refused = true;
                0
            }
        }
    }

    /// A brick of the volume.
    pub(crate) fn brick(&mut self) -> BrickNo
        ensures same { self.new.bricks ≡ self.old.bricks }
        ensures within { result.0 < self.old.bricks }
    {
        let number = self.short();
        if number < self.bricks {
            return BrickNo(number);
        }
        self.is_refused = true;
        BrickNo(0)
    }

    /// A directory or a file.
    pub(crate) fn gfid(&mut self) -> Gfid
        ensures { self.new.bricks ≡ self.old.bricks }
    {
        let word = self.word();
        if let Some(gfid) = gfid_of(word) {
            return gfid;
        }
        match word.parse::<u64>() {
            Ok(number) => Gfid(u128::from(number)),
            Err(_) => {
                self.is_refused = true;
                Gfid::ROOT
            }
        }
    }

    /// A directory that is to be made.
    pub(crate) fn made(&mut self) -> Gfid
        ensures same { self.new.bricks ≡ self.old.bricks }
        ensures may { MayBeMade self.old.bricks result }
    {
        let made = self.gfid();
        if made.home().0 < self.bricks && made != Gfid::ROOT {
            return made;
        }
        self.is_refused = true;
        Gfid(0)
    }

    /// A name.
    pub(crate) fn name(&mut self) -> Name
        ensures { self.new.bricks ≡ self.old.bricks }
    {
        let word = self.word().as_bytes();
        if word.len() > LONGEST_NAME {
            self.is_refused = true;
            return Name::of(&[]);
        }
        Name::of(word)
    }

    /// Bytes: `-` for none, and in a text `~` for a zero byte.
    pub(crate) fn bytes(&mut self) -> Bytes
        ensures same { self.new.bricks ≡ self.old.bricks }
        ensures short { IsValue result }
    {
        match unescaped(self.alloc, self.word()) {
            Ok(bytes) => bytes,
            Err(_) => {
                self.is_refused = true;
                Bytes::new(Vec::new(self.alloc))
            }
        }
    }

    /// The value of a linkto, spelled as bytes are.
    pub(crate) fn linkto(&mut self) -> LinktoValue
        ensures same { self.new.bricks ≡ self.old.bricks }
        ensures short { IsValue result }
    {
        let bytes = self.bytes();
        if bytes.as_slice().len() > LONGEST_LINKTO {
            self.is_refused = true;
            return LinktoValue::new(&[]);
        }
        LinktoValue::new(bytes.as_slice())
    }

    /// The attribute of a directory, or none: `-`.
    pub(crate) fn value(&mut self) -> Option<Bytes>
        ensures same { self.new.bricks ≡ self.old.bricks }
        ensures short { IfSome result IsValue }
    {
        let bytes = self.bytes();
        if bytes.as_slice().is_empty() {
            return None;
        }
        Some(bytes)
    }

    /// The attribute of a directory as a request carries it, of 16 bytes, or none.
    pub(crate) fn layout(&mut self) -> Option<LayoutValue>
        ensures same { self.new.bricks ≡ self.old.bricks }
        ensures short { IfSome result IsValue }
    {
        let value = self.value()?;
        match <[u8; 16]>::try_from(value.as_slice()) {
            Ok(bytes) => Some(LayoutValue::new(bytes)),
            Err(_) => {
                self.is_refused = true;
                None
            }
        }
    }

    /// The key of a lock.
    pub(crate) fn key(&mut self) -> Key
        ensures { self.new.bricks ≡ self.old.bricks }
    {
        match self.word() {
            "rebalance" => Key::Rebalance,
            "dir" => Key::Dir(self.gfid()),
            "entry" => Key::Entry(self.gfid(), self.name()),
            "content" => Key::Content(self.gfid()),
            _ => {
                self.is_refused = true;
                Key::Rebalance
            }
        }
    }

    /// How a lock is held.
    pub(crate) fn mode(&mut self) -> Mode
        ensures { self.new.bricks ≡ self.old.bricks }
    {
        match self.word() {
            "shared" => Mode::Shared,
            "exclusive" => Mode::Exclusive,
            _ => {
                self.is_refused = true;
                Mode::Shared
            }
        }
    }
}
