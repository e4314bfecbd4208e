//! What looks showed of names, one after the other.

ghost use Rattle.std.specs.Prelude.{◌≡◌, IfOk, replicate};
ghost use Rattle.dht_section.specs.Looks.{main_shown, links_shown, hop_shown, links_in, hop_in, what_by, hop_by, with_at, mark_at, linkto_in, linkto_at, has_linkto, lengthened, sight_with, no_sight, not_looked, looked_at, with_looked, is_nodir};

use super::replies::{is_carried, range_shown};
use dht_brick::replies::{FileLook, Given, Reply, Why};
use dht_types::identifiers::{BrickNo, Gfid};
use dht_types::stored::Main;
use dht_xattr::layout::{Layout, MOST_RANGES};
use dht_xattr::linkto::linkto_brick_of;
use dht_xattr::range::Range;
use std::alloc::{AllocError, Global};
use std::marker::Model;

/// Where a name was found: the brick, and the file that the name is.
#[derive(Clone, Copy)]
pub struct Place {
    pub brick: BrickNo,
    pub file: Gfid,
}

/// What a name is.
#[derive(Clone, Copy)]
pub enum What {
    /// Nothing.
    Absent,
    /// This directory.
    Dir(Gfid),
    /// This file, which is on this brick and has so many links there.
    File(Gfid, BrickNo, u64),
}

/// Where a brick's linkto at a name leads.
#[derive(Clone, Copy)]
pub enum Linkto {
    /// The brick has no linkto there.
    No,
    /// To this brick.
    To(BrickNo),
    /// Nowhere: its value names no brick of the volume.
    Unread,
}

/// What some bricks showed of a name and of its directory.
#[derive(Clone, Copy)]
pub struct Sight {
    /// What the name is, by the bricks that were looked at.
    pub what: What,
    /// How often the file was moved, if it is one.
    pub hop: u64,
    /// Where the linktos lead that they have at the name.
    pub linktos: [Linkto; 32],
    /// Which of them have the directory.
    pub copies: [bool; 32],
    /// The range of the directory on each of them.
    pub layout: Layout,
}

/// What all bricks showed of a name and of its directory.
#[derive(Clone, Copy)]
pub struct Looked {
    pub sight: Sight,
    /// The number of the last look's line.
    pub at: u64,
}

/// How many links the look shows of the file.
fn links_in(look: &Option<FileLook>) -> u64
    ensures { result ≡ links_in look.now }
{
    match look {
        Some(look) => look.links,
        None => 0,
    }
}

/// How often the file was moved, as the look shows it.
fn hop_in(look: &Option<FileLook>) -> u64
    ensures { result ≡ hop_in look.now }
{
    match look {
        Some(look) => look.hop,
        None => 0,
    }
}

/// What a name is after a look at one more brick.
fn what_by(what: What, brick: BrickNo, main: &Option<Main>, links: u64) -> What
    ensures { result ≡ what_by what brick main.now links }
{
    match main {
        Some(Main::Dir(directory)) => What::Dir(*directory),
        Some(Main::File(file, _)) => What::File(*file, brick, links),
        _ => what,
    }
}

/// How often the file was moved, after a look at one more brick.
fn hop_by(hop: u64, main: &Option<Main>, shown: u64) -> u64
    ensures { result ≡ hop_by hop main.now shown }
{
    match main {
        Some(Main::File(_, _)) => shown,
        _ => hop,
    }
}

/// Where the linkto that the main part is leads, if it is one, in a volume of so many bricks.
fn linkto_in(bricks: u16, main: &Option<Main>) -> Linkto
    ensures { result ≡ linkto_in bricks main.now }
{
    match main {
        Some(Main::Linkto(value)) => match linkto_brick_of(bricks, value.as_slice()) {
            Some(brick) => Linkto::To(brick),
            None => Linkto::Unread,
        },
        _ => Linkto::No,
    }
}

/// The linktos of bricks, with that of one brick.
fn linked(linktos: [Linkto; 32], brick: BrickNo, linkto: Linkto) -> [Linkto; 32]
    ensures { result ≡ with_at linktos brick.0 linkto }
{
    let mut linktos = linktos;
    if usize::from(brick.0) < linktos.len() {
        linktos[usize::from(brick.0)] = linkto;
    }
    linktos
}

/// The linkto of a brick.
pub fn linkto_at(linktos: &[Linkto; 32], brick: BrickNo) -> Linkto
    ensures { result ≡ linkto_at linktos.now brick.0 }
{
    match linktos.as_slice().get(usize::from(brick.0)) {
        Some(linkto) => *linkto,
        None => Linkto::No,
    }
}

impl Linkto {
    /// Whether there is one.
    pub fn is_there(&self) -> bool
        ensures { result ≡ has_linkto self.now }
    {
        match self {
            Linkto::No => false,
            _ => true,
        }
    }
}

/// The marks of bricks, with that of one brick.
pub fn marked(marks: [bool; 32], brick: BrickNo, mark: bool) -> [bool; 32]
    ensures { result ≡ with_at marks brick.0 mark }
{
    let mut marks = marks;
    if usize::from(brick.0) < marks.len() {
        marks[usize::from(brick.0)] = mark;
    }
    marks
}

/// The mark of a brick.
pub fn mark_at(marks: &[bool; 32], brick: BrickNo) -> bool
    ensures { result ≡ mark_at marks.now brick.0 }
{
    match marks.as_slice().get(usize::from(brick.0)) {
        Some(mark) => *mark,
        None => false,
    }
}

/// Whether the brick has no record of the directory.
pub fn is_nodir(reply: &Reply) -> bool
    ensures { result ≡ is_nodir reply.now }
{
    match reply {
        Reply::Refused(Why::Nodir) => true,
        _ => false,
    }
}

/// The layout with one range more. One of 32 ranges has one for each brick that a volume may have,
/// and stays.
pub fn lengthen(layout: Layout, range: Option<Range>) -> Layout
    ensures { result ≡ lengthened layout range }
{
    if layout.as_slice().len() < MOST_RANGES {
        layout.with(range)
    } else {
        layout
    }
}

impl Sight {
    /// What no brick showed.
    pub fn nothing() -> Sight
        ensures { result ≡ no_sight }
    {
        Sight {
            what: What::Absent,
            hop: 0,
            linktos: [Linkto::No; 32],
            copies: [false; 32],
            layout: Layout::empty(),
        }
    }

    /// What was seen after a look at one more brick, of so many.
    pub fn with(&self, bricks: u16, brick: BrickNo, reply: &Reply) -> Sight
        ensures { result ≡ sight_with bricks self.now brick reply.now }
    {
        let layout = lengthen(self.layout, range_shown(reply));
        let copies = marked(self.copies, brick, is_carried(reply));
        match reply {
            Reply::Ok(Given::Look(look)) => Sight {
                what: what_by(self.what, brick, &look.slot.main, links_in(&look.file)),
                hop: hop_by(self.hop, &look.slot.main, hop_in(&look.file)),
                linktos: linked(self.linktos, brick, linkto_in(bricks, &look.slot.main)),
                copies,
                layout,
            },
            _ => Sight {
                what: self.what,
                hop: self.hop,
                linktos: linked(self.linktos, brick, Linkto::No),
                copies,
                layout,
            },
        }
    }
}

impl Looked {
    /// No look was made.
    pub fn nothing() -> Looked
        ensures { result ≡ not_looked }
    {
        Looked {
            sight: Sight::nothing(),
            at: 0,
        }
    }
}

/// What was seen of each name, with room for all names. Contracts see it as a list.
#[derive(Drop)]
pub struct Looks {
    each: Vec<Looked>,
}

impl Model for Looks {
    ghost use Rattle.std.specs.Prelude.{List};
    ghost use Rattle.dht_section.specs.declared.looks.Looked.{Looked};

    ghost Value = { List Looked };

    ghost view = { λ l. l.each.items };
}

impl Looks {
    /// Room for so many names.
    pub fn new(alloc: Global, names: usize) -> Result<Looks, AllocError>
        ensures { IfOk result (λ looks. looks ≡ replicate names not_looked) }
    {
        let mut each = Vec::new(alloc);
        each.resize(names, Looked::nothing())?;
        Ok(Looks { each })
    }

    /// What was seen of the name at a place.
    pub fn get(&self, place: usize) -> Looked
        ensures { result ≡ looked_at self.now place }
    {
        match self.each.as_slice().get(place) {
            Some(looked) => *looked,
            None => Looked::nothing(),
        }
    }

    /// Keeps what was seen of the name at a place. It takes no memory.
    pub fn set(&mut self, place: usize, looked: Looked)
        ensures { self.new ≡ with_looked self.old place looked }
    {
        if place < self.each.len() {
            self.each[place] = looked;
        }
    }
}
