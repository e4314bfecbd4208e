//! Lookups of a file's name, over volumes of one to five bricks: with the file on the name's
//! holder, and away from it.

use crate::bricks::{Bricks, Ended};
use dht_brick::requests::NameRequest;
use dht_resolve::cache::Cache;
use dht_resolve::lookup::{Lookup, Resolved, holder_in};
use dht_section::location::Location;
use dht_types::calls::Answer;
use dht_types::identifiers::{BrickNo, Gfid};
use dht_types::linktos::LinktoValue;
use dht_types::locks::Key;
use dht_types::names::Name;
use dht_types::stored::{Main, Slot};
use dht_xattr::layout::Layout;
use dht_xattr::linkto::linkto_value_of;
use std::alloc::Global;
use std::process::Abort;
use std::test::Fail;

const FILE: Gfid = Gfid(0x10000);

/// A name of one letter in the root, its holder, the brick that has its file, and the value of a
/// linkto to that brick.
#[derive(Clone, Copy)]
struct Trial {
    bricks: u16,
    letter: u8,
    holder: BrickNo,
    place: BrickNo,
    linkto: [u8; 8],
}

/// Names whose file is on its holder. The holders are those of another implementation, in Python.
fn at_holder() -> [Trial; 4] {
    [
        Trial::new(1, b'a', 0, 0, *b"brick-0\0"),
        Trial::new(2, b'd', 1, 1, *b"brick-1\0"),
        Trial::new(3, b'b', 1, 1, *b"brick-1\0"),
        Trial::new(5, b'f', 3, 3, *b"brick-3\0"),
    ]
}

/// Names whose file is not on its holder.
fn away() -> [Trial; 6] {
    [
        Trial::new(2, b'a', 0, 1, *b"brick-1\0"),
        Trial::new(2, b'd', 1, 0, *b"brick-0\0"),
        Trial::new(3, b'b', 1, 2, *b"brick-2\0"),
        Trial::new(3, b'd', 2, 0, *b"brick-0\0"),
        Trial::new(5, b'f', 3, 1, *b"brick-1\0"),
        Trial::new(5, b'd', 4, 0, *b"brick-0\0"),
    ]
}

impl Trial {
    fn new(bricks: u16, letter: u8, holder: u16, place: u16, linkto: [u8; 8]) -> Trial {
        Trial {
            bricks,
            letter,
            holder: BrickNo(holder),
            place: BrickNo(place),
            linkto,
        }
    }

    fn name(&self) -> Name {
        Name::of(&[self.letter])
    }

    /// A linkto to the file's brick.
    fn linkto(&self) -> LinktoValue {
        LinktoValue::new(&self.linkto)
    }

    /// The bricks, with the file where it is, and a linkto of this value at the holder, if one is
    /// given.
    fn begin(&self, alloc: Global, linkto: Option<&LinktoValue>) -> Result<Bricks, Fail> {
        let mut bricks = Bricks::new(alloc, self.bricks)?;
        let create = NameRequest::Create(Gfid::ROOT, self.name(), FILE);
        bricks.change(self.place, create)?;
        if let Some(value) = linkto {
            let make = NameRequest::MakeLinkto(Gfid::ROOT, self.name(), *value);
            bricks.change(self.holder, make)?;
        }
        Ok(bricks)
    }

    /// The lookup of the name, by a client that knows this layout of the root, or none.
    fn look_up(
        &self,
        alloc: Global,
        bricks: &mut Bricks,
        layout: Option<Layout>,
    ) -> Result<Ended, Fail> {
        let mut cache = Cache::new();
        if let Some(layout) = layout {
            cache.put(alloc, Gfid::ROOT, layout)?;
        }
        let location = Location {
            directory: Gfid::ROOT,
            name: self.name(),
            bricks: self.bricks,
        };
        bricks.carry_out(Lookup::begin(alloc, &cache, location)?)
    }

    /// Whether this is the layout of the root: with a range for each brick, and with the holder.
    fn is_layout(&self, layout: &Layout) -> bool {
        layout.as_slice().len() == usize::from(self.bricks)
            && holder_in(layout, &self.name()) == Some(self.holder)
    }

    /// Whether a brick's slot at the name is what it is to be where the holder has a linkto of this
    /// value, or none.
    fn is_right(&self, brick: BrickNo, slot: &Slot, linkto: Option<&LinktoValue>) -> bool {
        match (&slot.main, linkto) {
            (Some(Main::File(file, None)), _) => brick == self.place && *file == FILE,
            (Some(Main::Linkto(value)), Some(linkto)) => {
                brick == self.holder && value.as_slice() == linkto.as_slice()
            }
            (None, None) => brick != self.place,
            (None, Some(_)) => brick != self.place && brick != self.holder,
            _ => false,
        }
    }
}

/// A lookup by a client that knows this layout, or none, answers the file, with its brick, at this
/// line, after so many requests. What it learned.
fn assert_finds(
    rt: &(impl Abort + AllocGlobal),
    trial: &Trial,
    bricks: &mut Bricks,
    layout: Option<Layout>,
    at: u64,
    requests: u64,
) -> Result<Option<Layout>, Fail> {
    let count = trial.bricks;
    let Ended {
        resolved,
        requests: sent,
    } = trial.look_up(rt.alloc(), bricks, layout)?;
    let Resolved { answered, room: _ } = resolved;
    assert!(rt;
        matches!(answered.finish.answer, Answer::File(FILE)),
        "{count} bricks"
    );
    assert!(rt; answered.place == Some(trial.place), "{count} bricks");
    assert_eq!(rt; answered.finish.at, Some(at), "{count} bricks");
    assert_eq!(rt; sent, requests, "{count} bricks");
    Ok(answered.layout)
}

/// A first lookup answers the file at this line, after so many requests, and learns the layout; and
/// one by a client that has it in its cache answers it with its last of so many.
fn assert_found(
    rt: &(impl Abort + AllocGlobal),
    trial: &Trial,
    bricks: &mut Bricks,
    at: u64,
    requests: u64,
    next: u64,
) -> Result<(), Fail> {
    let Some(layout) = assert_finds(rt, trial, bricks, None, at, requests)? else {
        return Err(Fail::new("no layout"));
    };
    assert!(rt; trial.is_layout(&layout), "{} bricks", trial.bricks);
    assert_finds(rt, trial, bricks, Some(layout), next, next)?;
    Ok(())
}

/// The file is where it was, the holder has a linkto of this value or none, no other brick has
/// anything at the name, and nobody holds a lock of it.
fn assert_kept(
    rt: &(impl Abort + AllocGlobal),
    trial: &Trial,
    bricks: &mut Bricks,
    linkto: Option<&LinktoValue>,
) -> Result<(), Fail> {
    for number in 0..trial.bricks {
        let slot = bricks.slot(BrickNo(number), trial.name())?;
        assert!(rt; slot.standby.is_none());
        assert!(rt;
            trial.is_right(BrickNo(number), &slot, linkto),
            "{number} of {}",
            trial.bricks
        );
    }
    bricks.is_free(&Key::Dir(Gfid::ROOT))?;
    bricks.is_free(&Key::Entry(Gfid::ROOT, trial.name()))
}

/// With a linkto of this value at the holder, or none, a first lookup finds the file under the
/// locks, after it has looked at so many bricks before them; and it lays a linkto there, which
/// leads the next lookup to the file.
fn assert_searched(
    rt: &(impl Abort + AllocGlobal),
    trial: &Trial,
    linkto: Option<&LinktoValue>,
    looks: u16,
) -> Result<(), Fail> {
    let count = u64::from(trial.bricks);
    let mut bricks = trial.begin(rt.alloc(), linkto)?;
    // the ranges of all bricks, the looks, two locks, and a look at every brick
    let last_look = count + u64::from(looks) + 2 + count;
    // the linkto, and two unlocks
    assert_found(rt, trial, &mut bricks, last_look, last_look + 3, 2)?;
    assert_kept(rt, trial, &mut bricks, Some(&trial.linkto()))
}

#[test]
fn the_holder_has_the_file(rt: HostRuntime) -> Result<(), Fail> {
    for trial in &at_holder() {
        let mut bricks = trial.begin(rt.alloc(), None)?;
        let requests = u64::from(trial.bricks) + 1;
        assert_found(&rt, trial, &mut bricks, requests, requests, 1)?;
        assert_kept(&rt, trial, &mut bricks, None)?;
    }
    Ok(())
}

#[test]
fn a_linkto_leads_to_the_file(rt: HostRuntime) -> Result<(), Fail> {
    for trial in &away() {
        let linkto = trial.linkto();
        let mut bricks = trial.begin(rt.alloc(), Some(&linkto))?;
        let requests = u64::from(trial.bricks) + 2;
        assert_found(&rt, trial, &mut bricks, requests, requests, 2)?;
        assert_kept(&rt, trial, &mut bricks, Some(&linkto))?;
    }
    Ok(())
}

#[test]
fn a_linkto_that_names_no_brick_is_replaced(rt: HostRuntime) -> Result<(), Fail> {
    let values = [
        LinktoValue::new(b"brick-5\0"),
        LinktoValue::new(b"nobody"),
        LinktoValue::new(b""),
    ];
    for trial in &away() {
        for value in &values {
            assert_searched(&rt, trial, Some(value), 1)?;
        }
    }
    Ok(())
}

#[test]
fn a_linkto_to_a_brick_without_the_file_is_replaced(rt: HostRuntime) -> Result<(), Fail> {
    for trial in &away() {
        let itself = linkto_value_of(trial.bricks, trial.holder);
        assert_searched(&rt, trial, Some(&itself), 2)?;
    }
    Ok(())
}

#[test]
fn a_linkto_comes_where_none_is(rt: HostRuntime) -> Result<(), Fail> {
    for trial in &away() {
        assert_searched(&rt, trial, None, 1)?;
    }
    Ok(())
}

/// The memory of a first lookup, and the layout that it has read, serve another, which finds the
/// file with its last of so many requests.
fn assert_again(
    rt: &(impl Abort + AllocGlobal),
    trial: &Trial,
    linkto: Option<&LinktoValue>,
    next: u64,
) -> Result<(), Fail> {
    let mut bricks = trial.begin(rt.alloc(), linkto)?;
    let Ended {
        resolved,
        requests: _,
    } = trial.look_up(rt.alloc(), &mut bricks, None)?;
    let Resolved { answered, room } = resolved;
    let Some(room) = room else {
        return Err(Fail::new("no memory"));
    };
    let again = Lookup::again(room, answered.location, answered.layout);
    let Ended { resolved, requests } = bricks.carry_out(again)?;
    let Resolved { answered, room } = resolved;
    assert_eq!(rt; requests, next, "{} bricks", trial.bricks);
    assert!(rt; matches!(answered.finish.answer, Answer::File(FILE)));
    assert!(rt; answered.place == Some(trial.place));
    assert!(rt; room.is_some());
    bricks.is_free(&Key::Dir(Gfid::ROOT))
}

#[test]
fn a_lookup_runs_again_in_the_same_memory(rt: HostRuntime) -> Result<(), Fail> {
    for trial in &at_holder() {
        assert_again(&rt, trial, None, 1)?;
    }
    for trial in &away() {
        // the first one has searched under its locks and laid the linkto
        assert_again(&rt, trial, None, 2)?;
    }
    Ok(())
}
