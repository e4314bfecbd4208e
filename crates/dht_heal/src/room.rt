//! The memory of a heal, which is taken before its first request.

ghost use Rattle.std.specs.Prelude.{◌≡◌, IfOk, replicate};
ghost use Rattle.dht_types.specs.Gfid.{root};
ghost use Rattle.dht_section.specs.Looks.{with_at};
ghost use Rattle.dht_heal.specs.Heal.{first_room, longest, path_at, plan_by, with_place};

use dht_types::identifiers::Gfid;
use dht_types::volumes::{MOST_BRICKS, Weights};
use dht_xattr::layout::Layout;
use dht_xattr::plan::plan_of;
use std::alloc::{AllocError, Global};
use std::marker::Model;

/// The most directories on a way up to the root: a directory is at most 64 deep.
pub const LONGEST: usize = 65;

/// Directories, each above the one before it. Contracts see them as a list.
#[derive(Drop)]
pub struct Path {
    each: Vec<Gfid>,
}

impl Model for Path {
    ghost use Rattle.std.specs.Prelude.{List};
    ghost use Rattle.dht_types.specs.declared.identifiers.Gfid.{Gfid};

    ghost Value = { List Gfid };

    ghost view = { λ p. p.each.items };
}

/// The memory of a heal: room for the directories from one up to the root, and the weights of the
/// bricks, by which layouts are planned.
#[derive(Drop)]
pub struct HealRoom {
    pub path: Path,
    pub weights: Weights,
}

impl Path {
    /// Room for a path up to the root.
    fn new(alloc: Global) -> Result<Path, AllocError>
        ensures { IfOk result (λ p. p ≡ replicate longest root) }
    {
        let mut each = Vec::new(alloc);
        each.resize(LONGEST, Gfid::ROOT)?;
        Ok(Path { each })
    }

    /// The directory at a place.
    pub fn get(&self, place: usize) -> Gfid
        ensures { result ≡ path_at self.now place }
    {
        match self.each.as_slice().get(place) {
            Some(directory) => *directory,
            None => Gfid::ROOT,
        }
    }

    /// Puts a directory at a place. It takes no memory.
    pub fn set(&mut self, place: usize, directory: Gfid)
        ensures { self.new ≡ with_at self.old place directory }
    {
        if place < self.each.len() {
            self.each[place] = directory;
        }
    }
}

impl HealRoom {
    /// The memory of a heal in a volume whose bricks have these weights.
    pub fn new(alloc: Global, weights: &Weights) -> Result<HealRoom, AllocError>
        ensures { IfOk result (λ r. r ≡ first_room weights.now) }
    {
        Ok(HealRoom {
            path: Path::new(alloc)?,
            weights: weights.copied(alloc)?,
        })
    }

    /// The same memory, with a directory at a place of the path.
    pub(crate) fn with(self, place: usize, directory: Gfid) -> HealRoom
        ensures { result ≡ with_place self place directory }
    {
        let HealRoom { mut path, weights } = self;
        path.set(place, directory);
        HealRoom { path, weights }
    }

    /// The layout that is planned for a directory.
    pub fn plan(&self, directory: Gfid) -> Layout
        ensures { result ≡ plan_by self.now.weights directory }
    {
        if self.weights.as_slice().len() <= MOST_BRICKS {
            plan_of(&self.weights, directory)
        } else {
            Layout::empty()
        }
    }
}
