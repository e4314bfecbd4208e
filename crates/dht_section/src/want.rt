//! What a section is wanted for, and what it then locks and looks at: each lock once and each name
//! once, in order.

ghost use Rattle.std.specs.Prelude.{◌≡◌, ◌++◌, ℕ, List, [], ◌∷◌, map, length, IfOk};
ghost use Rattle.std.specs.List.{list_any};
ghost use Rattle.dht_types.specs.declared.identifiers.Gfid.{Gfid as AGfid};
ghost use Rattle.dht_types.specs.declared.locks.Mode.{Mode as AMode};
ghost use Rattle.dht_section.specs.Claims.{rank_cmp};
ghost use Rattle.dht_section.specs.Looks.{with_at};
ghost use Rattle.dht_section.specs.Pairs.{lower, upper, pair_scope, aimed_scope};
ghost use Rattle.dht_section.specs.Want.{dir_key, name_key, keys_of, entry_cmp, IsSorting, IsScope, IsOfOne, Scoped, key_at, name_at, place_of, is_alone, mode_of, lock_brick};

use dht_types::identifiers::{BrickNo, Gfid};
use dht_types::locks::{Key, Mode};
use dht_types::names::Name;
use std::alloc::{AllocError, Global};
use std::marker::Model;

/// What a section is wanted for: directories, each with the mode of its lock, and names in them.
/// Contracts see it as these two lists.
#[derive(Drop)]
pub struct Want {
    dirs: Vec<(Gfid, Mode)>,
    names: Vec<(Gfid, Name)>,
}

impl Model for Want {
    ghost use Rattle.dht_section.specs.Want.{Wanted};

    ghost Value = { Wanted };

    ghost view = { λ w. record { dirs = w.dirs.items; names = w.names.items } };
}

impl Want {
    /// These directories and names. It takes no memory.
    pub fn new(dirs: Vec<(Gfid, Mode)>, names: Vec<(Gfid, Name)>) -> Want
        ensures dirs { result.dirs ≡ dirs.items }
        ensures names { result.names ≡ names.items }
    {
        Want { dirs, names }
    }

    /// This one name, with its directory, whose lock has this mode.
    pub fn of_name(
        alloc: Global,
        directory: Gfid,
        mode: Mode,
        name: Name,
    ) -> Result<Want, AllocError>
        ensures dirs { IfOk result (λ w. w.dirs ≡ (directory, mode) ∷ []) }
        ensures names { IfOk result (λ w. w.names ≡ (directory, name) ∷ []) }
    {
        let mut dirs = Vec::new(alloc);
        dirs.push((directory, mode))?;
        let mut names = Vec::new(alloc);
        names.push((directory, name))?;
        Ok(Want { dirs, names })
    }
}

/// Adds the key of each directory.
fn add_dirs(keys: &mut Vec<Key>, dirs: &[(Gfid, Mode)]) -> Result<(), AllocError>
    ensures { IfOk result (λ _. keys.new.items ≡ keys.old.items ++ map dir_key dirs.now) }
{
    for dir in dirs {
        keys.push(Key::Dir(dir.0))?;
    }
    Ok(())
}

/// Adds the key of each name.
fn add_names(keys: &mut Vec<Key>, names: &[(Gfid, Name)]) -> Result<(), AllocError>
    ensures { IfOk result (λ _. keys.new.items ≡ keys.old.items ++ map name_key names.now) }
{
    for name in names {
        keys.push(Key::Entry(name.0, name.1))?;
    }
    Ok(())
}

/// The keys of the locks of directories and names, as they come.
fn keys_of(
    alloc: Global,
    dirs: &[(Gfid, Mode)],
    names: &[(Gfid, Name)],
) -> Result<Vec<Key>, AllocError>
    ensures { IfOk result (λ keys. keys.items ≡ keys_of dirs.now names.now) }
{
    let mut keys = Vec::new(alloc);
    add_dirs(&mut keys, dirs)?;
    add_names(&mut keys, names)?;
    Ok(keys)
}

/// Puts keys in order, each once.
fn sort_keys(keys: &mut Vec<Key>)
    ensures { IsSorting rank_cmp keys.old.items keys.new.items }
{
    keys.sort_unstable();
    keys.dedup();
}

/// Puts names in order, each once.
fn sort_names(names: &mut Vec<(Gfid, Name)>)
    ensures { IsSorting entry_cmp names.old.items names.new.items }
{
    names.sort_unstable();
    names.dedup();
}

/// Whether the directory is wanted alone.
fn is_alone(dirs: &[(Gfid, Mode)], directory: Gfid) -> bool
    ensures { result ≡ list_any (is_alone directory) dirs.now }
{
    dirs.iter()
        .any(|dir| dir.0 == directory && dir.1 == Mode::Exclusive)
}

/// The directory whose lock comes first of two.
fn lower(directory: Gfid, own: Gfid) -> Gfid
    ensures { result ≡ lower directory own }
{
    if own.0 < directory.0 { own } else { directory }
}

/// The directory whose lock comes last of two.
fn upper(directory: Gfid, own: Gfid) -> Gfid
    ensures { result ≡ upper directory own }
{
    if own.0 < directory.0 { directory } else { own }
}

/// Puts an element at a place of a list, if there is such a place.
fn set_at<T: Copy>(list: &mut Vec<T>, place: usize, element: T)
    ensures { list.new.items ≡ with_at list.old.items place element }
{
    if place < list.len() {
        list[place] = element;
    }
}

/// What a section locks and looks at, in order and each once, of a volume of so many bricks.
#[derive(Drop)]
pub struct Scope {
    bricks: u16,
    dirs: Vec<(Gfid, Mode)>,
    keys: Vec<Key>,
    names: Vec<(Gfid, Name)>,
}

impl Model for Scope {
    ghost use Rattle.dht_section.specs.Want.{Scoped};

    ghost Value = { Scoped };

    ghost view = { λ w. record {
      bricks = w.bricks;
      dirs = w.dirs.items;
      keys = w.keys.items;
      names = w.names.items;
    } };
}

impl Scope {
    /// What is locked and looked at for what is wanted.
    pub fn new(alloc: Global, bricks: u16, want: Want) -> Result<Scope, AllocError>
        ensures { IfOk result (λ w. IsScope bricks want w) }
    {
        let Want { dirs, names } = want;
        let mut names = names;
        let mut keys = keys_of(alloc, dirs.as_slice(), names.as_slice())?;
        sort_keys(&mut keys);
        sort_names(&mut names);
        Ok(Scope {
            bricks,
            dirs,
            keys,
            names,
        })
    }

    /// What is locked and looked at for a name that is a directory's: the lock of the directory in
    /// which it stands is shared, and that of the name's directory is taken alone.
    pub fn of_pair(
        alloc: Global,
        bricks: u16,
        directory: Gfid,
        own: Gfid,
        name: Name,
    ) -> Result<Scope, AllocError>
        ensures { IfOk result (λ w. w ≡ pair_scope bricks directory own name) }
    {
        let mut dirs = Vec::new(alloc);
        dirs.push((directory, Mode::Shared))?;
        dirs.push((own, Mode::Exclusive))?;
        let mut keys = Vec::new(alloc);
        keys.push(Key::Dir(lower(directory, own)))?;
        keys.push(Key::Dir(upper(directory, own)))?;
        keys.push(Key::Entry(directory, name))?;
        let mut names = Vec::new(alloc);
        names.push((directory, name))?;
        Ok(Scope {
            bricks,
            dirs,
            keys,
            names,
        })
    }

    /// The same with this directory for the name's, in the locks' order. It takes no memory.
    pub fn aimed(self, own: Gfid) -> Scope
        ensures { result ≡ aimed_scope self own }
    {
        let (directory, _) = self.name(0);
        let mut scope = self;
        set_at(&mut scope.dirs, 1, (own, Mode::Exclusive));
        set_at(&mut scope.keys, 0, Key::Dir(lower(directory, own)));
        set_at(&mut scope.keys, 1, Key::Dir(upper(directory, own)));
        scope
    }

    /// How many bricks the volume has.
    pub fn bricks(&self) -> u16
        ensures { result ≡ self.now.bricks }
    {
        self.bricks
    }

    /// How many locks there are.
    pub fn locks(&self) -> usize
        ensures { result ≡ length self.now.keys }
    {
        self.keys.len()
    }

    /// How many names there are.
    pub fn names(&self) -> usize
        ensures { result ≡ length self.now.names }
    {
        self.names.len()
    }

    /// The key of the lock at a place in the order.
    pub fn key(&self, place: usize) -> Key
        ensures { result ≡ key_at self.now place }
    {
        match self.keys.as_slice().get(place) {
            Some(key) => *key,
            None => Key::Rebalance,
        }
    }

    /// The name at a place in the order, with its directory.
    pub fn name(&self, place: usize) -> (Gfid, Name)
        ensures { result ≡ name_at self.now place }
    {
        match self.names.as_slice().get(place) {
            Some(name) => *name,
            None => (Gfid(0), Name::of(&[])),
        }
    }

    /// The place of a name in the order, if it is one of the names.
    pub fn place(&self, directory: Gfid, name: &Name) -> Option<usize>
        ensures { result ≡ place_of self.now (directory, name.now) }
    {
        self.names
            .as_slice()
            .iter()
            .position(|each| each.0 == directory && each.1 == *name)
    }

    /// The mode of the lock of a key. A directory that is wanted in both modes is locked alone.
    pub fn mode(&self, key: &Key) -> Mode
        ensures { result ≡ mode_of self.now key.now }
    {
        match key {
            Key::Dir(directory) => {
                if is_alone(self.dirs.as_slice(), *directory) {
                    Mode::Exclusive
                } else {
                    Mode::Shared
                }
            }
            _ => Mode::Exclusive,
        }
    }

    /// The brick on which the lock of a key stands.
    pub fn anchor(&self, key: &Key) -> BrickNo
        ensures { result.0 ≡ lock_brick self.now key.now }
    {
        let directory = match key {
            Key::Dir(directory) => *directory,
            Key::Entry(directory, _) => *directory,
            _ => Gfid::ROOT,
        };
        if self.bricks == 0 {
            BrickNo(0)
        } else {
            directory.anchor(self.bricks)
        }
    }
}

/// A section of one name locks its directory, and then the name, and looks at the name: this is a
/// law for callers, and does nothing.
pub fn one_name_has_two_locks()
    ensures { (bricks : ℕ) (g : AGfid) (mode : AMode) (n : List ℕ) (w : Scoped)
        → IsScope bricks (record { dirs = (g, mode) ∷ []; names = (g, n) ∷ [] }) w
        → IsOfOne bricks g mode n w }
{}
