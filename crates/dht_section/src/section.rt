//! The section: the guarded part of a call. It takes the locks of a list of directories and names,
//! in order, and then looks for each name on every brick.

ghost use Rattle.std.specs.Prelude.{◌≡◌, ◌<◌, ℕ, List, Some, true, IfOk, option_map, replicate, length};
ghost use Rattle.dht_types.specs.Gfid.{Entry, root};
ghost use Rattle.dht_types.specs.declared.identifiers.Gfid.{Gfid as AGfid};
ghost use Rattle.dht_types.specs.declared.locks.Mode.{Mode as AMode};
ghost use Rattle.dht_brick.specs.Parts.{is_linkto};
ghost use Rattle.dht_section.specs.Disk.{slot_at, holder_of};
ghost use Rattle.dht_section.specs.Looks.{IsNoDir, mark_at, linkto_at, has_linkto, not_looked};
ghost use Rattle.dht_section.specs.Rely.{Rely};
ghost use Rattle.dht_section.specs.Scene.{Scene, Sound, MayAnswer};
ghost use Rattle.dht_section.specs.declared.section.Held.{Held as AHeld};
ghost use Rattle.dht_section.specs.Stages.{Moves};
ghost use Rattle.dht_section.specs.Want.{IsScope, IsWhole};
ghost use Rattle.dht_section.specs.Section.{section_stage, opened_ending, MayBegin, IsFirst, begun, prepared_for, first_section, StartsWith, last_lock, lock_ask, look_ask, unlock_ask, opened_as, all_locked, locked, lock_answered, unless_fault, name_looked, looked, shows_gone, look_answered, unlocked, section_after, KeepsScope, NamesGone, NotesFault, LeavesUnlocks, turn_layout, section_taught, held_layout, held_looked, held_holder, IsHeld, IsLooked, IsWanted};
ghost use Rattle.dht_section.specs.Closing.{closing_of, Closes};
ghost use Rattle.dht_section.specs.Release.{release_of, Releases};
ghost use Rattle.dht_section.specs.SectionLaws.{section_permitted, section_stable};

use super::closing::Closing;
use super::looks::{Linkto, Looked, Looks, Sight, What, is_nodir, linkto_at, mark_at};
use super::machine::{Ask, Finish, Machine, Turn};
use super::release::Release;
use super::replies::{fault_of, is_carried, is_shown};
use super::want::{Scope, Want};
use dht_brick::replies::Reply;
use dht_brick::requests::{NameRequest, Request};
use dht_hash::dm_hash;
use dht_types::errors::Errno;
use dht_types::identifiers::{BrickNo, Gfid};
use dht_types::locks::Mode;
use dht_types::names::Name;
use dht_xattr::layout::{Layout, holder};
use std::alloc::{AllocError, Global};

/// Why a section is not held.
#[derive(Clone, Copy)]
pub enum Unheld {
    /// The home of this directory had no record of it, at this line.
    Gone(Gfid, u64),
    /// A request was not served, and the call answers this error.
    Stopped(Errno),
}

/// A section. Each stage is one request.
#[derive(Drop)]
pub enum Section {
    /// The locks below this one are held. There is room for what will be seen of the names.
    Locking(Scope, usize, Looks),
    /// All locks are held, the names below this one were looked at on all bricks, and this one on
    /// the bricks below this brick.
    Looking(Scope, Looks, usize, BrickNo, Sight),
    /// The locks above this one, as far as they were asked for, were given back.
    Unlocking(Scope, usize, Unheld),
}

/// A section that has not begun: what it will lock and look at, and room for what it will see.
#[derive(Drop)]
pub struct Prepared {
    pub scope: Scope,
    pub looks: Looks,
}

/// All locks are held, and all names were looked at on all bricks. As long as the locks are held,
/// each name stands so.
#[derive(Drop)]
pub struct Held {
    pub scope: Scope,
    pub looks: Looks,
}

/// How a section ends.
#[derive(Drop)]
pub enum Opened {
    Held(Held),
    /// The home of this directory had no record of it, at this line. The locks were given back.
    Gone(Gfid, u64),
    /// A request was not served, and the call answers this error. The locks were given back.
    Stopped(Errno),
}

/// What a name is, and the line of its last look.
#[derive(Clone, Copy)]
pub struct Settled {
    pub what: What,
    pub looked: u64,
}

/// The request for a lock.
fn lock_ask(scope: &Scope, place: usize) -> Ask
    ensures { result ≡ lock_ask scope.now place }
{
    let key = scope.key(place);
    Ask {
        brick: scope.anchor(&key),
        request: Request::Lock(key, scope.mode(&key)),
    }
}

/// The look at a name on a brick.
fn look_ask(scope: &Scope, place: usize, brick: BrickNo) -> Ask
    ensures { result ≡ look_ask scope.now place brick }
{
    let (directory, name) = scope.name(place);
    Ask {
        brick,
        request: Request::OnNames(NameRequest::Look(directory, name)),
    }
}

/// The request that gives a lock back.
pub(crate) fn unlock_ask(scope: &Scope, place: usize) -> Ask
    ensures { result ≡ unlock_ask scope.now place }
{
    let key = scope.key(place);
    Ask {
        brick: scope.anchor(&key),
        request: Request::Unlock(key),
    }
}

/// The place of the last lock.
pub(crate) fn last_lock(scope: &Scope) -> usize
    ensures { result ≡ last_lock scope.now }
{
    scope.locks().saturating_sub(1)
}

/// All locks are held.
fn all_locked(scope: Scope, looks: Looks) -> Turn<Section, Opened>
    ensures { result ≡ all_locked scope looks }
{
    if 0 < scope.names() {
        let first = BrickNo(0);
        Turn::Go(Section::Looking(scope, looks, 0, first, Sight::nothing()))
    } else {
        Turn::Done(Opened::Held(Held { scope, looks }))
    }
}

/// The lock at a place was granted.
fn locked(scope: Scope, place: usize, looks: Looks) -> Turn<Section, Opened>
    ensures { result ≡ locked scope place looks }
{
    if 1 < scope.locks().saturating_sub(place) {
        Turn::Go(Section::Locking(scope, place + 1, looks))
    } else {
        all_locked(scope, looks)
    }
}

/// The lock at a place was granted, or another client holds it.
fn lock_answered(scope: Scope, place: usize, looks: Looks, reply: &Reply) -> Turn<Section, Opened>
    ensures { result ≡ lock_answered scope place looks reply.now }
{
    if is_carried(reply) {
        locked(scope, place, looks)
    } else {
        Turn::Go(Section::Locking(scope, place, looks))
    }
}

/// The name at a place was looked at on all bricks.
fn name_looked(scope: Scope, looks: Looks, place: usize) -> Turn<Section, Opened>
    ensures { result ≡ name_looked scope looks place }
{
    if 1 < scope.names().saturating_sub(place) {
        let first = BrickNo(0);
        let next = place + 1;
        Turn::Go(Section::Looking(scope, looks, next, first, Sight::nothing()))
    } else {
        Turn::Done(Opened::Held(Held { scope, looks }))
    }
}

/// The name at a place was looked at on this brick and those before it, and this was seen.
fn looked(
    scope: Scope,
    looks: Looks,
    place: usize,
    brick: BrickNo,
    sight: Sight,
    at: u64,
) -> Turn<Section, Opened>
    ensures { result ≡ looked scope looks place brick sight at }
{
    if 1 < scope.bricks().saturating_sub(brick.0) {
        let next = BrickNo(brick.0 + 1);
        Turn::Go(Section::Looking(scope, looks, place, next, sight))
    } else {
        let mut looks = looks;
        looks.set(place, Looked { sight, at });
        name_looked(scope, looks, place)
    }
}

/// Whether the reply of this brick shows that there is no such directory: its home has no record.
pub fn shows_gone(directory: Gfid, brick: BrickNo, reply: &Reply) -> bool
    ensures { result ≡ shows_gone directory brick reply.now }
{
    is_nodir(reply) && brick.0 == directory.home().0
}

/// The look at a name on a brick was answered.
fn look_answered(
    scope: Scope,
    looks: Looks,
    place: usize,
    brick: BrickNo,
    sight: Sight,
    reply: &Reply,
    at: u64,
) -> Turn<Section, Opened>
    ensures { result ≡ look_answered scope looks place brick sight reply.now at }
{
    let (directory, _) = scope.name(place);
    if shows_gone(directory, brick, reply) {
        let last = last_lock(&scope);
        return Turn::Go(Section::Unlocking(scope, last, Unheld::Gone(directory, at)));
    }
    if is_shown(reply) {
        let sight = sight.with(scope.bricks(), brick, reply);
        looked(scope, looks, place, brick, sight, at)
    } else {
        Turn::Go(Section::Looking(scope, looks, place, brick, sight))
    }
}

impl Unheld {
    /// How the section ends.
    fn opened(self) -> Opened
        ensures { result ≡ opened_as self }
    {
        match self {
            Unheld::Gone(directory, at) => Opened::Gone(directory, at),
            Unheld::Stopped(errno) => Opened::Stopped(errno),
        }
    }
}

/// The lock at a place was given back.
fn unlocked(scope: Scope, place: usize, unheld: Unheld) -> Turn<Section, Opened>
    ensures { result ≡ unlocked scope place unheld }
{
    if 0 < place {
        Turn::Go(Section::Unlocking(scope, place - 1, unheld))
    } else {
        Turn::Done(unheld.opened())
    }
}

impl Prepared {
    /// What the section of what is wanted needs, of a volume of so many bricks.
    pub fn new(alloc: Global, bricks: u16, want: Want) -> Result<Prepared, AllocError>
        ensures scope { IfOk result (λ p. IsScope bricks want p.scope) }
        ensures looks { IfOk result
            (λ p. p.looks ≡ replicate (length p.scope.names) not_looked) }
    {
        let scope = Scope::new(alloc, bricks, want)?;
        let looks = Looks::new(alloc, scope.names())?;
        Ok(Prepared { scope, looks })
    }

    /// What the section of one name needs, whose directory is locked in this mode.
    pub fn of_name(
        alloc: Global,
        bricks: u16,
        directory: Gfid,
        mode: Mode,
        name: Name,
    ) -> Result<Prepared, AllocError>
        ensures { IfOk result (λ p. p ≡ prepared_for bricks directory mode name) }
    {
        let want = Want::of_name(alloc, directory, mode, name)?;
        Prepared::new(alloc, bricks, want)
    }

    /// The section, before its first request. It takes no memory.
    pub fn begin(self) -> Section
        ensures { result ≡ begun self }
    {
        Section::Locking(self.scope, 0, self.looks)
    }
}

impl Section {
    /// The section of what is wanted, of a volume of so many bricks. It takes the memory that the
    /// section will need.
    pub fn begin(alloc: Global, bricks: u16, want: Want) -> Result<Section, AllocError>
        requires { IsWhole want }
        ensures knows { IfOk result
            (λ m. (s : Scene) → MayBegin bricks want s → (section_stage m).knows s) }
        ensures first { IfOk result (λ m. IsFirst bricks want m) }
    {
        let prepared = Prepared::new(alloc, bricks, want)?;
        Ok(prepared.begin())
    }

    /// The section of one name, whose directory is locked in this mode.
    pub fn of_name(
        alloc: Global,
        bricks: u16,
        directory: Gfid,
        mode: Mode,
        name: Name,
    ) -> Result<Section, AllocError>
        ensures { IfOk result (λ m. m ≡ first_section bricks directory mode name) }
    {
        let prepared = Prepared::of_name(alloc, bricks, directory, mode, name)?;
        Ok(prepared.begin())
    }

    /// Where it is after the reply to its request.
    fn after(self, reply: &Reply, at: u64) -> Turn<Section, Opened>
        ensures { result ≡ section_after self reply.now at }
    {
        let fault = fault_of(reply);
        match self {
            Section::Locking(scope, place, looks) => match fault {
                Some(errno) => {
                    Turn::Go(Section::Unlocking(scope, place, Unheld::Stopped(errno)))
                }
                None => lock_answered(scope, place, looks, reply),
            },
            Section::Looking(scope, looks, place, brick, sight) => match fault {
                Some(errno) => {
                    let last = last_lock(&scope);
                    Turn::Go(Section::Unlocking(scope, last, Unheld::Stopped(errno)))
                }
                None => look_answered(scope, looks, place, brick, sight, reply, at),
            },
            Section::Unlocking(scope, place, unheld) => unlocked(scope, place, unheld),
        }
    }
}

impl Machine for Section {
    type Done = Opened;

    ghost stage = { section_stage };

    ghost ending = { opened_ending };

    fn next(&self) -> Ask {
        match self {
            Section::Locking(scope, place, _) => lock_ask(scope, *place),
            Section::Looking(scope, _, place, brick, _) => look_ask(scope, *place, *brick),
            Section::Unlocking(scope, place, _) => unlock_ask(scope, *place),
        }
    }

    fn take(self, reply: Reply, at: u64) -> Turn<Section, Opened>
        ensures moves { Moves section_stage opened_ending self reply at result }
        ensures after { result ≡ section_after self reply at }
        // it is of the same locks and names
        ensures scope { KeepsScope self result }
        // it is stopped exactly where a request of it was not served
        ensures fault { NotesFault self reply result }
        // a directory that was gone is that of one of the names
        ensures gone { (s : Scene) → (section_stage self).knows s → NamesGone self result }
        // what it read of the layout of a name, it hands out
        ensures layout { (e : Entry) → turn_layout e result ≡ section_taught e self reply }
        // before it is held, it has more requests left than there are locks
        ensures left { (s : Scene) → (section_stage self).knows s → LeavesUnlocks self result }
    {
        self.after(&reply, at)
    }

    ghost permitted = { section_permitted };

    ghost stable = { section_stable };
}

impl Held {
    /// What was seen of a name.
    pub(crate) fn looked(&self, directory: Gfid, name: &Name) -> Looked
        ensures { result ≡ held_looked self.now (directory, name.now) }
    {
        match self.scope.place(directory, name) {
            Some(place) => self.looks.get(place),
            None => Looked::nothing(),
        }
    }

    /// What a name is, of those that were wanted, and the line of its last look.
    pub fn found(&self, directory: Gfid, name: &Name) -> Settled
        ensures what { result.what ≡ (held_looked self.now (directory, name.now)).sight.what }
        ensures looked { result.looked ≡ (held_looked self.now (directory, name.now)).at }
    {
        let looked = self.looked(directory, name);
        Settled {
            what: looked.sight.what,
            looked: looked.at,
        }
    }

    /// How often the file of a name was moved.
    pub fn hop(&self, directory: Gfid, name: &Name) -> u64
        ensures { result ≡ (held_looked self.now (directory, name.now)).sight.hop }
    {
        self.looked(directory, name).sight.hop
    }

    /// The layout of the directory of a name.
    pub fn layout(&self, directory: Gfid, name: &Name) -> Layout
        ensures { result ≡ held_layout self.now (directory, name.now) }
    {
        self.looked(directory, name).sight.layout
    }

    /// Where a brick's linkto at a name leads.
    pub fn linkto(&self, directory: Gfid, name: &Name, brick: BrickNo) -> Linkto
        ensures { result
            ≡ linkto_at (held_looked self.now (directory, name.now)).sight.linktos brick.0 }
    {
        linkto_at(&self.looked(directory, name).sight.linktos, brick)
    }

    /// Whether a brick has a linkto at a name.
    pub fn is_linkto(&self, directory: Gfid, name: &Name, brick: BrickNo) -> bool
        ensures { result ≡ has_linkto
            (linkto_at (held_looked self.now (directory, name.now)).sight.linktos brick.0) }
    {
        self.linkto(directory, name, brick).is_there()
    }

    /// Whether a brick has the directory of a name.
    pub fn is_copied(&self, directory: Gfid, name: &Name, brick: BrickNo) -> bool
        ensures { result
            ≡ mark_at (held_looked self.now (directory, name.now)).sight.copies brick.0 }
    {
        mark_at(&self.looked(directory, name).sight.copies, brick)
    }

    /// The brick that holds a name: the first whose range contains the name's hash. None where the
    /// layout has a hole there.
    pub fn holder(&self, directory: Gfid, name: &Name) -> Option<BrickNo>
        ensures { option_map (λ b. b.0) result ≡ held_holder self.now (directory, name.now) }
    {
        let layout = self.layout(directory, name);
        holder(&layout, dm_hash(name.as_bytes()))
    }

    /// Gives back the locks, and answers so. It takes no memory.
    pub fn close(self, finish: Finish) -> Closing
        ensures closing { result ≡ closing_of self finish }
        ensures closes { (s : Scene) → IsHeld self s → MayAnswer finish s → Closes self finish s }
    {
        Closing::new(self, finish)
    }

    /// Gives back the locks, and hands out its memory, with which the section may begin anew. It
    /// takes no memory.
    pub fn release(self) -> Release
        ensures release { result ≡ release_of self }
        ensures releases { (s : Scene) → IsHeld self s → Releases self s }
    {
        Release::new(self)
    }
}

/// A section that is held stays so whatever others do. Each of its names stands as it was found,
/// and did at the line of its last look, and its directory is one of the tree; the brick that holds
/// it by the layout that was read holds it; and a brick has a linkto there exactly where one was
/// seen, if the name is no directory. Of the root all bricks showed their copies, so the whole
/// layout was read. These are laws for callers, and do nothing.
pub fn a_section_stays()
    ensures stays { (h : AHeld) (s t : Scene) → IsHeld h s → Rely s t → IsHeld h t }
    ensures found { (h : AHeld) (e : Entry) (s : Scene) → IsHeld h s → IsWanted h e
        → IsLooked h.scope.bricks e (held_looked h e) s }
    ensures directory { (h : AHeld) (e : Entry) (s : Scene) → Sound s → IsHeld h s → IsWanted h e
        → s.history.tree.dirs e.0 ≡ true }
    ensures holder { (h : AHeld) (e : Entry) (b : ℕ) (s : Scene) → Sound s → IsHeld h s
        → IsWanted h e → held_holder h e ≡ Some b → holder_of s.disk e ≡ Some b }
    ensures root { (h : AHeld) (e : Entry) (s : Scene) → Sound s → IsHeld h s → IsWanted h e
        → e.0 ≡ root → held_holder h e ≡ holder_of s.disk e }
    ensures copied { (h : AHeld) (e : Entry) (b : ℕ) (s : Scene) → IsHeld h s → IsWanted h e
        → e.0 ≡ root → b < h.scope.bricks → mark_at (held_looked h e).sight.copies b ≡ true }
    ensures linkto { (h : AHeld) (e : Entry) (b : ℕ) (s : Scene) → IsHeld h s → IsWanted h e
        → IsNoDir (held_looked h e).sight.what → b < h.scope.bricks
        → has_linkto (linkto_at (held_looked h e).sight.linktos b)
        ≡ is_linkto (slot_at s.disk b e).main }
{}

/// A section of one name asks for its directory's lock first, in that mode, and sends at most four
/// requests more than there are bricks: this is a law for callers, and does nothing.
pub fn a_section_of_one_name_starts()
    ensures { (bricks : ℕ) (g : AGfid) (mode : AMode) (n : List ℕ)
        → StartsWith bricks g mode (section_stage (first_section bricks g mode n)) }
{}
