//! Rmdir: a call that takes a directory's name away, and with it the directory. Under the shared
//! lock of the directory above, the lock of the name, and that of the directory alone, all bricks
//! are asked whether a name stands in it; then each drops its copy, its home last.

ghost use Rattle.std.specs.Prelude.{◌≡◌, ◌≤◌, ◌+◌, ◌*◌, IfOk};
ghost use Rattle.dht_section.specs.Again.{IsUnanswered};
ghost use Rattle.dht_section.specs.Ended.{ended, Learns};
ghost use Rattle.dht_section.specs.Faults.{NotesFault};
ghost use Rattle.dht_section.specs.Replies.{fault_of};
ghost use Rattle.dht_section.specs.Scene.{Scene};
ghost use Rattle.dht_section.specs.Stages.{Moves};
ghost use Rattle.dht_section.specs.declared.machine.Turn.TheVariants as turn;
ghost use Rattle.dht_resolve.specs.Cache.{layout_at};
ghost use Rattle.dht_resolve.specs.Lookup.{lookup_steps};
ghost use Rattle.dht_dirops.specs.Rmdir.{MayRmdir, closed, drop_ask, drop_at, drop_next, drop_told, drop_unless, first_rmdir, home_told, inspect_ask, inspect_told, inspect_unless, inspected, is_dropped, is_that, removal_held, rmdir_after, rmdir_fault, rmdir_layout, rmdir_opened, rmdir_resolved, rmdir_stage, rmdir_taught, shows_name};
ghost use Rattle.dht_dirops.specs.RmdirLaws.{rmdir_permitted, rmdir_stable};

use dht_brick::replies::{Given, Reply, Why};
use dht_brick::requests::{NameRequest, Request};
use dht_resolve::cache::Cache;
use dht_resolve::lookup::{Lookup, Resolved};
use dht_section::closing::Closing;
use dht_section::ended::Ended;
use dht_section::finish::{done_at, refused_at};
use dht_section::location::Location;
use dht_section::looks::What;
use dht_section::machine::{Ask, Finish, Machine, Turn, fault_finish};
use dht_section::release::Release;
use dht_section::replies::{fault_of, is_carried, is_shown};
use dht_section::section::{Held, Opened, Prepared, Section};
use dht_types::calls::Answer;
use dht_types::errors::Errno;
use dht_types::identifiers::{BrickNo, Gfid};
use dht_xattr::layout::Layout;
use std::alloc::{AllocError, Global};

/// What is to be removed: a name, and the directory that it was looked up to be.
#[derive(Clone, Copy)]
pub struct Removal {
    pub location: Location,
    pub directory: Gfid,
}

/// An rmdir. Each stage is one request, or those of a part that is a program of its own. It has the
/// memory for its section from its beginning on, whichever directory the name will be.
#[derive(Drop)]
pub enum Rmdir {
    /// The name is looked up. The section has not begun.
    Resolving(Lookup, Prepared),
    /// The name was a directory's, and both are secured. There is memory to look the name up once
    /// more. This layout was read, if one was.
    Securing(Removal, Section, Prepared, Option<Layout>),
    /// All locks are held, the name is the directory, and no brick below this one has a name in it.
    Inspecting(Removal, Held, BrickNo),
    /// No brick has a name in it. This brick is asked next to drop its copy; the home is the last.
    Dropping(Removal, Held, BrickNo),
    /// The name was not that directory any more: the locks are given back, and it is looked up once
    /// more, by this layout.
    Releasing(Location, Release, Prepared, Layout),
    /// The answer is known, and the layout, if it was read.
    Ending(Closing, Option<Layout>),
}

impl Removal {
    /// The request for the record that a brick has of the directory.
    fn inspect_ask(&self, brick: BrickNo) -> Ask
        ensures { result ≡ inspect_ask self.now brick }
    {
        Ask {
            brick,
            request: Request::OnNames(NameRequest::Dirinfo(self.directory)),
        }
    }

    /// The request that a brick drops its copy of the directory.
    fn drop_ask(&self, brick: BrickNo) -> Ask
        ensures { result ≡ drop_ask self.now brick }
    {
        Ask {
            brick,
            request: Request::OnNames(NameRequest::DropDir(
                self.location.directory,
                self.location.name,
                self.directory,
            )),
        }
    }

    /// The first brick from one on that is not the directory's home; after the last one its home.
    fn drop_at(&self, from: u16) -> BrickNo
        ensures { result ≡ drop_at self.now from }
    {
        let home = self.directory.home();
        if from < self.location.bricks && from != home.0 {
            BrickNo(from)
        } else if 1 < self.location.bricks.saturating_sub(from) {
            BrickNo(from + 1)
        } else {
            home
        }
    }

    /// The brick that is asked after this one to drop its copy.
    fn drop_next(&self, brick: BrickNo) -> BrickNo
        ensures { result ≡ drop_next self.now brick }
    {
        if self.location.bricks.saturating_sub(brick.0) <= 1 {
            self.directory.home()
        } else {
            self.drop_at(brick.0 + 1)
        }
    }
}

/// An rmdir that answers so. Its locks are given back first, and it has learned the layout.
fn close(removal: Removal, held: Held, finish: Finish) -> Rmdir
    ensures { result ≡ closed removal held finish }
{
    let location = removal.location;
    let layout = held.layout(location.directory, &location.name);
    Rmdir::Ending(held.close(finish), Some(layout))
}

/// After the lookup has ended, or has sent another request. What it answers, the rmdir answers, at
/// the same line, but for a directory, which is secured, and a file.
fn resolved(turn: Turn<Lookup, Resolved>, pair: Prepared) -> Turn<Rmdir, Ended>
    ensures { result ≡ rmdir_resolved turn pair }
{
    let end = match turn {
        Turn::Go(lookup) => return Turn::Go(Rmdir::Resolving(lookup, pair)),
        Turn::Done(end) => end,
    };
    let answered = end.answered;
    let answer = match (answered.finish.answer, end.room) {
        (Answer::Dir(directory), Some(room)) => {
            let removal = Removal {
                location: answered.location,
                directory,
            };
            let section = pair.aimed(directory).begin();
            return Turn::Go(Rmdir::Securing(removal, section, room, answered.layout));
        }
        (Answer::File(_), _) => Answer::Fault(Errno::Enotdir),
        (answer, _) => answer,
    };
    let finish = Finish {
        answer,
        at: answered.finish.at,
    };
    Turn::Done(Ended {
        finish,
        layout: answered.layout,
    })
}

/// Whether a name that was seen so is this directory's.
fn is_that(directory: Gfid, what: What) -> bool
    ensures { result ≡ is_that directory what }
{
    match what {
        What::Dir(found) => found.0 == directory.0,
        _ => false,
    }
}

/// How an rmdir goes on whose section is held.
fn secured(removal: Removal, held: Held, room: Prepared) -> Rmdir
    ensures { result ≡ removal_held removal held room }
{
    let location = removal.location;
    let found = held.found(location.directory, &location.name);
    if is_that(removal.directory, found.what) {
        Rmdir::Inspecting(removal, held, BrickNo(0))
    } else {
        let layout = held.layout(location.directory, &location.name);
        Rmdir::Releasing(location, held.release(), room, layout)
    }
}

/// How it goes on whose section has ended.
fn opened(
    removal: Removal,
    room: Prepared,
    learned: Option<Layout>,
    opened: Opened,
) -> Turn<Rmdir, Ended>
    ensures { result ≡ rmdir_opened removal room learned opened }
{
    match opened {
        Opened::Held(held) => Turn::Go(secured(removal, held, room)),
        Opened::Gone(_, line) => Turn::Done(Ended::gone(line, learned)),
        Opened::Stopped(errno) => Turn::Done(Ended::stopped(errno, learned)),
    }
}

/// Whether a brick shows that a name stands in the directory.
fn shows_name(reply: &Reply) -> bool
    ensures { result ≡ shows_name reply.now }
{
    match reply {
        Reply::Ok(Given::Dirinfo(info)) => info.is_occupied,
        _ => false,
    }
}

/// After this brick, and all below it, showed no name in the directory.
fn inspected(removal: Removal, held: Held, brick: BrickNo) -> Rmdir
    ensures { result ≡ inspected removal held brick }
{
    if removal.location.bricks.saturating_sub(brick.0) <= 1 {
        let first = removal.drop_at(0);
        Rmdir::Dropping(removal, held, first)
    } else {
        Rmdir::Inspecting(removal, held, BrickNo(brick.0 + 1))
    }
}

/// After a brick was asked whether a name stands in the directory.
fn inspect_told(removal: Removal, held: Held, brick: BrickNo, reply: &Reply, at: u64) -> Rmdir
    ensures { result ≡ inspect_unless (fault_of reply.now) removal held brick reply.now at }
{
    if let Some(errno) = fault_of(reply) {
        return close(removal, held, fault_finish(errno));
    }
    if shows_name(reply) {
        close(removal, held, refused_at(Errno::Enotempty, at))
    } else if is_shown(reply) {
        inspected(removal, held, brick)
    } else {
        Rmdir::Inspecting(removal, held, brick)
    }
}

/// Whether a brick that is not the home has no copy of the directory any more: it has dropped it,
/// or had none.
fn is_dropped(reply: &Reply) -> bool
    ensures { result ≡ is_dropped reply.now }
{
    match reply {
        Reply::Ok(_) => true,
        Reply::Refused(Why::Nodir) => true,
        Reply::Refused(Why::Slot(_)) => true,
        _ => false,
    }
}

/// After a brick was asked to drop its copy, at this line.
fn drop_told(removal: Removal, held: Held, brick: BrickNo, reply: &Reply, at: u64) -> Rmdir
    ensures { result ≡ drop_unless (fault_of reply.now) removal held brick reply.now at }
{
    if let Some(errno) = fault_of(reply) {
        return close(removal, held, fault_finish(errno));
    }
    if brick.0 == removal.directory.home().0 {
        if is_carried(reply) {
            close(removal, held, done_at(at))
        } else {
            Rmdir::Dropping(removal, held, brick)
        }
    } else if is_dropped(reply) {
        let next = removal.drop_next(brick);
        Rmdir::Dropping(removal, held, next)
    } else {
        Rmdir::Dropping(removal, held, brick)
    }
}

impl Rmdir {
    /// The rmdir of a name, by a client with these layouts in its cache. It takes the memory that
    /// the call will need.
    pub fn begin(alloc: Global, cache: &Cache, location: Location) -> Result<Rmdir, AllocError>
        ensures first { IfOk result (λ m. m ≡ first_rmdir location.bricks location.directory
            location.name (layout_at cache.now location.directory)) }
        ensures knows { IfOk result (λ m. (s : Scene)
            → MayRmdir location.bricks location.directory location.name s
            → (rmdir_stage m).knows s) }
        ensures steps { IfOk result (λ m. (rmdir_stage m).variant
            ≤ lookup_steps location (layout_at cache.now location.directory)
            + (3 * location.bricks + 8)) }
    {
        let pair = Prepared::of_pair(alloc, location.bricks, location.directory, location.name)?;
        let lookup = Lookup::begin(alloc, cache, location)?;
        Ok(Rmdir::Resolving(lookup, pair))
    }

    /// Where it is after the reply to its request.
    fn after(self, reply: Reply, at: u64) -> Turn<Rmdir, Ended>
        ensures { result ≡ rmdir_after self reply at }
    {
        match self {
            Rmdir::Resolving(lookup, pair) => resolved(lookup.take(reply, at), pair),
            Rmdir::Securing(removal, section, room, learned) => match section.take(reply, at) {
                Turn::Go(section) => Turn::Go(Rmdir::Securing(removal, section, room, learned)),
                Turn::Done(end) => opened(removal, room, learned, end),
            },
            Rmdir::Inspecting(removal, held, brick) => {
                Turn::Go(inspect_told(removal, held, brick, &reply, at))
            }
            Rmdir::Dropping(removal, held, brick) => {
                Turn::Go(drop_told(removal, held, brick, &reply, at))
            }
            Rmdir::Releasing(location, release, room, layout) => match release.take(reply, at) {
                Turn::Go(release) => Turn::Go(Rmdir::Releasing(location, release, room, layout)),
                Turn::Done(pair) => {
                    let lookup = Lookup::again(room, location, Some(layout));
                    Turn::Go(Rmdir::Resolving(lookup, pair))
                }
            },
            Rmdir::Ending(closing, learned) => match closing.take(reply, at) {
                Turn::Go(closing) => Turn::Go(Rmdir::Ending(closing, learned)),
                Turn::Done(finish) => Turn::Done(Ended {
                    finish,
                    layout: learned,
                }),
            },
        }
    }
}

impl Machine for Rmdir {
    type Done = Ended;

    ghost stage = { rmdir_stage };

    ghost ending = { ended };

    fn next(&self) -> Ask {
        match self {
            Rmdir::Resolving(lookup, _) => lookup.next(),
            Rmdir::Securing(_, section, _, _) => section.next(),
            Rmdir::Inspecting(removal, _, brick) => removal.inspect_ask(*brick),
            Rmdir::Dropping(removal, _, brick) => removal.drop_ask(*brick),
            Rmdir::Releasing(_, release, _, _) => release.next(),
            Rmdir::Ending(closing, _) => closing.next(),
        }
    }

    fn take(self, reply: Reply, at: u64) -> Turn<Rmdir, Ended>
        ensures moves { Moves rmdir_stage ended self reply at result }
        ensures after { result ≡ rmdir_after self reply at }
        ensures layout { Learns rmdir_layout rmdir_taught self reply result }
        ensures fault { NotesFault rmdir_fault self (rmdir_stage self).asks.request reply result }
        // a request that has no answer is sent again
        ensures again { IsUnanswered (rmdir_stage self) reply → result ≡ turn.Go self }
    {
        self.after(reply, at)
    }

    ghost permitted = { rmdir_permitted };

    ghost stable = { rmdir_stable };
}
