//! Unlink: under the locks of its name, a call that takes the name of a file away, and after it the
//! linktos of the name. Where it was the file's last name, the file goes too, unless a client has
//! it open.

ghost use Rattle.std.specs.Prelude.{◌≡◌, IfOk};
ghost use Rattle.dht_section.specs.Again.{IsUnanswered};
ghost use Rattle.dht_section.specs.Ended.{ended, Learns};
ghost use Rattle.dht_section.specs.Faults.{NotesFault};
ghost use Rattle.dht_section.specs.Location.{section_at};
ghost use Rattle.dht_section.specs.Scene.{Scene};
ghost use Rattle.dht_section.specs.Stages.{Moves};
ghost use Rattle.dht_section.specs.declared.machine.Turn.TheVariants as turn;
ghost use Rattle.dht_fileops.specs.Unlink.{unlink_stage, unlink_fault, unlink_layout, unlink_taught, unlink_after, unlink_held, first_unlink, MayUnlink, StartsUnlink, closed, is_last, orphan_of, removed_closed, swept, unlinked, unlink_answered};
ghost use Rattle.dht_fileops.specs.UnlinkLaws.{unlink_permitted, unlink_stable};

use dht_brick::replies::{Given, Reply};
use dht_brick::requests::{NameRequest, Request};
use dht_section::closing::Closing;
use dht_section::ended::Ended;
use dht_section::finish::{done_at, refused_at};
use dht_section::location::Location;
use dht_section::looks::{Place, What};
use dht_section::machine::{Ask, Finish, Machine, Turn, fault_finish};
use dht_section::reap::{Orphan, Reap};
use dht_section::replies::{fault_of, is_carried};
use dht_section::section::{Held, Opened, Section};
use dht_section::sweep::Sweep;
use dht_types::errors::Errno;
use dht_types::identifiers::Gfid;
use dht_types::names::Name;
use dht_xattr::layout::Layout;
use std::alloc::{AllocError, Global};

/// A name that was taken away at this line. Its locks are still held, and this layout was read.
#[derive(Drop)]
pub struct Removed {
    pub held: Held,
    pub layout: Layout,
    pub at: u64,
    /// The file, where that was its last name.
    pub orphan: Option<Orphan>,
}

/// An unlink. Each stage is one request, or those of a part that is a program of its own.
#[derive(Drop)]
pub enum Unlink {
    /// Nothing is known of the name.
    Securing(Location, Section),
    /// Both locks are held, and the name is this file on this brick.
    Unlinking(Place, Location, Held),
    /// The name is gone, and linktos of it are left.
    Sweeping(Sweep, Removed),
    /// So are its linktos, and the file has no other name on any brick.
    Reaping(Reap, Removed),
    /// The answer is known, and the layout, if it was read.
    Ending(Closing, Option<Layout>),
}

/// An unlink that answers so. Its locks are given back first, and it has learned the layout.
fn close(location: Location, held: Held, finish: Finish) -> Unlink
    ensures { result ≡ closed location held finish }
{
    let layout = held.layout(location.directory, &location.name);
    Unlink::Ending(held.close(finish), Some(layout))
}

/// How an unlink goes on whose section is held.
fn secured(location: Location, held: Held) -> Unlink
    ensures { result ≡ unlink_held location held }
{
    let found = held.found(location.directory, &location.name);
    match found.what {
        What::Absent => close(location, held, refused_at(Errno::Enoent, found.looked)),
        What::Dir(_) => close(location, held, refused_at(Errno::Eisdir, found.looked)),
        What::File(file, brick, _) => Unlink::Unlinking(Place { brick, file }, location, held),
    }
}

/// Whether the reply shows that no link of the file is left on its brick.
fn is_last(reply: &Reply) -> bool
    ensures { result ≡ is_last reply.now }
{
    match reply {
        Reply::Ok(Given::Links(left)) => *left == 0,
        _ => false,
    }
}

/// The file, where its name was the last. All links of a file are on its brick, so where none is
/// left there, it has no name.
fn orphan_of(place: Place, bricks: u16, reply: &Reply) -> Option<Orphan>
    ensures { result ≡ orphan_of place bricks reply.now }
{
    if is_last(reply) {
        Some(Orphan {
            bricks,
            file: place.file,
            brick: place.brick,
        })
    } else {
        None
    }
}

/// After the file was reaped, or was found open, or has another name, or a brick's error ended the
/// sweep or the reap.
fn closed(removed: Removed, fault: Option<Errno>) -> Unlink
    ensures { result ≡ removed_closed removed fault }
{
    let finish = match fault {
        Some(errno) => fault_finish(errno),
        None => done_at(removed.at),
    };
    Unlink::Ending(removed.held.close(finish), Some(removed.layout))
}

/// After the linktos of the name were dropped, too.
fn swept(removed: Removed) -> Unlink
    ensures { result ≡ swept removed }
{
    match removed.orphan {
        Some(orphan) => Unlink::Reaping(Reap::Sealing(orphan), removed),
        None => closed(removed, None),
    }
}

/// After the name was taken away, at this line.
fn unlinked(place: Place, location: Location, held: Held, reply: &Reply, at: u64) -> Unlink
    ensures { result ≡ unlinked place location held reply.now at }
{
    let sweep = Sweep::begin(location, &held);
    let removed = Removed {
        layout: held.layout(location.directory, &location.name),
        held,
        at,
        orphan: orphan_of(place, location.bricks, reply),
    };
    match sweep {
        Some(sweep) => Unlink::Sweeping(sweep, removed),
        None => swept(removed),
    }
}

/// After the brick of the file was asked to take its name away.
fn unlink_answered(place: Place, location: Location, held: Held, reply: &Reply, at: u64) -> Unlink
    ensures { result ≡ unlink_answered place location held reply.now at }
{
    match fault_of(reply) {
        Some(errno) => close(location, held, fault_finish(errno)),
        None => {
            if is_carried(reply) {
                unlinked(place, location, held, reply, at)
            } else {
                Unlink::Unlinking(place, location, held)
            }
        }
    }
}

impl Unlink {
    /// The unlink of a name, in a volume of so many bricks. It takes the memory that the unlink
    /// will need.
    pub fn begin(
        alloc: Global,
        bricks: u16,
        directory: Gfid,
        name: Name,
    ) -> Result<Unlink, AllocError>
        ensures first { IfOk result (λ m. m ≡ first_unlink bricks directory name) }
        ensures knows { IfOk result
            (λ m. (s : Scene) → MayUnlink bricks directory name s → (unlink_stage m).knows s) }
        // it asks for the directory's lock first, and sends so many requests at most
        ensures starts { IfOk result (λ m. StartsUnlink bricks directory (unlink_stage m)) }
    {
        let location = Location {
            directory,
            name,
            bricks,
        };
        let section = location.section(alloc)?;
        Ok(Unlink::Securing(location, section))
    }

    /// Where it is after the reply to its request.
    fn after(self, reply: Reply, at: u64) -> Turn<Unlink, Ended>
        ensures { result ≡ unlink_after self reply at }
    {
        match self {
            Unlink::Securing(location, section) => match section.take(reply, at) {
                Turn::Go(section) => Turn::Go(Unlink::Securing(location, section)),
                Turn::Done(Opened::Held(held)) => Turn::Go(secured(location, held)),
                Turn::Done(Opened::Gone(_, line)) => Turn::Done(Ended::gone(line, None)),
                Turn::Done(Opened::Stopped(errno)) => Turn::Done(Ended::stopped(errno, None)),
            },
            Unlink::Unlinking(place, location, held) => {
                Turn::Go(unlink_answered(place, location, held, &reply, at))
            }
            Unlink::Sweeping(sweep, removed) => match sweep.take(reply, at) {
                Turn::Go(sweep) => Turn::Go(Unlink::Sweeping(sweep, removed)),
                Turn::Done(None) => Turn::Go(swept(removed)),
                Turn::Done(Some(errno)) => Turn::Go(closed(removed, Some(errno))),
            },
            Unlink::Reaping(reap, removed) => match reap.take(reply, at) {
                Turn::Go(reap) => Turn::Go(Unlink::Reaping(reap, removed)),
                Turn::Done(fault) => Turn::Go(closed(removed, fault)),
            },
            Unlink::Ending(closing, learned) => match closing.take(reply, at) {
                Turn::Go(closing) => Turn::Go(Unlink::Ending(closing, learned)),
                Turn::Done(finish) => Turn::Done(Ended {
                    finish,
                    layout: learned,
                }),
            },
        }
    }
}

impl Machine for Unlink {
    type Done = Ended;

    ghost stage = { unlink_stage };

    ghost ending = { ended };

    fn next(&self) -> Ask {
        match self {
            Unlink::Securing(_, section) => section.next(),
            Unlink::Unlinking(place, location, _) => Ask {
                brick: place.brick,
                request: Request::OnNames(NameRequest::Unlink(
                    location.directory,
                    location.name,
                    place.file,
                )),
            },
            Unlink::Sweeping(sweep, _) => sweep.next(),
            Unlink::Reaping(reap, _) => reap.next(),
            Unlink::Ending(closing, _) => closing.next(),
        }
    }

    fn take(self, reply: Reply, at: u64) -> Turn<Unlink, Ended>
        ensures moves { Moves unlink_stage ended self reply at result }
        ensures after { result ≡ unlink_after self reply at }
        ensures layout { Learns unlink_layout unlink_taught self reply result }
        ensures fault { NotesFault unlink_fault self (unlink_stage self).asks.request
            reply result }
        // a request that has no answer is sent again
        ensures again { IsUnanswered (unlink_stage self) reply → result ≡ turn.Go self }
    {
        self.after(reply, at)
    }

    ghost permitted = { unlink_permitted };

    ghost stable = { unlink_stable };
}
