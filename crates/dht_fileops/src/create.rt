//! Create: under the locks of its name, a call that makes a file where no brick has one. Linktos of
//! the name go first; and where no brick can hold the name yet, its directory is healed before.

ghost use Rattle.std.specs.Prelude.{◌≡◌, IfOk, option_map};
ghost use Rattle.dht_section.specs.Again.{IsUnanswered};
ghost use Rattle.dht_section.specs.Ended.{ended, Learns};
ghost use Rattle.dht_section.specs.Faults.{NotesFault};
ghost use Rattle.dht_section.specs.Location.{section_at};
ghost use Rattle.dht_section.specs.Scene.{Scene};
ghost use Rattle.dht_section.specs.Stages.{Moves};
ghost use Rattle.dht_section.specs.declared.machine.Turn.TheVariants as turn;
ghost use Rattle.dht_fileops.specs.Create.{create_stage, create_fault, create_layout, create_taught, create_after, create_absent, create_answered, create_held, create_swept, first_create, new_file, renewing, MayCreate, StartsCreate, clearing, closed};
ghost use Rattle.dht_fileops.specs.CreateLaws.{create_permitted, create_stable};

use dht_brick::replies::Reply;
use dht_brick::requests::{NameRequest, Request};
use dht_heal::restart::{Restart, Restarted, ready_holder};
use dht_heal::room::HealRoom;
use dht_section::closing::Closing;
use dht_section::ended::Ended;
use dht_section::finish::{made_at, refused_at};
use dht_section::location::Location;
use dht_section::looks::What;
use dht_section::machine::{Ask, Finish, Machine, Turn, fault_finish};
use dht_section::origin::Origin;
use dht_section::replies::{fault_of, is_carried};
use dht_section::section::{Held, Opened, Section};
use dht_section::sweep::Sweep;
use dht_types::errors::Errno;
use dht_types::identifiers::{BrickNo, Gfid};
use dht_types::names::Name;
use dht_xattr::layout::Layout;
use std::alloc::{AllocError, Global};

/// What a create is to make: a file at this name, with a gfid of this origin.
#[derive(Clone, Copy)]
pub struct Target {
    pub origin: Origin,
    pub location: Location,
}

/// The file that a create makes, and the brick to which it goes.
#[derive(Clone, Copy)]
pub struct NewFile {
    pub file: Gfid,
    pub holder: BrickNo,
}

/// A create. Each stage is one request, or those of a part that is a program of its own.
#[derive(Drop)]
pub enum Create {
    /// Nothing is known of the name. This layout was read before the directory was healed, if it
    /// was.
    Securing(Target, Option<Layout>, HealRoom, Section),
    /// No brick could hold the name by this layout: the directory is healed, and the section begins
    /// anew.
    Restarting(Target, Layout, Restart),
    /// Both locks are held, no brick has the name, and the layout is known. Linktos of the name are
    /// left.
    Sweeping(Sweep, NewFile, Location, Held),
    /// So they are, and no linkto is left: the file goes to the name's holder.
    Creating(NewFile, Location, Held),
    /// The answer is known, and the layout, if it was read.
    Ending(Closing, Option<Layout>),
}

impl Target {
    /// The file that goes to this brick.
    fn new_file(&self, holder: BrickNo) -> NewFile
        ensures { result ≡ new_file self.now.origin holder.0 }
    {
        NewFile {
            file: self.origin.gfid(holder),
            holder,
        }
    }
}

/// A create that answers so. Its locks are given back first, and it has learned the layout.
fn close(location: Location, held: Held, finish: Finish) -> Create
    ensures { result ≡ closed location held finish }
{
    let layout = held.layout(location.directory, &location.name);
    Create::Ending(held.close(finish), Some(layout))
}

/// How a create goes on that has this file to make: the linktos of its name go first, if there are
/// some.
fn clearing(sweep: Option<Sweep>, new: NewFile, location: Location, held: Held) -> Create
    ensures { result ≡ clearing sweep new location held }
{
    match sweep {
        Some(sweep) => Create::Sweeping(sweep, new, location, held),
        None => Create::Creating(new, location, held),
    }
}

/// The directory is healed, and the section begins anew.
fn renewing(target: Target, room: HealRoom, held: Held) -> Create
    ensures { result ≡ renewing target room held }
{
    let layout = held.layout(target.location.directory, &target.location.name);
    Create::Restarting(target, layout, Restart::begin(held, room))
}

/// How a create goes on that found no file or directory at its name.
fn absent(target: Target, room: HealRoom, held: Held) -> Create
    ensures { result ≡ create_absent target room held }
{
    match ready_holder(&target.location, &held) {
        Some(holder) => {
            let new = target.new_file(holder);
            let sweep = Sweep::begin(target.location, &held);
            clearing(sweep, new, target.location, held)
        }
        None => renewing(target, room, held),
    }
}

/// How a create goes on whose section is held.
fn secured(target: Target, room: HealRoom, held: Held) -> Create
    ensures { result ≡ create_held target room held }
{
    let location = target.location;
    let found = held.found(location.directory, &location.name);
    match found.what {
        What::Absent => absent(target, room, held),
        _ => close(location, held, refused_at(Errno::Eexist, found.looked)),
    }
}

/// After the linktos were dropped, or a brick's error ended that.
fn swept(new: NewFile, location: Location, held: Held, fault: Option<Errno>) -> Create
    ensures { result ≡ create_swept new location held fault }
{
    match fault {
        Some(errno) => close(location, held, fault_finish(errno)),
        None => Create::Creating(new, location, held),
    }
}

/// After the holder was asked to make the file.
fn create_answered(new: NewFile, location: Location, held: Held, reply: &Reply, at: u64) -> Create
    ensures { result ≡ create_answered new location held reply.now at }
{
    match fault_of(reply) {
        Some(errno) => close(location, held, fault_finish(errno)),
        None => {
            if is_carried(reply) {
                close(location, held, made_at(new.file, at))
            } else {
                Create::Creating(new, location, held)
            }
        }
    }
}

impl Create {
    /// The create of a file at a name, by the call of this origin, in a volume of so many bricks.
    /// It takes the memory that the create will need, beside that of a heal.
    pub fn begin(
        alloc: Global,
        bricks: u16,
        directory: Gfid,
        name: Name,
        origin: Origin,
        room: HealRoom,
    ) -> Result<Create, AllocError>
        ensures first { IfOk result (λ m. m ≡ first_create bricks directory name origin room) }
        ensures knows { IfOk result (λ m. (s : Scene)
            → MayCreate bricks directory name origin room s → (create_stage m).knows s) }
        // it asks for the directory's lock first, and sends so many requests at most
        ensures starts { IfOk result (λ m. StartsCreate bricks directory (create_stage m)) }
    {
        let location = Location {
            directory,
            name,
            bricks,
        };
        let section = location.section(alloc)?;
        Ok(Create::Securing(Target { origin, location }, None, room, section))
    }

    /// Where it is after the reply to its request.
    fn after(self, reply: Reply, at: u64) -> Turn<Create, Ended>
        ensures { result ≡ create_after self reply at }
    {
        match self {
            Create::Securing(target, learned, room, section) => match section.take(reply, at) {
                Turn::Go(section) => Turn::Go(Create::Securing(target, learned, room, section)),
                Turn::Done(Opened::Held(held)) => Turn::Go(secured(target, room, held)),
                Turn::Done(Opened::Gone(_, line)) => Turn::Done(Ended::gone(line, learned)),
                Turn::Done(Opened::Stopped(errno)) => Turn::Done(Ended::stopped(errno, learned)),
            },
            Create::Restarting(target, layout, restart) => match restart.take(reply, at) {
                Turn::Go(restart) => Turn::Go(Create::Restarting(target, layout, restart)),
                Turn::Done(Restarted::Ready(prepared, room)) => {
                    let section = prepared.begin();
                    Turn::Go(Create::Securing(target, Some(layout), room, section))
                }
                Turn::Done(Restarted::Stopped(errno)) => {
                    Turn::Done(Ended::stopped(errno, Some(layout)))
                }
            },
            Create::Sweeping(sweep, new, location, held) => match sweep.take(reply, at) {
                Turn::Go(sweep) => Turn::Go(Create::Sweeping(sweep, new, location, held)),
                Turn::Done(fault) => Turn::Go(swept(new, location, held, fault)),
            },
            Create::Creating(new, location, held) => {
                Turn::Go(create_answered(new, location, held, &reply, at))
            }
            Create::Ending(closing, learned) => match closing.take(reply, at) {
                Turn::Go(closing) => Turn::Go(Create::Ending(closing, learned)),
                Turn::Done(finish) => Turn::Done(Ended {
                    finish,
                    layout: learned,
                }),
            },
        }
    }
}

impl Machine for Create {
    type Done = Ended;

    ghost stage = { create_stage };

    ghost ending = { ended };

    fn next(&self) -> Ask {
        match self {
            Create::Securing(_, _, _, section) => section.next(),
            Create::Restarting(_, _, restart) => restart.next(),
            Create::Sweeping(sweep, _, _, _) => sweep.next(),
            Create::Creating(new, location, _) => Ask {
                brick: new.holder,
                request: Request::OnNames(NameRequest::Create(
                    location.directory,
                    location.name,
                    new.file,
                )),
            },
            Create::Ending(closing, _) => closing.next(),
        }
    }

    fn take(self, reply: Reply, at: u64) -> Turn<Create, Ended>
        ensures moves { Moves create_stage ended self reply at result }
        ensures after { result ≡ create_after self reply at }
        ensures layout { Learns create_layout create_taught self reply result }
        ensures fault { NotesFault create_fault self (create_stage self).asks.request
            reply result }
        // a request that has no answer is sent again
        ensures again { IsUnanswered (create_stage self) reply → result ≡ turn.Go self }
    {
        self.after(reply, at)
    }

    ghost permitted = { create_permitted };

    ghost stable = { create_stable };
}
