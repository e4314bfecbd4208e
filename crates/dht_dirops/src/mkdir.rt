//! Mkdir: under the locks of its name, a call that makes a directory where no brick has one.
//! Linktos of the name go first; and where no brick can hold the name yet, its directory is healed
//! before.

ghost use Rattle.std.specs.Prelude.{◌≡◌, ◌<◌, IfOk, option_map};
ghost use Rattle.dht_types.specs.Tree.{deepest};
ghost use Rattle.dht_section.specs.Again.{IsUnanswered};
ghost use Rattle.dht_section.specs.Ended.{ended, Learns};
ghost use Rattle.dht_section.specs.Faults.{NotesFault};
ghost use Rattle.dht_section.specs.Scene.{Scene};
ghost use Rattle.dht_section.specs.Stages.{Moves};
ghost use Rattle.dht_section.specs.declared.machine.Turn.TheVariants as turn;
ghost use Rattle.dht_dirops.specs.Mkdir.{MayMkdir, StartsMkdir, closed, copied_from, copies_of, depth_shown, first_mkdir, is_to_copy, mkdir_absent, mkdir_after, mkdir_ask, mkdir_copied, mkdir_fault, mkdir_held, mkdir_layout, mkdir_made, mkdir_measured, mkdir_shown, mkdir_stage, mkdir_swept, mkdir_taught, next_copy, placed_at};
ghost use Rattle.dht_dirops.specs.MkdirLaws.{mkdir_permitted, mkdir_stable};

use dht_brick::replies::{Given, Reply};
use dht_brick::requests::{NameRequest, Request};
use dht_heal::heal_one::has_copy;
use dht_heal::restart::{Restart, Restarted, ready_holder};
use dht_heal::room::HealRoom;
use dht_section::closing::Closing;
use dht_section::ended::Ended;
use dht_section::finish::{made_at, refused_at};
use dht_section::location::Location;
use dht_section::looks::What;
use dht_section::machine::{Ask, Finish, Machine, Turn, fault_finish};
use dht_section::origin::Origin;
use dht_section::replies::{fault_of, is_carried};
use dht_section::section::{Held, Opened, Section};
use dht_section::sweep::Sweep;
use dht_types::errors::Errno;
use dht_types::identifiers::{BrickNo, Gfid};
use dht_types::names::Name;
use dht_xattr::layout::Layout;
use std::alloc::{AllocError, Global};

/// How deep a directory is at most: so many names lead to it from the root.
pub const DEEPEST: u16 = 64;

/// What a mkdir is to make: a directory at this name, with a gfid of this origin.
#[derive(Clone, Copy)]
pub struct Target {
    pub origin: Origin,
    pub location: Location,
}

/// What a mkdir has before it has settled where the directory goes: the layout that it read before
/// the directory above was healed, if it was, and the memory of a heal.
#[derive(Drop)]
pub struct Round {
    pub target: Target,
    pub learned: Option<Layout>,
    pub room: HealRoom,
}

/// The directory that a mkdir makes: its gfid, how deep it is, the brick that is its home, and its
/// planned layout.
#[derive(Clone, Copy)]
pub struct NewDir {
    pub target: Target,
    pub made: Gfid,
    pub depth: u16,
    pub home: BrickNo,
    pub plan: Layout,
}

/// A mkdir. Each stage is one request, or those of a part that is a program of its own.
#[derive(Drop)]
pub enum Mkdir {
    /// Nothing is known of the name.
    Securing(Round, Section),
    /// Both locks are held, and the home of the directory above is asked how deep that is.
    Measuring(Round, Held),
    /// No brick could hold the name by this layout: the directory above is healed, and the section
    /// begins anew.
    Restarting(Target, Layout, Restart),
    /// Both locks are held, and no brick has the name. Linktos of the name are left.
    Sweeping(Sweep, NewDir, Held),
    /// So they are, and no linkto is left: the directory is made at its home.
    Making(NewDir, Held),
    /// It was made, on this line, and is on each brick below this one that has the directory above.
    Copying(NewDir, Held, BrickNo, u64),
    /// The answer is known, and the layout, if it was read.
    Ending(Closing, Option<Layout>),
}

impl NewDir {
    /// The request that a brick makes the directory, with the range that is planned for the brick.
    fn ask(&self, brick: BrickNo) -> Ask
        ensures { result ≡ mkdir_ask self.now brick }
    {
        Ask {
            brick,
            request: Request::OnNames(NameRequest::MakeDir {
                dir: self.target.location.directory,
                name: self.target.location.name,
                made: self.made,
                depth: self.depth,
                value: self.plan.value(brick),
            }),
        }
    }

    /// Whether a brick is to make a copy: it showed its copy of the directory above, and is not the
    /// home of the new one.
    fn is_to_copy(&self, held: &Held, brick: BrickNo) -> bool
        ensures { result
            ≡ is_to_copy (copies_of self.now.target held.now) self.now.home.0 brick.0 }
    {
        let location = self.target.location;
        held.is_copied(location.directory, &location.name, brick) && brick.0 != self.home.0
    }
}

/// A mkdir that answers so. Its locks are given back first, and it has learned the layout.
fn close(location: Location, held: Held, finish: Finish) -> Mkdir
    ensures { result ≡ closed location held finish }
{
    let layout = held.layout(location.directory, &location.name);
    Mkdir::Ending(held.close(finish), Some(layout))
}

/// The next brick to make a copy, from this one on.
fn next_copy(new: &NewDir, held: &Held, from: u16) -> Option<BrickNo>
    ensures { result ≡ next_copy new.now held.now from }
{
    for brick in from..new.target.location.bricks {
        if new.is_to_copy(held, BrickNo(brick)) {
            return Some(BrickNo(brick));
        }
    }
    None
}

/// The directory was made, on this line, and is on the bricks below this one: the next is asked to
/// make its copy, or all is done.
fn copied_from(new: NewDir, held: Held, from: u16, line: u64) -> Mkdir
    ensures { result ≡ copied_from new held from line }
{
    match next_copy(&new, &held, from) {
        Some(brick) => Mkdir::Copying(new, held, brick, line),
        None => close(new.target.location, held, made_at(new.made, line)),
    }
}

/// How a mkdir goes on whose directory goes to this brick first, and stands this deep.
fn placed(target: Target, room: HealRoom, held: Held, depth: u16, home: BrickNo) -> Mkdir
    ensures { result ≡ placed_at target room held depth home.0 }
{
    let made = target.origin.gfid(home);
    let new = NewDir {
        target,
        made,
        depth,
        home,
        plan: room.plan(made),
    };
    match Sweep::begin(target.location, &held) {
        Some(sweep) => Mkdir::Sweeping(sweep, new, held),
        None => Mkdir::Making(new, held),
    }
}

/// How a mkdir goes on that found nothing at its name, whose directory will stand this deep.
fn absent(target: Target, room: HealRoom, held: Held, depth: u16) -> Mkdir
    ensures { result ≡ mkdir_absent target room held depth }
{
    let location = target.location;
    match ready_holder(&location, &held) {
        Some(home) => placed(target, room, held, depth, home),
        None => {
            let layout = held.layout(location.directory, &location.name);
            Mkdir::Restarting(target, layout, Restart::begin(held, room))
        }
    }
}

/// How a mkdir goes on whose section is held, where the directory above is this deep.
fn measured(target: Target, room: HealRoom, held: Held, depth: u16) -> Mkdir
    ensures { result ≡ mkdir_measured target room held depth }
{
    let location = target.location;
    let found = held.found(location.directory, &location.name);
    if depth < DEEPEST {
        match found.what {
            What::Absent => absent(target, room, held, depth + 1),
            _ => close(location, held, refused_at(Errno::Eexist, found.looked)),
        }
    } else {
        close(
            location,
            held,
            refused_at(Errno::Enametoolong, found.looked),
        )
    }
}

/// How a mkdir goes on whose section is held. Only of the root it is known how deep it is.
fn secured(round: Round, held: Held) -> Mkdir
    ensures { result ≡ mkdir_held round held }
{
    if round.target.location.directory.0 == Gfid::ROOT.0 {
        measured(round.target, round.room, held, 0)
    } else {
        Mkdir::Measuring(round, held)
    }
}

/// How deep a directory is whose record a reply shows.
fn depth_shown(reply: &Reply) -> Option<u16>
    ensures { result ≡ depth_shown reply.now }
{
    match reply {
        Reply::Ok(Given::Dirinfo(info)) => Some(info.depth),
        _ => None,
    }
}

/// After the home of the directory above was asked how deep that is.
fn shown(round: Round, held: Held, reply: &Reply) -> Mkdir
    ensures { result ≡ mkdir_shown round held reply.now }
{
    if let Some(errno) = fault_of(reply) {
        return close(round.target.location, held, fault_finish(errno));
    }
    match depth_shown(reply) {
        Some(depth) => measured(round.target, round.room, held, depth),
        None => Mkdir::Measuring(round, held),
    }
}

/// After the linktos were dropped, or a brick's error ended that.
fn swept(new: NewDir, held: Held, fault: Option<Errno>) -> Mkdir
    ensures { result ≡ mkdir_swept new held fault }
{
    match fault {
        Some(errno) => close(new.target.location, held, fault_finish(errno)),
        None => Mkdir::Making(new, held),
    }
}

/// After the home was asked to make the directory.
fn made(new: NewDir, held: Held, reply: &Reply, at: u64) -> Mkdir
    ensures { result ≡ mkdir_made new held reply.now at }
{
    if let Some(errno) = fault_of(reply) {
        return close(new.target.location, held, fault_finish(errno));
    }
    if is_carried(reply) {
        copied_from(new, held, 0, at)
    } else {
        Mkdir::Making(new, held)
    }
}

/// After another brick was asked to make its copy. Something may stand at the name there by now:
/// that is the copy that a heal has made meanwhile.
fn copied(new: NewDir, held: Held, brick: BrickNo, line: u64, reply: &Reply) -> Mkdir
    ensures { result ≡ mkdir_copied new held brick line reply.now }
{
    if let Some(errno) = fault_of(reply) {
        return close(new.target.location, held, fault_finish(errno));
    }
    if has_copy(reply) && brick.0 < new.target.location.bricks {
        copied_from(new, held, brick.0 + 1, line)
    } else {
        Mkdir::Copying(new, held, brick, line)
    }
}

impl Mkdir {
    /// The mkdir of a directory at a name, by the call of this origin, in a volume of so many
    /// bricks. It takes the memory that the mkdir will need, beside that of a heal.
    pub fn begin(
        alloc: Global,
        bricks: u16,
        directory: Gfid,
        name: Name,
        origin: Origin,
        room: HealRoom,
    ) -> Result<Mkdir, AllocError>
        ensures first { IfOk result (λ m. m ≡ first_mkdir bricks directory name origin room) }
        ensures knows { IfOk result (λ m. (s : Scene)
            → MayMkdir bricks directory name origin room s → (mkdir_stage m).knows s) }
        // it asks for the directory's lock first, and sends so many requests at most
        ensures starts { IfOk result (λ m. StartsMkdir bricks directory (mkdir_stage m)) }
    {
        let location = Location {
            directory,
            name,
            bricks,
        };
        let section = location.section(alloc)?;
        let target = Target { origin, location };
        let round = Round {
            target,
            learned: None,
            room,
        };
        Ok(Mkdir::Securing(round, section))
    }

    /// Where it is after the reply to its request.
    fn after(self, reply: Reply, at: u64) -> Turn<Mkdir, Ended>
        ensures { result ≡ mkdir_after self reply at }
    {
        match self {
            Mkdir::Securing(round, section) => match section.take(reply, at) {
                Turn::Go(section) => Turn::Go(Mkdir::Securing(round, section)),
                Turn::Done(Opened::Held(held)) => Turn::Go(secured(round, held)),
                Turn::Done(Opened::Gone(_, line)) => Turn::Done(Ended::gone(line, round.learned)),
                Turn::Done(Opened::Stopped(errno)) => {
                    Turn::Done(Ended::stopped(errno, round.learned))
                }
            },
            Mkdir::Measuring(round, held) => Turn::Go(shown(round, held, &reply)),
            Mkdir::Restarting(target, layout, restart) => match restart.take(reply, at) {
                Turn::Go(restart) => Turn::Go(Mkdir::Restarting(target, layout, restart)),
                Turn::Done(Restarted::Ready(prepared, room)) => {
                    let learned = Some(layout);
                    let round = Round {
                        target,
                        learned,
                        room,
                    };
                    Turn::Go(Mkdir::Securing(round, prepared.begin()))
                }
                Turn::Done(Restarted::Stopped(errno)) => {
                    Turn::Done(Ended::stopped(errno, Some(layout)))
                }
            },
            Mkdir::Sweeping(sweep, new, held) => match sweep.take(reply, at) {
                Turn::Go(sweep) => Turn::Go(Mkdir::Sweeping(sweep, new, held)),
                Turn::Done(fault) => Turn::Go(swept(new, held, fault)),
            },
            Mkdir::Making(new, held) => Turn::Go(made(new, held, &reply, at)),
            Mkdir::Copying(new, held, brick, line) => {
                Turn::Go(copied(new, held, brick, line, &reply))
            }
            Mkdir::Ending(closing, learned) => match closing.take(reply, at) {
                Turn::Go(closing) => Turn::Go(Mkdir::Ending(closing, learned)),
                Turn::Done(finish) => Turn::Done(Ended {
                    finish,
                    layout: learned,
                }),
            },
        }
    }
}

impl Machine for Mkdir {
    type Done = Ended;

    ghost stage = { mkdir_stage };

    ghost ending = { ended };

    fn next(&self) -> Ask {
        match self {
            Mkdir::Securing(_, section) => section.next(),
            Mkdir::Measuring(round, _) => {
                let directory = round.target.location.directory;
                Ask {
                    brick: directory.home(),
                    request: Request::OnNames(NameRequest::Dirinfo(directory)),
                }
            }
            Mkdir::Restarting(_, _, restart) => restart.next(),
            Mkdir::Sweeping(sweep, _, _) => sweep.next(),
            Mkdir::Making(new, _) => new.ask(new.home),
            Mkdir::Copying(new, _, brick, _) => new.ask(*brick),
            Mkdir::Ending(closing, _) => closing.next(),
        }
    }

    fn take(self, reply: Reply, at: u64) -> Turn<Mkdir, Ended>
        ensures moves { Moves mkdir_stage ended self reply at result }
        ensures after { result ≡ mkdir_after self reply at }
        ensures layout { Learns mkdir_layout mkdir_taught self reply result }
        ensures fault { NotesFault mkdir_fault self (mkdir_stage self).asks.request reply result }
        // a request that has no answer is sent again
        ensures again { IsUnanswered (mkdir_stage self) reply → result ≡ turn.Go self }
    {
        self.after(reply, at)
    }

    ghost permitted = { mkdir_permitted };

    ghost stable = { mkdir_stable };
}
