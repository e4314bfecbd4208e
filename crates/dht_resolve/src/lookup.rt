//! Lookup: a look at the name's holder, and at the brick to which a linkto there leads; and where
//! neither shows the name, at all bricks under the locks.

ghost use Rattle.std.specs.Prelude.{◌≡◌, ◌≤◌, IfOk, option_map};
ghost use Rattle.dht_types.specs.declared.identifiers.Gfid.{Gfid as AGfid};
ghost use Rattle.std.specs.Option.{option_copied};
ghost use Rattle.dht_section.specs.Again.{IsUnanswered};
ghost use Rattle.dht_section.specs.Ended.{Learns};
ghost use Rattle.dht_section.specs.Faults.{NotesFault};
ghost use Rattle.dht_section.specs.Location.{entry_at};
ghost use Rattle.dht_section.specs.Looks.{file_in};
ghost use Rattle.dht_section.specs.Scene.{Scene};
ghost use Rattle.dht_section.specs.Section.{held_looked};
ghost use Rattle.dht_section.specs.Stages.{Moves};
ghost use Rattle.dht_section.specs.declared.machine.Turn.TheVariants as turn;
ghost use Rattle.dht_resolve.specs.Cache.{layout_at};
ghost use Rattle.dht_resolve.specs.Found.{IsFound, ShowsFile, ShowsDir, IsDirFound, shown_as, leads};
ghost use Rattle.dht_resolve.specs.Lookup.{IsRoom, MayLookUp, aimed, ended_turn, first_lookup, lookup_again, lookup_with, holder_in, linkto_ask, look_ask, lookup_fault, lookup_layout, lookup_stage, lookup_steps, lookup_taught, resolved, seen_finish, found_answer};
ghost use Rattle.dht_resolve.specs.Short.{FindsAtHolder, FindsByLinkto};
ghost use Rattle.dht_resolve.specs.Turns.{closed, done_as, file_found, gone, holder_showed, is_to, linked_showed, linkto_answered, looked_up, lookup_after, release_turned, section_turned, shown_at, stopped, survey_answered, surveyed, wants_linkto};
ghost use Rattle.dht_resolve.specs.LookupLaws.{lookup_permitted, lookup_stable};

use super::cache::Cache;
use dht_brick::replies::{Given, Reply};
use dht_brick::requests::{NameRequest, Request};
use dht_hash::dm_hash;
use dht_section::location::Location;
use dht_section::looks::{Linkto, Place, What, lengthen};
use dht_section::machine::{Ask, Finish, Machine, Turn, fault_finish};
use dht_section::release::Release;
use dht_section::replies::{fault_of, is_carried, is_shown, range_shown};
use dht_section::section::{Held, Opened, Prepared, Section, shows_gone};
use dht_types::calls::Answer;
use dht_types::errors::Errno;
use dht_types::identifiers::{BrickNo, Gfid};
use dht_types::names::Name;
use dht_types::stored::Main;
use dht_xattr::layout::{Layout, holder};
use dht_xattr::linkto::{linkto_brick_of, linkto_value_of};
use std::alloc::{AllocError, Global};

/// What a lookup answers: the brick of the file, where the answer is a file; and the layout of the
/// directory, where it has read the range of every brick.
#[derive(Clone, Copy)]
pub struct Answered {
    pub location: Location,
    pub finish: Finish,
    pub place: Option<BrickNo>,
    pub layout: Option<Layout>,
}

/// What a lookup hands out: what it answers; and the memory of its section, to be used again, where
/// the answer is a file or a directory.
#[derive(Drop)]
pub struct Resolved {
    pub answered: Answered,
    pub room: Option<Prepared>,
}

/// What one look shows of a name.
#[derive(Clone, Copy)]
pub enum Shown {
    /// Nothing, or a linkto that names no brick of the volume.
    Nothing,
    /// The name is this directory.
    Dir(Gfid),
    /// The name is this file, which is on the brick that was looked at.
    File(Gfid),
    /// A linkto to this brick of the volume.
    Leads(BrickNo),
}

/// A name that is looked for, the brick that is looked at next, and the layout that was read, if
/// the range of every brick was.
#[derive(Clone, Copy)]
pub struct Sought {
    pub location: Location,
    pub brick: BrickNo,
    pub learned: Option<Layout>,
}

/// A file that is not on its name's holder. The holder has the directory, and no linkto to the
/// file's brick.
#[derive(Drop)]
pub struct Misplaced {
    pub location: Location,
    pub held: Held,
    pub holder: BrickNo,
    pub place: Place,
}

/// A lookup, and the layout that it has learned. Each stage is one request, or those of a part that
/// is a program of its own. A lookup has its section, and so the memory for it, from its beginning
/// on.
#[derive(Drop)]
pub enum Lookup {
    /// The layout is not known: the directory's record is asked of every brick, of this one next.
    /// The bricks below it have these ranges. The section has not begun.
    Surveying(Location, Prepared, BrickNo, Layout),
    /// A layout is known, and by it the name has a holder. The section has not begun.
    LookingAtHolder(Sought, Prepared),
    /// The holder showed a linkto to a brick. The section has not begun.
    FollowingLinkto(Sought, Prepared),
    /// Neither showed the name: all bricks are looked at under its locks.
    LookingEverywhere(Location, Section, Option<Layout>),
    /// The answer is known, and the next lookup is to find the file by its holder.
    LayingLinkto(Misplaced),
    /// The answer is known.
    Ending(Release, Answered),
}

/// What a lookup answers.
fn answer_of(what: What) -> Answer
    ensures { result ≡ found_answer what }
{
    match what {
        What::Absent => Answer::Fault(Errno::Enoent),
        What::Dir(directory) => Answer::Dir(directory),
        What::File(file, _, _) => Answer::File(file),
    }
}

/// The file, if it is one, and its brick.
fn place_of(what: What) -> Option<Place>
    ensures { result ≡ file_in what }
{
    match what {
        What::File(file, brick, _) => Some(Place { brick, file }),
        _ => None,
    }
}

/// What a linkto of this value shows.
fn leads(bricks: u16, value: &[u8]) -> Shown
    ensures { result ≡ leads bricks value.now }
{
    match linkto_brick_of(bricks, value) {
        Some(brick) => Shown::Leads(brick),
        None => Shown::Nothing,
    }
}

/// What a look shows of a name, in a volume of so many bricks.
fn shown_as(bricks: u16, reply: &Reply) -> Shown
    ensures { result ≡ shown_as bricks reply.now }
{
    match reply {
        Reply::Ok(Given::Look(look)) => match &look.slot.main {
            Some(Main::Dir(directory)) => Shown::Dir(*directory),
            Some(Main::File(file, _)) => Shown::File(*file),
            Some(Main::Linkto(value)) => leads(bricks, value.as_slice()),
            None => Shown::Nothing,
        },
        _ => Shown::Nothing,
    }
}

/// The lookup is done, and has no answer that another part could go on from.
fn done(location: Location, finish: Finish, layout: Option<Layout>) -> Turn<Lookup, Resolved>
    ensures { result ≡ done_as location finish layout }
{
    Turn::Done(Resolved {
        answered: Answered {
            location,
            finish,
            place: None,
            layout,
        },
        room: None,
    })
}

/// The lookup was stopped by this error.
fn stopped(location: Location, errno: Errno, layout: Option<Layout>) -> Turn<Lookup, Resolved>
    ensures { result ≡ stopped location errno layout }
{
    done(location, fault_finish(errno), layout)
}

/// The directory was gone, at this line.
fn gone(location: Location, at: u64, layout: Option<Layout>) -> Turn<Lookup, Resolved>
    ensures { result ≡ gone location at layout }
{
    let finish = Finish {
        answer: Answer::Fault(Errno::Estale),
        at: Some(at),
    };
    done(location, finish, layout)
}

/// The brick that is looked at shows the name, at this line: as this file or directory.
fn shown_at(
    sought: Sought,
    prepared: Prepared,
    answer: Answer,
    place: Option<BrickNo>,
    at: u64,
) -> Turn<Lookup, Resolved>
    ensures { result ≡ shown_at sought prepared answer place at }
{
    let finish = Finish {
        answer,
        at: Some(at),
    };
    Turn::Done(Resolved {
        answered: Answered {
            location: sought.location,
            finish,
            place,
            layout: sought.learned,
        },
        room: Some(prepared),
    })
}

/// The brick that holds a name by a layout.
pub fn holder_in(layout: &Layout, name: &Name) -> Option<BrickNo>
    ensures { option_map (λ b. b.0) result ≡ holder_in layout.now name.now }
{
    holder(layout, dm_hash(name.as_bytes()))
}

/// The lookup of a name by this layout: at its holder, if a brick of the volume is one.
fn aim(location: Location, prepared: Prepared, learned: Option<Layout>, layout: &Layout) -> Lookup
    ensures { result ≡ aimed location prepared learned layout.now }
{
    match holder_in(layout, &location.name) {
        Some(brick) if brick.0 < location.bricks => Lookup::LookingAtHolder(
            Sought {
                location,
                brick,
                learned,
            },
            prepared,
        ),
        _ => Lookup::LookingEverywhere(location, prepared.begin(), learned),
    }
}

/// After a brick showed the directory's range, with the ranges of all bricks up to it.
fn survey_on(location: Location, prepared: Prepared, brick: BrickNo, layout: Layout) -> Lookup
    ensures { result ≡ surveyed location prepared brick layout }
{
    if location.bricks.saturating_sub(brick.0) <= 1 {
        aim(location, prepared, Some(layout), &layout)
    } else {
        Lookup::Surveying(location, prepared, BrickNo(brick.0 + 1), layout)
    }
}

/// After a brick was asked for the directory's record. Only its home can say that there is none: a
/// brick without a record of it has no range of it.
fn survey_answered(
    location: Location,
    prepared: Prepared,
    brick: BrickNo,
    layout: Layout,
    reply: &Reply,
    at: u64,
) -> Turn<Lookup, Resolved>
    ensures { result ≡ survey_answered location prepared brick layout reply.now at }
{
    if shows_gone(location.directory, brick, reply) {
        return gone(location, at, None);
    }
    if is_shown(reply) {
        let layout = lengthen(layout, range_shown(reply));
        Turn::Go(survey_on(location, prepared, brick, layout))
    } else {
        Turn::Go(Lookup::Surveying(location, prepared, brick, layout))
    }
}

/// After the holder showed this.
fn holder_showed(
    sought: Sought,
    prepared: Prepared,
    shown: Shown,
    at: u64,
) -> Turn<Lookup, Resolved>
    ensures { result ≡ holder_showed sought prepared shown at }
{
    match shown {
        Shown::File(file) => shown_at(sought, prepared, Answer::File(file), Some(sought.brick), at),
        Shown::Dir(directory) => shown_at(sought, prepared, Answer::Dir(directory), None, at),
        Shown::Leads(brick) => Turn::Go(Lookup::FollowingLinkto(
            Sought { brick, ..sought },
            prepared,
        )),
        Shown::Nothing => {
            Turn::Go(Lookup::LookingEverywhere(sought.location, prepared.begin(), sought.learned))
        }
    }
}

/// After the brick to which the holder's linkto leads showed this. Another linkto is not followed.
fn linked_showed(
    sought: Sought,
    prepared: Prepared,
    shown: Shown,
    at: u64,
) -> Turn<Lookup, Resolved>
    ensures { result ≡ linked_showed sought prepared shown at }
{
    match shown {
        Shown::File(file) => shown_at(sought, prepared, Answer::File(file), Some(sought.brick), at),
        Shown::Dir(directory) => shown_at(sought, prepared, Answer::Dir(directory), None, at),
        _ => Turn::Go(Lookup::LookingEverywhere(sought.location, prepared.begin(), sought.learned)),
    }
}

/// Whether a linkto leads to a brick.
fn is_to(linkto: Linkto, brick: BrickNo) -> bool
    ensures { result ≡ is_to linkto brick }
{
    match linkto {
        Linkto::To(other) => other.0 == brick.0,
        _ => false,
    }
}

/// Whether a lookup by this holder would not find the file, and a linkto there would help: the
/// holder has the directory.
fn wants_linkto(location: &Location, held: &Held, holder: BrickNo, place: Place) -> bool
    ensures { result ≡ wants_linkto location.now held.now holder.0 place }
{
    let directory = location.directory;
    let name = &location.name;
    holder.0 != place.brick.0
        && held.is_copied(directory, name, holder)
        && !is_to(held.linkto(directory, name, holder), place.brick)
}

/// The answer that the name is this, at the line of its last look. The locks are given back first.
fn close(location: Location, held: Held, finish: Finish, place: Option<BrickNo>) -> Lookup
    ensures { result ≡ closed location held finish place }
{
    let layout = held.layout(location.directory, &location.name);
    let answered = Answered {
        location,
        finish,
        place,
        layout: Some(layout),
    };
    Lookup::Ending(held.release(), answered)
}

/// What a lookup answers whose section is held.
fn found_finish(location: &Location, held: &Held) -> Finish
    ensures { result ≡ seen_finish (held_looked held.now (entry_at location.now)) }
{
    let found = held.found(location.directory, &location.name);
    Finish {
        answer: answer_of(found.what),
        at: Some(found.looked),
    }
}

/// How a lookup goes on that found this file under its locks.
fn file_found(location: Location, held: Held, place: Place) -> Lookup
    ensures { result ≡ file_found location held place }
{
    match held.holder(location.directory, &location.name) {
        Some(holder) if wants_linkto(&location, &held, holder, place) => {
            Lookup::LayingLinkto(Misplaced {
                location,
                held,
                holder,
                place,
            })
        }
        _ => {
            let finish = found_finish(&location, &held);
            close(location, held, finish, Some(place.brick))
        }
    }
}

/// How a lookup goes on whose section is held.
fn looked_up(location: Location, held: Held) -> Lookup
    ensures { result ≡ looked_up location held }
{
    let found = held.found(location.directory, &location.name);
    match place_of(found.what) {
        Some(place) => file_found(location, held, place),
        None => {
            let finish = found_finish(&location, &held);
            close(location, held, finish, None)
        }
    }
}

/// After the holder was asked to lay a linkto to the file's brick.
fn linkto_answered(misplaced: Misplaced, reply: &Reply) -> Lookup
    ensures { result ≡ linkto_answered misplaced reply.now }
{
    match fault_of(reply) {
        Some(errno) => close(
            misplaced.location,
            misplaced.held,
            fault_finish(errno),
            None,
        ),
        None => {
            if is_carried(reply) {
                let finish = found_finish(&misplaced.location, &misplaced.held);
                let place = Some(misplaced.place.brick);
                close(misplaced.location, misplaced.held, finish, place)
            } else {
                Lookup::LayingLinkto(misplaced)
            }
        }
    }
}

/// After a reply to the section.
fn section_turned(
    location: Location,
    turn: Turn<Section, Opened>,
    learned: Option<Layout>,
) -> Turn<Lookup, Resolved>
    ensures { result ≡ section_turned location turn learned }
{
    match turn {
        Turn::Go(section) => Turn::Go(Lookup::LookingEverywhere(location, section, learned)),
        Turn::Done(Opened::Held(held)) => Turn::Go(looked_up(location, held)),
        Turn::Done(Opened::Gone(_, line)) => gone(location, line, learned),
        Turn::Done(Opened::Stopped(errno)) => stopped(location, errno, learned),
    }
}

/// After a reply to the release.
fn release_turned(turn: Turn<Release, Prepared>, answered: Answered) -> Turn<Lookup, Resolved>
    ensures { result ≡ release_turned turn answered }
{
    match turn {
        Turn::Go(release) => Turn::Go(Lookup::Ending(release, answered)),
        Turn::Done(room) => Turn::Done(Resolved {
            answered,
            room: Some(room),
        }),
    }
}

/// The look at a name on a brick.
fn look_ask(sought: &Sought) -> Ask
    ensures { result ≡ look_ask sought.now }
{
    Ask {
        brick: sought.brick,
        request: Request::OnNames(NameRequest::Look(
            sought.location.directory,
            sought.location.name,
        )),
    }
}

/// The request for a linkto at the holder, to the file's brick.
fn linkto_ask(misplaced: &Misplaced) -> Ask
    ensures { result ≡ linkto_ask misplaced.now }
{
    let location = &misplaced.location;
    let value = linkto_value_of(location.bricks, misplaced.place.brick);
    Ask {
        brick: misplaced.holder,
        request: Request::OnNames(NameRequest::MakeLinkto(
            location.directory,
            location.name,
            value,
        )),
    }
}

impl Lookup {
    /// The lookup of a name, by a client with these layouts in its cache. It takes the memory that
    /// the lookup will need.
    pub fn begin(alloc: Global, cache: &Cache, location: Location) -> Result<Lookup, AllocError>
        ensures first { IfOk result
            (λ m. m ≡ first_lookup location (layout_at cache.now location.directory)) }
        ensures knows { IfOk result
            (λ m. (s : Scene) → MayLookUp location s → (lookup_stage m).knows s) }
        ensures steps { IfOk result (λ m. (lookup_stage m).variant
            ≤ lookup_steps location (layout_at cache.now location.directory)) }
    {
        let room = location.prepare(alloc)?;
        Ok(Lookup::with_room(room, location, cache.get(location.directory), None))
    }

    /// The lookup of a name once more, with the memory of one that ended. This layout was read by
    /// then, if one was.
    pub fn again(room: Prepared, location: Location, read: Option<Layout>) -> Lookup
        ensures again { result ≡ lookup_again room location read }
        ensures knows { (s : Scene) → IsRoom location room s → (lookup_stage result).knows s }
        ensures steps { (s : Scene) → IsRoom location room s
            → (lookup_stage result).variant ≤ lookup_steps location read }
    {
        let learned = read;
        Lookup::with_room(room, location, read.as_ref(), learned)
    }

    /// The lookup of a name with this memory, by this layout, if there is one; the call has learned
    /// that layout, or none.
    fn with_room(
        room: Prepared,
        location: Location,
        layout: Option<&Layout>,
        learned: Option<Layout>,
    ) -> Lookup
        ensures { result ≡ lookup_with room location (option_copied layout.entry) learned }
    {
        match layout {
            Some(layout) => aim(location, room, learned, layout),
            None => Lookup::Surveying(location, room, BrickNo(0), Layout::empty()),
        }
    }

    /// Where it is after the reply to its request.
    fn after(self, reply: Reply, at: u64) -> Turn<Lookup, Resolved>
        ensures { result ≡ lookup_after self reply at }
    {
        let fault = fault_of(&reply);
        match self {
            Lookup::Surveying(location, prepared, brick, layout) => match fault {
                Some(errno) => stopped(location, errno, None),
                None => survey_answered(location, prepared, brick, layout, &reply, at),
            },
            Lookup::LookingAtHolder(sought, prepared) => match fault {
                Some(errno) => stopped(sought.location, errno, sought.learned),
                None if is_shown(&reply) => {
                    holder_showed(
                        sought,
                        prepared,
                        shown_as(sought.location.bricks, &reply),
                        at,
                    )
                }
                None => Turn::Go(Lookup::LookingAtHolder(sought, prepared)),
            },
            Lookup::FollowingLinkto(sought, prepared) => match fault {
                Some(errno) => stopped(sought.location, errno, sought.learned),
                None if is_shown(&reply) => {
                    linked_showed(
                        sought,
                        prepared,
                        shown_as(sought.location.bricks, &reply),
                        at,
                    )
                }
                None => Turn::Go(Lookup::FollowingLinkto(sought, prepared)),
            },
            Lookup::LookingEverywhere(location, section, learned) => {
                section_turned(location, section.take(reply, at), learned)
            }
            Lookup::LayingLinkto(misplaced) => Turn::Go(linkto_answered(misplaced, &reply)),
            Lookup::Ending(release, answered) => {
                release_turned(release.take(reply, at), answered)
            }
        }
    }
}

impl Machine for Lookup {
    type Done = Resolved;

    ghost stage = { lookup_stage };

    ghost ending = { resolved };

    fn next(&self) -> Ask {
        match self {
            Lookup::Surveying(location, _, brick, _) => Ask {
                brick: *brick,
                request: Request::OnNames(NameRequest::Dirinfo(location.directory)),
            },
            Lookup::LookingAtHolder(sought, _) => look_ask(sought),
            Lookup::FollowingLinkto(sought, _) => look_ask(sought),
            Lookup::LookingEverywhere(_, section, _) => section.next(),
            Lookup::LayingLinkto(misplaced) => linkto_ask(misplaced),
            Lookup::Ending(release, _) => release.next(),
        }
    }

    fn take(self, reply: Reply, at: u64) -> Turn<Lookup, Resolved>
        ensures moves { Moves lookup_stage resolved self reply at result }
        ensures after { result ≡ lookup_after self reply at }
        ensures layout { Learns lookup_layout lookup_taught self reply (ended_turn result) }
        ensures fault { NotesFault lookup_fault self (lookup_stage self).asks.request
            reply (ended_turn result) }
        // a file or a directory that one look shows, before any lock, is answered at once
        ensures found { (f : AGfid) → ShowsFile (lookup_stage self) reply f
            → IsFound f at (ended_turn result) }
        ensures folder { (g : AGfid) → ShowsDir (lookup_stage self) reply g
            → IsDirFound g at (ended_turn result) }
        // a request that has no answer is sent again
        ensures again { IsUnanswered (lookup_stage self) reply → result ≡ turn.Go self }
    {
        self.after(reply, at)
    }

    ghost permitted = { lookup_permitted };

    ghost stable = { lookup_stable };
}

/// A first lookup, by a client that knows no layout, sends one request more than there are bricks
/// where the name's holder shows the file, and two more where it shows a linkto to the file's
/// brick: these are laws for callers, and do nothing.
pub fn a_first_lookup_is_short()
    ensures at_holder { FindsAtHolder }
    ensures by_linkto { FindsByLinkto }
{}
