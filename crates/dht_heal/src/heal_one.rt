//! One directory is healed, under its lock: each brick that has no copy of it gets one, and where
//! its ranges leave out a hash, or share one, each brick gets the planned range.

ghost use Rattle.std.specs.Prelude.{◌≡◌};
ghost use Rattle.dht_section.specs.Again.{IsUnanswered};
ghost use Rattle.dht_section.specs.Scene.{Scene};
ghost use Rattle.dht_section.specs.Stages.{Moves};
ghost use Rattle.dht_section.specs.declared.machine.Turn.TheVariants as turn;
ghost use Rattle.dht_section.specs.Replies.{fault_of as fault_in};
ghost use Rattle.dht_heal.specs.HealOne.{MayHealOne, NotesStop, anchor_brick, copied_from, copy_answered, copying, first_heal_one, has_copy, heal_one_after, heal_one_stage, healed_one, healed_some, home_shown, is_faulty, is_told, laid, layout_answered, lock_answered, next_missing, no_survey, settled, survey_answered, survey_with, surveyed, target_of, unless_fault};
ghost use Rattle.dht_heal.specs.HealOneLaws.{heal_one_permitted, heal_one_stable};

use dht_brick::replies::{Given, Reply, Why};
use dht_brick::requests::{NameRequest, Request};
use dht_section::looks::{is_nodir, lengthen, mark_at, marked};
use dht_section::machine::{Ask, Machine, Turn};
use dht_section::replies::{fault_of, is_carried, range_shown};
use dht_section::section::shows_gone;
use dht_types::errors::Errno;
use dht_types::identifiers::{BrickNo, Gfid};
use dht_types::locks::{Key, Mode};
use dht_types::names::EntryKey;
use dht_xattr::faults::faults;
use dht_xattr::layout::Layout;

/// A directory that is healed, in a volume of so many bricks, and the layout that is planned for
/// it.
#[derive(Clone, Copy)]
pub struct Target {
    pub directory: Gfid,
    pub bricks: u16,
    pub plan: Layout,
}

/// The home's copy of a directory: at what name it stands, and how deep, and the line on which it
/// was shown.
#[derive(Clone, Copy)]
pub struct HomeCopy {
    pub place: Option<EntryKey>,
    pub depth: u16,
    pub at: u64,
}

/// What the first bricks showed of the directory.
#[derive(Clone, Copy)]
pub struct Survey {
    /// The home's copy, if the home is one of them.
    pub home: HomeCopy,
    /// Which of them have a copy.
    pub copies: [bool; 32],
    /// The range of the directory on each of them.
    pub layout: Layout,
}

/// How the healing of one directory ends.
#[derive(Clone, Copy)]
pub enum HealedOne {
    /// Each brick has a copy. The home showed its own on this line.
    Healed(u64),
    /// The home showed on this line that there is no such directory.
    Gone(u64),
    /// This brick has no copy of the directory above it.
    Parent(BrickNo),
    /// A request was not served, and the call answers this error.
    Stopped(Errno),
}

/// The healing of one directory. Each stage is one request.
#[derive(Drop)]
pub enum HealOne {
    /// Nothing is known of the directory.
    Locking(Target),
    /// Its lock is held. The bricks below this one have shown what they have of it.
    Surveying(Target, BrickNo, Survey),
    /// All have. The bricks below this one have a copy, and this one had none. The directory stands
    /// at this name.
    Copying(Target, BrickNo, Survey, EntryKey),
    /// Each brick has a copy, and those below this one have their planned range. The home showed
    /// its own on this line.
    Laying(Target, BrickNo, u64),
    /// The lock is given back.
    Unlocking(Target, HealedOne),
}

impl Target {
    /// The brick on which the directory's lock stands.
    fn anchor(&self) -> BrickNo
        ensures { result.0 ≡ anchor_brick self.now }
    {
        if self.bricks == 0 {
            BrickNo(0)
        } else {
            self.directory.anchor(self.bricks)
        }
    }
}

impl Survey {
    /// No brick has shown anything.
    fn nothing() -> Survey
        ensures { result ≡ no_survey }
    {
        Survey {
            home: HomeCopy {
                place: None,
                depth: 0,
                at: 0,
            },
            copies: [false; 32],
            layout: Layout::empty(),
        }
    }

    /// The name at which the home's copy stands.
    fn place(&self) -> Option<EntryKey>
        ensures { result ≡ self.now.home.place }
    {
        self.home.place
    }

    /// What was shown after the reply of one more brick.
    fn with(&self, directory: Gfid, brick: BrickNo, reply: &Reply, at: u64) -> Survey
        ensures { result ≡ survey_with directory self.now brick reply.now at }
    {
        let home = if brick.0 == directory.home().0 {
            home_shown(reply, at)
        } else {
            self.home
        };
        Survey {
            home,
            copies: marked(self.copies, brick, is_carried(reply)),
            layout: lengthen(self.layout, range_shown(reply)),
        }
    }
}

/// The copy of the home that this reply shows.
fn home_shown(reply: &Reply, at: u64) -> HomeCopy
    ensures { result ≡ home_shown reply.now at }
{
    match reply {
        Reply::Ok(Given::Dirinfo(info)) => HomeCopy {
            place: info.place,
            depth: info.depth,
            at,
        },
        _ => HomeCopy {
            place: None,
            depth: 0,
            at,
        },
    }
}

/// Whether a brick told what it has of the directory. That it has no copy is none where the
/// directory is the root, of which each brick has one.
fn is_told(directory: Gfid, reply: &Reply) -> bool
    ensures { result ≡ is_told directory reply.now }
{
    is_carried(reply) || (is_nodir(reply) && directory.0 != Gfid::ROOT.0)
}

/// Whether the brick has a copy now: it has made one, or something stands at the name, and that is
/// the copy that another call has made meanwhile.
pub fn has_copy(reply: &Reply) -> bool
    ensures { result ≡ has_copy reply.now }
{
    match reply {
        Reply::Ok(_) => true,
        Reply::Refused(Why::Slot(_)) => true,
        _ => false,
    }
}

/// Whether a hash is in no range of a layout, or in two.
fn is_faulty(layout: &Layout) -> bool
    ensures { result ≡ is_faulty layout.now }
{
    let faults = faults(layout);
    faults.holes || faults.overlaps
}

/// The first brick, of so many and from this one on, that had no copy.
fn next_missing(bricks: u16, survey: &Survey, from: u16) -> Option<BrickNo>
    ensures { result ≡ next_missing bricks survey.now.copies from }
{
    for brick in from..bricks {
        if !mark_at(&survey.copies, BrickNo(brick)) {
            return Some(BrickNo(brick));
        }
    }
    None
}

/// Each brick has a copy: each gets its planned range, where a hash is in none, or in two.
fn settled(target: Target, survey: Survey) -> HealOne
    ensures { result ≡ settled target survey }
{
    if is_faulty(&survey.layout) {
        HealOne::Laying(target, BrickNo(0), survey.home.at)
    } else {
        HealOne::Unlocking(target, HealedOne::Healed(survey.home.at))
    }
}

/// A brick that had no copy is asked to make one, at the directory's name; without such a brick,
/// each has a copy.
fn copying(missing: Option<BrickNo>, target: Target, survey: Survey, place: EntryKey) -> HealOne
    ensures { result ≡ copying missing target survey place }
{
    match missing {
        Some(brick) => HealOne::Copying(target, brick, survey, place),
        None => settled(target, survey),
    }
}

/// The bricks below this one have a copy: the next that has none is asked to make it. The root
/// alone stands at no name, and each brick has it.
fn copied_from(target: Target, survey: Survey, from: u16) -> HealOne
    ensures { result ≡ copied_from target survey from }
{
    let missing = next_missing(target.bricks, &survey, from);
    match survey.place() {
        Some(place) => copying(missing, target, survey, place),
        None => settled(target, survey),
    }
}

/// The bricks up to this one have shown what they have of the directory.
fn surveyed(target: Target, brick: BrickNo, survey: Survey) -> HealOne
    ensures { result ≡ surveyed target brick survey }
{
    if target.bricks.saturating_sub(brick.0) <= 1 {
        copied_from(target, survey, 0)
    } else {
        HealOne::Surveying(target, BrickNo(brick.0 + 1), survey)
    }
}

/// The bricks up to this one have their planned range.
fn laid(target: Target, brick: BrickNo, line: u64) -> HealOne
    ensures { result ≡ laid target brick line }
{
    if target.bricks.saturating_sub(brick.0) <= 1 {
        HealOne::Unlocking(target, HealedOne::Healed(line))
    } else {
        HealOne::Laying(target, BrickNo(brick.0 + 1), line)
    }
}

/// After the lock was asked for.
fn lock_answered(target: Target, reply: &Reply) -> HealOne
    ensures { result ≡ unless_fault (fault_in reply.now) target
        (lock_answered target reply.now) }
{
    if let Some(errno) = fault_of(reply) {
        return HealOne::Unlocking(target, HealedOne::Stopped(errno));
    }
    if is_carried(reply) {
        HealOne::Surveying(target, BrickNo(0), Survey::nothing())
    } else {
        HealOne::Locking(target)
    }
}

/// After a brick was asked what it has of the directory. Its home alone tells that it is gone.
fn survey_answered(
    target: Target,
    brick: BrickNo,
    survey: Survey,
    reply: &Reply,
    at: u64,
) -> HealOne
    ensures { result ≡ unless_fault (fault_in reply.now) target
        (survey_answered target brick survey reply.now at) }
{
    if let Some(errno) = fault_of(reply) {
        return HealOne::Unlocking(target, HealedOne::Stopped(errno));
    }
    if shows_gone(target.directory, brick, reply) {
        return HealOne::Unlocking(target, HealedOne::Gone(at));
    }
    if is_told(target.directory, reply) {
        surveyed(
            target,
            brick,
            survey.with(target.directory, brick, reply, at),
        )
    } else {
        HealOne::Surveying(target, brick, survey)
    }
}

/// After a brick was asked to make a copy.
fn copy_answered(
    target: Target,
    brick: BrickNo,
    survey: Survey,
    place: EntryKey,
    reply: &Reply,
) -> HealOne
    ensures { result ≡ unless_fault (fault_in reply.now) target
        (copy_answered target brick survey place reply.now) }
{
    if let Some(errno) = fault_of(reply) {
        return HealOne::Unlocking(target, HealedOne::Stopped(errno));
    }
    if is_nodir(reply) {
        HealOne::Unlocking(target, HealedOne::Parent(brick))
    } else if has_copy(reply) && brick.0 < target.bricks {
        copied_from(target, survey, brick.0 + 1)
    } else {
        HealOne::Copying(target, brick, survey, place)
    }
}

/// After a brick was given its planned range.
fn layout_answered(target: Target, brick: BrickNo, line: u64, reply: &Reply) -> HealOne
    ensures { result ≡ unless_fault (fault_in reply.now) target
        (layout_answered target brick line reply.now) }
{
    if let Some(errno) = fault_of(reply) {
        return HealOne::Unlocking(target, HealedOne::Stopped(errno));
    }
    if is_carried(reply) {
        laid(target, brick, line)
    } else {
        HealOne::Laying(target, brick, line)
    }
}

impl HealOne {
    /// The healing of a directory for which this layout is planned, in a volume of so many bricks.
    /// It takes no memory.
    pub fn begin(bricks: u16, plan: Layout, directory: Gfid) -> HealOne
        ensures first { result ≡ first_heal_one bricks plan directory }
        ensures knows { (s : Scene) → MayHealOne bricks plan directory s
            → (heal_one_stage result).knows s }
    {
        HealOne::Locking(Target {
            directory,
            bricks,
            plan,
        })
    }

    /// Where it is after the reply to its request.
    fn after(self, reply: &Reply, at: u64) -> Turn<HealOne, HealedOne>
        ensures { result ≡ heal_one_after self reply.now at }
    {
        match self {
            HealOne::Locking(target) => Turn::Go(lock_answered(target, reply)),
            HealOne::Surveying(target, brick, survey) => {
                Turn::Go(survey_answered(target, brick, survey, reply, at))
            }
            HealOne::Copying(target, brick, survey, place) => {
                Turn::Go(copy_answered(target, brick, survey, place, reply))
            }
            HealOne::Laying(target, brick, line) => {
                Turn::Go(layout_answered(target, brick, line, reply))
            }
            HealOne::Unlocking(_, end) => Turn::Done(end),
        }
    }
}

impl Machine for HealOne {
    type Done = HealedOne;

    ghost stage = { heal_one_stage };

    ghost ending = { healed_some };

    fn next(&self) -> Ask {
        match self {
            HealOne::Locking(target) => Ask {
                brick: target.anchor(),
                request: Request::Lock(Key::Dir(target.directory), Mode::Exclusive),
            },
            HealOne::Surveying(target, brick, _) => Ask {
                brick: *brick,
                request: Request::OnNames(NameRequest::Dirinfo(target.directory)),
            },
            HealOne::Copying(target, brick, survey, place) => Ask {
                brick: *brick,
                request: Request::OnNames(NameRequest::MakeDir {
                    dir: place.dir,
                    name: place.name,
                    made: target.directory,
                    depth: survey.home.depth,
                    value: None,
                }),
            },
            HealOne::Laying(target, brick, _) => Ask {
                brick: *brick,
                request: Request::OnNames(NameRequest::SetLayout(
                    target.directory,
                    target.plan.value(*brick),
                )),
            },
            HealOne::Unlocking(target, _) => Ask {
                brick: target.anchor(),
                request: Request::Unlock(Key::Dir(target.directory)),
            },
        }
    }

    fn take(self, reply: Reply, at: u64) -> Turn<HealOne, HealedOne>
        ensures moves { Moves heal_one_stage healed_some self reply at result }
        // what it ends with is told of its own directory
        ensures told { Moves heal_one_stage (healed_one (target_of self).directory) self reply at
            result }
        ensures after { result ≡ heal_one_after self reply at }
        ensures fault { NotesStop self reply result }
        // a request that has no answer is sent again
        ensures again { IsUnanswered (heal_one_stage self) reply → result ≡ turn.Go self }
    {
        self.after(&reply, at)
    }

    ghost permitted = { heal_one_permitted };

    ghost stable = { heal_one_stable };
}
