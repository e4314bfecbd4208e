//! A client: the program of its running call, if there is one, and what it has learned.

ghost use Rattle.std.specs.Prelude.{◌≡◌, ◌≤◌, ◌^◌, ◌<◌, [], true, false, is_none, is_ok, is_some, None, Some, length, IfOk, MatchOption, OnOk, OnErr};
ghost use Rattle.std.specs.Result.{result_err};
ghost use Rattle.dht_types.specs.Calls.{directory_of, name_of, refusal_at_once, refusal_at_start};
ghost use Rattle.dht_types.specs.Cost.{cost};
ghost use Rattle.dht_types.specs.declared.identifiers.Gfid.{Gfid as AGfid};
ghost use Rattle.dht_section.specs.Again.{IsUnanswered};
ghost use Rattle.dht_section.specs.Begins.{Begins, IsRefusal};
ghost use Rattle.dht_section.specs.Ended.{found_at};
ghost use Rattle.dht_section.specs.Faults.{CallNotesFault};
ghost use Rattle.dht_section.specs.Location.{located};
ghost use Rattle.dht_section.specs.Scene.{Scene};
ghost use Rattle.dht_section.specs.Stages.{CallMoves};
ghost use Rattle.dht_resolve.specs.Found.{ShowsDir, ShowsFile, dir_at};
ghost use Rattle.dht_client.specs.Client.{CallLearns, IsLearned, client_cache, client_directory, client_fault, client_is_busy, client_is_new, client_layout, client_learned, client_looks_up, client_number, client_stage, first_ask, first_claim, first_program, is_lookup_call, most_steps, subject_of};
ghost use Rattle.dht_client.specs.ClientLaws.{client_goes_on, client_permitted, client_stable};

use super::program::Program;
use dht_brick::replies::Reply;
use dht_dirops::mkdir::Mkdir;
use dht_dirops::rmdir::Rmdir;
use dht_fileops::create::Create;
use dht_fileops::unlink::Unlink;
use dht_heal::call::HealCall;
use dht_heal::room::HealRoom;
use dht_resolve::cache::Cache;
use dht_resolve::lookup::Lookup;
use dht_section::caller::Caller;
use dht_section::location::Location;
use dht_section::machine::{Ask, Finish, Machine, Turn};
use dht_section::origin::Origin;
use dht_types::calls::Call;
use dht_types::errors::Errno;
use dht_types::identifiers::{CallNo, ClientNo, Gfid};
use dht_types::names::Name;
use dht_types::volumes::Weights;
use dht_xattr::layout::Layout;
use std::alloc::{AllocError, Global};

/// A running call: the directory of its name, and its program. At its end the layout that it has
/// learned is put in the cache, which may need memory.
#[derive(Drop)]
pub struct Running {
    alloc: Global,
    directory: Gfid,
    program: Program,
}

/// A client of the volume. It carries out one call at a time, and looks a name up at its holder
/// alone where it has the layout of the name's directory in its cache.
#[derive(Drop)]
pub struct Client {
    number: ClientNo,
    /// The layouts that its calls have read.
    cache: Cache,
    pending: Option<Running>,
}

/// What a call is about, in a volume of so many bricks: its directory, and its name if it has one.
#[derive(Clone, Copy)]
pub struct Subject {
    directory: Gfid,
    name: Option<Name>,
    bricks: u16,
}

/// The name of a call, if it has one; or why it is none.
fn name_of(what: &Call<Gfid>) -> Result<Option<Name>, Errno>
    ensures refusal { result_err result ≡ refusal_at_once what.now }
    ensures name { IfOk result (λ name. name ≡ name_of what.now) }
{
    match what.name() {
        Some(bytes) => Ok(Some(Name::new(bytes)?)),
        None => Ok(None),
    }
}

/// What a call is about, over bricks of these weights; or why the call is refused before its first
/// request.
fn subject_of(weights: &Weights, what: &Call<Gfid>) -> Result<Subject, Errno>
    requires { length weights.now ≤ 32 }
    ensures refusal { result_err result ≡ refusal_at_start (length weights.now) what.now }
    ensures subject { IfOk result (λ x. x ≡ subject_of (length weights.now) what.now) }
{
    let bricks = weights.as_slice().len() as u16;
    let name = name_of(what)?;
    let directory = what.directory();
    if directory.home().0 < bricks {
        Ok(Subject {
            directory,
            name,
            bricks,
        })
    } else {
        Err(Errno::Estale)
    }
}

/// Puts the layout that a call in this directory has learned in the cache. Where there is no memory
/// for it, the cache stays as it was: the next lookup reads the layout again.
fn learn(cache: &mut Cache, alloc: Global, directory: Gfid, learned: Option<Layout>)
    ensures { IsLearned directory learned cache.old cache.new }
{
    match learned {
        Some(layout) => match cache.put(alloc, directory, layout) {
            Ok(()) => {}
            Err(_) => {}
        },
        None => {}
    }
}

impl Client {
    /// The program of a call that is about this. It takes the memory that the call will need.
    fn program(
        &self,
        alloc: Global,
        weights: &Weights,
        subject: Subject,
        run: u32,
        call: CallNo,
        what: &Call<Gfid>,
    ) -> Result<Program, AllocError>
        requires { subject ≡ subject_of (length weights.now) what.now }
        ensures program { IfOk result
            (λ p. p ≡ first_program self.now weights.now run call what.now) }
        ensures small { call.0 < 2 ^ 64 }
    {
        let Subject {
            directory,
            name,
            bricks,
        } = subject;
        match name {
            Some(name) => {
                let location = Location {
                    directory,
                    name,
                    bricks,
                };
                self.named(alloc, weights, location, run, call, what)
            }
            None => Ok(Program::Healing(HealCall::begin(alloc, weights, bricks, directory)?)),
        }
    }

    /// The program of a call whose name is at this location.
    fn named(
        &self,
        alloc: Global,
        weights: &Weights,
        location: Location,
        run: u32,
        call: CallNo,
        what: &Call<Gfid>,
    ) -> Result<Program, AllocError>
        requires name { name_of what.now ≡ Some location.name }
        requires location { location
            ≡ located (length weights.now) (directory_of what.now) location.name }
        ensures { IfOk result
            (λ p. p ≡ first_program self.now weights.now run call what.now) }
    {
        let Location {
            directory,
            name,
            bricks,
        } = location;
        let origin = Origin {
            run,
            client: self.number,
            call,
        };
        match what {
            Call::Lookup(_, _) => {
                let lookup = Lookup::begin(alloc, &self.cache, location)?;
                Ok(Program::LookingUp(lookup))
            }
            Call::Create(_, _) => {
                let room = HealRoom::new(alloc, weights)?;
                let create = Create::begin(alloc, bricks, directory, name, origin, room)?;
                Ok(Program::Creating(create))
            }
            Call::Mkdir(_, _) => {
                let room = HealRoom::new(alloc, weights)?;
                let mkdir = Mkdir::begin(alloc, bricks, directory, name, origin, room)?;
                Ok(Program::Making(mkdir))
            }
            Call::Unlink(_, _) => {
                let unlink = Unlink::begin(alloc, bricks, directory, name)?;
                Ok(Program::Unlinking(unlink))
            }
            Call::Rmdir(_, _) => {
                let rmdir = Rmdir::begin(alloc, &self.cache, location)?;
                Ok(Program::Removing(rmdir))
            }
            Call::Heal(_) => unreachable!(),
        }
    }
}

impl Caller for Client {
    ghost number = { client_number };

    ghost is_busy = { client_is_busy };

    ghost is_new = { client_is_new };

    ghost stage = { client_stage };

    fn new(client: ClientNo) -> Client
        ensures number { client_number result ≡ client }
        ensures idle { client_is_busy result ≡ false }
        ensures unread { client_is_new result ≡ true }
        // it knows no layout
        ensures cache { client_cache result ≡ [] }
    {
        Client {
            number: client,
            cache: Cache::new(),
            pending: None,
        }
    }

    fn is_idle(&self) -> bool {
        self.pending.is_none()
    }

    fn start(
        &mut self,
        alloc: Global,
        weights: &Weights,
        run: u32,
        call: CallNo,
        what: &Call<Gfid>,
    ) -> Result<(), Errno>
        requires idle { client_is_busy self.old ≡ false }
        requires few { length weights.now ≤ 32 }
        ensures number { client_number self.new ≡ client_number self.old }
        ensures refused { IsRefusal (refusal_at_start (length weights.now) what.now) result }
        ensures busy { client_is_busy self.new ≡ is_ok result }
        ensures copy { OnOk result ((client_stage self.new).claims.copy ≡ None) }
        ensures knows { OnOk result ((s : Scene)
            → Begins (client_number self.old) (client_is_new self.old) weights.now run call
            what.now s
            → (client_stage self.new).knows s) }
        ensures variant { OnOk result ((client_stage self.new).variant
            ≤ cost (length weights.now) what.now) }
        // where it is refused, or there is no memory, no call has begun
        ensures err { OnErr result (self.new ≡ self.old) }
        // a client that knows the layout looks at the holder first
        ensures asks { OnOk result ((client_stage self.new).asks
            ≡ first_ask (client_layout self.old (directory_of what.now)) weights.now what.now) }
        // it claims the lock that it asks for first, if it asks for one
        ensures claims { OnOk result ((client_stage self.new).claims
            ≡ first_claim (client_stage self.new).asks) }
        ensures steps { OnOk result ((client_stage self.new).variant
            ≤ most_steps (is_some (client_layout self.old (directory_of what.now)))
            (length weights.now) what.now) }
        ensures cache { client_cache self.new ≡ client_cache self.old }
        ensures directory { OnOk result
            (client_directory self.new ≡ Some (directory_of what.now)) }
        ensures learned { OnOk result (client_learned self.new ≡ None) }
        ensures fault { OnOk result (client_fault self.new ≡ None) }
        ensures verb { OnOk result (client_looks_up self.new ≡ is_lookup_call what.now) }
    {
        let subject = subject_of(weights, what)?;
        match self.program(alloc, weights, subject, run, call, what) {
            Ok(program) => {
                let directory = what.directory();
                let running = Running {
                    alloc,
                    directory,
                    program,
                };
                // by a call of `drop`: an assignment is proved through all that a program may hold
                drop(self.pending.replace(running));
                Ok(())
            }
            Err(_) => Err(Errno::Enomem),
        }
    }

    fn next(&self) -> Ask {
        match &self.pending {
            Some(running) => running.program.next(),
            None => unreachable!(),
        }
    }

    fn take(&mut self, reply: Reply, at: u64) -> Option<Finish>
        requires { client_is_busy self.old ≡ true }
        ensures number { client_number self.new ≡ client_number self.old }
        ensures moves { CallMoves client_is_busy client_stage self.old self.new reply at result }
        ensures busy { client_is_busy self.new ≡ is_none result }
        // a call that has read the range of every brick leaves its client the layout of its
        // directory, if there is memory for it
        ensures layout { CallLearns self.old reply result self.new }
        // a call answers Enotconn, Eio or Enomem exactly where a brick was down, failed or had no
        // memory for a request of it; the first such brick decides
        ensures fault { CallNotesFault (client_fault self.old) (client_fault self.new)
            (client_stage self.old).asks.request reply result }
        // a call is a lookup, or is none, up to its end
        ensures verb { MatchOption result
            (client_looks_up self.new ≡ client_looks_up self.old) (λ f. Unit {0}) }
        // a lookup answers at once what one look shows, before any lock: a file or a directory
        ensures found { client_looks_up self.old ≡ true → (f : AGfid)
            → ShowsFile (client_stage self.old) reply f → result ≡ Some (found_at f at) }
        ensures folder { client_looks_up self.old ≡ true → (g : AGfid)
            → ShowsDir (client_stage self.old) reply g → result ≡ Some (dir_at g at) }
        // a request that has no answer is sent again
        ensures again { IsUnanswered (client_stage self.old) reply → self.new ≡ self.old }
    {
        match self.pending.take() {
            Some(
                Running {
                    alloc,
                    directory,
                    program,
                },
            ) => match program.take(reply, at) {
                Turn::Go(program) => {
                    let running = Running {
                        alloc,
                        directory,
                        program,
                    };
                    drop(self.pending.replace(running));
                    None
                }
                Turn::Done(end) => {
                    learn(&mut self.cache, alloc, directory, end.layout);
                    Some(end.finish)
                }
            },
            None => None,
        }
    }

    ghost permitted = { client_permitted };

    ghost stable = { client_stable };

    ghost goes_on = { client_goes_on };
}
