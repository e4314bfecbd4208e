//! The world, and what an event makes of it.

ghost use Rattle.std.specs.Prelude.{◌≡◌, ◌+◌, ◌≤◌, ◌<◌, ◌^◌, ◌↔◌, ◌&&◌, ℕ, Bool, false, not, nat_le, is_none, Err, None, List, [], ◌∷◌, ◌++◌, OnOk, OnErr, IfOk, vec_len, vec_capacity, length, map, slice_get};
ghost use Rattle.std.specs.List.{list_any};
ghost use Rattle.dht_types.specs.History.{history_of};
ghost use Rattle.dht_types.specs.declared.lines.Line.{Line};
ghost use Rattle.dht_types.specs.Volume.{HasWeight};
ghost use Rattle.dht_brick.specs.Within.{MayBeSent};
ghost use Rattle.dht_world.specs.Bricks.{disk_of, journals_of, none_down, without_client, AreNewborn, AreReady, ServedAt};
ghost use Rattle.dht_world.specs.Clients.{is_busy_at, place_cause, AreNewClients};
ghost use Rattle.dht_world.specs.Following.{cause_of, remount_cause, is_step, step_limit, IsSpent};
ghost use Rattle.dht_world.specs.World.{CanHappen, HoldersCall};
ghost use Rattle.dht_world.specs.Places.{IsAt, IsAccepted, StaysSilent, Stays, Adds, Comes};
ghost use Rattle.dht_world.specs.declared.stop.Stop.TheVariants.{Limit};

use super::answers::{admit, answer_cause, keep_answer};
use super::notes::{push_line, push_request, refusal_point};
use super::places::Place;
use super::stop::Stop;
use dht_brick::brick::Brick;
use dht_brick::replies::Reply;
use dht_section::caller::Caller;
use dht_section::machine::Ask;
use dht_types::calls::{Answer, Call};
use dht_types::events::{Directory, Event};
use dht_types::identifiers::{BrickNo, CallNo, ClientNo, Gfid};
use dht_types::lines::{Cause, Line};
use dht_types::volumes::Weights;
use std::alloc::{AllocError, Global};

/// The bricks of a volume, and the clients.
#[derive(Drop)]
pub struct World<B, C> {
    /// The bricks, in the order of their numbers.
    pub bricks: Vec<B>,
    /// The places of the 64 clients, in the order of their numbers.
    pub clients: Vec<Place<C>>,
    /// The bricks' weights.
    pub weights: Weights,
    /// The volume's run number.
    pub run: u32,
    /// How many calls were accepted.
    pub calls: u64,
    /// How many lines were written.
    pub lines: u64,
    /// How many of them are step or wait lines.
    pub requests: u64,
    /// The file or directory that each accepted call has answered, the first call's first.
    pub answers: Vec<Option<Gfid>>,
}

/// How many step and wait lines a run has at most.
const STEP_LIMIT: u64 = 200_000;

/// Has one brick serve a request, once there is room for the journal's entry.
fn serve_at<B: Brick>(
    bricks: &mut Vec<B>,
    client: ClientNo,
    call: CallNo,
    ask: &Ask,
) -> Result<Reply, AllocError>
    requires there { ask.now.brick.0 < vec_len bricks.old }
    requires ready { (ws : List ℕ) × (run : ℕ) × (down : ℕ → Bool)
        × AreReady B.state ws run down bricks.old.items }
    requires sent { MayBeSent (vec_len bricks.old) ask.now.request }
    ensures ok { IfOk result (λ r. (ws : List ℕ) (run : ℕ) (down : ℕ → Bool)
        → AreReady B.state ws run down bricks.old.items
        → ServedAt B.state down client call ask.now bricks.old.items r bricks.new.items) }
    ensures disk { OnErr result (disk_of B.state bricks.new.items
        ≡ disk_of B.state bricks.old.items) }
    ensures journals { OnErr result (journals_of B.state bricks.new.items
        ≡ journals_of B.state bricks.old.items) }
    ensures states { OnErr result (map B.state bricks.new.items ≡ map B.state bricks.old.items) }
    ensures ready { (ws : List ℕ) (run : ℕ) (down : ℕ → Bool)
        → AreReady B.state ws run down bricks.old.items
        → AreReady B.state ws run down bricks.new.items }
{
    let brick = &mut bricks[usize::from(ask.brick.0)];
    brick.make_room()?;
    Ok(brick.serve(client, call, &ask.request))
}

/// Takes away the locks and registrations of a client on each brick, also where it is down.
fn free_client<B: Brick>(bricks: &mut Vec<B>, client: ClientNo)
    ensures { map B.state bricks.new.items
        ≡ map (without_client client.0) (map B.state bricks.old.items) }
{
    for brick in bricks.iter_mut() {
        brick.free_client(client);
    }
}

impl<B: Brick, C: Caller> World<B, C> {
    /// The world of new bricks of these weights and new clients, in the first run, after the
    /// volume's line. Each brick has its place as its number and the range of the root that is
    /// planned for it, knows the volume, is up, and does not fail. Each client has its place as its
    /// number, is idle, and has not called.
    pub fn new(
        alloc: Global,
        weights: Weights,
        bricks: Vec<B>,
        clients: Vec<Place<C>>,
    ) -> World<B, C>
        requires newborn { AreNewborn weights (disk_of B.state bricks.items)
            (journals_of B.state bricks.items) }
        requires ready { AreReady B.state weights 1 none_down bricks.items }
        requires counted { vec_len bricks ≡ length weights }
        requires heavy { HasWeight weights }
        requires some { 0 < length weights }
        requires few { length weights ≤ 32 }
        requires many { vec_len clients ≡ 64 }
        requires idle { AreNewClients C.Caller clients.items }
        ensures at { IsAt B.Brick C.Caller result (Line.Volume weights ∷ []) }
        ensures lines { result.lines ≡ 1 }
    {
        World {
            bricks,
            clients,
            weights,
            run: 1,
            calls: 0,
            lines: 1,
            requests: 0,
            answers: Vec::new(alloc),
        }
    }

    /// The bricks.
    pub fn into_bricks(self) -> Vec<B>
    where
        C: Drop,
        ensures { result ≡ self.bricks }
    {
        self.bricks
    }

    /// The first cause for which an event of this client is refused; where it lives, these are the
    /// causes while no call of it is pending, and while one is.
    fn client_cause(&self, client: u64, idle: Option<Cause>, busy: Option<Cause>) -> Option<Cause>
        ensures { result
            ≡ place_cause C.Caller (slice_get self.now.clients.items client) idle busy }
    {
        match self.clients.get(client as usize) {
            None => Some(Cause::Unknown),
            Some(place) if place.is_dead() => Some(Cause::Dead),
            Some(place) if place.is_idle() => idle,
            Some(_) => busy,
        }
    }

    /// Whether a call of a client that lives is pending.
    fn is_called(&self) -> bool
        ensures { result ≡ list_any (is_busy_at C.Caller) self.now.clients.items }
    {
        self.clients.iter().any(|place| !place.is_idle())
    }

    /// The first cause for which a remount with these weights is refused, if there is one.
    pub(crate) fn remount_cause(&self, weights: &Weights) -> Option<Cause>
        ensures { (past : List Line) → IsAt B.Brick C.Caller self.now past
            → result ≡ remount_cause (history_of past) weights.now }
    {
        if self.is_called() {
            return Some(Cause::Open);
        }
        if weights.as_slice().len() < self.weights.as_slice().len() {
            return Some(Cause::Fewer);
        }
        None
    }

    /// The first cause for which an event is refused, if there is one.
    fn cause_of(&self, event: &Event) -> Option<Cause>
        ensures { (past : List Line) → IsAt B.Brick C.Caller self.now past
            → result ≡ cause_of (history_of past) event.now }
    {
        match event {
            Event::Volume(_) => None,
            Event::Remount(weights) => self.remount_cause(weights),
            Event::Call(client, what) => {
                let idle = answer_cause(&self.answers, what);
                self.client_cause(*client, idle, Some(Cause::Busy))
            }
            Event::Step(client) => self.client_cause(*client, Some(Cause::Idle), None),
            Event::Die(client) => self.client_cause(*client, None, None),
            Event::Down(brick) | Event::Up(brick) => {
                if *brick < self.weights.as_slice().len() as u64 {
                    None
                } else {
                    Some(Cause::Unknown)
                }
            }
        }
    }

    /// Whether an event that is refused for this cause, or for none, is a step that is accepted
    /// though the run has had all its steps.
    fn is_spent(&self, event: &Event, cause: Option<Cause>) -> bool
        ensures { result ≡ (is_none cause && is_step event.now
            && nat_le step_limit self.now.requests) }
    {
        cause.is_none() && matches!(event, Event::Step(_)) && self.requests >= STEP_LIMIT
    }

    /// An event was refused, that of this line of the schedule.
    pub(crate) fn refuse(&mut self, line: u64, cause: Cause, out: &mut Vec<Line>)
        requires room { vec_len out.old + 3 ≤ vec_capacity out.old }
        requires few { self.old.lines + 3 < 2 ^ 64 }
        ensures lines { out.new.items ≡ out.old.items ++ Line.Refused line cause ∷ [] }
        ensures stays { StaysSilent B.Brick self.old self.new }
        ensures grows { self.new.lines ≤ self.old.lines + 3 }
        ensures at { (past : List Line)
            → IsAt B.Brick C.Caller self.old past
            → IsAt B.Brick C.Caller self.new (past ++ Line.Refused line cause ∷ []) }
    {
        push_line(out, Line::Refused(line, cause));
        self.lines += 1;
    }

    /// A client calls. The call begins, or is refused before its first request.
    fn call(
        &mut self,
        alloc: Global,
        client: ClientNo,
        what: &Call<Directory>,
        out: &mut Vec<Line>,
    ) -> Result<(), AllocError>
        requires room { vec_len out.old + 3 ≤ vec_capacity out.old }
        requires few { self.old.lines + 3 < 2 ^ 64 }
        requires accepted { IsAccepted B.Brick C.Caller self.old (Event.Call client.0 what.now) }
        ensures comes { OnOk result (Comes B.Brick C.Caller self.old self.new
            (Event.Call client.0 what.now) out.old.items out.new.items) }
        ensures err { OnErr result ((past : List Line)
            → IsAt B.Brick C.Caller self.old past
            → IsAt B.Brick C.Caller self.new past) }
        ensures stays { OnErr result (Stays B.Brick self.old self.new) }
        ensures none { OnErr result (out.new.items ≡ out.old.items) }
        ensures grows { self.new.lines ≤ self.old.lines + 3 }
    {
        let call = admit(alloc, &mut self.answers, what)?;
        let number = CallNo(self.calls + 1);
        let caller = &mut self.clients[usize::from(client.0)];
        let begun = caller.start(alloc, &self.weights, self.run, number, &call);
        push_line(out, Line::Called(number, client, call));
        self.calls += 1;
        self.lines += 1;
        if let Err(refusal) = begun {
            let point = refusal_point(self.lines, refusal);
            let answer = Answer::Fault(refusal);
            push_line(out, Line::Answered(number, client, point, answer));
            self.lines += 1;
        }
        Ok(())
    }

    /// The next request of a client's pending call is carried out, or waits.
    fn step(&mut self, client: ClientNo, out: &mut Vec<Line>) -> Result<(), AllocError>
        requires room { vec_len out.old + 3 ≤ vec_capacity out.old }
        requires few { self.old.lines + 3 < 2 ^ 64 }
        requires accepted { IsAccepted B.Brick C.Caller self.old (Event.Step client.0) }
        ensures comes { OnOk result (Comes B.Brick C.Caller self.old self.new
            (Event.Step client.0) out.old.items out.new.items) }
        ensures err { OnErr result ((past : List Line)
            → IsAt B.Brick C.Caller self.old past
            → IsAt B.Brick C.Caller self.new past) }
        ensures stays { OnErr result (Stays B.Brick self.old self.new) }
        ensures none { OnErr result (out.new.items ≡ out.old.items) }
        ensures grows { self.new.lines ≤ self.old.lines + 3 }
    {
        let (call, reply) = {
            let (call, ask) = self.clients[usize::from(client.0)].next();
            let reply = serve_at(&mut self.bricks, client, call, &ask)?;
            self.lines += push_request(out, call, client, &ask, &reply);
            (call, reply)
        };
        self.requests += 1;
        let place = &mut self.clients[usize::from(client.0)];
        if let Some(finish) = place.take(reply, self.lines) {
            keep_answer(&mut self.answers, call, &finish.answer);
            push_line(out, Line::Answered(call, client, finish.at, finish.answer));
            self.lines += 1;
        }
        Ok(())
    }

    /// A brick goes down.
    fn down(&mut self, brick: BrickNo, out: &mut Vec<Line>)
        requires room { vec_len out.old + 3 ≤ vec_capacity out.old }
        requires few { self.old.lines + 3 < 2 ^ 64 }
        requires accepted { IsAccepted B.Brick C.Caller self.old (Event.Down brick.0) }
        ensures comes { Comes B.Brick C.Caller self.old self.new
            (Event.Down brick.0) out.old.items out.new.items }
        ensures grows { self.new.lines ≤ self.old.lines + 3 }
    {
        self.bricks[usize::from(brick.0)].set_up(false);
        push_line(out, Line::WentDown(brick));
        self.lines += 1;
    }

    /// A brick comes back.
    fn up(&mut self, brick: BrickNo, out: &mut Vec<Line>)
        requires room { vec_len out.old + 3 ≤ vec_capacity out.old }
        requires few { self.old.lines + 3 < 2 ^ 64 }
        requires accepted { IsAccepted B.Brick C.Caller self.old (Event.Up brick.0) }
        ensures comes { Comes B.Brick C.Caller self.old self.new
            (Event.Up brick.0) out.old.items out.new.items }
        ensures grows { self.new.lines ≤ self.old.lines + 3 }
    {
        self.bricks[usize::from(brick.0)].set_up(true);
        push_line(out, Line::CameUp(brick));
        self.lines += 1;
    }

    /// A client dies, with its program. Its locks and registrations are taken away on each brick.
    fn die(&mut self, client: ClientNo, out: &mut Vec<Line>)
    where
        C: Drop,
        requires room { vec_len out.old + 3 ≤ vec_capacity out.old }
        requires few { self.old.lines + 3 < 2 ^ 64 }
        requires accepted { IsAccepted B.Brick C.Caller self.old (Event.Die client.0) }
        ensures comes { Comes B.Brick C.Caller self.old self.new
            (Event.Die client.0) out.old.items out.new.items }
        ensures grows { self.new.lines ≤ self.old.lines + 3 }
    {
        free_client(&mut self.bricks, client);
        self.clients[usize::from(client.0)] = Place::Dead;
        push_line(out, Line::Died(client));
        self.lines += 1;
    }

    /// An event that is not refused.
    fn happen(
        &mut self,
        alloc: Global,
        event: &Event,
        out: &mut Vec<Line>,
    ) -> Result<(), AllocError>
    where
        C: Drop,
        requires can { CanHappen event.now }
        requires room { vec_len out.old + 3 ≤ vec_capacity out.old }
        requires few { self.old.lines + 3 < 2 ^ 64 }
        requires accepted { IsAccepted B.Brick C.Caller self.old event.now }
        ensures comes { OnOk result (Comes B.Brick C.Caller self.old self.new
            event.now out.old.items out.new.items) }
        ensures err { OnErr result ((past : List Line)
            → IsAt B.Brick C.Caller self.old past
            → IsAt B.Brick C.Caller self.new past) }
        ensures stays { OnErr result (Stays B.Brick self.old self.new) }
        ensures none { OnErr result (out.new.items ≡ out.old.items) }
        ensures grows { self.new.lines ≤ self.old.lines + 3 }
    {
        match event {
            Event::Call(client, what) => self.call(alloc, ClientNo(*client as u16), what, out),
            Event::Step(client) => self.step(ClientNo(*client as u16), out),
            Event::Down(brick) => {
                self.down(BrickNo(*brick as u16), out);
                Ok(())
            }
            Event::Up(brick) => {
                self.up(BrickNo(*brick as u16), out);
                Ok(())
            }
            Event::Die(client) => {
                self.die(ClientNo(*client as u16), out);
                Ok(())
            }
            Event::Volume(_) | Event::Remount(_) => unreachable!(),
        }
    }

    /// One event that brings no bricks, that of this line of the schedule; its lines are appended.
    /// It does not happen where it is a step and the run has had all its steps, nor where memory
    /// runs out: then nothing has happened. Where its last line is the answer ok of a heal that was
    /// the only call in its span, each brick has the heal's directory and each above it then, and
    /// their ranges have no hole and no overlap.
    pub fn event(
        &mut self,
        alloc: Global,
        event: &Event,
        line: u64,
        out: &mut Vec<Line>,
    ) -> Result<(), Stop>
    where
        C: Drop,
        requires can { CanHappen event.now }
        requires few { self.old.lines + 3 < 2 ^ 64 }
        requires at { (past : List Line) × IsAt B.Brick C.Caller self.old past }
        ensures ok { OnOk result ((past : List Line)
            → IsAt B.Brick C.Caller self.old past
            → Adds B.Brick C.Caller self.old self.new line event.now past
            out.old.items out.new.items) }
        ensures limit { (past : List Line)
            → IsAt B.Brick C.Caller self.old past
            → (result ≡ Err Limit) ↔ IsSpent (history_of past) event.now }
        ensures err { OnErr result ((past : List Line)
            → IsAt B.Brick C.Caller self.old past
            → IsAt B.Brick C.Caller self.new past) }
        ensures stays { OnErr result (Stays B.Brick self.old self.new) }
        ensures none { OnErr result (out.new.items ≡ out.old.items) }
        ensures grows { self.new.lines ≤ self.old.lines + 3 }
    {
        let cause = self.cause_of(event);
        if self.is_spent(event, cause) {
            return Err(Stop::Limit);
        }
        out.reserve(3)?;
        if let Some(cause) = cause {
            self.refuse(line, cause, out);
            return Ok(());
        }
        self.happen(alloc, event, out)?;
        Ok(())
    }
}
