//! A replay: the volume line, then one event after another, each one's lines written before the
//! next is read, and at last what stands behind them.

ghost use Rattle.std.specs.Prelude.{◌≡◌, ◌≢◌, ◌+◌, ◌++◌, ◌<◌, ◌≤◌, ◌^◌, ◌⊎◌, ◌↔◌, ℕ, true, false, Option, None, List, [], ◌∷◌, Err, IsOk, IfOk, OnOk, OnErr, IfErr, IfSome, length, take, vec_len};
ghost use Rattle.dht_types.specs.declared.events.Event.{Event as AnEvent};
ghost use Rattle.dht_types.specs.declared.lines.Line.{Line as ALine};
ghost use Rattle.dht_types.specs.Faults.{HasFault};
ghost use Rattle.dht_types.specs.History.{history_of};
ghost use Rattle.dht_membrick.specs.State.{mem_state};
ghost use Rattle.dht_sched.specs.Schedule.{IsScheduled, IsScheduledVolume};
ghost use Rattle.dht_sched.specs.Transcript.{lines_text, dump_lines_text, malformed_text, limit_text};
ghost use Rattle.dht_world.specs.Clients.{AreNewClients};
ghost use Rattle.dht_world.specs.Following.{IsSpent};
ghost use Rattle.dht_world.specs.Places.{IsAt, Adds};
ghost use Rattle.dht_run.specs.Outside.{after_told, IsAtEnd};
ghost use Rattle.dht_run.specs.LineReader.{Reader, input_of, HasNoNewline};
ghost use Rattle.dht_run.specs.NextEvent.{CutsEvent, CutsVolume, HasNoEvent};
ghost use Rattle.dht_run.specs.Replay.{IsAfterFirst, IsMalformed, EndsAs, dump_all, last_text};
ghost use Rattle.dht_run.specs.declared.line_reader.TheConstants.{INPUT_LIMIT};
ghost use Rattle.dht_run.specs.SoFar.{SoFar, EndsSo, IsInRemount, Wrote, WroteInPart, Spends};
ghost use Rattle.dht_run.specs.Writes.{Writes};
ghost use Rattle.dht_run.specs.Written.{IsEventCause};

use crate::bricks::{NewBrick, first_bricks, fresh_bricks};
use crate::ending::Ending;
use crate::line_reader::{LineReader, Next};
use crate::sink::{Sink, write_all};
use crate::source::Source;
use dht_brick::brick::Brick;
use dht_client::Client;
use dht_membrick::MemBrick;
use dht_sched::{
    LineFault, one_line, print_dump_line, print_limit, print_line, print_malformed, read_line,
};
use dht_section::caller::Caller;
use dht_types::events::Event;
use dht_types::identifiers::{BrickNo, CallNo, ClientNo};
use dht_types::lines::{DumpLine, Line};
use dht_types::volumes::Weights;
use dht_world::{Place, Stop, World};
use std::alloc::{AllocError, Global};

/// How many clients a world has.
const CLIENTS: u16 = 64;

/// Appends the text of lines of a transcript.
fn print_lines(lines: &[Line], text: &mut Vec<u8>) -> Result<(), AllocError>
    ensures { OnOk result (text.new.items ≡ text.old.items ++ lines_text lines.now) }
{
    for line in lines {
        print_line(line, text)?;
    }
    Ok(())
}

/// Appends the text of lines of a dump.
fn print_dump(lines: &[DumpLine], text: &mut Vec<u8>) -> Result<(), AllocError>
    ensures { OnOk result (text.new.items ≡ text.old.items ++ dump_lines_text lines.now) }
{
    for line in lines {
        print_dump_line(line, text)?;
    }
    Ok(())
}

/// Writes a text to the sink, all of it or a prefix of it.
fn send<K: Sink>(sink: &mut K, text: &[u8]) -> Result<(), Ending>
    ensures { Writes K.Sink sink.old sink.new text.now result }
{
    match write_all(sink, text) {
        Ok(()) => Ok(()),
        Err(_) => Err(Ending::SinkFailed),
    }
}

/// The lines of one event and their text, on their way to the sink.
#[derive(Drop)]
pub struct EventOutput {
    lines: Vec<Line>,
    text: Vec<u8>,
}

impl EventOutput {
    /// The output of no event yet.
    pub fn new(alloc: Global) -> EventOutput
        ensures lines { result.lines.items ≡ [] }
        ensures text { result.text.items ≡ [] }
    {
        EventOutput {
            lines: Vec::new(alloc),
            text: Vec::new(alloc),
        }
    }

    /// Writes the lines to the sink, all of their text or a prefix of it.
    fn write<K: Sink>(&mut self, sink: &mut K) -> Result<(), Ending>
        ensures lines { self.new.lines.items ≡ self.old.lines.items }
        ensures written { Writes K.Sink sink.old sink.new (lines_text self.old.lines.items) result }
    {
        self.text.clear();
        if print_lines(&self.lines, &mut self.text).is_err() {
            return Err(Ending::OutOfMemory);
        }
        send(sink, &self.text)
    }

    /// Writes one line.
    pub fn write_line<K: Sink>(&mut self, line: Line, sink: &mut K) -> Result<(), Ending>
        ensures { Writes K.Sink sink.old sink.new (lines_text (line ∷ [])) result }
    {
        self.lines.clear();
        if self.lines.push(line).is_err() {
            return Err(Ending::OutOfMemory);
        }
        self.write(sink)
    }
}

/// The next event of a schedule, or none at its end.
fn next_event<S: Source>(
    alloc: Global,
    reader: &mut LineReader,
    source: &mut S,
) -> Result<Option<Event>, Ending>
    ensures event { IfOk result (λ next. IfSome next
        (CutsEvent reader.old reader.new (S.left source.old) (S.left source.new))) }
    ensures end { result ≡ Ok None → IsAtEnd (input_of reader.old (S.left source.old)) }
    ensures end_input { result ≡ Ok None
        → input_of reader.new (S.left source.new) ≡ input_of reader.old (S.left source.old) }
    ensures end_held { result ≡ Ok None → reader.new.pending ≡ [] }
    ensures malformed { result ≡ Err Ending.Malformed
        → IfSome (input_of reader.old (S.left source.old)) (HasNoEvent reader.old.cut) }
    ensures failed { result ≡ Err Ending.SourceFailed
        → HasFault (S.faults source.old) (S.faults source.new) }
    ensures failed_input { result ≡ Err Ending.SourceFailed
        → input_of reader.new (S.left source.new) ≡ input_of reader.old (S.left source.old) }
    ensures failed_held { result ≡ Err Ending.SourceFailed → HasNoNewline reader.new.pending }
    ensures no_other { (result ≢ Err Ending.Done)
        × (result ≢ Err Ending.Usage) × (result ≢ Err Ending.SinkFailed)
        × (result ≢ Err Ending.Limit) }
    ensures faults { S.faults source.old ≤ S.faults source.new }
{
    one_line();
    match reader.next(source) {
        Next::Line => match read_line(alloc, reader.line()) {
            Ok(event) => Ok(Some(event)),
            Err(LineFault::Malformed) => Err(Ending::Malformed),
            Err(LineFault::OutOfMemory) => Err(Ending::OutOfMemory),
        },
        Next::End => Ok(None),
        Next::NoLine => Err(Ending::Malformed),
        Next::Failed => Err(Ending::SourceFailed),
    }
}

/// Has the world carry out an event, that of this line of the schedule; its lines are appended.
fn happen<B: NewBrick + Drop, C: Caller + Drop>(
    alloc: Global,
    world: &mut World<B, C>,
    event: &Event,
    line: u64,
    out: &mut Vec<Line>,
) -> Result<(), Stop>
    requires may { IsScheduled event.now × IsAfterFirst event.now }
    requires run { world.old.run + 1 < 2 ^ 32 }
    requires few { world.old.lines + 3 < 2 ^ 64 }
    requires at { (past : List ALine) × IsAt B.Brick C.Caller world.old past }
    ensures ok { OnOk result ((past : List ALine)
        → IsAt B.Brick C.Caller world.old past
        → Adds B.Brick C.Caller world.old world.new line event.now past
        out.old.items out.new.items) }
    ensures limit { (past : List ALine)
        → IsAt B.Brick C.Caller world.old past
        → (result ≡ Err Stop.Limit) ↔ IsSpent (history_of past) event.now }
    ensures err { OnErr result ((past : List ALine)
        → IsAt B.Brick C.Caller world.old past
        → IsAt B.Brick C.Caller world.new past
        ⊎ ((result ≡ Err Stop.OutOfMemory)
        × IsInRemount B.Brick C.Caller world.new event.now past)) }
    ensures grows { world.new.lines ≤ world.old.lines + 3 }
{
    match event {
        Event::Remount(weights) => {
            let fresh = fresh_bricks(alloc, world, weights)?;
            world.remount(alloc, weights, fresh, line, out)?;
            Ok(())
        }
        _ => world.event(alloc, event, line, out),
    }
}

/// Carries out an event, that of this line of the schedule, and writes its lines.
fn carry_out<B: NewBrick + Drop, C: Caller + Drop, K: Sink>(
    alloc: Global,
    world: &mut World<B, C>,
    event: &Event,
    line: u64,
    sink: &mut K,
    output: &mut EventOutput,
) -> Result<(), Ending>
    requires may { IsScheduled event.now × IsAfterFirst event.now }
    requires run { world.old.run + 1 < 2 ^ 32 }
    requires few { world.old.lines + 3 < 2 ^ 64 }
    requires at { (past : List ALine) × IsAt B.Brick C.Caller world.old past }
    ensures ok { OnOk result ((past : List ALine)
        → IsAt B.Brick C.Caller world.old past
        → (lines : List ALine) × Wrote B.Brick C.Caller world.old world.new line
        event.now past lines (K.taken sink.old) (K.taken sink.new) (lines_text lines)) }
    ensures err { OnErr result ((past : List ALine)
        → IsAt B.Brick C.Caller world.old past
        → WroteInPart B.Brick C.Caller world.old world.new line
        event.now past (K.taken sink.old) (K.taken sink.new)
        ⊎ ((result ≡ Err Ending.OutOfMemory) × (K.taken sink.new ≡ K.taken sink.old)
        × IsInRemount B.Brick C.Caller world.new event.now past)) }
    ensures limit { result ≡ Err Ending.Limit → (past : List ALine)
        → IsAt B.Brick C.Caller world.old past
        → Spends B.Brick C.Caller world.new event.now past
        (K.taken sink.old) (K.taken sink.new) }
    ensures cause { IfErr result (λ e.
        IsEventCause e (HasFault (K.faults sink.old) (K.faults sink.new))) }
    ensures faults { K.faults sink.old ≤ K.faults sink.new }
    ensures grows { world.new.lines ≤ world.old.lines + 3 }
{
    output.lines.clear();
    match happen(alloc, world, event, line, &mut output.lines) {
        Ok(()) => output.write(sink),
        Err(Stop::Limit) => Err(Ending::Limit),
        Err(Stop::OutOfMemory) => Err(Ending::OutOfMemory),
    }
}

/// Whether an event is that of a volume line.
fn is_volume(event: &Event) -> bool
    ensures volume { result ≡ true → ¬ IsAfterFirst event.now }
    ensures other { result ≡ false → IsAfterFirst event.now }
{
    match event {
        Event::Volume(_) => true,
        _ => false,
    }
}

/// Carries out the events that come, `count` of them so far, until the input ends or something
/// stops the run.
fn go_on<B: NewBrick + Drop, C: Caller + Drop, S: Source, K: Sink>(
    alloc: Global,
    world: &mut World<B, C>,
    count: &mut u64,
    reader: &mut LineReader,
    source: &mut S,
    sink: &mut K,
    output: &mut EventOutput,
) -> Ending
    requires so_far { (text before : Option (List ℕ))
        × SoFar B.Brick C.Caller world.old count.old
        reader.old text (S.left source.old) before (K.taken sink.old) }
    ensures ends { (text before : Option (List ℕ))
        → SoFar B.Brick C.Caller world.old count.old
        reader.old text (S.left source.old) before (K.taken sink.old)
        → EndsSo B.Brick C.Caller world.new count.new
        reader.new text (S.left source.new) before (K.taken sink.new) result }
    ensures source { result ≡ Ending.SourceFailed
        → HasFault (S.faults source.old) (S.faults source.new) }
    ensures sink { result ≡ Ending.SinkFailed → HasFault (K.faults sink.old) (K.faults sink.new) }
    ensures faults { K.faults sink.old ≤ K.faults sink.new }
    ensures few { count.new ≤ INPUT_LIMIT }
    ensures bricks { vec_len world.new.bricks ≤ 32 }
{
    one_line();
    'events: loop {
        let event = match next_event(alloc, reader, source) {
            Ok(Some(event)) => event,
            Ok(None) => return Ending::Done,
            Err(ending) => return ending,
        };
        if is_volume(&event) {
            return Ending::Malformed;
        }
        let line = *count + 1;
        if let Err(ending) = carry_out(alloc, world, &event, line, sink, output) {
            return ending;
        }
        drop(event);
        *count = line;
    }
}

/// Appends the lines of what all bricks contain, and the end of the dump.
fn dump_bricks<B: Brick>(bricks: &[B], out: &mut Vec<DumpLine>) -> Result<(), AllocError>
    requires { length bricks.now ≤ 32 }
    ensures { OnOk result (out.new.items ≡ out.old.items ++ dump_all B.state bricks.now) }
{
    let mut number = 0u16;
    for brick in bricks {
        brick.dump(BrickNo(number), out)?;
        number += 1;
    }
    out.push(DumpLine::End)?;
    Ok(())
}

/// Writes what all bricks contain.
fn write_dump<B: Brick, K: Sink>(alloc: Global, bricks: &[B], sink: &mut K) -> Result<(), Ending>
    requires { length bricks.now ≤ 32 }
    ensures { Writes K.Sink sink.old sink.new
        (dump_lines_text (dump_all B.state bricks.now)) result }
{
    let mut lines = Vec::new(alloc);
    if dump_bricks(bricks, &mut lines).is_err() {
        return Err(Ending::OutOfMemory);
    }
    let mut text = Vec::new(alloc);
    if print_dump(&lines, &mut text).is_err() {
        return Err(Ending::OutOfMemory);
    }
    send(sink, &text)
}

/// Writes that the line of this number is invalid.
fn write_malformed<K: Sink>(alloc: Global, number: u64, sink: &mut K) -> Result<(), Ending>
    ensures { Writes K.Sink sink.old sink.new (malformed_text number) result }
{
    let mut text = Vec::new(alloc);
    if print_malformed(number, &mut text).is_err() {
        return Err(Ending::OutOfMemory);
    }
    send(sink, &text)
}

/// Writes that the run has had all its steps.
fn write_limit<K: Sink>(alloc: Global, sink: &mut K) -> Result<(), Ending>
    ensures { Writes K.Sink sink.old sink.new limit_text result }
{
    let mut text = Vec::new(alloc);
    if print_limit(&mut text).is_err() {
        return Err(Ending::OutOfMemory);
    }
    send(sink, &text)
}

/// Writes what stands behind the lines of `count` events: the dump at the end of the input, the
/// number of an invalid line, and that the run has had all its steps.
fn write_last<B: Brick, K: Sink>(
    alloc: Global,
    ending: Ending,
    bricks: &[B],
    count: u64,
    sink: &mut K,
) -> Result<(), Ending>
    requires few { count ≤ INPUT_LIMIT }
    requires bricks { length bricks.now ≤ 32 }
    ensures written { Writes K.Sink sink.old sink.new
        (last_text B.state bricks.now (count + 1) ending) result }
    ensures none { ending ≡ Ending.OutOfMemory → IsOk result }
{
    match ending {
        Ending::Done => write_dump(alloc, bricks, sink),
        Ending::Malformed => write_malformed(alloc, count + 1, sink),
        Ending::Limit => write_limit(alloc, sink),
        _ => Ok(()),
    }
}

/// Ends a run whose loop over the events ended so.
fn finish<B: Brick, C: Caller, K: Sink>(
    alloc: Global,
    ending: Ending,
    world: &World<B, C>,
    count: u64,
    sink: &mut K,
) -> Ending
    requires few { count ≤ INPUT_LIMIT }
    requires bricks { vec_len world.now.bricks ≤ 32 }
    ensures ends { (text rest before : Option (List ℕ)) (r : Reader)
        → EndsSo B.Brick C.Caller world.now count
        r text rest before (K.taken sink.old) ending
        → EndsAs B.state world.now.bricks.items text rest before (K.taken sink.new) result }
    ensures source { result ≡ Ending.SourceFailed → ending ≡ Ending.SourceFailed }
    ensures sink { result ≡ Ending.SinkFailed
        → (ending ≡ Ending.SinkFailed) ⊎ HasFault (K.faults sink.old) (K.faults sink.new) }
    ensures faults { K.faults sink.old ≤ K.faults sink.new }
{
    match write_last(alloc, ending, &world.bricks, count, sink) {
        Ok(()) => ending,
        Err(fault) => fault,
    }
}

/// Replays a schedule behind its first line, that of a volume with these weights.
fn play<B: NewBrick + Drop, C: Caller + Drop, S: Source, K: Sink>(
    alloc: Global,
    weights: Weights,
    world: &mut World<B, C>,
    reader: &mut LineReader,
    source: &mut S,
    sink: &mut K,
) -> Ending
    requires first { (text : Option (List ℕ))
        × CutsVolume reader.old text (S.left source.old) weights }
    requires at { IsAt B.Brick C.Caller world.old (ALine.Volume weights ∷ []) }
    requires lines { world.old.lines ≡ 1 }
    ensures ends { (text : Option (List ℕ))
        → CutsVolume reader.old text (S.left source.old) weights
        → EndsAs B.state world.new.bricks.items text (S.left source.new)
        (K.taken sink.old) (K.taken sink.new) result }
    ensures source { result ≡ Ending.SourceFailed
        → HasFault (S.faults source.old) (S.faults source.new) }
    ensures sink { result ≡ Ending.SinkFailed → HasFault (K.faults sink.old) (K.faults sink.new) }
{
    let mut output = EventOutput::new(alloc);
    if let Err(fault) = output.write_line(Line::Volume(weights), sink) {
        return fault;
    }
    let mut count = 1;
    let ending = go_on(alloc, world, &mut count, reader, source, sink, &mut output);
    finish(alloc, ending, world, count, sink)
}

/// The clients of a new world, all idle: each has its place as its number.
fn new_clients(alloc: Global) -> Result<Vec<Place<Client>>, AllocError>
    ensures many { IfOk result (λ v. vec_len v ≡ 64) }
    ensures idle { IfOk result (λ v. AreNewClients ⟦<Client as Caller>⟧ v.items) }
{
    let mut clients = Vec::new(alloc);
    for number in 0..CLIENTS {
        clients.push(Place::Living(Client::new(ClientNo(number)), CallNo(0)))?;
    }
    Ok(clients)
}

/// The weights of the volume line, the first of the schedule.
fn first_line<S: Source>(
    alloc: Global,
    reader: &mut LineReader,
    source: &mut S,
) -> Result<Weights, Ending>
    requires { reader.old.cut ≡ 0 }
    ensures volume { IfOk result (λ w.
        CutsEvent reader.old reader.new (S.left source.old) (S.left source.new)
        (AnEvent.Volume w)) }
    ensures malformed { result ≡ Err Ending.Malformed
        → IfSome (input_of reader.old (S.left source.old)) (IsMalformed []) }
    ensures failed { result ≡ Err Ending.SourceFailed
        → HasFault (S.faults source.old) (S.faults source.new) }
    ensures failed_input { result ≡ Err Ending.SourceFailed
        → input_of reader.new (S.left source.new) ≡ input_of reader.old (S.left source.old) }
    ensures failed_held { result ≡ Err Ending.SourceFailed → HasNoNewline reader.new.pending }
    ensures no_other { (result ≢ Err Ending.Done)
        × (result ≢ Err Ending.Usage) × (result ≢ Err Ending.SinkFailed)
        × (result ≢ Err Ending.Limit) }
    ensures faults { S.faults source.old ≤ S.faults source.new }
{
    match next_event(alloc, reader, source) {
        Ok(Some(Event::Volume(weights))) => Ok(weights),
        Ok(_) => Err(Ending::Malformed),
        Err(ending) => Err(ending),
    }
}

/// Replays a schedule whose volume has these weights, behind its first line, over bricks in memory.
fn replay_volume<S: Source, K: Sink>(
    alloc: Global,
    weights: Weights,
    reader: &mut LineReader,
    source: &mut S,
    sink: &mut K,
    bricks: &mut Vec<MemBrick>,
) -> Ending
    requires volume { IsScheduledVolume weights }
    requires first { (text : Option (List ℕ))
        × CutsVolume reader.old text (S.left source.old) weights }
    requires empty { bricks.old.items ≡ [] }
    ensures ends { (text : Option (List ℕ))
        → CutsVolume reader.old text (S.left source.old) weights
        → EndsAs mem_state bricks.new.items text (S.left source.new)
        (K.taken sink.old) (K.taken sink.new) result }
    ensures source { result ≡ Ending.SourceFailed
        → HasFault (S.faults source.old) (S.faults source.new) }
    ensures sink { result ≡ Ending.SinkFailed → HasFault (K.faults sink.old) (K.faults sink.new) }
{
    let Ok(made) = first_bricks::<MemBrick>(alloc, &weights) else {
        return Ending::OutOfMemory;
    };
    let Ok(shown) = weights.copied(alloc) else {
        return Ending::OutOfMemory;
    };
    let Ok(clients) = new_clients(alloc) else {
        return Ending::OutOfMemory;
    };
    let mut world = World::new(alloc, weights, made, clients);
    let ending = play(alloc, shown, &mut world, reader, source, sink);
    *bricks = world.into_bricks();
    ending
}

/// Replays the schedule that the source gives, over new bricks in memory, which are handed out.
pub fn replay<S: Source, K: Sink>(
    alloc: Global,
    source: &mut S,
    sink: &mut K,
    bricks: &mut Vec<MemBrick>,
) -> Ending
    requires empty { bricks.old.items ≡ [] }
    ensures ends { EndsAs mem_state bricks.new.items (S.left source.old) (S.left source.new)
        (K.taken sink.old) (K.taken sink.new) result }
    ensures source { result ≡ Ending.SourceFailed
        → HasFault (S.faults source.old) (S.faults source.new) }
    ensures sink { result ≡ Ending.SinkFailed → HasFault (K.faults sink.old) (K.faults sink.new) }
{
    let Ok(mut reader) = LineReader::new(alloc) else {
        return Ending::OutOfMemory;
    };
    match first_line(alloc, &mut reader, source) {
        Ok(weights) => replay_volume(alloc, weights, &mut reader, source, sink, bricks),
        Err(ending) => match ending {
            Ending::Malformed => match write_malformed(alloc, 1, sink) {
                Ok(()) => Ending::Malformed,
                Err(fault) => fault,
            },
            other => other,
        },
    }
}
