//! The lines of schedules, read.

ghost use Rattle.std.specs.Prelude.{◌≡◌, ◌≢◌, ◌≤◌, ◌<◌, ◌^◌, ◌↔◌, ◌∷◌, [], ℕ, List, IsTrue, IfOk, IsErrOf, All, length, map, codes, decimal};
ghost use Rattle.dht_types.specs.declared.events.Event.{Event};
ghost use Rattle.dht_sched.specs.Reading.{Reads, ReadsUnless};
ghost use Rattle.dht_types.specs.Volume.{HasWeight};
ghost use Rattle.dht_sched.specs.Schedule.{schedule_words, schedule_text, IsShort, IsScheduled, IsScheduledVolume, TakesMemory, IsReadOf, IsOneLine};
ghost use Rattle.dht_sched.specs.Spelling.{bricks_words, spaced, words_of};

use crate::calls::read_call;
use crate::fault::LineFault;
use crate::words::{Words, number};
use dht_types::events::Event;
use dht_types::volumes::{GREATEST_WEIGHT, MOST_BRICKS, Weights};
use std::alloc::Global;

/// The most bytes that a line of a schedule has, its newline included.
pub const LINE_LIMIT: usize = 16_384;

/// The number that is the only word left.
fn last_number(mut words: Words<'_>) -> Option<u64>
    ensures { Reads (λ number. decimal number ∷ []) (λ number. number < 2 ^ 64) words.entry result }
{
    let number = number(words.next()?)?;
    if words.next().is_some() {
        return None;
    }
    Some(number)
}

/// The event of a line that begins with `step`, by its other words.
fn read_step(words: Words<'_>) -> Option<Event>
    ensures { Reads schedule_words IsScheduled (codes "step" ∷ words.entry) result }
{
    let client = last_number(words)?;
    Some(Event::Step(client))
}

/// The event of a line that begins with `down`, by its other words.
fn read_down(words: Words<'_>) -> Option<Event>
    ensures { Reads schedule_words IsScheduled (codes "down" ∷ words.entry) result }
{
    let brick = last_number(words)?;
    Some(Event::Down(brick))
}

/// The event of a line that begins with `up`, by its other words.
fn read_up(words: Words<'_>) -> Option<Event>
    ensures { Reads schedule_words IsScheduled (codes "up" ∷ words.entry) result }
{
    let brick = last_number(words)?;
    Some(Event::Up(brick))
}

/// The event of a line that begins with `die`, by its other words.
fn read_die(words: Words<'_>) -> Option<Event>
    ensures { Reads schedule_words IsScheduled (codes "die" ∷ words.entry) result }
{
    let client = last_number(words)?;
    Some(Event::Die(client))
}

/// The weight that a word spells in decimal, with no sign and no leading zero. There is none where
/// the word is no number, or one above the greatest weight.
pub fn read_weight(word: &[u8]) -> Option<u16>
    ensures { Reads decimal (λ weight. weight ≤ 1000) word.now result }
{
    let weight = number(word)?;
    if weight > u64::from(GREATEST_WEIGHT) {
        return None;
    }
    Some(weight as u16)
}

/// A weight for each word.
fn read_weights(alloc: Global, words: Words<'_>) -> Result<Weights, LineFault>
    ensures { ReadsUnless (λ weights. map decimal weights) (All (λ weight. weight ≤ 1000))
        words.entry result }
{
    let mut weights = Vec::new(alloc);
    for word in words {
        let Some(weight) = read_weight(word) else {
            return Err(LineFault::Malformed);
        };
        weights.push(weight)?;
    }
    Ok(Weights::new(weights))
}

/// Whether a volume may have these weights, of which none is too heavy.
pub fn is_volume(weights: &[u16]) -> bool
    ensures { IsTrue result
        ↔ ((1 ≤ length weights.now) × (length weights.now ≤ 32) × HasWeight weights.now) }
{
    let bricks = weights.len();
    let is_heavy = weights.iter().any(|weight| *weight > 0);
    1 <= bricks && bricks <= MOST_BRICKS && is_heavy
}

/// The weights of a volume's bricks, by how many there are and the weight of each.
fn read_bricks(alloc: Global, mut words: Words<'_>) -> Result<Weights, LineFault>
    ensures { ReadsUnless bricks_words IsScheduledVolume words.entry result }
{
    let Some(word) = words.next() else {
        return Err(LineFault::Malformed);
    };
    let Some(bricks) = number(word) else {
        return Err(LineFault::Malformed);
    };
    let weights = read_weights(alloc, words)?;
    if bricks != weights.as_slice().len() as u64 || !is_volume(weights.as_slice()) {
        return Err(LineFault::Malformed);
    }
    Ok(weights)
}

/// The event of a line that begins with `volume`, by its other words.
fn read_volume(alloc: Global, words: Words<'_>) -> Result<Event, LineFault>
    ensures { ReadsUnless schedule_words IsScheduled (codes "volume" ∷ words.entry) result }
{
    let weights = read_bricks(alloc, words)?;
    Ok(Event::Volume(weights))
}

/// The event of a line that begins with `remount`, by its other words.
fn read_remount(alloc: Global, words: Words<'_>) -> Result<Event, LineFault>
    ensures { ReadsUnless schedule_words IsScheduled (codes "remount" ∷ words.entry) result }
{
    let weights = read_bricks(alloc, words)?;
    Ok(Event::Remount(weights))
}

/// The event of a line of these words.
fn read_words(alloc: Global, mut words: Words<'_>) -> Result<Event, LineFault>
    requires { IsShort (spaced words) }
    ensures reads { ReadsUnless schedule_words IsScheduled words.entry result }
    ensures memory { IsErrOf result LineFault.OutOfMemory → TakesMemory words.entry }
{
    let Some(kind) = words.next() else {
        return Err(LineFault::Malformed);
    };
    match kind {
        b"volume" => read_volume(alloc, words),
        b"remount" => read_remount(alloc, words),
        b"call" => read_call(alloc, words),
        b"step" => read_step(words).ok_or(LineFault::Malformed),
        b"down" => read_down(words).ok_or(LineFault::Malformed),
        b"up" => read_up(words).ok_or(LineFault::Malformed),
        b"die" => read_die(words).ok_or(LineFault::Malformed),
        _ => Err(LineFault::Malformed),
    }
}

/// The event of a line of a schedule, which is given without its newline. A line that is too long
/// is no event's. `OutOfMemory` comes only of a line that begins as a volume's, a remount's or a
/// call's.
pub fn read_line(alloc: Global, line: &[u8]) -> Result<Event, LineFault>
    ensures scheduled { IfOk result IsScheduled }
    ensures text { IfOk result (λ event. line.now ≡ schedule_text event) }
    ensures malformed { IsErrOf result LineFault.Malformed → (event : Event) → IsScheduled event
        → line.now ≢ schedule_text event }
    ensures memory { IsErrOf result LineFault.OutOfMemory → TakesMemory (words_of line.now) }

    // A line is of one event: that is what is read, whatever else is scheduled.
    ensures only { (event : Event) → IsScheduled event → line.now ≡ schedule_text event
        → IsReadOf event result }
{
    if line.len() >= LINE_LIMIT {
        return Err(LineFault::Malformed);
    }
    read_words(alloc, Words::of(line))
}

/// The text of an event that is scheduled is one line, and a short one: this is a law for callers,
/// and does nothing.
pub fn one_line()
    ensures { (event : Event) → IsScheduled event → IsOneLine (schedule_text event) }
{}
