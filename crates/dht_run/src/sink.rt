//! Where bytes go: a sink in memory, and one over a writer of std; and all bytes written to one.

ghost use Rattle.std.specs.Prelude.{◌≡◌, ◌↔◌, ◌⊎◌, ℕ, ◌+◌, ◌-◌, ◌<◌, ◌≤◌, List, [], ◌++◌, Option, None, Some, IfOk, IfSome, OnOk, OnErr, length, take, min, vec_len, vec_capacity, is_some};
ghost use Rattle.dht_types.specs.Faults.{HasFault};
ghost use Rattle.dht_run.specs.Outside.{IsNextPlanned, CountsCall, after_told, IfTook, OnTookFailed};
ghost use Rattle.dht_run.specs.Written.{TakesPrefix};

use crate::faults::{FaultPlan, count_fault};
use std::alloc::{AllocError, Global};
use std::error::Error;
use std::fmt;
use std::io::Write;

/// What one write took.
#[derive(Clone, Copy, Debug, PartialEq, Eq)]
pub enum Took {
    /// This many bytes, from the front: at least one, of a piece that is not empty.
    Bytes(usize),
    /// Nothing, by a fault that the sink counts.
    Failed,
}

/// Where bytes go, piece by piece.
pub trait Sink {
    /// The bytes that were taken, where the sink tells them.
    ghost taken: { Self → Option (List ℕ) };

    /// How many writes failed. A sink may stop counting at 2^64 - 1.
    ghost faults: { Self → ℕ };

    /// Takes bytes from the front of a piece, as many as it likes.
    fn write(&mut self, piece: &[u8]) -> Took
        ensures within { IfTook result (λ n. n ≤ length piece.now) }
        ensures moves { IfTook result (λ n. 0 < length piece.now → 0 < n) }
        ensures takes { IfTook result (λ n.
            taken self.new ≡ after_told (taken self.old) (take n piece.now)) }

        // A fault takes no bytes.
        ensures failed { OnTookFailed result (HasFault (faults self.old) (faults self.new)) }
        ensures kept { OnTookFailed result (taken self.new ≡ taken self.old) }

        ensures faults { faults self.old ≤ faults self.new }
        ensures tells { is_some (taken self.new) ≡ is_some (taken self.old) };
}

/// A sink in memory, of a fixed room. It tells its bytes.
#[derive(Drop)]
pub struct MemSink {
    bytes: Vec<u8>,
    room: usize,
    plan: FaultPlan,
    ghost within: { vec_len bytes ≤ room },
    ghost has_room: { room ≤ vec_capacity bytes },
}

impl MemSink {
    ghost use Rattle.dht_run.specs.Memory.{sink_taken, sink_plan, sink_room};

    /// A sink that takes this many bytes in all. `fails` lists the writes that are to fail, counted
    /// from 1.
    pub fn new(alloc: Global, room: usize, fails: Vec<u64>) -> Result<MemSink, AllocError>
        ensures taken { IfOk result (λ s. sink_taken s ≡ []) }
        ensures plan { IfOk result (λ s.
            sink_plan s ≡ record { fails = fails; calls = 0; faults = 0 }) }
        ensures room { IfOk result (λ s. sink_room s ≡ room) }
    {
        Ok(MemSink {
            bytes: Vec::with_capacity(alloc, room)?,
            room,
            plan: FaultPlan::new(fails),
        })
    }

    /// What it took.
    pub fn bytes(&self) -> &[u8]
        ensures { result.now ≡ sink_taken self.now }
    {
        self.bytes.as_slice()
    }
}

impl Sink for MemSink {
    ghost use Rattle.dht_run.specs.Memory.{sink_taken, sink_plan, sink_room, IsFullFor};

    ghost taken = { λ s. Some (sink_taken s) };

    ghost faults = { λ s. (sink_plan s).faults };

    fn write(&mut self, piece: &[u8]) -> Took
        // It takes as many bytes as there is room for, and fails where that is planned, or where
        // no room is left.
        ensures planned { (result ≡ Took.Failed)
            ↔ (IsNextPlanned (sink_plan self.old) ⊎ IsFullFor self.old piece.now) }
        ensures whole { IfTook result (λ n.
            n ≡ min (length piece.now) (sink_room self.old - length (sink_taken self.old))) }
        ensures takes { IfTook result (λ n.
            sink_taken self.new ≡ sink_taken self.old ++ take n piece.now) }
        ensures kept { OnTookFailed result (sink_taken self.new ≡ sink_taken self.old) }
        ensures moves { IfTook result (λ n. 0 < length piece.now → 0 < n) }
        ensures room { sink_room self.new ≡ sink_room self.old }
        ensures failed { OnTookFailed result
            (HasFault (sink_plan self.old).faults (sink_plan self.new).faults) }
        ensures faults { (sink_plan self.old).faults ≤ (sink_plan self.new).faults }
        ensures calls { CountsCall (sink_plan self.old) (sink_plan self.new) }
    {
        let count = piece.len().min(self.room - self.bytes.len());
        let is_full = count == 0 && !piece.is_empty();
        if self.plan.is_next_planned() || is_full {
            count_fault(&mut self.plan.faults);
            return Took::Failed;
        }
        match self.bytes.extend_from_slice(&piece[..count]) {
            Ok(()) => Took::Bytes(count),
            Err(_) => unreachable!(),
        }
    }
}

/// A sink over a writer of std. What it took is not told, and after a fault it is open how much of
/// the piece the writer passed on.
#[derive(Drop)]
pub struct StdSink<W> {
    writer: W,
    faults: u64,
}

impl<W: Write> StdSink<W> {
    /// A sink that passes its bytes on to this writer.
    pub fn new(writer: W) -> StdSink<W>
        ensures { ⟦<StdSink<W> as Sink>⟧.faults result ≡ 0 }
    {
        StdSink { writer, faults: 0 }
    }

    /// Passes a piece on to the writer, and out of the writer's own buffer. `None` is a fault, and
    /// so is a write of nothing.
    fn pass_on(&mut self, piece: &[u8]) -> Option<usize>
        ensures within { IfSome result (λ n. n ≤ length piece.now) }
        ensures moves { IfSome result (λ n. 0 < length piece.now → 0 < n) }
        ensures faults { self.new.faults ≡ self.old.faults }
    {
        let count = self.writer.write(piece).ok()?;
        self.writer.flush().ok()?;
        if count == 0 && !piece.is_empty() {
            return None;
        }
        Some(count)
    }
}

impl<W: Write> Sink for StdSink<W> {
    ghost taken = { λ _. None };

    ghost faults = { λ s. s.faults };

    fn write(&mut self, piece: &[u8]) -> Took {
        match self.pass_on(piece) {
            Some(count) => Took::Bytes(count),
            None => {
                count_fault(&mut self.faults);
                Took::Failed
            }
        }
    }
}

/// A sink failed.
#[derive(Clone, Copy, Debug, PartialEq, Eq)]
pub struct SinkFault;

impl fmt::Display for SinkFault {
    fn fmt<W: fmt::Write>(&self, f: &mut fmt::Formatter<W>) -> fmt::Result {
        write!(f, "a write to the output failed")
    }
}

impl Error for SinkFault {}

/// Writes bytes to a sink, all of them or, at an error, a prefix of them.
pub fn write_all<K: Sink>(sink: &mut K, bytes: &[u8]) -> Result<(), SinkFault>
    ensures ok { OnOk result (K.taken sink.new ≡ after_told (K.taken sink.old) bytes.now) }

    // At an error, the sink had a fault, and took the bytes up to it.
    ensures fault { OnErr result (HasFault (K.faults sink.old) (K.faults sink.new)) }
    ensures prefix { OnErr result (TakesPrefix (K.taken sink.old) bytes.now (K.taken sink.new)) }

    ensures faults { K.faults sink.old ≤ K.faults sink.new }
    ensures tells { is_some (K.taken sink.new) ≡ is_some (K.taken sink.old) }
{
    let mut done = 0;
    while done < bytes.len() {
        match sink.write(&bytes[done..]) {
            Took::Bytes(count) => done += count,
            Took::Failed => return Err(SinkFault),
        }
    }
    Ok(())
}
