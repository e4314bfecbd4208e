//! Where bytes come from: a source in memory, and one over a reader of std.

ghost use Rattle.std.specs.Prelude.{◌≡◌, ◌↔◌, ℕ, ◌+◌, ◌<◌, ◌≤◌, List, [], Option, None, Some, length, take, drop, min, vec_len, is_some};
ghost use Rattle.dht_types.specs.Faults.{HasFault};
ghost use Rattle.dht_run.specs.Outside.{IsNextPlanned, CountsCall, before_told, IsAtEnd, IfGot, OnGotFailed};

use crate::faults::{FaultPlan, count_fault};
use std::io::Read;

/// What one read gave.
#[derive(Clone, Copy, Debug, PartialEq, Eq)]
pub enum Got {
    /// This many bytes. None, into a slice that is not empty, is the end of the input.
    Bytes(usize),
    /// Nothing, by a fault that the source counts.
    Failed,
}

/// Where bytes come from, piece by piece.
pub trait Source {
    /// The bytes that are left, where the source tells them.
    ghost left: { Self → Option (List ℕ) };

    /// How many reads failed. A source may stop counting at 2^64 - 1.
    ghost faults: { Self → ℕ };

    /// Moves the next bytes to the front of a slice, as many as it likes. The contract leaves open
    /// what the rest of the slice holds.
    fn read(&mut self, into: &mut [u8]) -> Got
        ensures within { IfGot result (λ n. n ≤ length into.old) }
        ensures gives { IfGot result (λ n.
            left self.old ≡ before_told (take n into.new) (left self.new)) }
        ensures end { result ≡ Got.Bytes 0 → 0 < length into.old → IsAtEnd (left self.new) }

        // A fault costs no bytes.
        ensures failed { OnGotFailed result (HasFault (faults self.old) (faults self.new)) }
        ensures kept { OnGotFailed result (left self.new ≡ left self.old) }

        ensures faults { faults self.old ≤ faults self.new }
        ensures tells { is_some (left self.new) ≡ is_some (left self.old) };
}

/// A source in memory. It tells its bytes.
#[derive(Drop)]
pub struct MemSource {
    bytes: Vec<u8>,
    read: usize,
    plan: FaultPlan,
    ghost within: { read ≤ vec_len bytes },
}

impl MemSource {
    ghost use Rattle.dht_run.specs.Memory.{source_left, source_plan};

    /// A source of these bytes. `fails` lists the reads that are to fail, counted from 1.
    pub fn new(bytes: Vec<u8>, fails: Vec<u64>) -> MemSource
        ensures left { source_left result ≡ bytes.items }
        ensures plan { source_plan result ≡ record { fails = fails; calls = 0; faults = 0 } }
    {
        MemSource {
            bytes,
            read: 0,
            plan: FaultPlan::new(fails),
        }
    }
}

impl Source for MemSource {
    ghost use Rattle.dht_run.specs.Memory.{source_left, source_plan};

    ghost left = { λ s. Some (source_left s) };

    ghost faults = { λ s. (source_plan s).faults };

    fn read(&mut self, into: &mut [u8]) -> Got
        // It gives as many bytes as there is room for, and fails only where that is planned.
        ensures planned { (result ≡ Got.Failed) ↔ IsNextPlanned (source_plan self.old) }
        ensures whole { IfGot result (λ n.
            n ≡ min (length into.old) (length (source_left self.old))) }
        ensures taken { IfGot result (λ n. take n into.new ≡ take n (source_left self.old)) }
        ensures left { IfGot result (λ n. source_left self.new ≡ drop n (source_left self.old)) }
        ensures kept { OnGotFailed result (source_left self.new ≡ source_left self.old) }
        ensures failed { OnGotFailed result
            (HasFault (source_plan self.old).faults (source_plan self.new).faults) }
        ensures faults { (source_plan self.old).faults ≤ (source_plan self.new).faults }
        ensures calls { CountsCall (source_plan self.old) (source_plan self.new) }
    {
        if self.plan.is_next_planned() {
            count_fault(&mut self.plan.faults);
            return Got::Failed;
        }
        let count = into.len().min(self.bytes.len() - self.read);
        into[..count].copy_from_slice(&self.bytes[self.read..self.read + count]);
        self.read += count;
        Got::Bytes(count)
    }
}

/// A source over a reader of std. What it gives is not told.
#[derive(Drop)]
pub struct StdSource<R> {
    reader: R,
    faults: u64,
}

impl<R: Read> StdSource<R> {
    /// A source of what this reader gives.
    pub fn new(reader: R) -> StdSource<R>
        ensures { ⟦<StdSource<R> as Source>⟧.faults result ≡ 0 }
    {
        StdSource { reader, faults: 0 }
    }
}

impl<R: Read> Source for StdSource<R> {
    ghost left = { λ _. None };

    ghost faults = { λ s. s.faults };

    fn read(&mut self, into: &mut [u8]) -> Got {
        match self.reader.read(into) {
            Ok(count) => Got::Bytes(count),
            Err(_) => {
                count_fault(&mut self.faults);
                Got::Failed
            }
        }
    }
}
