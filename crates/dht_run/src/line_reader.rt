//! The lines of a source, cut off one after another.

ghost use Rattle.std.specs.Prelude.{◌≡◌, ◌≢◌, ◌↔◌, ◌+◌, ◌-◌, ◌<◌, ◌≤◌, ℕ, List, [], ◌∷◌, ◌++◌, IfOk, IfSome, IfNone, IsTrue, All, Contains, length, take, drop, slice_index, vec_len, is_some};
ghost use Rattle.dht_types.specs.Faults.{HasFault};
ghost use Rattle.dht_run.specs.Outside.{before_told, IsAtEnd, IfGot, OnGotFailed};
ghost use Rattle.dht_run.specs.LineReader.{HasNoNewline, IsFirstNewline, IsWithinLimits, input_of, HasNoLine, CutsLine, CutsNothing, IsFull, Adds};

use crate::source::{Got, Source};
use dht_sched::LINE_LIMIT;
use std::alloc::{AllocError, Global};
use std::marker::Model;

/// Within how many bytes of the input each line has to end.
pub const INPUT_LIMIT: usize = 16_777_216;

const BUFFER_SIZE: usize = 65_536;

const NEWLINE: u8 = 10;

/// What comes next in the input.
#[derive(Clone, Copy, Debug, PartialEq, Eq)]
pub enum Next {
    /// A line, which `LineReader::line` shows.
    Line,
    /// The end: nothing is held, and the source has nothing left.
    End,
    /// No line: the input ends without a newline, or a limit is passed before there is one.
    NoLine,
    /// The source failed, and no whole line is held. Nothing is lost: the call can be made again.
    Failed,
}

/// Cuts the lines off a source. It holds the bytes that it read beyond them, in a buffer that is
/// made once.
#[derive(Drop)]
pub struct LineReader {
    buffer: Vec<u8>,
    line_start: usize,
    line_len: usize,
    start: usize,
    held: usize,
    /// How many of the held bytes are known not to be newlines.
    scanned: usize,
    cut: usize,
}

impl Model for LineReader {
    ghost use Rattle.dht_run.specs.LineReader.{Reader};

    ghost Value = { Reader };

    ghost use Rattle.dht_run.specs.Buffer.{view_of, IsSound};

    ghost view = { view_of };

    ghost invariant = { IsSound };
}

impl LineReader {
    /// A reader at the beginning of its input.
    pub fn new(alloc: Global) -> Result<LineReader, AllocError>
        ensures line { IfOk result (λ r. r.line ≡ []) }
        ensures pending { IfOk result (λ r. r.pending ≡ []) }
        ensures cut { IfOk result (λ r. r.cut ≡ 0) }
    {
        Ok(LineReader {
            buffer: zeros(alloc, BUFFER_SIZE)?,
            line_start: 0,
            line_len: 0,
            start: 0,
            held: 0,
            scanned: 0,
            cut: 0,
        })
    }

    /// The line that `next` cut off, without its newline; empty after any other outcome.
    pub fn line(&self) -> &[u8]
        ensures { result.now ≡ self.now.line }
    {
        &self.buffer[self.line_start..self.line_start + self.line_len]
    }

    /// Cuts the next line off the input: the bytes that are held, and then those of the source. It
    /// asks the source for more only while no whole line is held, and takes no memory.
    pub fn next<S: Source>(&mut self, source: &mut S) -> Next
        ensures line { result ≡ Next.Line
            → CutsLine self.old self.new (S.left source.old) (S.left source.new) }
        ensures uncut { result ≢ Next.Line
            → CutsNothing self.old self.new (S.left source.old) (S.left source.new) }

        ensures end { result ≡ Next.End
            → IsAtEnd (input_of self.old (S.left source.old)) × (self.new.pending ≡ []) }
        ensures no_line { result ≡ Next.NoLine
            → IfSome (input_of self.old (S.left source.old)) (HasNoLine self.old.cut) }
        ensures no_line_held { result ≡ Next.NoLine → HasNoLine self.new.cut self.new.pending }
        ensures failed { result ≡ Next.Failed
            → HasFault (S.faults source.old) (S.faults source.new) × HasNoNewline self.new.pending }

        // The source is not asked where a whole line is held. What was read in all is at most a
        // byte more than the limit.
        ensures unasked { Contains self.old.pending 10 → source.new ≡ source.old }
        ensures bounded { self.new.cut + length self.new.pending ≤ INPUT_LIMIT + 1 }

        ensures faults { S.faults source.old ≤ S.faults source.new }
        ensures tells { is_some (S.left source.new) ≡ is_some (S.left source.old) }
    {
        self.forget_line();
        loop {
            if let Some(len) = self.newline() {
                if !self.allows(len) {
                    return Next::NoLine;
                }
                self.cut_line(len);
                return Next::Line;
            }
            if self.is_full() {
                return Next::NoLine;
            }
            match self.fill(source) {
                Got::Bytes(0) if self.is_empty() => return Next::End,
                Got::Bytes(0) => return Next::NoLine,
                Got::Bytes(_) => {}
                Got::Failed => return Next::Failed,
            }
        }
    }

    /// Lets go of the line that was cut off last.
    fn forget_line(&mut self)
        ensures forgotten { self.new ≡ record self.old { line = [] } }
        ensures bounded { self.new.cut + length self.new.pending ≤ INPUT_LIMIT + 1 }
    {
        self.line_len = 0;
    }

    /// The place of the first newline among the bytes that are held.
    fn newline(&mut self) -> Option<usize>
        ensures same { self.new ≡ self.old }
        ensures found { IfSome result (IsFirstNewline self.old.pending) }
        ensures none { IfNone result (HasNoNewline self.old.pending) }
    {
        let end = self.start + self.held;
        let at = first_newline(&self.buffer, self.start + self.scanned, end);
        self.scanned = at - self.start;
        if at < end { Some(self.scanned) } else { None }
    }

    /// Whether a line of this length, with its newline, is within the limits.
    fn allows(&self, len: usize) -> bool
        requires { len < length self.now.pending }
        ensures { IsTrue result ↔ IsWithinLimits self.now.cut len }
    {
        len < LINE_LIMIT && len < INPUT_LIMIT - self.cut
    }

    /// Cuts off a line of this length, and its newline.
    fn cut_line(&mut self, len: usize)
        requires held { len < length self.old.pending }
        requires within { IsWithinLimits self.old.cut len }
        ensures line { self.new.line ≡ take len self.old.pending }
        ensures pending { self.new.pending ≡ drop (len + 1) self.old.pending }
        ensures cut { self.new.cut ≡ self.old.cut + len + 1 }
    {
        self.line_start = self.start;
        self.line_len = len;
        self.start += len + 1;
        self.held -= len + 1;
        self.scanned = 0;
        self.cut += len + 1;
    }

    /// Whether the bytes that are held are as many as a line, or the whole input, may have.
    fn is_full(&self) -> bool
        ensures { IsTrue result ↔ IsFull self.now }
    {
        self.held > 0 && (self.held >= LINE_LIMIT || self.held >= INPUT_LIMIT - self.cut)
    }

    /// Whether no byte is held.
    fn is_empty(&self) -> bool
        ensures { IsTrue result ↔ (self.now.pending ≡ []) }
    {
        self.held == 0
    }

    /// Asks the source for more bytes. No whole line may be held.
    fn fill<S: Source>(&mut self, source: &mut S) -> Got
        requires no_line { HasNoNewline self.old.pending }
        requires not_full { ¬ IsFull self.old }
        ensures line { self.new.line ≡ [] }
        ensures cut { self.new.cut ≡ self.old.cut }
        ensures adds { IfGot result (λ n.
            Adds self.old self.new n (S.left source.old) (S.left source.new)) }
        ensures end { result ≡ Got.Bytes 0 → IsAtEnd (S.left source.new) }
        ensures failed { OnGotFailed result (HasFault (S.faults source.old) (S.faults source.new)) }
        ensures kept { OnGotFailed result
            ((self.new.pending ≡ self.old.pending) × (S.left source.new ≡ S.left source.old)) }
        ensures bounded { self.new.cut + length self.new.pending ≤ INPUT_LIMIT + 1 }
        ensures faults { S.faults source.old ≤ S.faults source.new }
        ensures tells { is_some (S.left source.new) ≡ is_some (S.left source.old) }
    {
        self.line_len = 0;
        self.start = make_room(&mut self.buffer, self.start, self.held);
        let end = self.start + self.held;
        let room = (BUFFER_SIZE - end).min(INPUT_LIMIT + 1 - self.cut - self.held);
        match read_at(source, &mut self.buffer, end, end + room) {
            Got::Bytes(count) => {
                self.held += count;
                Got::Bytes(count)
            }
            Got::Failed => Got::Failed,
        }
    }
}

/// This many zeros.
fn zeros(alloc: Global, size: usize) -> Result<Vec<u8>, AllocError>
    ensures { IfOk result (λ v. vec_len v ≡ size) }
{
    vec![in alloc; 0; size]
}

/// The place of the first newline from one place up to another, or that other place.
fn first_newline(bytes: &[u8], from: usize, to: usize) -> usize
    requires order { from ≤ to }
    requires within { to ≤ length bytes.now }
    ensures low { from ≤ result }
    ensures high { result ≤ to }
    ensures passed { (k : ℕ) → from ≤ k → k < result → slice_index bytes.now k ≢ 10 }
    ensures found { result < to → slice_index bytes.now result ≡ 10 }
{
    for at in from..to {
        if bytes[at] == NEWLINE {
            return at;
        }
    }
    to
}

/// Moves the held bytes to the front of the buffer if there is no room behind them, and gives the
/// place where they stand.
fn make_room(buffer: &mut [u8], start: usize, held: usize) -> usize
    requires within { start + held ≤ length buffer.old }
    requires room { held < length buffer.old }
    ensures room { result + held < length buffer.new }
    ensures held { take held (drop result buffer.new) ≡ take held (drop start buffer.old) }
{
    if start + held < buffer.len() {
        return start;
    }
    buffer.copy_within(start..start + held, 0);
    0
}

/// Reads into a part of a buffer.
fn read_at<S: Source>(source: &mut S, buffer: &mut [u8], from: usize, to: usize) -> Got
    requires order { from < to }
    requires within { to ≤ length buffer.old }
    ensures within { IfGot result (λ n. from + n ≤ to) }
    ensures before { take from buffer.new ≡ take from buffer.old }
    ensures gives { IfGot result (λ n.
        S.left source.old ≡ before_told (take n (drop from buffer.new)) (S.left source.new)) }
    ensures end { result ≡ Got.Bytes 0 → IsAtEnd (S.left source.new) }
    ensures failed { OnGotFailed result (HasFault (S.faults source.old) (S.faults source.new)) }
    ensures kept { OnGotFailed result (S.left source.new ≡ S.left source.old) }
    ensures faults { S.faults source.old ≤ S.faults source.new }
    ensures tells { is_some (S.left source.new) ≡ is_some (S.left source.old) }
{
    source.read(&mut buffer[from..to])
}
