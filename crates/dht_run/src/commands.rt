//! The commands that print something and read nothing.

ghost use Rattle.std.specs.Prelude.{◌≡◌, All, IfOk, IfSome};
ghost use Rattle.dht_sched.specs.Schedule.{IsScheduledVolume};
ghost use Rattle.dht_xattr.specs.Plan.{IsPlanned};
ghost use Rattle.dht_run.specs.Commands.{hash_text, ranges_text, layout_text, IsPrinted};
ghost use Rattle.dht_types.specs.Faults.{HasFault};
ghost use Rattle.dht_run.specs.Status.{status_of};

use crate::ending::Ending;
use crate::layouts::{root_layout, value_of};
use crate::sink::{Sink, write_all};
use crate::words::Word;
use dht_hash::dm_hash;
use dht_sched::{print_hash, print_range};
use dht_types::identifiers::BrickNo;
use dht_types::volumes::Weights;
use dht_xattr::layout::Layout;
use std::alloc::{AllocError, Global};

/// Writes a text, all of it or a prefix of it.
fn write_text<K: Sink>(sink: &mut K, text: &[u8]) -> Ending
    ensures printed { IsPrinted text.now (K.taken sink.old) (K.taken sink.new) (status_of result) }
    ensures sink { result ≡ Ending.SinkFailed → HasFault (K.faults sink.old) (K.faults sink.new) }
{
    match write_all(sink, text) {
        Ok(()) => Ending::Done,
        Err(_) => Ending::SinkFailed,
    }
}

/// The hash of each name, a line each.
fn hashes(alloc: Global, names: &[Word]) -> Result<Vec<u8>, AllocError>
    ensures { IfOk result (λ text. text.items ≡ hash_text names.now) }
{
    let mut text = Vec::new(alloc);
    for name in names {
        let bytes = name.as_bytes();
        print_hash(dm_hash(bytes), bytes, &mut text)?;
    }
    Ok(text)
}

/// Prints the hash of each name, a line each.
pub fn print_hashes<K: Sink>(alloc: Global, names: &[Word], sink: &mut K) -> Ending
    ensures printed { IsPrinted (hash_text names.now) (K.taken sink.old) (K.taken sink.new)
        (status_of result) }
    ensures sink { result ≡ Ending.SinkFailed → HasFault (K.faults sink.old) (K.faults sink.new) }
{
    match hashes(alloc, names) {
        Ok(text) => write_text(sink, &text),
        Err(_) => Ending::OutOfMemory,
    }
}

/// The range of each brick, a line each.
fn ranges(alloc: Global, layout: &Layout) -> Result<Vec<u8>, AllocError>
    requires { All (λ range. IfSome range IsPlanned) layout.now }
    ensures { IfOk result (λ text. text.items ≡ ranges_text 0 layout.now) }
{
    let mut text = Vec::new(alloc);
    for (brick, range) in layout.as_slice().iter().enumerate() {
        let value = value_of(alloc, range)?;
        print_range(BrickNo(brick as u16), &value, &mut text)?;
    }
    Ok(text)
}

/// Prints the planned range of each brick for the root directory of a volume of these weights, a
/// line each.
pub fn print_layout<K: Sink>(alloc: Global, weights: &Weights, sink: &mut K) -> Ending
    requires { IsScheduledVolume weights.now }
    ensures printed { IsPrinted (layout_text weights.now) (K.taken sink.old) (K.taken sink.new)
        (status_of result) }
    ensures sink { result ≡ Ending.SinkFailed → HasFault (K.faults sink.old) (K.faults sink.new) }
{
    let Ok(layout) = root_layout(alloc, weights) else {
        return Ending::OutOfMemory;
    };
    match ranges(alloc, &layout) {
        Ok(text) => write_text(sink, &text),
        Err(_) => Ending::OutOfMemory,
    }
}
