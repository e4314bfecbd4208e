//! The one call that the program makes.

ghost use Rattle.std.specs.Prelude.{◌≡◌, ◌≢◌, ◌⊎◌, ℕ, List, []};
ghost use Rattle.dht_membrick.specs.State.{mem_state};
ghost use Rattle.dht_sched.specs.Transcript.{usage_text};
ghost use Rattle.dht_types.specs.Faults.{HasFault};
ghost use Rattle.dht_run.specs.Outside.{after_told};
ghost use Rattle.dht_run.specs.Written.{TakesPrefix};
ghost use Rattle.dht_run.specs.Commands.{hash_text, layout_text, IsPrinted};
ghost use Rattle.dht_run.specs.Program.{IsReplay, IsHash, IsLayout, IsCommand, IsStatus};
ghost use Rattle.dht_run.specs.Replay.{EndsAs, IsDone, StopsAtLine, StopsAtLimit, StopsAtSource, IsCutShort, IsCutInRemount, IsWhole};
ghost use Rattle.dht_run.specs.Status.{status_of};

use crate::commands::{print_hashes, print_layout};
use crate::ending::Ending;
use crate::replay::replay;
use crate::sink::{Sink, write_all};
use crate::source::Source;
use crate::words::{Command, Word};
use dht_membrick::MemBrick;
use dht_sched::{one_line, print_usage};
use std::alloc::Global;

/// Where the bricks of a replay stand afterwards.
#[derive(Drop)]
pub struct Shelf {
    /// Bricks in memory.
    pub mem: Vec<MemBrick>,
}

/// Writes what the program can be asked for.
fn refuse<K: Sink>(alloc: Global, sink: &mut K) -> Ending
    ensures ending { (result ≡ Ending.Usage)
        ⊎ ((result ≡ Ending.SinkFailed) ⊎ (result ≡ Ending.OutOfMemory)) }
    ensures written { result ≡ Ending.Usage
        → K.taken sink.new ≡ after_told (K.taken sink.old) usage_text }
    ensures sink { result ≡ Ending.SinkFailed → HasFault (K.faults sink.old) (K.faults sink.new) }
    ensures prefix { TakesPrefix (K.taken sink.old) usage_text (K.taken sink.new) }
{
    let mut text = Vec::new(alloc);
    if print_usage(&mut text).is_err() {
        return Ending::OutOfMemory;
    }
    match write_all(sink, &text) {
        Ok(()) => Ending::Usage,
        Err(_) => Ending::SinkFailed,
    }
}

/// Does what the words say, over this source and this sink, and says how that ended.
fn obey<S: Source, K: Sink>(
    alloc: Global,
    words: &[Word],
    source: &mut S,
    sink: &mut K,
    shelf: &mut Shelf,
) -> Ending
    requires empty { shelf.old.mem.items ≡ [] }
    ensures replay { IsReplay words.now
        → EndsAs mem_state shelf.new.mem.items (S.left source.old) (S.left source.new)
        (K.taken sink.old) (K.taken sink.new) result }
    ensures hash { (names : List (List ℕ)) → IsHash words.now names
        → IsPrinted (hash_text names) (K.taken sink.old) (K.taken sink.new) (status_of result) }
    ensures layout { (weights : List ℕ) → IsLayout words.now weights
        → IsPrinted (layout_text weights) (K.taken sink.old) (K.taken sink.new)
        (status_of result) }
    ensures unread { ¬ IsReplay words.now → source.new ≡ source.old }
    ensures unused { ¬ IsReplay words.now → shelf.new.mem.items ≡ [] }
    ensures usage { result ≡ Ending.Usage → ¬ IsCommand words.now }
    ensures usage_written { result ≡ Ending.Usage
        → K.taken sink.new ≡ after_told (K.taken sink.old) usage_text }
    ensures no_command { ¬ IsCommand words.now → (result ≡ Ending.Usage)
        ⊎ ((result ≡ Ending.SinkFailed) ⊎ (result ≡ Ending.OutOfMemory)) }
    ensures usage_prefix { ¬ IsCommand words.now
        → TakesPrefix (K.taken sink.old) usage_text (K.taken sink.new) }
    ensures source { result ≡ Ending.SourceFailed
        → HasFault (S.faults source.old) (S.faults source.new) }
    ensures sink { result ≡ Ending.SinkFailed → HasFault (K.faults sink.old) (K.faults sink.new) }
{
    match Command::of(alloc, words) {
        Ok(Some(Command::Replay)) => replay(alloc, source, sink, &mut shelf.mem),
        Ok(Some(Command::Hash(names))) => print_hashes(alloc, names, sink),
        Ok(Some(Command::Layout(weights))) => print_layout(alloc, &weights, sink),
        Ok(None) => refuse(alloc, sink),
        Err(_) => Ending::OutOfMemory,
    }
}

/// Does what the words say, over this source and this sink, and gives the program's status. For the
/// word `replay` it replays the schedule that the source gives, over new bricks that stand on the
/// shelf afterwards. For `hash` and names it prints the hash of each name, and for `layout` and
/// weights the planned range of each brick for the root directory of a volume of these weights.
///
/// Status 0: the source's text was carried out whole, or all was printed. 2: the words are no
/// command. 3: an invalid line was reached. 4: the source failed. 5: the sink failed. 6: memory ran
/// out. 7: the run had all its steps, 200,000, and one more came.
pub fn run<S: Source, K: Sink>(
    alloc: Global,
    words: &[Word],
    source: &mut S,
    sink: &mut K,
    shelf: &mut Shelf,
) -> u8
    requires empty { shelf.old.mem.items ≡ [] }

    // The headline, by the status of a replay.
    ensures whole { IsReplay words.now → result ≡ 0
        → IsDone mem_state shelf.new.mem.items (S.left source.old) (S.left source.new)
        (K.taken sink.old) (K.taken sink.new) }
    ensures malformed { IsReplay words.now → result ≡ 3
        → StopsAtLine mem_state shelf.new.mem.items (S.left source.old)
        (K.taken sink.old) (K.taken sink.new) }
    ensures source_failed { IsReplay words.now → result ≡ 4
        → StopsAtSource mem_state shelf.new.mem.items (S.left source.old) (S.left source.new)
        (K.taken sink.old) (K.taken sink.new) }
    ensures limit { IsReplay words.now → result ≡ 7
        → StopsAtLimit mem_state shelf.new.mem.items (S.left source.old)
        (K.taken sink.old) (K.taken sink.new) }
    ensures cut_short { IsReplay words.now → result ≡ 5
        → IsCutShort mem_state shelf.new.mem.items (S.left source.old)
        (K.taken sink.old) (K.taken sink.new) }
    ensures out_of_memory { IsReplay words.now → result ≡ 6
        → IsCutShort mem_state shelf.new.mem.items (S.left source.old)
        (K.taken sink.old) (K.taken sink.new)
        ⊎ IsCutInRemount mem_state shelf.new.mem.items (S.left source.old)
        (K.taken sink.old) (K.taken sink.new) }

    // A text that is a schedule's whole is not refused.
    ensures complete { IsReplay words.now → IsWhole (S.left source.old) → result ≢ 3 }

    // The other commands print, and leave the source and the shelf as they are.
    ensures hash { (names : List (List ℕ)) → IsHash words.now names
        → IsPrinted (hash_text names) (K.taken sink.old) (K.taken sink.new) result }
    ensures layout { (weights : List ℕ) → IsLayout words.now weights
        → IsPrinted (layout_text weights) (K.taken sink.old) (K.taken sink.new) result }
    ensures unread { ¬ IsReplay words.now → source.new ≡ source.old }
    ensures unused { ¬ IsReplay words.now → shelf.new.mem.items ≡ [] }

    // The causes of the statuses.
    ensures status { IsStatus result }
    ensures usage { result ≡ 2 → ¬ IsCommand words.now }
    ensures no_command { ¬ IsCommand words.now → (result ≡ 2) ⊎ ((result ≡ 5) ⊎ (result ≡ 6)) }
    ensures usage_written { result ≡ 2
        → K.taken sink.new ≡ after_told (K.taken sink.old) usage_text }
    ensures usage_prefix { ¬ IsCommand words.now
        → TakesPrefix (K.taken sink.old) usage_text (K.taken sink.new) }
    ensures source_cause { result ≡ 4 → HasFault (S.faults source.old) (S.faults source.new) }
    ensures sink_cause { result ≡ 5 → HasFault (K.faults sink.old) (K.faults sink.new) }
{
    one_line();
    obey(alloc, words, source, sink, shelf).status()
}
