//! The lines of calls in a schedule, read.

ghost use Rattle.std.specs.Prelude.{◌≡◌, ◌≢◌, ◌<◌, ◌^◌, ◌∷◌, [], None, Some, codes, decimal};
ghost use Rattle.dht_sched.specs.Reading.{Reads, ReadsFirst, ReadsUnless};
ghost use Rattle.dht_sched.specs.Schedule.{directory_word, schedule_words, IsCallOf, IsShort, IsScheduledDirectory, IsScheduled};
ghost use Rattle.dht_sched.specs.Spelling.{HasBytes, name_words, spaced};

use crate::fault::LineFault;
use crate::names::read_name;
use crate::words::{Words, number};
use dht_types::bytes::Bytes;
use dht_types::calls::Call;
use dht_types::events::{Directory, Event};
use dht_types::identifiers::Gfid;
use std::alloc::Global;

/// The directory of a word: `@` is the root, `@` and a number is what the call of that number
/// answered, and any other is a gfid.
fn read_directory(word: &[u8]) -> Option<Directory>
    ensures { Reads directory_word IsScheduledDirectory word.now result }
{
    let (first, rest) = word.split_first()?;
    if *first != b'@' {
        return Some(Directory::Gfid(Gfid::parse(word)?));
    }
    if rest.is_empty() {
        return Some(Directory::Root);
    }
    Some(Directory::OfCall(number(rest)?))
}

/// The number of the next word.
fn next_number(words: &mut Words<'_>) -> Result<u64, LineFault>
    ensures { ReadsFirst decimal (λ n. n < 2 ^ 64) words.old words.new result }
{
    let Some(word) = words.next() else {
        return Err(LineFault::Malformed);
    };
    number(word).ok_or(LineFault::Malformed)
}

/// The directory of the next word.
fn next_directory(words: &mut Words<'_>) -> Result<Directory, LineFault>
    ensures { ReadsFirst directory_word IsScheduledDirectory words.old words.new result }
{
    let Some(word) = words.next() else {
        return Err(LineFault::Malformed);
    };
    read_directory(word).ok_or(LineFault::Malformed)
}

/// The name of the last word, or none where no word is left.
fn last_name(alloc: Global, mut words: Words<'_>) -> Result<Option<Bytes>, LineFault>
    ensures { ReadsUnless name_words HasBytes words.entry result }
{
    let Some(word) = words.next() else {
        return Ok(None);
    };
    let name = read_name(alloc, word)?;
    if words.next().is_some() {
        return Err(LineFault::Malformed);
    }
    Ok(Some(name))
}

/// The call of a verb that takes a name, where there is such a verb.
fn call_with_name(verb: &[u8], directory: Directory, name: Bytes) -> Option<Call<Directory>>
    ensures { IsCallOf verb.now directory (Some name) result }
{
    match verb {
        b"lookup" => Some(Call::Lookup(directory, name)),
        b"create" => Some(Call::Create(directory, name)),
        b"mkdir" => Some(Call::Mkdir(directory, name)),
        b"unlink" => Some(Call::Unlink(directory, name)),
        b"rmdir" => Some(Call::Rmdir(directory, name)),
        _ => None,
    }
}

/// The call of a verb that takes no name, where there is such a verb.
fn call_without_name(verb: &[u8], directory: Directory) -> Option<Call<Directory>>
    ensures { IsCallOf verb.now directory None result }
{
    match verb {
        b"heal" => Some(Call::Heal(directory)),
        _ => None,
    }
}

/// The call of a verb and of what it takes, where there is such a verb.
fn call_of(verb: &[u8], directory: Directory, name: Option<Bytes>) -> Option<Call<Directory>>
    ensures { IsCallOf verb.now directory name result }
{
    match name {
        Some(name) => call_with_name(verb, directory, name),
        None => call_without_name(verb, directory),
    }
}

/// The event of a line that begins with `call`, by its other words.
pub fn read_call(alloc: Global, mut words: Words<'_>) -> Result<Event, LineFault>
    requires { IsShort (spaced (codes "call" ∷ words)) }
    ensures { ReadsUnless schedule_words IsScheduled (codes "call" ∷ words.entry) result }
{
    let client = next_number(&mut words)?;
    let Some(verb) = words.next() else {
        return Err(LineFault::Malformed);
    };
    let directory = next_directory(&mut words)?;
    let name = last_name(alloc, words)?;
    let Some(call) = call_of(verb, directory, name) else {
        return Err(LineFault::Malformed);
    };
    Ok(Event::Call(client, call))
}
