//! The lines of schedules, read.

use crate::tables::compare;
use dht_sched::{LineFault, read_line};
use dht_types::calls::Call;
use dht_types::events::{Directory, Event};
use std::alloc::{AllocError, Global};
use std::test::Fail;

const TABLE: &str = "
    # the event of a line, which stands between bars; the name of a call in hexadecimal digits between
    # brackets
    read |step 0| = step 0
    read |step 63| = step 63
    read |step 18446744073709551615| = step 18446744073709551615
    read |down 0| = down 0
    read |down 65536| = down 65536
    read |up 31| = up 31
    read |die 64| = die 64
    read |volume 3 0 1000 0| = volume [0, 1000, 0]
    read |remount 3 0 1000 0| = remount [0, 1000, 0]
    read |remount 1 1| = remount [1]
    read |remount 32 1 0 0 0 0 0 0 0 0 0 0 0 0 0 0 0 0 0 0 0 0 0 0 0 0 0 0 0 0 0 0 7| = \
remount [1, 0, 0, 0, 0, 0, 0, 0, 0, 0, 0, 0, 0, 0, 0, 0, 0, 0, 0, 0, 0, 0, 0, 0, 0, 0, 0, 0, 0, 0, 0, 7]
    read |call 0 lookup @ a| = call 0 lookup root [61]
    read |call 63 create @ a| = call 63 create root [61]
    read |call 2 unlink @ a| = call 2 unlink root [61]
    read |call 2 mkdir @ a| = call 2 mkdir root [61]
    read |call 2 rmdir @ a| = call 2 rmdir root [61]
    read |call 2 heal @| = call 2 heal root
    read |call 18446744073709551615 lookup @ a| = call 18446744073709551615 lookup root [61]

    # directories
    read |call 0 lookup @0 a| = call 0 lookup of 0 [61]
    read |call 0 create @1 a| = call 0 create of 1 [61]
    read |call 0 mkdir @1 a| = call 0 mkdir of 1 [61]
    read |call 0 heal @1| = call 0 heal of 1
    read |call 0 unlink @18446744073709551615 a| = call 0 unlink of 18446744073709551615 [61]
    read |call 0 create 00000000-0000-0000-0000-000000000001 a| = \
call 0 create gfid 00000000-0000-0000-0000-000000000001 [61]
    read |call 0 unlink ffffffff-ffff-ffff-ffff-ffffffffffff a| = \
call 0 unlink gfid ffffffff-ffff-ffff-ffff-ffffffffffff [61]

    read |call 0 rmdir 00000001-0000-0000-0000-000000010000 a| = \
call 0 rmdir gfid 00000001-0000-0000-0000-000000010000 [61]
    read |call 0 heal 00000001-0000-0000-0000-000000010000| = \
call 0 heal gfid 00000001-0000-0000-0000-000000010000

    # names, of whatever bytes
    read |call 0 create @ a%20%25%7f%ffz~!| = call 0 create root [6120257fff7a7e21]
    read |call 0 lookup @ %-| = call 0 lookup root []
    read |call 0 lookup @ .| = call 0 lookup root [2e]
    read |call 0 create @ ..| = call 0 create root [2e2e]
    read |call 0 unlink @ a/b| = call 0 unlink root [612f62]
    read |call 0 lookup @ %00%0a| = call 0 lookup root [000a]
    read |call 0 lookup @ @| = call 0 lookup root [40]

    # lines that are no event's
    read || = malformed
    read | | = malformed
    read |step| = malformed
    read |step | = malformed
    read |step 18446744073709551616| = malformed
    read |step -1| = malformed
    read |step 00| = malformed
    read |step +0| = malformed
    read |step 0 | = malformed
    read | step 0| = malformed
    read |step  0| = malformed
    read |step\t0| = malformed
    read |step 0 0| = malformed
    read |step @| = malformed
    read |Step 0| = malformed
    read |stop 0| = malformed
    read |down| = malformed
    read |down 01| = malformed
    read |down 0 1| = malformed
    read |up| = malformed
    read |up 0 | = malformed
    read |ups 0| = malformed
    read |die| = malformed
    read |die @| = malformed
    read |die 0 0| = malformed
    read |die 18446744073709551616| = malformed
    read |cut 0| = malformed
    read |fail 0| = malformed
    read |volume| = malformed
    read |volume 1| = malformed
    read |volume 0| = malformed
    read |volume 2 0 0| = malformed
    read |volume 2 1| = malformed
    read |volume 1 1 0| = malformed
    read |volume 1 01| = malformed
    read |volume 01 1| = malformed
    read |volume 1 1001| = malformed
    read |volume 1 65537| = malformed
    read |volume 1 18446744073709551617| = malformed
    read |volume 33 1 0 0 0 0 0 0 0 0 0 0 0 0 0 0 0 0 0 0 0 0 0 0 0 0 0 0 0 0 0 0 0 0| = malformed
    read |remount| = malformed
    read |remount 1| = malformed
    read |remount 0| = malformed
    read |remount 2 0 0| = malformed
    read |remount 2 1| = malformed
    read |remount 1 1 0| = malformed
    read |remount 1 01| = malformed
    read |remount 01 1| = malformed
    read |remount 1 1001| = malformed
    read |remount 1 65537| = malformed
    read |remount 1 1 | = malformed
    read |remounts 1 1| = malformed
    read |remount 33 1 0 0 0 0 0 0 0 0 0 0 0 0 0 0 0 0 0 0 0 0 0 0 0 0 0 0 0 0 0 0 0 0| = malformed
    read |call| = malformed
    read |call 0| = malformed
    read |call 0 create| = malformed
    read |call 0 create @| = malformed
    read |call 0 create @ | = malformed
    read |call 0 create @ a b| = malformed
    read |call 01 create @ a| = malformed
    read |call 18446744073709551616 create @ a| = malformed
    read |call 0 remove @ a| = malformed
    read |call 0 lookup @| = malformed
    read |call 0 mkdir @| = malformed
    read |call 0 rmdir @| = malformed
    read |call 0 heal @ a| = malformed
    read |call 0 heal @ | = malformed
    read |call 0 heal| = malformed
    read |call 0 heal a| = malformed
    read |call 0 heal @01| = malformed
    read |call 0 unlink @| = malformed
    read |call 0 unlink @ a b| = malformed

    # directories that no word spells so
    read |call 0 create  a| = malformed
    read |call 0 create @01 a| = malformed
    read |call 0 create @+1 a| = malformed
    read |call 0 create @-1 a| = malformed
    read |call 0 create @@ a| = malformed
    read |call 0 create @18446744073709551616 a| = malformed
    read |call 0 create 1 a| = malformed
    read |call 0 create 00000000000000000000000000000001 a| = malformed
    read |call 0 create 0000000A-0000-0000-0000-000000000001 a| = malformed
    read |call 0 create 00000000-0000-0000-0000-0000000000010 a| = malformed

    # names that no word spells so
    read |call 0 create @ %-a| = malformed
    read |call 0 create @ a%-| = malformed
    read |call 0 create @ %--| = malformed
    read |call 0 create @ %| = malformed
    read |call 0 create @ %2| = malformed
    read |call 0 create @ %61| = malformed
    read |call 0 create @ %2G| = malformed
    read |call 0 create @ %2A| = malformed
    read |call 0 create @ %ZZ| = malformed
    read |call 0 create @ a%| = malformed

    # names of so many bytes, on lines of 16 more and a newline
    long 255 = 255
    long 256 = 256
    long 16367 = 16367
    long 16368 = malformed
";

/// A directory, as a line names it.
fn directory_told(alloc: Global, directory: Directory) -> Result<String, AllocError> {
    match directory {
        Directory::Root => format!(in alloc; "root"),
        Directory::OfCall(number) => format!(in alloc; "of {number}"),
        Directory::Gfid(gfid) => {
            let text = String::from_utf8_lossy(alloc, &gfid.text())?;
            format!(in alloc; "gfid {text}")
        }
    }
}

/// A call, with its name, if it has one, in hexadecimal digits between brackets.
fn call_told(alloc: Global, call: &Call<Directory>) -> Result<String, AllocError> {
    let verb = match call {
        Call::Lookup(_, _) => "lookup",
        Call::Create(_, _) => "create",
        Call::Unlink(_, _) => "unlink",
        Call::Mkdir(_, _) => "mkdir",
        Call::Rmdir(_, _) => "rmdir",
        Call::Heal(_) => "heal",
    };
    let directory = directory_told(alloc, call.directory())?;
    match call.name() {
        Some(bytes) => {
            let name = hex::encode(alloc, bytes)?;
            format!(in alloc; "{verb} {directory} [{name}]")
        }
        None => format!(in alloc; "{verb} {directory}"),
    }
}

/// What was read of a line.
fn told(alloc: Global, read: Result<Event, LineFault>) -> Result<String, AllocError> {
    match read {
        Ok(Event::Volume(weights)) => format!(in alloc; "volume {:?}", weights.as_slice()),
        Ok(Event::Remount(weights)) => format!(in alloc; "remount {:?}", weights.as_slice()),
        Ok(Event::Call(client, call)) => {
            format!(in alloc; "call {client} {}", call_told(alloc, &call)?)
        }
        Ok(Event::Step(client)) => format!(in alloc; "step {client}"),
        Ok(Event::Down(brick)) => format!(in alloc; "down {brick}"),
        Ok(Event::Up(brick)) => format!(in alloc; "up {brick}"),
        Ok(Event::Die(client)) => format!(in alloc; "die {client}"),
        Err(LineFault::Malformed) => format!(in alloc; "malformed"),
        Err(LineFault::OutOfMemory) => Err(AllocError),
    }
}

/// The event of a line that stands between bars.
pub fn read_told(alloc: Global, words: &str) -> Result<String, AllocError> {
    let line = words.strip_prefix('|').unwrap_or(words);
    let line = line.strip_suffix('|').unwrap_or(line);
    told(alloc, read_line(alloc, line.as_bytes()))
}

/// The length of a name of so many bytes, as it is read.
pub fn long_told(alloc: Global, words: &str) -> Result<String, AllocError> {
    let mut line = b"call 0 create @ ".to_vec(alloc)?;
    for _ in 0..words.parse().unwrap_or(0u64) {
        line.push(b'n')?;
    }
    match &read_line(alloc, &line) {
        Ok(Event::Call(_, Call::Create(_, name))) => {
            format!(in alloc; "{}", name.as_slice().len())
        }
        _ => format!(in alloc; "malformed"),
    }
}

#[test]
fn lines_of_schedules(rt: HostRuntime) -> Result<(), Fail> {
    compare(&rt, TABLE)?;
    Ok(())
}
