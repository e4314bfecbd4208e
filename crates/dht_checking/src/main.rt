//! dht_checking: a second reading of the definitions of right transcripts. It goes through all
//! lines of a transcript for each thing that the definitions `Legal`, `ComesFrom`, `InTime` and
//! `Logged` speak of, and names the first line that is wrong and the definition that forbids it.
//! Each definition is one function, written from the definition and not from the program that
//! prints transcripts. That they are the same is not proved.
//!
//! The standard input has blocks of lines, with an empty line between two of them. A line of the
//! standard output tells what comes of each block but the remarks.
//!
//! | first line of the block | what follows |
//! |---|---|
//! | `case NAME` | the lines of a schedule; the line `transcript` and the lines of its transcript; and perhaps the line `journals` and entries |
//! | `change NAME` | changes of the last case above that begins with `case` |
//! | `# ...` | a remark |
//!
//! The lines of schedule and transcript are spelled as `dhtvol` reads and prints them. What stands in
//! a transcript from its first line `brick ...` on is the dump of the bricks, and is not looked at. An
//! entry is spelled
//! `entry CALL CLIENT BRICK REQUEST REPLY DIRECTORY NAME`, each brick's entries in their order, with
//! the name `%-` where the request names none; where a case has no entry, nothing is asked of
//! journals. A change is one of
//!
//!     transcript put N LINE     the N-th line of the transcript, from 1, is this one
//!     transcript add N LINE     before the N-th line there is this one
//!     transcript drop N         the N-th line is left out
//!
//! or the same of `journals`, and each finds the lines as the one above it leaves them. What comes
//! of a case is spelled
//!
//!     NAME: right
//!     NAME: line N: DEFINITION                    the N-th line is the first that is wrong
//!     NAME: line N: no line of a transcript       and the lines before it may stand there
//!     NAME: event N: no line of a schedule
//!     NAME: entry N: no entry of a journal
//!     NAME: change N: no change of the case
//!
//! Where a line is missing at the end, N is one more than there are lines. So
//!
//!     (echo case S; cat S; echo transcript; ../../dhtvol replay < S) | rt run
//!
//! checks what the program prints for the schedule in the file S.
#![tactic(auto)]

mod cases;
mod following;
mod history;
mod journals;
mod kinds;
mod legal;
mod reading;
mod trees;
mod verdict;

use cases::Case;
use std::io;

fn main(rt: HostRuntime) -> io::Result<()> {
    let alloc = rt.alloc();
    let text = io::read_to_string(alloc, rt.stdin())?;
    let mut case = Case::of(alloc, &[])?;
    for block in text.as_str().split("\n\n") {
        let lines: Vec<&str> = block.split_terminator('\n').collect(alloc)?;
        let Some((first, rest)) = lines.as_slice().split_first() else {
            continue;
        };
        match first.split_once(' ') {
            Some(("case", name)) => {
                case = Case::of(alloc, rest)?;
                let verdict = case.verdict(alloc)?;
                println!(rt; "{name}: {verdict}")?;
            }
            Some(("change", name)) => {
                let verdict = case.changed(alloc, rest)?;
                println!(rt; "{name}: {verdict}")?;
            }
            Some(("#", _)) => {}
            _ => println!(rt; "{first}: no case")?,
        }
    }
    Ok(())
}
