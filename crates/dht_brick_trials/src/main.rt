//! Trials of a brick: reads a script from the standard input, and prints each line with the answer
//! that it had. A script's lines are requests to a brick and events of it, in words, so that tables
//! of what a brick has to reply are text. The first lines of the crate's `stdin` say which lines
//! there are.
#![tactic(auto)]

mod bench;
mod brick;
mod fault;
mod parts;
mod records;
mod requests;
mod script;
mod stored;
mod told;
mod words;

use script::Script;
use std::io;

fn main(rt: HostRuntime) -> io::Result<()> {
    let mut script = Script::new(rt.alloc());
    for line in rt.lines(rt.alloc()) {
        let answered = script.answered(line?.as_str())?;
        println!(rt; "{answered}")?;
    }
    Ok(())
}
