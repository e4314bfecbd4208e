//! dhtvol: a distributed file volume that spreads whole files over bricks by name.
//!
//! The program hands the words of the command line, the standard input and the standard output to
//! `dht_run`, and ends with the status that it gives. What a run does is proved there; here are its
//! tests, over data.
#![tactic(auto)]

use dht_run::run::{Shelf, run};
use dht_run::sink::StdSink;
use dht_run::source::StdSource;
use dht_run::words::Word;
use std::alloc::{AllocError, Global};
use std::process::ExitCode;
use std::rt::Env;

/// The words of the command line, without the program's name.
fn words_of<R: Env + Alloc<A = Global>>(rt: &R) -> Result<Vec<Word>, AllocError> {
    let alloc = rt.alloc();
    let mut words = Vec::new(alloc);
    let Ok(args) = std::env::args(rt) else {
        return Ok(words);
    };
    for arg in args.skip(1) {
        words.push(Word::new(alloc, arg.as_str().as_bytes())?)?;
    }
    Ok(words)
}

fn main(rt: HostRuntime) -> ExitCode {
    let alloc = rt.alloc();
    let Ok(words) = words_of(&rt) else {
        return ExitCode::from(6);
    };
    let mut source = StdSource::new(rt.stdin());
    let mut sink = StdSink::new(rt.stdout());
    let mut shelf = Shelf {
        mem: Vec::new(alloc),
    };
    let status = run(alloc, &words, &mut source, &mut sink, &mut shelf);
    ExitCode::from(status)
}

#[cfg(test)]
mod tests;
