//! A run of the program over any source and any sink: the words of the command line, the replay of
//! a schedule over bricks in memory, and the commands that print.
//!
//! - `words`: what the words ask for
//! - `run`: the one call that the program makes, and the bricks that it leaves
//! - `bricks`: new bricks, those of a volume line and those that come in a remount
//! - `replay`: the loop over the events of a schedule, and what is written of them
//! - `commands`, `layouts`: hashes and layouts, printed
//! - `line_reader`: the lines of a source
//! - `source`, `sink`, `faults`: the outside, in memory and over std
//! - `ending`: how a run ends, and its status
//!
//! The contract of `run::run` is the headline. No clause says what the host's input and output do,
//! nor that memory ran out where a run says so.
#![tactic(auto)]

pub mod bricks;
pub mod commands;
pub mod ending;
pub mod faults;
pub mod layouts;
pub mod line_reader;
pub mod replay;
pub mod run;
pub mod sink;
pub mod source;
pub mod words;
