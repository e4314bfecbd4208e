//! What no contract says of the crates below the bricks, and of the texts of lines: that known
//! answers come out. The tables are text, a line for each ask with its answer.
#![tactic(auto)]

#[cfg(test)]
mod events;
#[cfg(test)]
mod guard;
#[cfg(test)]
mod journal;
#[cfg(test)]
mod layouts;
#[cfg(test)]
mod lines;
#[cfg(test)]
mod tables;
#[cfg(test)]
mod values;
