//! What no contract says of a lookup in one piece: that over bricks in memory it finds a file that
//! stands away from its name's holder, with how many requests, and what then stands at the name.
#![tactic(auto)]

#[cfg(test)]
mod bricks;
#[cfg(test)]
mod lookups;
