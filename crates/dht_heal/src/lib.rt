//! Directories are healed: where a brick has no copy of a directory, or no brick holds some hash of
//! its names, that is mended.
//!
//! - `heal_one`: one directory gets a copy on each brick, and a layout.
//! - `room`: the memory of a heal.
//! - `heal`: a directory is healed, after those above it, from the root down.
//! - `call`: the call that heals a directory.
//! - `restart`: a section gives its locks back, its directory is healed, and it may begin anew.
//!
//! Proved: each request of theirs is permitted where it is sent; a call that was alone leaves the
//! directory, and each above it, with a copy on each brick and each hash in one range; its answer
//! is what the tree says at the line that it gives; the first error of a brick is noted, and a
//! request that has no answer is sent again.
#![tactic(auto)]

pub mod call;
pub mod heal;
pub mod heal_one;
pub mod restart;
pub mod room;
