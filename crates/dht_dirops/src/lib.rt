//! The calls that make directories and take them away.
//!
//! - `mkdir`: a directory is made at a name that stands for nothing, on each brick that has the
//!   directory above it. Where no brick can hold the name yet, the directory above is healed before.
//! - `rmdir`: a directory in which nothing stands is taken away, its copy on its home last of all.
//!   Its own lock is taken alone, beside the lock of the directory above it, which is shared.
//!
//! Proved: each request of theirs is permitted where it is sent; an answer is what the tree says at
//! the line that it gives; they learn the layout that their section read, and answer the first
//! error of a brick.
#![tactic(auto)]

pub mod mkdir;
pub mod rmdir;
