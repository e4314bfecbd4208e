//! The calls that make files and take them away.
//!
//! - `create`: a file is made at a name that stands for nothing. Where no brick can hold the name yet,
//!   its directory is healed first.
//! - `unlink`: a name is taken away, and the file too where that was its last.
//!
//! Under the locks of the name both drop each linkto of it that their section saw.
//!
//! Proved: each request of theirs is permitted where it is sent, and a file is asked for where no
//! brick has a linkto of its name; an answer is what the tree says at the line that it gives; they
//! learn the layout that their section read, answer the first error of a brick, and send a request
//! that has no answer again; a create that nobody disturbs heals once at most.
#![tactic(auto)]

pub mod create;
pub mod unlink;

pub use dht_section::reap::Reap;
