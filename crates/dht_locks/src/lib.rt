//! The locks that clients hold on a brick, in memory.
//!
//! - `holds`: which lock is held by whom, and who has to wait for whom.
//!
//! They stand in a map ordered by key and client, so that one lock is asked for among the holds of
//! its own key alone, in the order of the clients.
//!
//! Proved: a lock is waited for exactly where another client holds it in a mode that excludes the
//! one asked for, and the lowest such client is named; what is not granted changes nothing; a lock
//! that is freed, the locks of a client that died, and all locks at a remount are gone, and nothing
//! else is, and this takes no memory. Not said here: that a client which waits asks again, or is
//! ever granted the lock; that is of the clients' programs.
#![tactic(auto)]

mod holds;

pub use holds::{Asked, Locks};
