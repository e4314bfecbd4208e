//! The invariant of the volume: permitted requests, claims, lines and deaths keep it, and are to
//! every other client what others may do; a request leaves each of its clauses that is on a thing
//! that the request does not name; new bricks meet it; a remount keeps it; and it implies that
//! the bricks stand for the tree, and that each file's name is placed in the first run. Nothing
//! here runs.
#![tactic(auto)]

pub mod laws;
