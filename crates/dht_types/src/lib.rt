//! What the volume speaks of: gfids and names, calls and their answers, what bricks store, the
//! events of a schedule and the lines of a transcript. `specs/` says what a tree is, what it says
//! to a call, what the lines of a transcript tell, and when a transcript is legal.
#![tactic(auto)]

pub mod bytes;
pub mod calls;
pub mod errors;
pub mod events;
pub mod identifiers;
pub mod layouts;
pub mod lines;
pub mod linktos;
pub mod locks;
pub mod names;
pub mod saved;
pub mod stored;
pub mod volumes;
