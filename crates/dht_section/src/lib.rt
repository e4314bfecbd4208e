//! What the program of a call may know of the bricks, ask of them and rely on; and the section, the
//! guarded part of a call.
#![tactic(auto)]

pub mod caller;
pub mod closing;
pub mod ended;
pub mod finish;
pub mod location;
pub mod looks;
pub mod machine;
pub mod origin;
pub mod pairs;
pub mod reap;
pub mod release;
pub mod replies;
pub mod section;
pub mod sweep;
pub mod want;
