//! The world: all bricks and 64 clients, run by the events of a schedule. After every event the
//! lines that were written are legal, follow from the events, agree with the bricks' journals, and
//! the bricks stand for the lines' tree.
#![tactic(auto)]

mod answers;
mod events;
mod notes;
mod places;
mod remount;
mod stop;

pub use events::World;
pub use places::Place;
pub use stop::Stop;
