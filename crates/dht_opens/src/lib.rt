//! The registrations and seals of a brick, in memory.
#![tactic(auto)]

mod registrations;

pub use registrations::{OpenFault, Opens, SealFault};
