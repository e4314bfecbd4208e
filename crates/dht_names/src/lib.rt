//! The directory records and slots of a brick, in memory.
#![tactic(auto)]

mod brick_tables;
mod changes;
mod counts;
mod dirs;
mod kept;
mod looks;
mod pokes;
mod saving;
mod serve;
mod slot_map;
mod slots;

pub use brick_tables::Tables;
