//! A brick in memory, joined of its tables: the directory records and slots, the file records, the
//! registrations and seals, the locks, and the journal.
#![tactic(auto)]

mod brick;
mod newborn;
mod parts;
mod serve;

pub use brick::MemBrick;
