//! The file records of a brick in memory. What a request does to a record is decided first by the
//! table of dht_guard, and then by the request's own further conditions.
#![tactic(auto)]

mod bytes;
mod copies;
mod moves;
mod reads;
mod records;
mod saving;
mod serve;
mod shown;
mod writes;

pub use records::Files;
