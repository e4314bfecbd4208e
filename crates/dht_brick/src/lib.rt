//! A brick: what it contains, what each request does to it, and the journal of its requests. A
//! brick is a trait here; other crates keep what it contains.
#![tactic(auto)]

pub mod brick;
pub mod census;
pub mod files;
pub mod journal;
pub mod laws;
pub mod opens;
pub mod order;
pub mod pokes;
pub mod replies;
pub mod requests;
pub mod shapes;
pub mod shown;
pub mod slots;
